//! How many records the frames of a capture have.
ghost use Rattle.std.specs.Prelude.{◌≡◌, ◌-◌, ◌<◌, ◌^◌, ◌∷◌, ◌++◌, List, [], OnOk};
ghost use Rattle.media_file.specs.Records.{Entry};
ghost use Rattle.paced_export.specs.Counts.{AddsOne, AddsTo, Counts, counted, counted_in};
ghost use Rattle.paced_export.specs.Pacing.{timestamp_in};

use st_format::Path;
use std::alloc::{AllocError, Allocator};
use std::collections::BTreeMap;

/// How many records of each path have each timestamp, and which is the first timestamp. A sender
/// chooses the timestamps, so they lie in trees, which no choice makes slow.
#[derive(Drop)]
pub(crate) struct FrameCounts<A: Allocator> {
    pub(crate) first: Option<u32>,
    pub(crate) a: BTreeMap<u32, u64, A>,
    pub(crate) b: BTreeMap<u32, u64, A>,
}

impl<A: Allocator + Copy> FrameCounts<A> {
    /// The counts of no records, which take no memory.
    pub(crate) fn new(alloc: A) -> FrameCounts<A>
        ensures { Counts result [] }
    {
        FrameCounts {
            first: None,
            a: BTreeMap::new(alloc),
            b: BTreeMap::new(alloc),
        }
    }

    /// How many records of a path have this timestamp; 0 where none was counted.
    pub(crate) fn count(&self, path: Path, timestamp: u32) -> u64
        ensures { result ≡ counted self.now path timestamp }
    {
        match path {
            Path::A => count_in(&self.a, timestamp),
            Path::B => count_in(&self.b, timestamp),
        }
    }

    /// Counts one record more, of a path and with a timestamp.
    ///
    /// # Errors
    ///
    /// That memory was wanted.
    pub(crate) fn add(&mut self, path: Path, timestamp: u32) -> Result<(), AllocError>
        requires { counted self.old path timestamp < 2 ^ 64 - 1 }
        ensures { OnOk result ((entries : List Entry) (e : Entry) → e.path ≡ path
            → timestamp_in e.octets ≡ timestamp → Counts self.old entries
            → Counts self.new (entries ++ e ∷ [])) }
    {
        self.add_count(path, timestamp)?;
        self.first = Some(self.first.unwrap_or(timestamp));
        Ok(())
    }

    fn add_count(&mut self, path: Path, timestamp: u32) -> Result<(), AllocError>
        requires { counted self.old path timestamp < 2 ^ 64 - 1 }
        ensures { OnOk result (AddsTo self.old self.new path timestamp) }
    {
        match path {
            Path::A => add_to(&mut self.a, timestamp),
            Path::B => add_to(&mut self.b, timestamp),
        }
    }
}

/// The count of a timestamp, 0 where none was counted.
fn count_in<A: Allocator>(counts: &BTreeMap<u32, u64, A>, timestamp: u32) -> u64
    ensures { result ≡ counted_in counts.now timestamp }
{
    counts.get(&timestamp).copied().unwrap_or(0)
}

/// Counts one more of a timestamp; an `Err` where the memory for a first one was refused.
fn add_to<A: Allocator + Copy>(
    counts: &mut BTreeMap<u32, u64, A>,
    timestamp: u32,
) -> Result<(), AllocError>
    requires { counted_in counts.old timestamp < 2 ^ 64 - 1 }
    ensures { OnOk result (AddsOne counts.old counts.new timestamp) }
{
    let count = count_in(counts, timestamp);
    counts.insert(timestamp, count + 1)?;
    Ok(())
}
