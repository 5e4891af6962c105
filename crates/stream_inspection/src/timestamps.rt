//! What is told of timestamps.
ghost use Rattle.std.specs.Prelude.{◌≡◌, ◌++◌, ◌∷◌, [], ℕ, List, IfOk, OnOk, take};
ghost use Rattle.recording_counts.specs.declared.timestamp.TimestampCount.{TimestampCount as Count};
ghost use Rattle.stream_inspection.specs.Arrivals.{Arrival};
ghost use Rattle.stream_inspection.specs.Skews.{AreProbes};
ghost use Rattle.stream_inspection.specs.Timestamps.{AreLasts, ticks_behind};
ghost use Rattle.stream_inspection.specs.Timestamps.{timestamp_line, timestamps_behind};
ghost use Rattle.stream_inspection.specs.Timestamps.{timestamps_text};
ghost use Rattle.stream_inspection.specs.Timestamps.{window_of};
ghost use Rattle.window_finding.specs.First.{distinct};

use crate::headings::timestamps_heading;
use crate::probes::ProbeTable;
use crate::rows::{Row, TimestampRow};
use crate::text::{Form, put_heading, put_row};
use path_receiver::MOST_TIMESTAMPS;
use recording_counts::{StreamKey, TimestampCount};
use std::alloc::{AllocError, Allocator};
use std::collections::BTreeMap;

/// Of each stream the last of the timestamps so far.
#[derive(Drop)]
struct Lasts<A: Allocator> {
    timestamps: BTreeMap<StreamKey, u32, A>,
}

impl<A: Allocator + Copy> Lasts<A> {
    /// Of no timestamps.
    fn new(alloc: A) -> Lasts<A>
        ensures { AreLasts result [] }
    {
        Lasts {
            timestamps: BTreeMap::new(alloc),
        }
    }

    /// How many ticks a timestamp is behind the last one of its stream, if there is one, modulo
    /// 2^32.
    fn ticks(&self, count: &TimestampCount) -> Option<u64>
        ensures { (front : List Count) → AreLasts self.now front
            → result ≡ ticks_behind front count.now }
    {
        match self.timestamps.get(&count.key.stream) {
            Some(last) => Some(u64::from(count.key.timestamp.wrapping_sub(*last))),
            None => None,
        }
    }

    /// Takes a timestamp as the last of its stream.
    fn add(&mut self, count: &TimestampCount) -> Result<(), AllocError>
        ensures { OnOk result ((front : List Count) → AreLasts self.old front
            → AreLasts self.new (front ++ count.now ∷ [])) }
    {
        self.timestamps
            .insert(count.key.stream, count.key.timestamp)?;
        Ok(())
    }
}

/// Puts what is told of timestamps behind a heading.
pub(crate) fn put_timestamps<A: Allocator + Copy>(
    alloc: A,
    text: &mut Vec<u8, A>,
    form: Form,
    payload_type: u8,
    counts: &[TimestampCount],
    probes: &ProbeTable<A>,
) -> Result<(), AllocError>
    ensures { OnOk result ((arrivals : List Arrival) → AreProbes probes.now arrivals
        → text.new.items ≡ text.old.items ++ timestamps_text form payload_type arrivals
        counts.now) }
{
    put_heading(text, form, timestamps_heading(payload_type))?;
    put_all(alloc, text, form, counts, probes)
}

/// Puts the rows of timestamps, each after those that its ticks are counted from.
fn put_all<A: Allocator + Copy>(
    alloc: A,
    text: &mut Vec<u8, A>,
    form: Form,
    counts: &[TimestampCount],
    probes: &ProbeTable<A>,
) -> Result<(), AllocError>
    ensures { OnOk result ((arrivals : List Arrival) → AreProbes probes.now arrivals
        → text.new.items ≡ text.old.items ++ timestamps_behind form arrivals [] counts.now) }
{
    let mut lasts = Lasts::new(alloc);
    for count in counts {
        put_next(text, form, count, &mut lasts, probes)?;
    }
    Ok(())
}

/// Puts the row of a timestamp, and takes it as the last of its stream.
fn put_next<A: Allocator + Copy>(
    text: &mut Vec<u8, A>,
    form: Form,
    count: &TimestampCount,
    lasts: &mut Lasts<A>,
    probes: &ProbeTable<A>,
) -> Result<(), AllocError>
    ensures lasts { OnOk result ((front : List Count) → AreLasts lasts.old front
        → AreLasts lasts.new (front ++ count.now ∷ [])) }
    ensures printed { OnOk result ((arrivals : List Arrival) (front : List Count)
        → AreProbes probes.now arrivals → AreLasts lasts.old front
        → text.new.items ≡ text.old.items ++ timestamp_line form arrivals front count.now) }
{
    put_one(text, form, count, lasts, probes)?;
    lasts.add(count)
}

/// Puts the row of a timestamp, with its ticks and its skew where these are known.
fn put_one<A: Allocator + Copy>(
    text: &mut Vec<u8, A>,
    form: Form,
    count: &TimestampCount,
    lasts: &Lasts<A>,
    probes: &ProbeTable<A>,
) -> Result<(), AllocError>
    ensures { OnOk result ((arrivals : List Arrival) (front : List Count)
        → AreProbes probes.now arrivals → AreLasts lasts.now front
        → text.new.items ≡ text.old.items ++ timestamp_line form arrivals front count.now) }
{
    put_row(
        text,
        form,
        Row::Timestamp(TimestampRow {
            key: count.key,
            by_a: count.by_a,
            by_b: count.by_b,
            marker: count.marker,
            ticks: lasts.ticks(count),
            skew: probes.skew(&count.key),
        }),
    )
}

/// The first different timestamps, at most sixteen.
pub(crate) fn window_of<A: Allocator>(
    alloc: A,
    counts: &[TimestampCount],
) -> Result<Vec<u32, A>, AllocError>
    ensures { IfOk result (λ window. window.items ≡ window_of counts.now) }
{
    let mut window = Vec::new(alloc);
    for count in counts {
        add(&mut window, count.key.timestamp)?;
    }
    Ok(window)
}

/// Adds a timestamp to a window that hasn't it and has room.
fn add<A: Allocator>(window: &mut Vec<u32, A>, timestamp: u32) -> Result<(), AllocError>
    ensures { OnOk result ((earlier : List ℕ) → window.old.items ≡ take 16 (distinct earlier)
        → window.new.items ≡ take 16 (distinct (earlier ++ timestamp ∷ []))) }
{
    if window.len() >= MOST_TIMESTAMPS {
        return Ok(());
    }
    if window.contains(&timestamp) {
        return Ok(());
    }
    window.push(timestamp)?;
    Ok(())
}
