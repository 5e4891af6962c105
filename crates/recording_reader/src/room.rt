//! The datagram that was found last, and the room where its octets lie.
ghost use Rattle.std.proofs.Props.{props};
ghost use Rattle.std.specs.Prelude.{◌≡◌, ◌≤◌, ◌-◌, None, length, vec_len};
ghost use Rattle.std.specs.Prelude.{IfErr, IfOk, IfSome, OnErr, OnOk};
ghost use Rattle.std.specs.Option.{option_map};
ghost use Rattle.recording_reader.specs.FileReader.{octets_at_hand, record_seen};
ghost use Rattle.recording_reader.specs.Files.{CountsReading};
ghost use Rattle.recording_reader.specs.Reading.{entry_there};
ghost use Rattle.recording_reader.specs.Ways.{FailsNextBy, FindsNext, HasSpace};

use crate::fault::ReadingFault;
use crate::found::Found;
use crate::way::FileKind;
use st_format::{ByteSource, Path};
use std::alloc::{AllocError, Allocator};

/// A datagram of a file: the path by which it came, its moment, and its octets. The moment of a
/// recording's is nanoseconds since 1970, or 0 where the recording doesn't say one; a capture's is
/// what its writer handed in.
#[derive(Clone, Copy)]
pub struct RecordView<'a> {
    pub path: Path,
    pub moment: u64,
    pub octets: &'a [u8],
}

/// The datagram that was found last, and the room where its octets lie.
#[derive(Drop)]
pub struct Room<A: Allocator> {
    /// The datagram that was found last, while it lies in the room.
    pub(crate) found: Option<Found>,
    /// Where the octets of records and packets are put.
    pub(crate) octets: Vec<u8, A>,
    pub ghost forward: { IfSome found (λ f. f.start ≤ f.end) } by { Prim.hlevel props },
    pub ghost inside: { IfSome found (λ f. f.end ≤ vec_len octets) } by { Prim.hlevel props },
    pub ghost few: { IfSome found (λ f. f.end - f.start ≤ 65535) } by { Prim.hlevel props },
}

impl<A: Allocator> Room<A> {
    /// Room for so many octets.
    pub(crate) fn new(alloc: A, count: usize) -> Result<Room<A>, AllocError>
        ensures found { IfOk result (λ r. r.found ≡ None) }
        ensures octets { IfOk result (λ r. vec_len r.octets ≡ count) }
    {
        let octets = vec![in alloc; 0u8; count]?;
        Ok(Room {
            found: None,
            octets,
        })
    }

    /// Reads on to the next datagram, and tells its path, or reads on to the end. None is at hand
    /// after a fault.
    pub(crate) fn advance<S: ByteSource>(
        &mut self,
        way: &mut FileKind,
        source: &mut S,
    ) -> Result<Option<Path>, ReadingFault>
        requires { HasSpace way.old (vec_len self.old.octets) }
        ensures room { vec_len self.new.octets ≡ vec_len self.old.octets }
        ensures read { OnOk result (FindsNext way.old way.new self.new.found self.new.octets.items
            (S.gave source.old) (S.gave source.new) (S.ended source.new)) }
        ensures path { IfOk result
            (λ p. p ≡ option_map (λ e. e.path) (entry_there self.new.found self.new.octets.items)) }
        ensures none { OnErr result (self.new.found ≡ None) }
        ensures fault { IfErr result (λ f. FailsNextBy way.old way.new f
            (S.gave source.old) (S.gave source.new) (S.ended source.new)) }
        ensures counted { CountsReading (S.failures source.old) (S.failures source.new) result }
        ensures names { S.names source.new ≡ S.names source.old }
    {
        match way.read_next(source, &mut self.octets) {
            Ok(found) => {
                self.found = found;
                Ok(self.path())
            }
            Err(fault) => {
                self.found = None;
                Err(fault)
            }
        }
    }

    /// The datagram that was found last.
    pub(crate) fn record(&self) -> Option<RecordView<'_>>
        ensures seen { record_seen result ≡ entry_there self.now.found self.now.octets.items }
        ensures few { IfSome result (λ r. length r.octets.now ≤ 65535) }
    {
        match self.found {
            Some(found) => Some(RecordView {
                path: found.path,
                moment: found.moment,
                octets: &self.octets[found.start..found.end],
            }),
            None => None,
        }
    }

    pub(crate) fn path(&self) -> Option<Path>
        ensures { result
            ≡ option_map (λ e. e.path) (entry_there self.now.found self.now.octets.items) }
    {
        match self.found {
            Some(found) => Some(found.path),
            None => None,
        }
    }

    pub(crate) fn moment(&self) -> Option<u64>
        ensures { result
            ≡ option_map (λ e. e.moment) (entry_there self.now.found self.now.octets.items) }
    {
        match self.found {
            Some(found) => Some(found.moment),
            None => None,
        }
    }

    /// Its octets; none where there is none.
    pub(crate) fn octets(&self) -> &[u8]
        ensures { result.now
            ≡ octets_at_hand (entry_there self.now.found self.now.octets.items) }
    {
        match self.found {
            Some(found) => &self.octets[found.start..found.end],
            None => &[],
        }
    }
}
