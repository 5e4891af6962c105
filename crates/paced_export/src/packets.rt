//! The second reading of a capture: its packets, each at the moment that its frame gives it.
ghost use Rattle.std.specs.Prelude.{◌≡◌, ◌≤◌, List, [], length, IfErr, IfOk, MatchResult};
ghost use Rattle.media_file.specs.Capture.{capture_walk, records_at};
ghost use Rattle.media_file.specs.Fields.{GaveFault};
ghost use Rattle.media_file.specs.Migrated.{CountsEither};
ghost use Rattle.media_file.specs.Records.{Entry};
ghost use Rattle.paced_export.specs.Counts.{Counts, counted};
ghost use Rattle.paced_export.specs.Paced.{paced_entry};
ghost use Rattle.paced_export.specs.PacedExported.{PacesCapture, PacesRecords, StopsPaced};
ghost use Rattle.paced_export.specs.PacedExported.{StopsPacing};
ghost use Rattle.paced_export.specs.Pacing.{timestamp_in};

use crate::moments::timestamp_in;
use crate::pace::Pace;
use crate::tally::FrameCounts;
use export_engine::{Envelopes, ExportCounts, write_head, write_packet};
use media_file::{FileFault, MOST_RECORDS, RecordHead, read_front, record_begins, record_rest};
use st_format::{ByteSink, ByteSource};
use std::alloc::Allocator;

/// The packets of a capture's frames: how they are paced, and how many each frame has.
#[derive(Clone, Copy)]
pub(crate) struct Frames<'a, A: Allocator> {
    pub(crate) pace: Pace,
    pub(crate) all: &'a FrameCounts<A>,
}

impl<'a, A: Allocator + Copy> Frames<'a, A> {
    /// The record of this head and these octets at the moment that its frame gives it, where those
    /// before it are counted.
    fn paced(&self, seen: &FrameCounts<A>, head: RecordHead, octets: &[u8]) -> RecordHead
        requires { counted seen.now head.path (timestamp_in octets.now) ≤ 16777216 }
        ensures path { result.path ≡ head.path }
        ensures length { result.length ≡ head.length }
        ensures moment { (before : List Entry) → Counts seen.now before → result.moment
            ≡ (paced_entry self.now.pace (counted self.now.all.now) before (record {
              path = head.path;
              moment = head.moment;
              octets = octets.now;
            })).moment }
    {
        let timestamp = timestamp_in(octets);
        let packet = seen.count(head.path, timestamp);
        let packets = self.all.count(head.path, timestamp);
        RecordHead {
            path: head.path,
            moment: self.pace.moment(timestamp, packet, packets),
            length: head.length,
        }
    }
}

/// Writes the recording of a capture of at most so many records, each at the moment that its frame
/// gives it. None is counted in `seen` yet.
///
/// `buf` has room for any record, and `packet` for any packet. Memory is taken for the counts
/// alone.
///
/// # Errors
///
/// The first fault of the source's octets, or one of a device, or that memory was wanted.
pub(crate) fn write_paced<A: Allocator + Copy, S: ByteSource, K: ByteSink>(
    envelopes: &Envelopes,
    frames: Frames<'_, A>,
    seen: &mut FrameCounts<A>,
    source: &mut S,
    sink: &mut K,
    buf: &mut [u8],
    packet: &mut [u8],
) -> Result<ExportCounts, FileFault>
    requires room { 65535 ≤ length buf.old }
    requires packet { 65605 ≤ length packet.old }
    requires none { Counts seen.old [] }
    ensures exported { IfOk result (λ counts. PacesCapture envelopes.now frames.entry.pace
        (counted frames.entry.all.now) counts
        (S.gave source.old) (S.gave source.new) (S.ended source.new)
        (K.took sink.old) (K.took sink.new)) }
    ensures gave_wrong { IfErr result (λ f. GaveFault (capture_walk 16777216)
        (S.gave source.old) (S.gave source.new) (S.ended source.new) f) }
    ensures stopped { IfErr result (λ f. StopsPacing envelopes.now frames.entry.pace
        (counted frames.entry.all.now) f
        (S.gave source.old) (S.gave source.new) (S.ended source.new)
        (K.took sink.old) (K.took sink.new)) }
    ensures counted { MatchResult result
        (λ _. (S.failures source.new ≡ S.failures source.old)
        × (K.failures sink.new ≡ K.failures sink.old))
        (λ f. CountsEither f (S.failures source.old) (S.failures source.new) (K.failures sink.old)
        (K.failures sink.new)) }
{
    read_front(source, buf)?;
    write_head(sink, packet)?;
    write_records(envelopes, frames, seen, source, sink, buf, packet)
}

/// Reads records up to the end, at most 16,777,216, and writes their packets.
fn write_records<A: Allocator + Copy, S: ByteSource, K: ByteSink>(
    envelopes: &Envelopes,
    frames: Frames<'_, A>,
    seen: &mut FrameCounts<A>,
    source: &mut S,
    sink: &mut K,
    buf: &mut [u8],
    packet: &mut [u8],
) -> Result<ExportCounts, FileFault>
    requires room { 65535 ≤ length buf.old }
    requires packet { 65605 ≤ length packet.old }
    requires none { Counts seen.old [] }
    ensures exported { IfOk result (λ counts. PacesRecords envelopes.now frames.entry.pace
        (counted frames.entry.all.now) counts
        (S.gave source.old) (S.gave source.new) (S.ended source.new)
        (K.took sink.old) (K.took sink.new)) }
    ensures gave_wrong { IfErr result (λ f. GaveFault (records_at 16777216)
        (S.gave source.old) (S.gave source.new) (S.ended source.new) f) }
    ensures stopped { IfErr result (λ f. StopsPaced [] envelopes.now frames.entry.pace
        (counted frames.entry.all.now) f
        (S.gave source.old) (S.gave source.new) (K.took sink.old) (K.took sink.new)) }
    ensures counted { MatchResult result
        (λ _. (S.failures source.new ≡ S.failures source.old)
        × (K.failures sink.new ≡ K.failures sink.old))
        (λ f. CountsEither f (S.failures source.old) (S.failures source.new) (K.failures sink.old)
        (K.failures sink.new)) }
{
    let mut left = MOST_RECORDS;
    let mut written = 0u64;
    while let Some(first) = record_begins(source)? {
        if left == 0 {
            return Err(FileFault::TooManyRecords);
        }
        left -= 1;
        let head = record_rest(source, first, buf)?;
        let octets = &buf[..head.length];
        let paced = frames.paced(seen, head, octets);
        written += write_packet(envelopes, paced, octets, sink, packet)?;
        seen.add(head.path, timestamp_in(octets))?;
    }
    Ok(ExportCounts {
        written,
        left_out: MOST_RECORDS - left - written,
    })
}
