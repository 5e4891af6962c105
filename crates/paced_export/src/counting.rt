//! The first reading of a capture: the rate that its text says, and how many records frames have.
ghost use Rattle.std.specs.Prelude.{◌≤◌, ◌<◌, ◌∷◌, [], length, IfErr, IfOk, OnOk};
ghost use Rattle.media_file.specs.Capture.{records_at};
ghost use Rattle.media_file.specs.Faults.{CountsDevice};
ghost use Rattle.media_file.specs.Fields.{GaveFault};
ghost use Rattle.run_outcome.specs.Fault.{Accounts, counts};
ghost use Rattle.run_outcome.specs.Refusing.{OfRefusal};
ghost use Rattle.run_outcome.specs.TextRefusals.{IsDescriptionRefusal};
ghost use Rattle.st_format.specs.History.{IsRead};
ghost use Rattle.paced_export.specs.Counts.{Counts};
ghost use Rattle.paced_export.specs.PacedExported.{CountsRecords, ReadsAhead, SaysActive};
ghost use Rattle.paced_export.specs.PacedRefused.{IsAheadRefusal};

use crate::moments::{active_time, timestamp_in};
use crate::tally::FrameCounts;
use media_file::{FileFault, MOST_RECORDS, read_front, record_begins, record_rest};
use run_outcome::{Fault, of_capture, room};
use sdp_format::read_located;
use st_format::ByteSource;
use std::alloc::Allocator;

/// What a first reading of a capture tells of its frames.
#[derive(Drop)]
pub(crate) struct Ahead<A: Allocator> {
    /// The active time of a frame, in nanoseconds.
    pub(crate) active: u64,
    pub(crate) counts: FrameCounts<A>,
    ghost short: { active ≤ 960000000 },
}

/// Reads a capture to its end, and answers the active time of its frames, by the rate that its text
/// says, and how many records they have.
pub(crate) fn read_ahead<A: Allocator + Copy, S: ByteSource>(
    alloc: A,
    source: &mut S,
) -> Result<Ahead<A>, Fault>
    ensures read { IfOk result (λ ahead. ReadsAhead (S.gave source.old) (S.gave source.new)
        (S.ended source.new) ahead.active ahead.counts) }
    ensures refusal { IfErr result (λ f. OfRefusal f (IsAheadRefusal
        (IsRead (S.gave source.old) (S.gave source.new) (S.ended source.new)))) }
    ensures failures { Accounts result (counts (S.failures source.old) (S.failures source.new)
        ∷ []) }
{
    let mut buf = room(alloc)?;
    read_frames(alloc, source, &mut buf)
}

/// The same by a room for any record, which is also one for the capture's text.
fn read_frames<A: Allocator + Copy, S: ByteSource>(
    alloc: A,
    source: &mut S,
    buf: &mut [u8],
) -> Result<Ahead<A>, Fault>
    requires room { 65535 ≤ length buf.old }
    ensures read { IfOk result (λ ahead. ReadsAhead (S.gave source.old) (S.gave source.new)
        (S.ended source.new) ahead.active ahead.counts) }
    ensures refusal { IfErr result (λ f. OfRefusal f (IsAheadRefusal
        (IsRead (S.gave source.old) (S.gave source.new) (S.ended source.new)))) }
    ensures failures { Accounts result (counts (S.failures source.old) (S.failures source.new)
        ∷ []) }
{
    let count = match read_front(source, buf) {
        Ok(count) => count,
        Err(fault) => return Err(of_capture(fault)),
    };
    let active = active_said(alloc, &buf[..count])?;
    let mut counts = FrameCounts::new(alloc);
    match count_records(source, buf, &mut counts, MOST_RECORDS) {
        Ok(()) => Ok(Ahead { active, counts }),
        Err(fault) => Err(of_capture(fault)),
    }
}

/// The active time of a frame, in nanoseconds, by the rate that an SDP text says; its fault where
/// it says none.
fn active_said<A: Allocator + Copy>(alloc: A, text: &[u8]) -> Result<u64, Fault>
    ensures said { IfOk result (SaysActive text.now) }
    ensures short { IfOk result (λ active. active ≤ 960000000) }
    ensures refusal { IfErr result (λ f. OfRefusal f (IsDescriptionRefusal text.now)) }
    ensures failures { Accounts result [] }
{
    let sdp = read_located(alloc, text)?;
    Ok(active_time(sdp.format.n, sdp.format.d))
}

/// Counts the records of a capture up to its end, at most so many.
fn count_records<A: Allocator + Copy, S: ByteSource>(
    source: &mut S,
    buf: &mut [u8],
    counts: &mut FrameCounts<A>,
    limit: u64,
) -> Result<(), FileFault>
    requires room { 65535 ≤ length buf.old }
    requires none { Counts counts.old [] }
    ensures read { OnOk result (CountsRecords limit (S.gave source.old) (S.gave source.new)
        (S.ended source.new) counts.new) }
    ensures gave_wrong { IfErr result (λ f. GaveFault (records_at limit)
        (S.gave source.old) (S.gave source.new) (S.ended source.new) f) }
    ensures counted { CountsDevice (S.failures source.old) (S.failures source.new) result }
{
    let mut left = limit;
    while let Some(first) = record_begins(source)? {
        if left == 0 {
            return Err(FileFault::TooManyRecords);
        }
        left -= 1;
        let head = record_rest(source, first, buf)?;
        counts.add(head.path, timestamp_in(&buf[..head.length]))?;
    }
    Ok(())
}
