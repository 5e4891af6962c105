//! The engine of `export --paced`.
ghost use Rattle.std.specs.Prelude.{◌≡◌, ◌<◌, ◌*◌, ◌^◌, ◌∷◌, [], IfErr, IfOk, OnErr, OnOk};
ghost use Rattle.std.specs.Prelude.{unwrap_or, vec_len};
ghost use Rattle.std.specs.Option.{option_copied};
ghost use Rattle.st_format.specs.History.{IsRead};
ghost use Rattle.run_outcome.specs.AtFault.{PrintedAtFault};
ghost use Rattle.run_outcome.specs.Fault.{Accounts, IfRefused, counts};
ghost use Rattle.run_outcome.specs.Refusing.{OfRefusal};
ghost use Rattle.export_engine.specs.ExportRefused.{IsReadRefusal};
ghost use Rattle.export_engine.specs.Packets.{AreEnvelopes};
ghost use Rattle.paced_export.specs.Counts.{counted};
ghost use Rattle.paced_export.specs.PacedExported.{LeavesPaced, LeavesPacing, PacesCapture};
ghost use Rattle.paced_export.specs.PacedExported.{PrintsPaced};
ghost use Rattle.paced_export.specs.PacedRefused.{IsPacedRefusal};

use crate::counting::{Ahead, read_ahead};
use crate::pace::Pace;
use crate::packets::{Frames, write_paced};
use crate::tally::FrameCounts;
use export_engine::{Envelopes, ExportCounts, Exporting, PACKET};
use run_outcome::{Fault, Line, Refusal, of_capture, print, room};
use st_format::{ByteSink, ByteSource};
use std::alloc::{AllocError, Allocator};

/// What `export --paced` is asked for, beside its files.
#[derive(Clone, Copy)]
pub struct Pacing<'a> {
    /// The texts of the flows of the paths.
    pub flows: Exporting<'a>,
    /// The moment of the first frame's begin, in nanoseconds since 1970.
    pub start: u64,
    // pcap has 32 bits for the seconds.
    pub ghost early: { start < 2 ^ 32 * 1000000000 },
}

/// Writes a capture as a recording of pcap in nanoseconds, as [`export_engine::export`] does, but
/// each packet at the moment that a sender has for it, by the frame rate of the capture's SDP text.
/// A frame of a path is the records that have its timestamp. It begins so long behind `start` as
/// its timestamp is behind that of the first record, modulo 2^32, and its records share the active
/// time of the frame evenly, in their order: 1080 of 1125 parts of the frame's time (SMPTE ST
/// 2110-21, gapped).
///
/// The capture is read twice, first from `ahead` and then from `capture`, which are to give the
/// same: the first reading tells how many records each frame has, in less memory than frames that
/// are held would take. That both gave the same no clause says: the moments are those of the
/// second's records by the first's counts.
///
/// # Errors
///
/// A refusal: `ExportFlow` where a text is no flow to an address, before anything is read; then the
/// first fault of the capture's front, of its SDP text, of its records, which are at most
/// 16,777,216; and of the second reading. And else that a device failed or memory was wanted.
/// Nothing is written before the first reading has ended. Where it is refused nothing is printed.
pub fn export_paced<A, S, K, O>(
    alloc: A,
    wanted: Pacing<'_>,
    ahead: &mut S,
    capture: &mut S,
    sink: &mut K,
    output: &mut O,
) -> Result<(), Fault>
where
    A: Allocator + Copy,
    S: ByteSource,
    K: ByteSink,
    O: ByteSink,
    // All that the capture's sources gave was read, up to their ends.
    ensures exported { OnOk result (PrintsPaced wanted.entry.start
        wanted.entry.flows.a.now (option_copied wanted.entry.flows.b)
        (S.gave ahead.old) (S.gave ahead.new) (S.ended ahead.new)
        (S.gave capture.old) (S.gave capture.new) (S.ended capture.new)
        (K.took sink.old) (K.took sink.new) (O.took output.old) (O.took output.new)) }
    // Of the words and what was read the refusal is the first.
    ensures refusal { IfErr result (λ f. OfRefusal f (IsPacedRefusal
        wanted.entry.flows.a.now (option_copied wanted.entry.flows.b)
        (IsRead (S.gave ahead.old) (S.gave ahead.new) (S.ended ahead.new))
        (IsRead (S.gave capture.old) (S.gave capture.new) (S.ended capture.new)))) }
    ensures left { OnErr result (LeavesPaced wanted.entry.start
        wanted.entry.flows.a.now (option_copied wanted.entry.flows.b)
        (S.gave ahead.old) (S.gave ahead.new) (S.ended ahead.new)
        (S.gave capture.old) (S.gave capture.new) (S.ended capture.new)
        (K.took sink.old) (K.took sink.new)) }
    // What was printed then: nothing; or a first part of the line, since the output failed.
    ensures printed { OnErr result (PrintedAtFault O.took O.failures (PrintsPaced
        wanted.entry.start wanted.entry.flows.a.now (option_copied wanted.entry.flows.b)
        (S.gave ahead.old) (S.gave ahead.new) (S.ended ahead.new)
        (S.gave capture.old) (S.gave capture.new) (S.ended capture.new)
        (K.took sink.old) (K.took sink.new) []) output.old output.new) }
    ensures quiet { IfErr result (λ f. IfRefused f (output.new ≡ output.old)) }
    // Memory is wanted where the words are flows, before anything is printed.
    ensures memory { IfErr result (λ f. f ≡ Fault.Memory → ((es : Envelopes)
        × AreEnvelopes wanted.entry.flows.a.now (option_copied wanted.entry.flows.b) es)
        × (output.new ≡ output.old)) }
    ensures failures { Accounts result (counts (S.failures ahead.old) (S.failures ahead.new)
        ∷ counts (S.failures capture.old) (S.failures capture.new)
        ∷ counts (K.failures sink.old) (K.failures sink.new)
        ∷ counts (O.failures output.old) (O.failures output.new) ∷ []) }
{
    let Some(envelopes) = Envelopes::read(&wanted.flows) else {
        return Err(Fault::Refused(Refusal::ExportFlow));
    };
    let told = read_ahead(alloc, ahead)?;
    let pace = pace_from(wanted.start, &told);
    let frames = Frames {
        pace,
        all: &told.counts,
    };
    let counts = export_capture(alloc, &envelopes, frames, capture, sink)?;
    print(Line::Exported(counts.written, counts.left_out), output)
}

/// The pace of frames that were read ahead. Without a record no first timestamp is asked for.
fn pace_from<A: Allocator>(start: u64, told: &Ahead<A>) -> Pace
    requires { start < 2 ^ 32 * 1000000000 }
    ensures start { result.start ≡ start }
    ensures first { result.first ≡ unwrap_or told.now.counts.first 0 }
    ensures active { result.active ≡ told.now.active }
{
    Pace {
        start,
        first: told.counts.first.unwrap_or(0),
        active: told.active,
    }
}

/// Writes the recording of a capture, and answers how many records have a packet there.
fn export_capture<A: Allocator + Copy, S: ByteSource, K: ByteSink>(
    alloc: A,
    envelopes: &Envelopes,
    frames: Frames<'_, A>,
    capture: &mut S,
    sink: &mut K,
) -> Result<ExportCounts, Fault>
    ensures exported { IfOk result (λ counts. PacesCapture envelopes.now frames.entry.pace
        (counted frames.entry.all.now) counts
        (S.gave capture.old) (S.gave capture.new) (S.ended capture.new)
        (K.took sink.old) (K.took sink.new)) }
    ensures refusal { IfErr result (λ f. OfRefusal f (IsReadRefusal
        (IsRead (S.gave capture.old) (S.gave capture.new) (S.ended capture.new)))) }
    ensures left { OnErr result (LeavesPacing envelopes.now frames.entry.pace
        (counted frames.entry.all.now)
        (S.gave capture.old) (S.gave capture.new) (S.ended capture.new)
        (K.took sink.old) (K.took sink.new)) }
    ensures failures { Accounts result (counts (S.failures capture.old) (S.failures capture.new)
        ∷ counts (K.failures sink.old) (K.failures sink.new) ∷ []) }
{
    let mut buf = room(alloc)?;
    let mut packet = packet_room(alloc)?;
    let mut seen = FrameCounts::new(alloc);
    match write_paced(
        envelopes,
        frames,
        &mut seen,
        capture,
        sink,
        &mut buf,
        &mut packet,
    ) {
        Ok(counts) => Ok(counts),
        Err(fault) => Err(of_capture(fault)),
    }
}

/// Room for the greatest packet, which is made once for all.
fn packet_room<A: Allocator>(alloc: A) -> Result<Vec<u8, A>, AllocError>
    ensures { IfOk result (λ room. vec_len room ≡ 65605) }
{
    vec![in alloc; 0u8; PACKET]
}
