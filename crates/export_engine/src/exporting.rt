//! The engine of `export`.
ghost use Rattle.std.specs.Prelude.{◌≡◌, ◌∷◌, [], IfErr, IfOk, OnErr, OnOk, vec_len};
ghost use Rattle.std.specs.Option.{option_copied};
ghost use Rattle.st_format.specs.History.{IsRead};
ghost use Rattle.run_outcome.specs.AtFault.{PrintedAtFault};
ghost use Rattle.run_outcome.specs.Fault.{Accounts, IfRefused, counts};
ghost use Rattle.run_outcome.specs.Refusing.{OfRefusal};
ghost use Rattle.run_outcome.specs.declared.fault.Fault.TheVariants.{Refused};
ghost use Rattle.run_outcome.specs.declared.refusal.Refusal.TheVariants.{ExportFlow};
ghost use Rattle.export_engine.specs.Packets.{AreEnvelopes};
ghost use Rattle.export_engine.specs.declared.places.Envelopes.{Envelopes};
ghost use Rattle.export_engine.specs.ExportRefused.{IsExportRefusal, IsReadRefusal};
ghost use Rattle.export_engine.specs.Exported.{ExportsCapture, IsUntouched, LeavesExport};
ghost use Rattle.export_engine.specs.Exported.{LeavesRecording, PrintsExported};

use crate::packets::{ExportCounts, PACKET, write_recording};
use crate::places::Envelopes;
use media_file::MOST_RECORDS;
use run_outcome::{Fault, Line, Refusal, of_capture, print, room};
use st_format::{ByteSink, ByteSource};
use std::alloc::{AllocError, Allocator};

/// What `export` is asked for, beside its files: the texts of the flows of the paths, each to an
/// address, as `239.1.1.1:5004` or `[ff3e::1]:5004`.
#[derive(Clone, Copy)]
pub struct Exporting<'a> {
    pub a: &'a [u8],
    pub b: Option<&'a [u8]>,
}

/// Writes a capture, of either version, as a recording of pcap in nanoseconds: a packet of
/// Ethernet, IPv4 or IPv6, and UDP for each record, at the record's moment, which is taken for
/// nanoseconds since 1970. The packet goes to the flow of the record's path, from the source that
/// the flow names, or else from 192.0.2.1 or 2001:db8::1, and from the flow's own port.
///
/// A record is left out whose path has no flow, which has more than 65,507 octets, or 65,527 over
/// IPv6, or whose moment is 2^32 seconds or later. `exported N left out K` is printed to `output`.
///
/// # Errors
///
/// A refusal: `ExportFlow` where a text is no flow to an address, before anything is read;
/// then the first fault of the capture, which has at most 16,777,216 records. And else that a
/// device failed or memory was wanted. Nothing is written before the capture's front was read;
/// where a record is at fault, the packets of those before it are. Where it is refused nothing is
/// printed.
pub fn export<A, S, K, O>(
    alloc: A,
    wanted: Exporting<'_>,
    capture: &mut S,
    sink: &mut K,
    output: &mut O,
) -> Result<(), Fault>
where
    A: Allocator + Copy,
    S: ByteSource,
    K: ByteSink,
    O: ByteSink,
    // All that the capture's source gave was read, up to its end.
    ensures exported { OnOk result (PrintsExported
        wanted.entry.a.now (option_copied wanted.entry.b)
        (S.gave capture.old) (S.gave capture.new) (S.ended capture.new)
        (K.took sink.old) (K.took sink.new) (O.took output.old) (O.took output.new)) }
    ensures refusal { IfErr result (λ f. OfRefusal f (IsExportRefusal
        wanted.entry.a.now (option_copied wanted.entry.b)
        (IsRead (S.gave capture.old) (S.gave capture.new) (S.ended capture.new)))) }
    ensures left { IfErr result (λ f. LeavesExport f
        wanted.entry.a.now (option_copied wanted.entry.b)
        (S.gave capture.old) (S.gave capture.new) (S.ended capture.new)
        (K.took sink.old) (K.took sink.new)) }
    // What was printed then: nothing; or a first part of the line, since the output failed.
    ensures printed { OnErr result (PrintedAtFault O.took O.failures (PrintsExported
        wanted.entry.a.now (option_copied wanted.entry.b)
        (S.gave capture.old) (S.gave capture.new) (S.ended capture.new)
        (K.took sink.old) (K.took sink.new) []) output.old output.new) }
    ensures quiet { IfErr result (λ f. IfRefused f (output.new ≡ output.old)) }
    // Memory is wanted where the words are flows, before anything is read, written or printed.
    ensures memory { IfErr result (λ f. f ≡ Fault.Memory
        → ((es : Envelopes) × AreEnvelopes wanted.entry.a.now (option_copied wanted.entry.b) es)
        × IsUntouched (S.gave capture.old) (S.gave capture.new) (K.took sink.old) (K.took sink.new)
        × (output.new ≡ output.old)) }
    ensures failures { Accounts result (counts (S.failures capture.old) (S.failures capture.new)
        ∷ counts (K.failures sink.old) (K.failures sink.new)
        ∷ counts (O.failures output.old) (O.failures output.new) ∷ []) }
{
    let Some(envelopes) = Envelopes::read(&wanted) else {
        return Err(Fault::Refused(Refusal::ExportFlow));
    };
    let counts = export_capture(alloc, &envelopes, capture, sink)?;
    print(Line::Exported(counts.written, counts.left_out), output)
}

/// Refuses words for the paths that are no flows to addresses. No file is looked at.
///
/// # Errors
///
/// `ExportFlow` where one is none.
pub fn check_flows(wanted: Exporting<'_>) -> Result<(), Fault>
    ensures flows { OnOk result ((es : Envelopes)
        × AreEnvelopes wanted.entry.a.now (option_copied wanted.entry.b) es) }
    ensures refusal { IfErr result (λ f. OfRefusal f (λ r. (r ≡ ExportFlow) × ((es : Envelopes)
        → AreEnvelopes wanted.entry.a.now (option_copied wanted.entry.b) es → ⊥))) }
    // No memory is asked for.
    ensures only { IfErr result (λ f. f ≡ Refused ExportFlow) }
    ensures failures { Accounts result [] }
{
    match Envelopes::read(&wanted) {
        Some(_) => Ok(()),
        None => Err(Fault::Refused(Refusal::ExportFlow)),
    }
}

/// Writes the recording of a capture, and answers how many records have a packet there.
fn export_capture<A: Allocator + Copy, S: ByteSource, K: ByteSink>(
    alloc: A,
    envelopes: &Envelopes,
    capture: &mut S,
    sink: &mut K,
) -> Result<ExportCounts, Fault>
    ensures exported { IfOk result (λ n. ExportsCapture 16777216 envelopes.now n
        (S.gave capture.old) (S.gave capture.new) (S.ended capture.new)
        (K.took sink.old) (K.took sink.new)) }
    ensures refusal { IfErr result (λ f. OfRefusal f (IsReadRefusal
        (IsRead (S.gave capture.old) (S.gave capture.new) (S.ended capture.new)))) }
    ensures left { IfErr result (λ f. LeavesRecording f envelopes.now
        (S.gave capture.old) (S.gave capture.new) (S.ended capture.new)
        (K.took sink.old) (K.took sink.new)) }
    ensures failures { Accounts result (counts (S.failures capture.old) (S.failures capture.new)
        ∷ counts (K.failures sink.old) (K.failures sink.new) ∷ []) }
{
    let mut buf = room(alloc)?;
    let mut packet = packet_room(alloc)?;
    match write_recording(
        envelopes,
        capture,
        sink,
        &mut buf,
        &mut packet,
        MOST_RECORDS,
    ) {
        Ok(counts) => Ok(counts),
        Err(fault) => Err(of_capture(fault)),
    }
}

/// Room for the greatest packet, which is made once for all.
fn packet_room<A: Allocator>(alloc: A) -> Result<Vec<u8, A>, AllocError>
    ensures { IfOk result (λ room. vec_len room ≡ 65605) }
{
    vec![in alloc; 0u8; PACKET]
}
