//! The engines of recordings, each with its status.
ghost use Rattle.std.specs.Prelude.{◌≡◌, ◌≢◌, ◌⊎◌, ◌∷◌, ◌++◌, [], false, IfErr, None, OnErr, OnOk};
ghost use Rattle.std.specs.Prelude.{sum_by};
ghost use Rattle.std.specs.List.{zip};
ghost use Rattle.std.specs.Option.{option_copied};
ghost use Rattle.export_engine.specs.ExportRefused.{IsExportRefusal};
ghost use Rattle.export_engine.specs.Exported.{IsUntouched, LeavesExport, PrintsExported};
ghost use Rattle.export_engine.specs.Packets.{SayFlows};
ghost use Rattle.inspect_engine.specs.Told.{IsInspectRefusal, Tells};
ghost use Rattle.paced_export.specs.PacedExported.{LeavesPaced, PrintsPaced};
ghost use Rattle.paced_export.specs.PacedRefused.{IsPacedRefusal};
ghost use Rattle.recording_engines.specs.Files.{AllClosed, ended_by, failures_by, gave_by};
ghost use Rattle.recording_engines.specs.Imported.{Imports, ImportsUpTo, IsImportRefusal};
ghost use Rattle.recording_engines.specs.Progress.{IsDeviceOrFile};
ghost use Rattle.recording_engines.specs.declared.importing.ImportCounts.{ImportCounts as Sums};
ghost use Rattle.run_outcome.specs.AtFault.{PrintedAtFault};
ghost use Rattle.run_outcome.specs.Fault.{Accounts, IfRefused, StatusBlames, counts};
ghost use Rattle.run_outcome.specs.Moments.{WasRead};
ghost use Rattle.run_outcome.specs.Refusing.{OfRefusal, TellsRefusal};
ghost use Rattle.run_outcome.specs.Telling.{device_line, memory_line};
ghost use Rattle.run_outcome.specs.Text.{GivesFew, GivesText};
ghost use Rattle.run_outcome.specs.declared.fault.Fault.{Fault as Wrong};
ghost use Rattle.st_format.specs.Device.{Failed};
ghost use Rattle.st_format.specs.History.{IsRead};
ghost use Rattle.stream_inspection.specs.Told.{IsStreamsRefusal, TellsStreams};

use capture_engines::Seen;
use export_engine::{Exporting, export};
use flow::Flows;
use inspect_engine::{Form, inspect};
use paced_export::{Pacing, export_paced};
use recording_engines::{FlowWords, ImportFile, import};
use run_outcome::{Fault, Refusal, end};
use st_format::{ByteSink, ByteSource};
use std::alloc::Allocator;
use stream_inspection::{Form as StreamForm, Wanted as StreamWanted, inspect_streams};

/// Makes a capture of captures and of recordings of other tools, and prints `recorded A N B M left
/// out K` to `output`; as `import` of `recording_engines`, whose words tell what is written.
///
/// The status is 0; or 1 where the SDP, a word for a flow, the flows or a file is refused, or where
/// there are more than 16,777,216 records, and then nothing is printed; 3 where a device failed,
/// and 4 where the allocator refused memory. `faults` is told of it by one line.
pub fn run_import<A, D, S, K, O, F>(
    alloc: A,
    wanted: FlowWords<'_>,
    sdp: &mut D,
    files: &mut [ImportFile<A, S>],
    capture: &mut K,
    output: &mut O,
    faults: &mut F,
) -> u8
where
    A: Allocator + Copy,
    D: ByteSource,
    S: ByteSource + Drop,
    K: ByteSink,
    O: ByteSink,
    F: ByteSink,
    requires { AllClosed files.old }
    ensures range { (result ≡ 0) ⊎ (result ≡ 1) ⊎ (result ≡ 3) ⊎ (result ≡ 4) }
    ensures failures { StatusBlames result (counts (D.failures sdp.old) (D.failures sdp.new)
        ∷ counts (sum_by (failures_by S.failures) files.old)
        (sum_by (failures_by S.failures) files.new)
        ∷ counts (K.failures capture.old) (K.failures capture.new)
        ∷ counts (O.failures output.old) (O.failures output.new)
        ∷ counts (F.failures faults.old) (F.failures faults.new) ∷ []) }
    // What was read of the files is all of them, up to their ends; what is written is the capture
    // of their records, and what is printed counts it.
    ensures imported { result ≡ 0 → (sums : Sums) × Imports
        (option_copied wanted.entry.a) (option_copied wanted.entry.b)
        (GivesText 65535 (D.gave sdp.old) (D.gave sdp.new) (D.ended sdp.new))
        (WasRead (gave_by S.gave) (ended_by S.ended)) (zip files.old files.new)
        (K.took capture.old) (K.took capture.new) (O.took output.old) (O.took output.new) sums }
    // Unless the status is 0, nothing was written; or the text, and behind it the first of the
    // records, all of that or a first part, where the capture failed.
    ensures part { result ≢ 0 → ImportsUpTo
        (option_copied wanted.entry.a) (option_copied wanted.entry.b)
        (GivesText 65535 (D.gave sdp.old) (D.gave sdp.new) (D.ended sdp.new))
        (WasRead (gave_by S.gave) (ended_by S.ended))
        (Failed (K.failures capture.old) (K.failures capture.new)) (zip files.old files.new)
        (K.took capture.old) (K.took capture.new) }
    // And nothing was printed, or a first part of the line, since the output failed.
    ensures printed { result ≢ 0 → PrintedAtFault O.took O.failures (λ text. (sums : Sums)
        × Imports (option_copied wanted.entry.a) (option_copied wanted.entry.b)
        (GivesText 65535 (D.gave sdp.old) (D.gave sdp.new) (D.ended sdp.new))
        (WasRead (gave_by S.gave) (ended_by S.ended)) (zip files.old files.new)
        (K.took capture.old) (K.took capture.new) [] text sums) output.old output.new }
    ensures quiet { result ≡ 1 → output.new ≡ output.old }
    // At status 1 a refusal of the words or the files was told by its line.
    ensures told { result ≡ 1 → TellsRefusal (IsImportRefusal
        (option_copied wanted.entry.a) (option_copied wanted.entry.b)
        (IsRead (D.gave sdp.old) (D.gave sdp.new) (D.ended sdp.new))
        (GivesText 65535 (D.gave sdp.old) (D.gave sdp.new) (D.ended sdp.new))
        (WasRead (gave_by S.gave) (ended_by S.ended)) (zip files.old files.new)
        (K.took capture.old) (K.took capture.new)) (F.took faults.old) (F.took faults.new) }
    ensures silent { result ≡ 0 → faults.new ≡ faults.old }
    ensures blamed { result ≡ 3 → Failed (F.failures faults.old) (F.failures faults.new)
        ⊎ (F.took faults.new ≡ F.took faults.old ++ device_line) }
    // Memory is wanted before anything is printed, for a text that isn't too long; and, unless a
    // file's reader says so, before anything is written.
    ensures wanted { result ≡ 4 → (output.new ≡ output.old)
        × GivesFew 65535 (D.gave sdp.old) (D.gave sdp.new)
        × ((capture.new ≡ capture.old) ⊎ IsDeviceOrFile files.new Fault.Memory) }
    ensures memory { result ≡ 4 → F.took faults.new ≡ F.took faults.old ++ memory_line }
{
    let outcome = import_all(alloc, wanted, sdp, files, capture, output);
    end(outcome, faults)
}

/// Imports, and leaves what was counted to what is printed.
fn import_all<A, D, S, K, O>(
    alloc: A,
    wanted: FlowWords<'_>,
    sdp: &mut D,
    files: &mut [ImportFile<A, S>],
    capture: &mut K,
    output: &mut O,
) -> Result<(), Fault>
where
    A: Allocator + Copy,
    D: ByteSource,
    S: ByteSource + Drop,
    K: ByteSink,
    O: ByteSink,
    requires { AllClosed files.old }
    ensures imported { OnOk result ((sums : Sums) × Imports
        (option_copied wanted.entry.a) (option_copied wanted.entry.b)
        (GivesText 65535 (D.gave sdp.old) (D.gave sdp.new) (D.ended sdp.new))
        (WasRead (gave_by S.gave) (ended_by S.ended)) (zip files.old files.new)
        (K.took capture.old) (K.took capture.new) (O.took output.old) (O.took output.new) sums) }
    ensures refusal { IfErr result (λ f. OfRefusal f (IsImportRefusal
        (option_copied wanted.entry.a) (option_copied wanted.entry.b)
        (IsRead (D.gave sdp.old) (D.gave sdp.new) (D.ended sdp.new))
        (GivesText 65535 (D.gave sdp.old) (D.gave sdp.new) (D.ended sdp.new))
        (WasRead (gave_by S.gave) (ended_by S.ended)) (zip files.old files.new)
        (K.took capture.old) (K.took capture.new))) }
    ensures part { OnErr result (ImportsUpTo
        (option_copied wanted.entry.a) (option_copied wanted.entry.b)
        (GivesText 65535 (D.gave sdp.old) (D.gave sdp.new) (D.ended sdp.new))
        (WasRead (gave_by S.gave) (ended_by S.ended))
        (Failed (K.failures capture.old) (K.failures capture.new)) (zip files.old files.new)
        (K.took capture.old) (K.took capture.new)) }
    ensures printed { OnErr result (PrintedAtFault O.took O.failures (λ text. (sums : Sums)
        × Imports (option_copied wanted.entry.a) (option_copied wanted.entry.b)
        (GivesText 65535 (D.gave sdp.old) (D.gave sdp.new) (D.ended sdp.new))
        (WasRead (gave_by S.gave) (ended_by S.ended)) (zip files.old files.new)
        (K.took capture.old) (K.took capture.new) [] text sums) output.old output.new) }
    ensures quiet { IfErr result (λ f. IfRefused f (output.new ≡ output.old)) }
    ensures memory { IfErr result (λ f. f ≡ Fault.Memory → (output.new ≡ output.old)
        × GivesFew 65535 (D.gave sdp.old) (D.gave sdp.new)
        × ((capture.new ≡ capture.old) ⊎ IsDeviceOrFile files.new f)) }
    ensures failures { Accounts result (counts (D.failures sdp.old) (D.failures sdp.new)
        ∷ counts (sum_by (failures_by S.failures) files.old)
        (sum_by (failures_by S.failures) files.new)
        ∷ counts (K.failures capture.old) (K.failures capture.new)
        ∷ counts (O.failures output.old) (O.failures output.new) ∷ []) }
{
    import(alloc, wanted, sdp, files, capture, output)?;
    Ok(())
}

/// Writes a capture as a recording of pcap, and prints `exported N left out K` to `output`; as
/// `export` of `export_engine`, whose words tell what is written.
///
/// The status is 0; or 1 where a text is no flow to an address or the capture is refused, and then
/// nothing is printed; 3 where a device failed, and 4 where the allocator refused memory. `faults`
/// is told of it by one line.
pub fn run_export<A, S, K, O, F>(
    alloc: A,
    wanted: Exporting<'_>,
    capture: &mut S,
    sink: &mut K,
    output: &mut O,
    faults: &mut F,
) -> u8
where
    A: Allocator + Copy,
    S: ByteSource,
    K: ByteSink,
    O: ByteSink,
    F: ByteSink,
    ensures range { (result ≡ 0) ⊎ (result ≡ 1) ⊎ (result ≡ 3) ⊎ (result ≡ 4) }
    ensures failures { StatusBlames result (counts (S.failures capture.old) (S.failures capture.new)
        ∷ counts (K.failures sink.old) (K.failures sink.new)
        ∷ counts (O.failures output.old) (O.failures output.new)
        ∷ counts (F.failures faults.old) (F.failures faults.new) ∷ []) }
    // All that the capture's source gave was read, up to its end; what is written is the recording
    // of its records, and what is printed counts their packets.
    ensures exported { result ≡ 0 → PrintsExported
        wanted.entry.a.now (option_copied wanted.entry.b)
        (S.gave capture.old) (S.gave capture.new) (S.ended capture.new)
        (K.took sink.old) (K.took sink.new) (O.took output.old) (O.took output.new) }
    // Unless the status is 0, nothing was printed, or a first part of the line, since the output
    // failed.
    ensures printed { result ≢ 0 → PrintedAtFault O.took O.failures (PrintsExported
        wanted.entry.a.now (option_copied wanted.entry.b)
        (S.gave capture.old) (S.gave capture.new) (S.ended capture.new)
        (K.took sink.old) (K.took sink.new) []) output.old output.new }
    ensures quiet { result ≡ 1 → output.new ≡ output.old }
    // At status 1 a refusal of the words or the capture was told by its line.
    ensures told { result ≡ 1 → TellsRefusal (IsExportRefusal
        wanted.entry.a.now (option_copied wanted.entry.b)
        (IsRead (S.gave capture.old) (S.gave capture.new) (S.ended capture.new)))
        (F.took faults.old) (F.took faults.new) }
    // Unless the status is 0, what was written is as far as a fault says.
    ensures left { result ≢ 0 → (f : Wrong) × LeavesExport f
        wanted.entry.a.now (option_copied wanted.entry.b)
        (S.gave capture.old) (S.gave capture.new) (S.ended capture.new)
        (K.took sink.old) (K.took sink.new) }
    ensures silent { result ≡ 0 → faults.new ≡ faults.old }
    ensures blamed { result ≡ 3 → Failed (F.failures faults.old) (F.failures faults.new)
        ⊎ (F.took faults.new ≡ F.took faults.old ++ device_line) }
    // Memory is wanted where the words are flows, before anything is read, written or printed.
    ensures wanted { result ≡ 4 → SayFlows wanted.entry.a.now (option_copied wanted.entry.b)
        × IsUntouched (S.gave capture.old) (S.gave capture.new) (K.took sink.old) (K.took sink.new)
        × (output.new ≡ output.old) }
    ensures memory { result ≡ 4 → F.took faults.new ≡ F.took faults.old ++ memory_line }
{
    let outcome = export(alloc, wanted, capture, sink, output);
    end(outcome, faults)
}

/// Writes a capture as a recording of pcap in nanoseconds, each packet at the moment that a sender
/// has for it, and prints `exported N left out K` to `output`; as `export_paced` of `paced_export`,
/// whose words tell what is written.
///
/// The status is 0; or 1 where a text is no flow to an address or the capture or its SDP text is
/// refused, and then nothing is printed; 3 where a device failed, and 4 where the allocator refused
/// memory. `faults` is told of it by one line.
pub fn run_export_paced<A, S, K, O, F>(
    alloc: A,
    wanted: Pacing<'_>,
    ahead: &mut S,
    capture: &mut S,
    sink: &mut K,
    output: &mut O,
    faults: &mut F,
) -> u8
where
    A: Allocator + Copy,
    S: ByteSource,
    K: ByteSink,
    O: ByteSink,
    F: ByteSink,
    ensures range { (result ≡ 0) ⊎ (result ≡ 1) ⊎ (result ≡ 3) ⊎ (result ≡ 4) }
    ensures failures { StatusBlames result (counts (S.failures ahead.old) (S.failures ahead.new)
        ∷ counts (S.failures capture.old) (S.failures capture.new)
        ∷ counts (K.failures sink.old) (K.failures sink.new)
        ∷ counts (O.failures output.old) (O.failures output.new)
        ∷ counts (F.failures faults.old) (F.failures faults.new) ∷ []) }
    // All that the capture's sources gave was read, up to their ends; what is written is the
    // recording of its records at their moments, and what is printed counts their packets.
    ensures exported { result ≡ 0 → PrintsPaced wanted.entry.start
        wanted.entry.flows.a.now (option_copied wanted.entry.flows.b)
        (S.gave ahead.old) (S.gave ahead.new) (S.ended ahead.new)
        (S.gave capture.old) (S.gave capture.new) (S.ended capture.new)
        (K.took sink.old) (K.took sink.new) (O.took output.old) (O.took output.new) }
    // Unless the status is 0, nothing was printed, or a first part of the line, since the output
    // failed.
    ensures printed { result ≢ 0 → PrintedAtFault O.took O.failures (PrintsPaced
        wanted.entry.start wanted.entry.flows.a.now (option_copied wanted.entry.flows.b)
        (S.gave ahead.old) (S.gave ahead.new) (S.ended ahead.new)
        (S.gave capture.old) (S.gave capture.new) (S.ended capture.new)
        (K.took sink.old) (K.took sink.new) []) output.old output.new }
    ensures quiet { result ≡ 1 → output.new ≡ output.old }
    // What is told is the first refusal that speaks against the words and the capture.
    ensures told { result ≡ 1 → TellsRefusal (IsPacedRefusal
        wanted.entry.flows.a.now (option_copied wanted.entry.flows.b)
        (IsRead (S.gave ahead.old) (S.gave ahead.new) (S.ended ahead.new))
        (IsRead (S.gave capture.old) (S.gave capture.new) (S.ended capture.new)))
        (F.took faults.old) (F.took faults.new) }
    // Unless the status is 0, what was written is as far as a fault says.
    ensures left { result ≢ 0 → LeavesPaced wanted.entry.start
        wanted.entry.flows.a.now (option_copied wanted.entry.flows.b)
        (S.gave ahead.old) (S.gave ahead.new) (S.ended ahead.new)
        (S.gave capture.old) (S.gave capture.new) (S.ended capture.new)
        (K.took sink.old) (K.took sink.new) }
    ensures silent { result ≡ 0 → faults.new ≡ faults.old }
    ensures blamed { result ≡ 3 → Failed (F.failures faults.old) (F.failures faults.new)
        ⊎ (F.took faults.new ≡ F.took faults.old ++ device_line) }
    // Memory is wanted where the words are flows, before anything is printed.
    ensures wanted { result ≡ 4
        → SayFlows wanted.entry.flows.a.now (option_copied wanted.entry.flows.b)
        × (output.new ≡ output.old) }
    ensures memory { result ≡ 4 → F.took faults.new ≡ F.took faults.old ++ memory_line }
{
    let outcome = export_paced(alloc, wanted, ahead, capture, sink, output);
    end(outcome, faults)
}

/// Prints which flows of UDP recordings have, as `inspect` of `inspect_engine` tells.
///
/// The status is 0; or 1 where a recording is at fault, and then nothing is printed, but where it
/// was only cut short; 3 where a device failed, and 4 where the allocator refused memory. `faults`
/// is told of it by one line.
pub fn run_inspect<A, S, O, F>(
    alloc: A,
    recordings: &mut [S],
    form: Form,
    output: &mut O,
    faults: &mut F,
) -> u8
where
    A: Allocator + Copy,
    S: ByteSource,
    O: ByteSink,
    F: ByteSink,
    ensures range { (result ≡ 0) ⊎ (result ≡ 1) ⊎ (result ≡ 3) ⊎ (result ≡ 4) }
    ensures failures { StatusBlames result (counts (sum_by S.failures recordings.old)
        (sum_by S.failures recordings.new)
        ∷ counts (O.failures output.old) (O.failures output.new)
        ∷ counts (F.failures faults.old) (F.failures faults.new) ∷ []) }
    // What is printed tells of all packets of the recordings that were read, none of them cut.
    ensures inspected { result ≡ 0 → Tells form (WasRead S.gave S.ended)
        (zip recordings.old recordings.new) false (O.took output.old) (O.took output.new) }
    // At status 1 the refusal of a recording was told by its line.
    ensures told { result ≡ 1 → TellsRefusal (IsInspectRefusal form (WasRead S.gave S.ended)
        (zip recordings.old recordings.new) (O.took output.old) (O.took output.new))
        (F.took faults.old) (F.took faults.new) }
    ensures silent { result ≡ 0 → faults.new ≡ faults.old }
    ensures blamed { result ≡ 3 → Failed (F.failures faults.old) (F.failures faults.new)
        ⊎ (F.took faults.new ≡ F.took faults.old ++ device_line) }
    ensures memory { result ≡ 4 → F.took faults.new ≡ F.took faults.old ++ memory_line }
{
    let outcome = inspect(alloc, recordings, form, output);
    end(outcome, faults)
}

/// Prints what came of the streams of files, as `inspect_streams` of `stream_inspection` tells.
///
/// The status is 0; or 1 where the SDP text or the front of a file is refused, and then nothing is
/// printed, or where a file is at fault behind its front, and then all that came before is; 3 where
/// a device failed, and 4 where the allocator refused memory. `faults` is told of it by one line.
pub fn run_inspect_streams<A, S, O, F>(
    alloc: A,
    wanted: StreamWanted,
    form: StreamForm,
    sdp: Option<&[u8]>,
    files: &mut [S],
    ways: &[Result<Flows, Refusal>],
    seen: &mut [Seen],
    output: &mut O,
    faults: &mut F,
) -> u8
where
    A: Allocator + Copy,
    S: ByteSource,
    O: ByteSink,
    F: ByteSink,
    ensures range { (result ≡ 0) ⊎ (result ≡ 1) ⊎ (result ≡ 3) ⊎ (result ≡ 4) }
    ensures failures { StatusBlames result (counts (sum_by S.failures files.old)
        (sum_by S.failures files.new)
        ∷ counts (O.failures output.old) (O.failures output.new)
        ∷ counts (F.failures faults.old) (F.failures faults.new) ∷ []) }
    // What is printed is the text of the records of all that was read of the files.
    ensures inspected { result ≡ 0 → TellsStreams wanted form (option_copied sdp.entry) ways.now
        (WasRead S.gave S.ended) (zip files.old files.new) None (O.took output.old)
        (O.took output.new) }
    // At status 1 a refusal of the text or of a file was told by its line.
    ensures told { result ≡ 1 → TellsRefusal (IsStreamsRefusal wanted form
        (option_copied sdp.entry) ways.now (WasRead S.gave S.ended) (zip files.old files.new)
        (O.took output.old) (O.took output.new)) (F.took faults.old) (F.took faults.new) }
    ensures silent { result ≡ 0 → faults.new ≡ faults.old }
    ensures blamed { result ≡ 3 → Failed (F.failures faults.old) (F.failures faults.new)
        ⊎ (F.took faults.new ≡ F.took faults.old ++ device_line) }
    ensures memory { result ≡ 4 → F.took faults.new ≡ F.took faults.old ++ memory_line }
{
    let outcome = inspect_streams(alloc, wanted, form, sdp, files, ways, seen, output);
    end(outcome, faults)
}
