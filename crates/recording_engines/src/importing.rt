//! The engine of `import`.
ghost use Rattle.std.specs.Prelude.{◌≡◌, ◌∷◌, [], None, Some, length, map, slice_get, IfErr, IfOk};
ghost use Rattle.std.specs.Prelude.{◌≢◌, ◌⊎◌, List, OnErr};
ghost use Rattle.std.specs.List.{AllByRecursion, sum_by, zip};
ghost use Rattle.std.specs.Option.{option_copied};
ghost use Rattle.flow.specs.Flow.{IsOnePlace};
ghost use Rattle.recording_counts.specs.LeftOut.{left_out_of};
ghost use Rattle.recording_counts.specs.declared.omission.Omission.{Omission as Reason};
ghost use Rattle.run_outcome.specs.AtFault.{PrintedAtFault};
ghost use Rattle.run_outcome.specs.Fault.{Accounts, IfRefused, counts};
ghost use Rattle.run_outcome.specs.Moments.{WasRead};
ghost use Rattle.run_outcome.specs.Refusing.{OfRefusal};
ghost use Rattle.run_outcome.specs.Text.{GivesFew, GivesText};
ghost use Rattle.run_outcome.specs.declared.refusal.Refusal.TheVariants.{ImportFlow, ImportRecords};
ghost use Rattle.st_format.specs.History.{IsRead};
ghost use Rattle.recording_engines.specs.Files.{AllClosed, AllReady, AreLeftOut, HasKnownOctets};
ghost use Rattle.recording_engines.specs.Files.{IsReadByFlows, begun_of, ended_by, failures_by};
ghost use Rattle.recording_engines.specs.Files.{gave_by, standings};
ghost use Rattle.recording_engines.specs.Imported.{AsksFlows, Imports, ImportsUpTo, IsAsked};
ghost use Rattle.recording_engines.specs.Imported.{IsImportFlowsRefusal};
ghost use Rattle.recording_engines.specs.Imported.{IsImportRefusal, IsPlacesRefusal};
ghost use Rattle.recording_engines.specs.Imported.{IsSdpFlowsRefusal, IsNoFlowRefusal, SaysFlows};
ghost use Rattle.recording_engines.specs.Progress.{HasWrittenAll, IsDeviceOrFile};
ghost use Rattle.recording_engines.specs.Progress.{StopsJoining, StopsUpTo};
ghost use Rattle.st_format.specs.Device.{Failed};
ghost use Rattle.recording_engines.specs.Steps.{AllFresh};
ghost use Rattle.recording_engines.specs.Strands.{TakesBy, TellsPaths, only_a, only_b};
ghost use Rattle.recording_engines.specs.declared.importing.ImportCounts.{ImportCounts as Sums};

use crate::file::ImportFile;
use crate::files::{know_all, left_out};
use crate::joining::join;
use crate::opening::open_all;
use flow::{Flow, Flows, read_flow};
use media_file::write_front;
use recording_counts::LeftOut;
use run_outcome::{Fault, Line, Refusal, print, read_checked};
use sdp_format::read_flows;
use st_format::{ByteSink, ByteSource};
use std::alloc::{AllocError, Allocator};

/// By which flows recordings are to be taken: the texts of the paths' flows. Where there is any, a
/// path without one is not taken; and where there is none, the SDP says the flows.
#[derive(Clone, Copy)]
pub struct FlowWords<'a> {
    pub a: Option<&'a [u8]>,
    pub b: Option<&'a [u8]>,
}

/// Makes a capture of captures and of recordings of other tools, each told by its first octets.
///
/// The SDP text is read first, of at most 65,535 octets, and becomes the capture's text. A
/// capture's records are taken with their paths and moments. Of a recording a record is a UDP
/// datagram of a flow: its path, when it came, in nanoseconds since 1970, or 0 where the recording
/// doesn't say, and its octets. The flows of the paths are those that `wanted` names, or else those
/// of the SDP's video sections, one or two, the first path A's. Where both paths have one flow, the
/// first of two files is path A's, and the second path B's. Each file is read once, and its order
/// is kept; always the earliest of the next records is written, of equally early ones the first
/// file's. All else is left out.
///
/// Behind the last record `recorded A N B M left out K` is printed to `output`, and these numbers
/// are answered, what was left out by the reason; K is their sum.
///
/// # Errors
///
/// A refusal where the SDP, a word for a flow, the flows or a file is refused, or where there are
/// more than 16,777,216 records; nothing is written to `capture` before each file was read as far
/// as its first record. And else that a device failed or memory was wanted. Where it is refused
/// nothing is printed.
pub fn import<A, D, S, K, O>(
    alloc: A,
    wanted: FlowWords<'_>,
    sdp: &mut D,
    files: &mut [ImportFile<A, S>],
    capture: &mut K,
    output: &mut O,
) -> Result<ImportCounts, Fault>
where
    A: Allocator + Copy,
    D: ByteSource,
    S: ByteSource + Drop,
    K: ByteSink,
    O: ByteSink,
    requires { AllClosed files.old }
    ensures len { length files.new ≡ length files.old }
    // What was read of the files is all of them, up to their ends.
    ensures imported { IfOk result (Imports
        (option_copied wanted.entry.a) (option_copied wanted.entry.b)
        (GivesText 65535 (D.gave sdp.old) (D.gave sdp.new) (D.ended sdp.new))
        (WasRead (gave_by S.gave) (ended_by S.ended)) (zip files.old files.new)
        (K.took capture.old) (K.took capture.new) (O.took output.old) (O.took output.new)) }
    ensures refusal { IfErr result (λ f. OfRefusal f (IsImportRefusal
        (option_copied wanted.entry.a) (option_copied wanted.entry.b)
        (IsRead (D.gave sdp.old) (D.gave sdp.new) (D.ended sdp.new))
        (GivesText 65535 (D.gave sdp.old) (D.gave sdp.new) (D.ended sdp.new))
        (WasRead (gave_by S.gave) (ended_by S.ended)) (zip files.old files.new)
        (K.took capture.old) (K.took capture.new))) }
    // Where it fails, nothing was written; or the text, and behind it the first of the records, all
    // of that or a first part, where the capture failed.
    ensures part { OnErr result (ImportsUpTo
        (option_copied wanted.entry.a) (option_copied wanted.entry.b)
        (GivesText 65535 (D.gave sdp.old) (D.gave sdp.new) (D.ended sdp.new))
        (WasRead (gave_by S.gave) (ended_by S.ended))
        (Failed (K.failures capture.old) (K.failures capture.new)) (zip files.old files.new)
        (K.took capture.old) (K.took capture.new)) }
    // And nothing was printed; or a first part of the line, since the output failed.
    ensures printed { OnErr result (PrintedAtFault O.took O.failures (λ text. (n : Sums)
        × Imports (option_copied wanted.entry.a) (option_copied wanted.entry.b)
        (GivesText 65535 (D.gave sdp.old) (D.gave sdp.new) (D.ended sdp.new))
        (WasRead (gave_by S.gave) (ended_by S.ended)) (zip files.old files.new)
        (K.took capture.old) (K.took capture.new) [] text n) output.old output.new) }
    // A refusal comes before anything is printed.
    ensures quiet { IfErr result (λ f. IfRefused f (output.new ≡ output.old)) }
    // So memory is wanted, for a text that isn't too long; and, unless a file's reader says so,
    // before anything is written.
    ensures memory { IfErr result (λ f. f ≡ Fault.Memory → (output.new ≡ output.old)
        × GivesFew 65535 (D.gave sdp.old) (D.gave sdp.new)
        × ((capture.new ≡ capture.old) ⊎ IsDeviceOrFile files.new f)) }
    ensures failures { Accounts result (counts (D.failures sdp.old) (D.failures sdp.new)
        ∷ counts (sum_by (failures_by S.failures) files.old)
        (sum_by (failures_by S.failures) files.new)
        ∷ counts (K.failures capture.old) (K.failures capture.new)
        ∷ counts (O.failures output.old) (O.failures output.new) ∷ []) }
{
    let said = read_checked(alloc, sdp, Refusal::ImportSdp)?;
    let flows = flows_of(wanted, &said)?;
    let each = taken_by(alloc, flows, files.len())?;
    open_all(alloc, &each, files)?;
    write_front(capture, &said)?;
    let counts = join_all(files, capture)?;
    print(
        Line::Recorded(counts.a, counts.b, counts.left_out.total()),
        output,
    )?;
    Ok(counts)
}

/// What became of the records and packets of files.
#[derive(Clone, Copy)]
pub struct ImportCounts {
    /// How many records were written of path A.
    pub a: u64,
    /// And how many of path B.
    pub b: u64,
    /// The packets of which no record was made.
    pub left_out: LeftOut,
}

/// Writes all records of files as [`join`] does, counts what was left out too, and learns what is
/// known of the files.
fn join_all<A: Allocator, S: ByteSource, K: ByteSink>(
    files: &mut [ImportFile<A, S>],
    capture: &mut K,
) -> Result<ImportCounts, Fault>
    requires ready { AllReady files.old }
    requires fresh { AllFresh (standings files.old) }
    ensures files { length files.new ≡ length files.old }
    ensures begun { map begun_of files.new ≡ map begun_of files.old }
    ensures known { AllByRecursion (HasKnownOctets S.gave S.ended) files.new }
    ensures by_flows { AllByRecursion IsReadByFlows files.new }
    ensures joined { IfOk result (λ r. HasWrittenAll files.new (K.took capture.old)
        (K.took capture.new) (record { a = r.a; b = r.b })) }
    ensures left { IfOk result (λ r. (omissions : List Reason) → AreLeftOut files.new omissions
        → r.left_out ≡ left_out_of omissions) }
    ensures stopped { IfErr result (λ f. OfRefusal f (λ r. StopsJoining r files.new
        (K.took capture.old) (K.took capture.new))) }
    ensures part { OnErr result (StopsUpTo
        (Failed (K.failures capture.old) (K.failures capture.new)) files.new
        (K.took capture.old) (K.took capture.new)) }
    // No memory is asked for.
    ensures only { IfErr result (λ f. IsDeviceOrFile files.new f
        ⊎ (f ≡ Fault.Refused ImportRecords)) }
    ensures failures { Accounts result (counts (sum_by (failures_by S.failures) files.old)
        (sum_by (failures_by S.failures) files.new)
        ∷ counts (K.failures capture.old) (K.failures capture.new) ∷ []) }
{
    let joined = join(files, capture);
    know_all(files);
    let written = joined?;
    Ok(ImportCounts {
        a: written.a,
        b: written.b,
        left_out: left_out(files),
    })
}

/// The flow that a word says, where one is given; `ImportFlow` where it says none.
fn flow_of(word: Option<&[u8]>) -> Result<Option<Flow>, Fault>
    ensures asked { IfOk result (λ f. IsAsked (option_copied word.entry) f) }
    ensures refusal { IfErr result (λ f. OfRefusal f (IsNoFlowRefusal (option_copied word.entry))) }
    // No memory is asked for.
    ensures only { IfErr result (λ f. f ≡ Fault.Refused ImportFlow) }
    ensures failures { Accounts result [] }
{
    let Some(text) = word else {
        return Ok(None);
    };
    match read_flow(text) {
        Some(flow) => Ok(Some(flow)),
        None => Err(Fault::Refused(Refusal::ImportFlow)),
    }
}

/// The flows that the words ask for, or else those of the SDP text `said`.
///
/// # Errors
///
/// `ImportFlow` where a word is no flow's; where there is no word, the SDP's fault.
pub fn flows_of(wanted: FlowWords<'_>, said: &[u8]) -> Result<Flows, Fault>
    ensures asked { IfOk result (λ f. AsksFlows (option_copied wanted.entry.a)
        (option_copied wanted.entry.b) said.now f) }
    ensures refusal { IfErr result (λ f. OfRefusal f (IsImportFlowsRefusal
        (option_copied wanted.entry.a) (option_copied wanted.entry.b) said.now)) }
    // No memory is asked for.
    ensures unwanted { IfErr result (λ f. f ≢ Fault.Memory) }
    ensures failures { Accounts result [] }
{
    if wanted.a.is_none() && wanted.b.is_none() {
        return said_flows(said);
    }
    let a = flow_of(wanted.a)?;
    let b = flow_of(wanted.b)?;
    Ok(Flows { a, b })
}

/// The flows of an SDP: the first video section's is path A's, the second's path B's.
fn said_flows(said: &[u8]) -> Result<Flows, Fault>
    ensures said { IfOk result (λ f. SaysFlows said.now f) }
    ensures refusal { IfErr result (λ f. OfRefusal f (IsSdpFlowsRefusal said.now)) }
    // No memory is asked for.
    ensures unwanted { IfErr result (λ f. f ≢ Fault.Memory) }
    ensures failures { Accounts result [] }
{
    let flows = read_flows(said)?;
    Ok(Flows {
        a: flow_at(flows.as_slice(), 0),
        b: flow_at(flows.as_slice(), 1),
    })
}

fn flow_at(flows: &[Flow], place: usize) -> Option<Flow>
    ensures { result ≡ slice_get flows.now place }
{
    flows.get(place).copied()
}

/// The flows of path A alone, and of path B alone.
fn apart(flows: Flows) -> (Flows, Flows)
    ensures { result ≡ (only_a flows, only_b flows) }
{
    let a = Flows {
        a: flows.a,
        b: None,
    };
    let b = Flows {
        a: None,
        b: flows.b,
    };
    (a, b)
}

/// The flows by which each of so many files is taken where it is a recording: all of `flows` for
/// each; or, where both paths have one flow, path A's for the first of two, and path B's for the
/// second, and none for other numbers of files.
fn taken_by<A: Allocator>(
    alloc: A,
    flows: Flows,
    count: usize,
) -> Result<Vec<Option<Flows>, A>, AllocError>
    ensures { IfOk result (λ each. TakesBy flows count each.items) }
{
    if !flows.is_one_place() {
        return vec![in alloc; Some(flows); count];
    }
    if count != 2 {
        return vec![in alloc; None; count];
    }
    let (a, b) = apart(flows);
    Vec::from_slice(alloc, &[Some(a), Some(b)])
}

/// The flows by which each of so many recordings is taken: all of `flows` for each; or, where both
/// paths have one flow, path A's for the first of two, and path B's for the second.
///
/// # Errors
///
/// `ImportPlaces` where both paths have one flow, and there aren't two recordings; and that memory
/// was wanted.
pub fn flows_each<A: Allocator>(
    alloc: A,
    flows: Flows,
    count: usize,
) -> Result<Vec<Flows, A>, Fault>
    ensures tells { IfOk result (λ each. TellsPaths flows count each.items) }
    ensures refusal { IfErr result (λ f. OfRefusal f (IsPlacesRefusal flows count)) }
    // No memory is wanted for flows that are refused.
    ensures memory { IfErr result (λ f. f ≡ Fault.Memory → IsOnePlace flows → count ≡ 2) }
    ensures failures { Accounts result [] }
{
    if !flows.is_one_place() {
        return Ok(vec![in alloc; flows; count]?);
    }
    if count != 2 {
        return Err(Fault::Refused(Refusal::ImportPlaces));
    }
    let (a, b) = apart(flows);
    Ok(Vec::from_slice(alloc, &[a, b])?)
}
