//! The engine of `process`.
ghost use Rattle.std.specs.Prelude.{◌≡◌, ◌≤◌, ◌∷◌, [], ◌-◌, ◌+◌, IfErr, IfOk, OnErr, OnOk, length};
ghost use Rattle.std.specs.Prelude.{ℕ, List, sum_by};
ghost use Rattle.std.specs.List.{AllByRecursion, zip};
ghost use Rattle.run_outcome.specs.AtFault.{PrintedAtFault};
ghost use Rattle.run_outcome.specs.Moments.{WasRead, pair};
ghost use Rattle.run_outcome.specs.Fault.{Accounts, IfRefused, counts, failures_in};
ghost use Rattle.run_outcome.specs.Refusing.{OfRefusal};
ghost use Rattle.key_mix.specs.Preparing.{IsPreparedJob};
ghost use Rattle.key_mix.specs.Sending.{HasBase, IsSendable, input_formats, settled_inputs};
ghost use Rattle.key_mix.specs.declared.Job.{Job};
ghost use Rattle.st_format.specs.Picture.{Values};
ghost use Rattle.run_outcome.specs.declared.fault.Fault.TheVariants.{Device, Refused};
ghost use Rattle.run_outcome.specs.declared.refusal.Refusal.TheVariants.{ProcessJob};
ghost use Rattle.run_outcome.specs.TextRefusals.{SaysText};
ghost use Rattle.receiver_engines.specs.JobText.{IsJobText};
ghost use Rattle.receiver_engines.specs.Processing.{PrintsSent, SendsFiles, SendsUnsaidPart};
ghost use Rattle.receiver_engines.specs.Processing.{SendsSaidFiles, SendsSaidJob, SendsSaidPart};
ghost use Rattle.receiver_engines.specs.Processing.{TakesSaid, of_send_job};
ghost use Rattle.receiver_engines.specs.Refused.{IsJobOrPlanRefusal, IsJobRefusal, IsRunRefusal};
ghost use Rattle.receiver_engines.specs.Refused.{IsSaidRunRefusal};

use crate::inputs::{check_held, fill_for, frames_at, inputs_of};
use crate::job_text::read_job;
use crate::reading::{read_held, read_receivers};
use crate::untold::Untold;
use key_mix::{Job, JobInput, PreparedJob, SendJobFault};
use media_file::{CaptureWriter, Paths};
use packet_plan::{PlanFault, Stamp};
use path_receiver::Receiver;
use run_outcome::{Fault, Line, Refusal, print, read_if_given};
use st_format::{ByteSink, ByteSource, Picture};
use std::alloc::Allocator;

/// What `process` is asked for, beside its files.
#[derive(Clone, Copy, Debug, PartialEq, Eq)]
pub struct Processing<'a> {
    /// The job, as `limit:nominal`, `limit:video`, `gain:G`, `ycc444`, `ycc422`,
    /// `wipe:columns:P:S`, `wipe:rows:P:S` or `key`.
    pub job: &'a [u8],
    /// The timestamp of the frames, in 90 kHz ticks: each receiver's window has to have it.
    pub timestamp: u32,
    /// The value of each component, with commas between, for a sample that has none.
    pub fill: &'a [u8],
    /// What the packets have in common; the payload type is at most 127.
    pub stamp: Stamp,
    /// The most octets of a packet, from 20 and those of a pgroup to 9000.
    pub max_octets: u32,
}

/// Runs a job on the frames of a timestamp, one of each receiver, writes the capture of the job's
/// picture to `sink`, by path A and with an empty text, and prints `sent N` to `output`, how many
/// datagrams that are.
///
/// The receivers' files are read in their order, and then the picture of `hold`, where there is
/// one. The first frame takes the held picture's values where it has none, and each other the
/// fill's.
///
/// # Errors
///
/// A refusal where the job's text is none (before any file is read), a file is refused, a
/// receiver's window hasn't the timestamp, the fill's text is none or has a value above the
/// greatest of a frame's depth, the held picture has another format than the first frame, or, in
/// this order, the job is refused or there is no such plan: neither `sink` nor `output` is touched
/// then. Else that memory was wanted, before either is touched, or that a device failed.
pub fn process<A, S, K, O>(
    alloc: A,
    wanted: Processing<'_>,
    states: &mut [S],
    hold: &mut Option<S>,
    sink: &mut K,
    output: &mut O,
) -> Result<(), Fault>
where
    A: Allocator + Copy,
    S: ByteSource,
    K: ByteSink,
    O: ByteSink,
    requires payload_type { wanted.stamp.payload_type ≤ 127 }
    ensures len { length states.new ≡ length states.old }
    ensures sent { OnOk result ((count : ℕ) × SendsFiles (WasRead S.gave S.ended)
        (zip states.old states.new) (pair hold.old hold.new)
        wanted.entry.job.now wanted.entry.timestamp wanted.entry.fill.now wanted.entry.max_octets
        wanted.entry.stamp (K.took sink.old) (K.took sink.new) count
        × PrintsSent count (O.took output.old) (O.took output.new)) }
    // Where it fails, what was written is a first part of such a capture.
    ensures part { OnErr result (SendsUnsaidPart wanted.entry.max_octets wanted.entry.stamp
        (K.took sink.old) (K.took sink.new)) }
    // And nothing was printed; or a first part of the line, since the output failed.
    ensures printed { OnErr result (PrintedAtFault O.took O.failures (λ line. (count : ℕ)
        × SendsFiles (WasRead S.gave S.ended) (zip states.old states.new) (pair hold.old hold.new)
        wanted.entry.job.now wanted.entry.timestamp wanted.entry.fill.now wanted.entry.max_octets
        wanted.entry.stamp (K.took sink.old) (K.took sink.new) count × PrintsSent count [] line)
        output.old output.new) }
    ensures refused { IfErr result (λ f. IfRefused f (sink.new ≡ sink.old)) }
    ensures quiet { IfErr result (λ f. IfRefused f (output.new ≡ output.old)) }
    // Memory is wanted before anything is written or printed.
    ensures memory { IfErr result (λ f. f ≡ Fault.Memory
        → (sink.new ≡ sink.old) × (output.new ≡ output.old)) }
    ensures refusal { IfErr result (λ f. OfRefusal f
        (IsRunRefusal (WasRead S.gave S.ended) (zip states.old states.new)
        (pair hold.old hold.new) wanted.entry)) }
    ensures failures { Accounts result
        (counts (sum_by S.failures states.old) (sum_by S.failures states.new)
        ∷ counts (failures_in S.failures hold.old) (failures_in S.failures hold.new)
        ∷ counts (K.failures sink.old) (K.failures sink.new)
        ∷ counts (O.failures output.old) (O.failures output.new) ∷ []) }
{
    let sent = process_files(alloc, wanted, &[], states, hold, sink)?;
    print(Line::Sent(u64::from(sent)), output)
}

/// Refuses a text that is that of no job. No file is looked at.
///
/// # Errors
///
/// `ProcessJob` where it is none.
pub fn check_job(text: &[u8]) -> Result<(), Fault>
    ensures job { OnOk result ((job : Job) × IsJobText text.now job) }
    ensures refusal { IfErr result (λ f. OfRefusal f
        (λ r. (r ≡ ProcessJob) × ((job : Job) → IsJobText text.now job → ⊥))) }
    // No memory is asked for.
    ensures only { IfErr result (λ f. f ≡ Refused ProcessJob) }
    ensures failures { Accounts result [] }
{
    match read_job(text) {
        Some(_) => Ok(()),
        None => Err(Fault::Refused(Refusal::ProcessJob)),
    }
}

/// Does what [`process`] does, but the capture's text is the SDP text of `sdp`, where there is one.
/// It is read behind the job's text and before the receivers' files.
///
/// # Errors
///
/// As [`process`]; and a refusal where the SDP is longer than 65,535 octets or refused. Neither
/// `sink` nor `output` is touched then.
pub fn process_said<A, S, K, O>(
    alloc: A,
    wanted: Processing<'_>,
    sdp: &mut Option<S>,
    states: &mut [S],
    hold: &mut Option<S>,
    sink: &mut K,
    output: &mut O,
) -> Result<(), Fault>
where
    A: Allocator + Copy,
    S: ByteSource,
    K: ByteSink,
    O: ByteSink,
    requires payload_type { wanted.stamp.payload_type ≤ 127 }
    ensures len { length states.new ≡ length states.old }
    ensures sent { OnOk result ((text : List ℕ) × SaysText S.gave S.ended sdp.old sdp.new text
        × ((count : ℕ) × SendsSaidFiles text (WasRead S.gave S.ended)
        (zip states.old states.new) (pair hold.old hold.new)
        wanted.entry.job.now wanted.entry.timestamp wanted.entry.fill.now wanted.entry.max_octets
        wanted.entry.stamp (K.took sink.old) (K.took sink.new) count
        × PrintsSent count (O.took output.old) (O.took output.new))) }
    // Where it fails, what was written is a first part of a capture of a text.
    ensures part { OnErr result ((text : List ℕ) × SendsSaidPart text wanted.entry.max_octets
        wanted.entry.stamp (K.took sink.old) (K.took sink.new)) }
    // And nothing was printed; or a first part of the line, since the output failed.
    ensures printed { OnErr result (PrintedAtFault O.took O.failures (λ line. (text : List ℕ)
        × SaysText S.gave S.ended sdp.old sdp.new text
        × ((count : ℕ) × SendsSaidFiles text (WasRead S.gave S.ended)
        (zip states.old states.new) (pair hold.old hold.new)
        wanted.entry.job.now wanted.entry.timestamp wanted.entry.fill.now wanted.entry.max_octets
        wanted.entry.stamp (K.took sink.old) (K.took sink.new) count × PrintsSent count [] line))
        output.old output.new) }
    ensures refused { IfErr result (λ f. IfRefused f (sink.new ≡ sink.old)) }
    ensures quiet { IfErr result (λ f. IfRefused f (output.new ≡ output.old)) }
    // Memory is wanted before anything is written or printed.
    ensures memory { IfErr result (λ f. f ≡ Fault.Memory
        → (sink.new ≡ sink.old) × (output.new ≡ output.old)) }
    // Of the words and files the refusal is the first.
    ensures refusal { IfErr result (λ f. OfRefusal f
        (IsSaidRunRefusal (WasRead S.gave S.ended) sdp.old sdp.new (zip states.old states.new)
        (pair hold.old hold.new) wanted.entry)) }
    ensures failures { Accounts result
        (counts (failures_in S.failures sdp.old) (failures_in S.failures sdp.new)
        ∷ counts (sum_by S.failures states.old) (sum_by S.failures states.new)
        ∷ counts (failures_in S.failures hold.old) (failures_in S.failures hold.new)
        ∷ counts (K.failures sink.old) (K.failures sink.new)
        ∷ counts (O.failures output.old) (O.failures output.new) ∷ []) }
{
    check_job(wanted.job)?;
    let said = read_if_given(alloc, sdp)?;
    let sent = process_files(alloc, wanted, &said, states, hold, sink)?;
    print(Line::Sent(u64::from(sent)), output)
}

/// Reads the job and the files, sends the job's picture into a capture of this text, and answers
/// how many datagrams that is.
fn process_files<A: Allocator + Copy, S: ByteSource, K: ByteSink>(
    alloc: A,
    wanted: Processing<'_>,
    said: &[u8],
    states: &mut [S],
    hold: &mut Option<S>,
    sink: &mut K,
) -> Result<u32, Fault>
    requires payload_type { wanted.stamp.payload_type ≤ 127 }
    requires text { length said.now ≤ 65535 }
    ensures len { length states.new ≡ length states.old }
    ensures sent { IfOk result (λ n. SendsSaidFiles said.now (WasRead S.gave S.ended)
        (zip states.old states.new) (pair hold.old hold.new)
        wanted.entry.job.now wanted.entry.timestamp wanted.entry.fill.now wanted.entry.max_octets
        wanted.entry.stamp (K.took sink.old) (K.took sink.new) n) }
    ensures part { OnErr result (SendsSaidPart said.now wanted.entry.max_octets
        wanted.entry.stamp (K.took sink.old) (K.took sink.new)) }
    ensures refused { IfErr result (λ f. IfRefused f (sink.new ≡ sink.old)) }
    ensures memory { IfErr result (λ f. f ≡ Fault.Memory → sink.new ≡ sink.old) }
    ensures refusal { IfErr result (λ f. OfRefusal f
        (IsRunRefusal (WasRead S.gave S.ended) (zip states.old states.new)
        (pair hold.old hold.new) wanted.entry)) }
    ensures failures { Accounts result
        (counts (sum_by S.failures states.old) (sum_by S.failures states.new)
        ∷ counts (failures_in S.failures hold.old) (failures_in S.failures hold.new)
        ∷ counts (K.failures sink.old) (K.failures sink.new) ∷ []) }
{
    let Some(job) = read_job(wanted.job) else {
        return Err(Fault::Refused(Refusal::ProcessJob));
    };
    let receivers = read_receivers(alloc, states)?;
    let held = read_held(alloc, hold)?;
    send_frames(alloc, &job, wanted, said, &receivers, &held, sink)
}

/// Sends the job's picture of the receivers' frames, and answers how many datagrams that is.
fn send_frames<A: Allocator + Copy, K: ByteSink>(
    alloc: A,
    job: &Job,
    wanted: Processing<'_>,
    said: &[u8],
    receivers: &[Receiver<A>],
    held: &Option<Picture<A>>,
    sink: &mut K,
) -> Result<u32, Fault>
    requires payload_type { wanted.stamp.payload_type ≤ 127 }
    requires text { length said.now ≤ 65535 }
    ensures part { OnErr result (SendsSaidPart said.now wanted.entry.max_octets
        wanted.entry.stamp (K.took sink.old) (K.took sink.new)) }
    ensures refused { IfErr result (λ f. IfRefused f (sink.new ≡ sink.old)) }
    ensures memory { IfErr result (λ f. f ≡ Fault.Memory → sink.new ≡ sink.old) }
    ensures sent { IfOk result (λ n. SendsSaidJob said.now job.now wanted.entry.timestamp
        wanted.entry.fill.now wanted.entry.max_octets wanted.entry.stamp receivers.now held.now
        (K.took sink.old) (K.took sink.new) n) }
    ensures refusal { IfErr result (λ f. OfRefusal f
        (IsJobRefusal job.now wanted.entry receivers.now held.now)) }
    ensures failures { Accounts result (counts (K.failures sink.old) (K.failures sink.new) ∷ []) }
{
    let frames = frames_at(alloc, receivers, wanted.timestamp)?;
    let fill = fill_for(wanted.fill, &frames)?;
    check_held(held, &frames)?;
    let inputs = inputs_of(alloc, &frames, fill, held)?;
    send(alloc, job, &inputs, wanted, said, sink)
}

/// Writes the capture of the job's picture, and answers how many datagrams that is. The capture is
/// begun once nothing but the sink can fail.
fn send<A: Allocator + Copy, K: ByteSink>(
    alloc: A,
    job: &Job,
    inputs: &[JobInput<'_, A>],
    wanted: Processing<'_>,
    said: &[u8],
    sink: &mut K,
) -> Result<u32, Fault>
    requires bases { AllByRecursion HasBase inputs.now }
    requires payload_type { wanted.stamp.payload_type ≤ 127 }
    requires text { length said.now ≤ 65535 }
    ensures part { OnErr result (SendsSaidPart said.now wanted.entry.max_octets
        wanted.entry.stamp (K.took sink.old) (K.took sink.new)) }
    ensures refused { IfErr result (λ f. IfRefused f (sink.new ≡ sink.old)) }
    ensures memory { IfErr result (λ f. f ≡ Fault.Memory → sink.new ≡ sink.old) }
    ensures sent { IfOk result (λ n. TakesSaid said.now job.now (settled_inputs inputs.now)
        wanted.entry.max_octets wanted.entry.stamp (K.took sink.old) (K.took sink.new) n) }
    ensures sendable { OnOk result
        (IsSendable job.now (input_formats inputs.now) wanted.entry.max_octets) }
    ensures refusal { IfErr result (λ f. OfRefusal f (λ r.
        IsJobOrPlanRefusal job.now wanted.entry.max_octets r (input_formats inputs.now))) }
    ensures failures { Accounts result (counts (K.failures sink.old) (K.failures sink.new) ∷ []) }
{
    let mut prepared = match PreparedJob::new(alloc, job, inputs, wanted.max_octets) {
        Ok(prepared) => prepared,
        Err(fault) => return Err(send_job_fault(fault)),
    };
    send_capture(&mut prepared, wanted.stamp, said, sink)
}

/// Sends a prepared job's picture into a capture of this text, and answers how many datagrams that
/// is. An `Err` is the sink's one failure.
fn send_capture<A: Allocator + Copy, K: ByteSink>(
    prepared: &mut PreparedJob<'_, A, A>,
    stamp: Stamp,
    said: &[u8],
    sink: &mut K,
) -> Result<u32, Fault>
    requires payload_type { stamp.payload_type ≤ 127 }
    requires text { length said.now ≤ 65535 }
    ensures sent { IfOk result (λ n. (job : Job) (pictures : List Values) (size : ℕ)
        → IsPreparedJob prepared.old job pictures size
        → TakesSaid said.now job pictures size stamp (K.took sink.old) (K.took sink.new) n) }
    ensures part { OnErr result ((job : Job) (pictures : List Values) (size : ℕ)
        → IsPreparedJob prepared.old job pictures size
        → SendsSaidPart said.now size stamp (K.took sink.old) (K.took sink.new)) }
    ensures device { IfErr result (λ f. f ≡ Device) }
    ensures failures { Accounts result (counts (K.failures sink.old) (K.failures sink.new) ∷ []) }
{
    let mut capture = match CaptureWriter::open(Untold::new(&mut *sink), Paths::OnlyA, said) {
        Ok(capture) => capture,
        Err(failed) => {
            let _ = failed.1.into_inner();
            return Err(Fault::Device);
        }
    };
    let sent = prepared.send(stamp, &mut capture);
    let _ = capture.into_inner().into_inner();
    match sent {
        Ok(next) => Ok(next.wrapping_sub(stamp.first)),
        Err(_) => Err(Fault::Device),
    }
}

/// A fault of the sending as one that ends a run: the sink's is a device's.
fn send_job_fault(fault: SendJobFault) -> Fault
    ensures { result ≡ of_send_job fault }
{
    match fault {
        SendJobFault::Job(fault) => Fault::from(fault),
        SendJobFault::BadPacketSize => Fault::from(PlanFault::BadPacketSize),
        SendJobFault::Sink { .. } => Fault::Device,
    }
}
