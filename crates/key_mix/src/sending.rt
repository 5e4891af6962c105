//! Settling frames, running a job on them, and sending its picture.
ghost use Rattle.std.specs.Prelude.{◌≤◌, IfErr, OnOk};
ghost use Rattle.std.specs.List.{AllByRecursion};
ghost use Rattle.key_mix.specs.Sending.{
  CountsJobSink,
  HasBase,
  IsSendFault,
  IsSendable,
  IsSentJob,
  Puts,
  Sends,
  input_formats,
  settled_inputs,
};

use crate::{Job, PreparedJob, SendJobFault};
use frame_assembly::{Base, Frame};
use packet_plan::Stamp;
use st_format::DatagramSink;
use std::alloc::{Allocator, Global};

/// A frame, and what a sample without a value gets: what a job takes for a picture. One allocator
/// for both keeps the inputs of a slice of one type.
#[derive_where(Clone, Copy)]
pub struct JobInput<'a, A: Allocator = Global> {
    /// Its samples may be missing or contested.
    pub frame: &'a Frame<A>,
    /// What such a sample gets: a fill that fits the frame's depth, or a picture of its format.
    pub base: Base<'a, A>,
}

/// Settles each input, runs a job on the pictures, and sends the job's picture in packets of at
/// most `max_octets` octets. Answers the number of the packet that comes next: `stamp.first` and
/// the number of packets, modulo 2^32.
///
/// It is [`PreparedJob::new`], and then [`PreparedJob::send`]. Each input's base is a fill that
/// fits the depth or a picture of the frame's format, and the payload type is at most 127.
///
/// # Errors
///
/// The first of these: `Job` with what [`run_job`](crate::run_job) refuses, want of memory aside;
/// `BadPacketSize` where `max_octets` is below 20 and the octets of a pgroup of the job's picture,
/// or above 9000; `Job(NoMemory)` where the memory was refused; `Sink` where the sink failed, which
/// was its one failure in this call. Before `Sink` nothing was sent.
pub fn send_job<A: Allocator, C: Allocator + Copy, S: DatagramSink>(
    alloc: C,
    job: &Job,
    inputs: &[JobInput<'_, A>],
    max_octets: u32,
    stamp: Stamp,
    sink: &mut S,
) -> Result<u32, SendJobFault>
    requires bases { AllByRecursion HasBase inputs.now }
    requires payload_type { stamp.payload_type ≤ 127 }
    ensures sent { Sends
        (λ ds. IsSentJob ds job.now (settled_inputs inputs.now) max_octets stamp)
        stamp.first (S.taken sink.old) (S.taken sink.new) result }
    // The same of any sink, by what its calls do to it.
    ensures puts { Puts S.takes S.fails
        (λ ds. IsSentJob ds job.now (settled_inputs inputs.now) max_octets stamp)
        stamp.first sink.old sink.new result }
    ensures sendable { OnOk result
        (IsSendable job.now (input_formats inputs.now) max_octets) }
    ensures fault { IfErr result
        (λ e. IsSendFault e job.now (input_formats inputs.now) max_octets) }
    // The sink fails once where it is the fault, and not at all where it isn't.
    ensures counted { CountsJobSink (S.failures sink.old) (S.failures sink.new) result }
{
    let mut prepared = PreparedJob::new(alloc, job, inputs, max_octets)?;
    Ok(prepared.send(stamp, sink)?)
}
