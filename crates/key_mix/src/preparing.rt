//! A job's picture that is ready to be sent.
ghost use Rattle.std.specs.Prelude.{◌≡◌, ◌≤◌, ◌+◌, ◌%◌, ◌^◌, length, IfErr, IfOk, OnOk};
ghost use Rattle.std.specs.List.{AllByRecursion};
ghost use Rattle.st_format.specs.Device.{CountsFaults};
ghost use Rattle.st_format.specs.Picture.{IsPicture};
ghost use Rattle.packet_plan.specs.Sending.{PutsPart, PutsPicture, SendsPart, SendsPicture};
ghost use Rattle.key_mix.specs.Jobs.{IsJobFormat, IsJobPicture, IsRefusal, IsSoundJob};
ghost use Rattle.key_mix.specs.Preparing.{IsPreparedJob, raster_picture};
ghost use Rattle.key_mix.specs.Sending.{
  HasBase,
  IsEarly,
  IsSendFault,
  IsSendable,
  input_formats,
  settled_inputs,
};
ghost use Rattle.key_mix.specs.declared.faults.JobFault.TheVariants.{NoMemory};

use crate::formats::{format_of_one, format_of_three, format_of_two};
use crate::making::MadePicture;
use crate::{Job, JobFault, JobInput, SendJobFault, run_job};
use packet_plan::{Plan, SendFault, Stamp, send_frame};
use st_format::{DatagramSink, Format, Picture};
use std::alloc::{AllocError, Allocator, Global};
use std::marker::Model;

/// The picture that is sent.
#[derive(Drop)]
enum JobRaster<'a, A: Allocator, C: Allocator> {
    /// Its samples are made of the inputs' frames as they are sent.
    Made(MadePicture<'a, A>),
    /// It was made before, and is kept.
    Kept(Picture<C>),
}

/// A job's picture that is ready to be sent: all that can be refused of it was tested, and all
/// memory is taken. What is left to fail is the sink.
///
/// Contracts see it as the picture's values and the plan by which they are sent.
#[derive(Drop)]
pub struct PreparedJob<'a, A: Allocator = Global, C: Allocator = Global> {
    plan: Plan<C>,
    raster: JobRaster<'a, A, C>,
    // room for a datagram
    buf: Vec<u8, C>,
}

impl<'a, A: Allocator, C: Allocator> Model for PreparedJob<'a, A, C> {
    ghost use Rattle.std.specs.Prelude.{length};
    ghost use Rattle.key_mix.specs.Preparing.{FitsPlan, Prepared, prepared};

    ghost Value = { Prepared };

    ghost view = { λ p. prepared p.raster p.plan };

    ghost invariant = { λ p. FitsPlan (prepared p.raster p.plan) (length p.buf.items) };
}

impl<'a, A: Allocator, C: Allocator + Copy> PreparedJob<'a, A, C> {
    /// Settles each input, runs a job on the pictures, and plans packets of at most `max_octets`
    /// octets. Nothing is sent.
    ///
    /// Each input's base is a fill that fits the depth or a picture of the frame's format. A key of
    /// inputs of one format, and Y, Cb and Cr of R, G and B, are made as they are sent: no memory
    /// is taken for pictures, but where they have fewer than 393,216 samples, a row fewer than 480,
    /// or a packet fewer than 240.
    ///
    /// # Errors
    ///
    /// The first of these: `Job` with what [`run_job`] refuses, want of memory aside;
    /// `BadPacketSize` where `max_octets` is below 20 and the octets of a pgroup of the job's
    /// picture, or above 9000; `Job(NoMemory)` where the memory was refused.
    pub fn new(
        alloc: C,
        job: &Job,
        inputs: &[JobInput<'a, A>],
        max_octets: u32,
    ) -> Result<PreparedJob<'a, A, C>, SendJobFault>
        requires bases { AllByRecursion HasBase inputs.now }
        ensures prepared { IfOk result
            (λ p. IsPreparedJob p job.now (settled_inputs inputs.now) max_octets) }
        ensures sendable { OnOk result
            (IsSendable job.now (input_formats inputs.now) max_octets) }
        ensures fault { IfErr result
            (λ e. IsSendFault e job.now (input_formats inputs.now) max_octets) }
        ensures early { IfErr result IsEarly }
    {
        let plan = job_plan(alloc, job, inputs, max_octets)?;
        plan.facts();
        let raster = job_raster(alloc, job, inputs, &plan)?;
        let buf = Vec::from_elem(alloc, 0, plan.max_octets() as usize)?;
        Ok(PreparedJob { plan, raster, buf })
    }

    /// Sends the picture, and answers the number of the packet that comes next: `stamp.first` and
    /// the number of packets, modulo 2^32. The payload type is at most 127. It can be sent again.
    ///
    /// # Errors
    ///
    /// `SendFault` where the sink failed, which was its one failure in this call.
    pub fn send<S: DatagramSink>(&mut self, stamp: Stamp, sink: &mut S) -> Result<u32, SendFault>
        requires payload_type { stamp.payload_type ≤ 127 }
        ensures kept { self.new ≡ self.old }
        ensures sent { OnOk result (SendsPicture self.old.picture stamp self.old.plan
            (S.taken sink.old) (S.taken sink.new)) }
        ensures next { IfOk result
            (λ next. next ≡ (stamp.first + length self.old.plan.packets) % 2 ^ 32) }
        ensures fault { IfErr result (λ e. SendsPart self.old.picture stamp self.old.plan e.sent
            (S.taken sink.old) (S.taken sink.new)) }
        // The same of any sink, by what its calls do to it.
        ensures puts { OnOk result (PutsPicture S.takes self.old.picture stamp self.old.plan
            sink.old sink.new) }
        ensures puts_part { IfErr result (λ e. PutsPart S.takes S.fails self.old.picture stamp
            self.old.plan e.sent sink.old sink.new) }
        // The sink fails once where there is a fault, and not at all where there is none.
        ensures counted { CountsFaults (S.failures sink.old) (S.failures sink.new) result }
    {
        let buf = self.buf.as_mut_slice();
        match &self.raster {
            JobRaster::Made(made) => send_frame(&self.plan, made, stamp, buf, sink),
            JobRaster::Kept(picture) => send_frame(&self.plan, picture, stamp, buf, sink),
        }
    }
}

/// From how many samples on a picture is large: a job of three pictures would keep 3 MB and more,
/// while those of a smaller one stay in a processor's caches.
const LARGE_PICTURE: usize = 393_216;

/// From how many samples on a run is long: what it costs to make is little beside what that saves.
const LONG_RUN: usize = 240;

/// From how many samples on a row is long: where it ends it cuts a run, so of a shorter one many
/// runs are short.
const LONG_ROW: usize = 480;

/// How many octets stand before the samples of a packet of one run (RFC 3550, 5.1; RFC 4175, 4.1).
const HEADS: usize = 20;

/// Whether a plan's picture is large and its runs are long, so that samples are made faster as they
/// are sent than in a picture before.
fn has_long_runs<A: Allocator>(plan: &Plan<A>) -> bool {
    let format = plan.format();
    let group = format.pgroup();
    let room = (plan.max_octets() as usize).saturating_sub(HEADS);
    let run = room / group.octets * group.samples;
    run >= LONG_RUN && format.row_samples() >= LONG_ROW && format.sample_count() >= LARGE_PICTURE
}

/// A plan for the job's picture: `Job` where that is refused, and then `BadPacketSize`, before want
/// of memory.
fn job_plan<A: Allocator, C: Allocator + Copy>(
    alloc: C,
    job: &Job,
    inputs: &[JobInput<'_, A>],
    max_octets: u32,
) -> Result<Plan<C>, SendJobFault>
    ensures format { IfOk result (λ p. IsJobFormat p.format job.now (input_formats inputs.now)) }
    ensures octets { IfOk result (λ p. p.max_octets ≡ max_octets) }
    ensures sendable { OnOk result
        (IsSendable job.now (input_formats inputs.now) max_octets) }
    ensures fault { IfErr result
        (λ e. IsSendFault e job.now (input_formats inputs.now) max_octets) }
    ensures early { IfErr result IsEarly }
{
    let format = job_format(job, inputs)?;
    Ok(Plan::new(alloc, format, max_octets)?)
}

/// The job's picture of settled inputs, against which nothing speaks, for this plan: only memory
/// can fail.
fn job_raster<'a, A: Allocator, C: Allocator + Copy>(
    alloc: C,
    job: &Job,
    inputs: &[JobInput<'a, A>],
    plan: &Plan<C>,
) -> Result<JobRaster<'a, A, C>, JobFault>
    requires bases { AllByRecursion HasBase inputs.now }
    requires sound { IsSoundJob job.now (input_formats inputs.now) }
    requires format { IsJobFormat plan.now.format job.now (input_formats inputs.now) }
    ensures made { IfOk result
        (λ r. IsJobPicture (raster_picture r) job.now (settled_inputs inputs.now)) }
    ensures whole { IfOk result (λ r. IsPicture (raster_picture r)) }
    ensures only { IfErr result (λ e. e ≡ NoMemory) }
{
    if has_long_runs(plan) {
        if let Some(made) = MadePicture::of(job, inputs, plan.format()) {
            return Ok(JobRaster::Made(made));
        }
    }
    Ok(JobRaster::Kept(job_picture(alloc, job, inputs)?))
}

/// The same, made before it is sent.
fn job_picture<A: Allocator, C: Allocator + Copy>(
    alloc: C,
    job: &Job,
    inputs: &[JobInput<'_, A>],
) -> Result<Picture<C>, JobFault>
    requires bases { AllByRecursion HasBase inputs.now }
    requires sound { IsSoundJob job.now (input_formats inputs.now) }
    ensures made { IfOk result (λ p. IsJobPicture p job.now (settled_inputs inputs.now)) }
    ensures whole { IfOk result (λ p. IsPicture p) }
    ensures only { IfErr result (λ e. e ≡ NoMemory) }
{
    let pictures = settle_inputs(alloc, inputs)?;
    run_job(alloc, job, pictures.as_slice())
}

/// The format of a job's picture of inputs, or the first refusal.
fn job_format<A: Allocator>(job: &Job, inputs: &[JobInput<'_, A>]) -> Result<Format, JobFault>
    ensures format { IfOk result (λ f. IsJobFormat f job.now (input_formats inputs.now)) }
    ensures sound { OnOk result (IsSoundJob job.now (input_formats inputs.now)) }
    ensures refusal { IfErr result (λ e. IsRefusal e job.now (input_formats inputs.now)) }
{
    match inputs {
        [a] => format_of_one(job, a.frame.format()),
        [a, b] => format_of_two(job, a.frame.format(), b.frame.format()),
        [a, b, by] => {
            format_of_three(job, a.frame.format(), b.frame.format(), by.frame.format())
        }
        _ => Err(JobFault::WrongInputCount),
    }
}

/// The picture of each input, settled. An `Err` comes only where the allocator refused the memory.
fn settle_inputs<A: Allocator, C: Allocator + Copy>(
    alloc: C,
    inputs: &[JobInput<'_, A>],
) -> Result<Vec<Picture<C>, C>, AllocError>
    requires { AllByRecursion HasBase inputs.now }
    ensures { IfOk result (λ v. v.items ≡ settled_inputs inputs.now) }
{
    let mut pictures = Vec::new(alloc);
    for input in inputs {
        pictures.push(input.frame.settle(alloc, input.base)?)?;
    }
    Ok(pictures)
}
