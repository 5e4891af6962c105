//! `send_job`, beside what it does one after the other: `settle` of each input, `run_job`,
//! `Plan::new` and `send_frame` into the same kind of sink.
ghost use Rattle.std.specs.Prelude.{IfOk};
ghost use Rattle.std.specs.List.{AllByRecursion};
ghost use Rattle.key_mix.specs.Sending.{HasBase};

use crate::calls::{open, take};
use crate::fault::Fault;
use crate::streams::{Change, STAMP, Stream, send_all};
use devices::Discard;
use frame_assembly::Base;
use key_mix::{Job, JobInput, run_job, send_job};
use packet_plan::Plan;
use path_receiver::Receiver;
use st_format::{Format, Path};
use std::alloc::Global;
use std::time::Instant;

/// The most octets of a packet.
const SIZE: u32 = 1400;

/// Three receivers, each with a whole frame.
#[derive(Drop)]
pub struct Frames {
    receivers: [Receiver; 3],
}

impl Frames {
    pub fn new(alloc: Global, format: Format) -> Result<Frames, Fault> {
        Ok(Frames {
            receivers: [
                received(alloc, format, Change(0, 1))?,
                received(alloc, format, Change(3, 1))?,
                received(alloc, format, Change(5, 1))?,
            ],
        })
    }

    /// The nanoseconds of the best round of a job of the first `count` frames: by its parts, and by
    /// `send_job`. The two take turns.
    pub fn best(
        &self,
        rt: &HostRuntime,
        job: &Job,
        count: usize,
        rounds: u32,
    ) -> Result<(u64, u64), Fault> {
        let mut best = (u64::MAX, u64::MAX);
        for _ in 0..rounds {
            best.0 = best.0.min(self.spend(rt, job, count, false)?);
            best.1 = best.1.min(self.spend(rt, job, count, true)?);
        }
        Ok(best)
    }

    /// The nanoseconds of one round, by `send_job` or by its parts.
    fn spend(
        &self,
        rt: &HostRuntime,
        job: &Job,
        count: usize,
        is_whole: bool,
    ) -> Result<u64, Fault> {
        let [first, second, third] = &self.receivers;
        let a = input(first)?;
        let b = input(second)?;
        let by = input(third)?;
        let start = Instant::now(rt)?;
        match count {
            1 => send(rt.alloc(), job, &[a], is_whole)?,
            2 => send(rt.alloc(), job, &[a, b], is_whole)?,
            _ => send(rt.alloc(), job, &[a, b, by], is_whole)?,
        }
        let spent = start.elapsed(rt)?.as_nanos();
        Ok(u64::try_from(spent).unwrap_or(u64::MAX))
    }
}

/// A receiver that took all datagrams of a picture.
fn received(alloc: Global, format: Format, change: Change) -> Result<Receiver, Fault> {
    let stream = Stream::new(alloc, format, SIZE, change)?;
    let mut receiver = open(alloc, format)?;
    take(&mut receiver, Path::A, &stream, 0)?;
    Ok(receiver)
}

/// A receiver's frame, with 0 for what is missing.
fn input(receiver: &Receiver) -> Result<JobInput<'_>, Fault>
    ensures { IfOk result (λ i. HasBase i) }
{
    Ok(JobInput {
        frame: receiver.frame(900).ok_or(Fault)?,
        base: Base::Fill([0, 0, 0]),
    })
}

fn send(alloc: Global, job: &Job, inputs: &[JobInput<'_>], is_whole: bool) -> Result<(), Fault>
    requires { AllByRecursion HasBase inputs.now }
{
    if !is_whole {
        return send_by_parts(alloc, job, inputs);
    }
    send_job(alloc, job, inputs, SIZE, STAMP, &mut Discard::new())
        .ok()
        .ok_or(Fault)?;
    Ok(())
}

fn send_by_parts(alloc: Global, job: &Job, inputs: &[JobInput<'_>]) -> Result<(), Fault>
    requires { AllByRecursion HasBase inputs.now }
{
    let mut pictures = Vec::new(alloc);
    for input in inputs {
        let settled = input.frame.settle(alloc, input.base)?;
        pictures.push(settled).ok().ok_or(Fault)?;
    }
    let picture = run_job(alloc, job, pictures.as_slice()).ok().ok_or(Fault)?;
    let plan = Plan::new(alloc, picture.format(), SIZE).ok().ok_or(Fault)?;
    send_all(&plan, &picture, &mut Discard::new())
}
