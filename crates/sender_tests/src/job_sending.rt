//! Frames that are run through a job and sent, to a sink that fails at each put and with each
//! growth refused: a job whose picture is kept, and one whose picture is made as it is sent. What
//! they send is shown by the program's tests.
ghost use Rattle.key_mix.specs.Sending.{HasBase};

use crate::checks::met;
use crate::sending::{GROUPS, WHOLE, has_taken};
use frame_assembly::{Base, Frame};
use key_mix::{Job, JobFault, JobInput, SendJobFault, send_job};
use packet_plan::Plan;
use path_receiver::Receiver;
use refusing::Refusing;
use st_format::memory::MemoryDatagrams;
use st_format::{Depth, Format, Path, Sampling};
use std::alloc::{Allocator, Global};
use std::test::Fail;
use test_kit::sending::{STAMP, sink_of};
use test_kit::small_format::{LOWER, UPPER, small};
use test_kit::wanting::{Wanting, growths};

/// What a sample without a value gets.
const FILL: [u16; 3] = [16, 200, 128];

/// An input of a frame, over a fill.
fn input(frame: &Frame) -> JobInput<'_>
    ensures { HasBase result }
{
    JobInput {
        frame,
        base: Base::Fill(FILL),
    }
}

/// The answer for a frame at gain one, or for it keyed with itself by itself.
fn send<C: Allocator + Copy>(
    alloc: C,
    frame: &Frame,
    is_keyed: bool,
    size: u32,
    sink: &mut MemoryDatagrams,
) -> Result<u32, SendJobFault> {
    if is_keyed {
        let inputs = [input(frame), input(frame), input(frame)];
        send_job(alloc, &Job::Key, &inputs, size, STAMP, sink)
    } else {
        send_job(alloc, &Job::Gain(4096), &[input(frame)], size, STAMP, sink)
    }
}

/// The receiver of both rows of P0.
fn received(alloc: Global) -> Result<Receiver, Fail> {
    let mut receiver = Receiver::open(alloc, small()?, 96, None, &[900])?;
    let _ = receiver.take(Path::A, UPPER);
    let _ = receiver.take(Path::B, LOWER);
    Ok(receiver)
}

/// A frame of nothing, large enough that a key of it is made as it is sent: rows of 2400 samples,
/// which packets of 9000 octets send in runs of four parts.
fn large(alloc: Global) -> Result<Frame, Fail> {
    let format = Format::new(Sampling::Ycc422, Depth::D10, 1200, 164, 60, 1)?;
    Ok(Frame::new(alloc, format)?)
}

/// Whether a sink has taken the first datagrams of another one, so many.
fn took_first(one: &MemoryDatagrams, other: &MemoryDatagrams, count: usize) -> bool {
    let (ours, theirs) = (one.taken(), other.taken());
    let mut same = ours.len() == count && count <= theirs.len();
    for i in 0..ours.len().min(theirs.len()) {
        same &= ours[i].as_slice() == theirs[i].as_slice();
    }
    same
}

/// Whether a sink that fails at each put in turn has the datagrams before it, which is told, of
/// those that a sound sink has, which it answers.
fn stops_at_each(
    alloc: Global,
    frame: &Frame,
    is_keyed: bool,
    size: u32,
) -> Result<MemoryDatagrams, Fail> {
    let mut whole = sink_of(alloc, 128, size as usize, 0)?;
    let next = send(alloc, frame, is_keyed, size, &mut whole)?;
    let count = u32::try_from(whole.taken().len())?;
    if next != count.saturating_add(1) {
        return Err(Fail::from("another next number"));
    }
    for sent in 0..count {
        let mut sink = sink_of(alloc, 128, size as usize, u64::from(sent) + 1)?;
        let answer = send(alloc, frame, is_keyed, size, &mut sink);
        let is_told = answer == Err(SendJobFault::Sink { sent }) && sink.failures() == 1;
        if !is_told || !took_first(&sink, &whole, sent as usize) {
            return Err(Fail::from("other datagrams before a failure"));
        }
    }
    Ok(whole)
}

/// Four are put of the small one, so that a fifth put isn't reached.
#[test]
fn failing_sinks(rt: HostRuntime) -> Result<(), Fail> {
    let receiver = received(rt.alloc())?;
    let frame = receiver.frame(900).ok_or("no frame")?;
    let groups = stops_at_each(rt.alloc(), frame, false, 24)?;
    met(&rt, has_taken(rt.alloc(), &groups, 0, &GROUPS));
    let made = stops_at_each(rt.alloc(), &large(rt.alloc())?, true, 9000)?;
    met(&rt, made.taken().len() > 40);
    Ok(())
}

/// What wants memory.
#[derive(Clone, Copy)]
enum Call {
    /// *send-gain-one*.
    Gain,
    /// The key that is made as it is sent.
    Key,
    /// The plan of that key.
    Plan,
}

/// Whether a job's answer is the next number behind what was sent, or `None` where memory was
/// wanted and nothing is sent.
fn judged(answer: Result<u32, SendJobFault>, sink: &MemoryDatagrams) -> Option<bool> {
    let count = sink.taken().len();
    match answer {
        Err(SendJobFault::Job(JobFault::NoMemory)) if count == 0 => None,
        Err(_) => Some(false),
        Ok(next) => Some(next as usize == count.saturating_add(1)),
    }
}

/// *send-gain-one*'s datagram.
fn gains(global: Global, refusing: &Refusing<Global>) -> Result<Option<bool>, Fail> {
    let receiver = received(global)?;
    let frame = receiver.frame(900).ok_or("no frame")?;
    let mut sink = sink_of(global, 1, 42, 0)?;
    let answer = judged(send(refusing, frame, false, 42, &mut sink), &sink);
    Ok(match answer {
        Some(is_met) => Some(is_met && has_taken(global, &sink, 0, &[WHOLE])),
        None => None,
    })
}

impl Wanting for Call {
    fn answer(&self, global: Global, refusing: &Refusing<Global>) -> Result<Option<bool>, Fail> {
        let frame = large(global)?;
        match self {
            Call::Gain => gains(global, refusing),
            Call::Key => {
                let mut sink = sink_of(global, 128, 9000, 0)?;
                let answer = send(refusing, &frame, true, 9000, &mut sink);
                Ok(judged(answer, &sink))
            }
            Call::Plan => Ok(match Plan::new(refusing, frame.format(), 9000) {
                Ok(plan) => Some(plan.len() > 40),
                Err(_) => None,
            }),
        }
    }
}

/// Of a picture that is made as it is sent none is kept: there is one growth more than those of the
/// plan.
#[test]
fn each_growth_refused(rt: HostRuntime) -> Result<(), Fail> {
    let of_gain = growths(rt.alloc(), &Call::Gain)?.ok_or("no gain")?;
    met(&rt, of_gain >= 4);
    let of_plan = growths(rt.alloc(), &Call::Plan)?.ok_or("no plan")?;
    let of_key = growths(rt.alloc(), &Call::Key)?.ok_or("no key")?;
    met(&rt, of_key == of_plan.saturating_add(1));
    Ok(())
}
