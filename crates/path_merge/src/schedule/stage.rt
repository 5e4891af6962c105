//! What is kept while a schedule is played.
ghost use Rattle.std.specs.Prelude.{◌≡◌, ◌<◌, ◌≤◌, [], All, Err, OnOk, Some};
ghost use Rattle.std.specs.Prelude.{length, slice_get};
ghost use Rattle.path_merge.specs.Stage.{IsFollowedBy, HandsOut, IsReadyStage, NeverFits, SendsOne};
ghost use Rattle.path_merge.specs.Steps.{to_come};
ghost use Rattle.path_receiver.specs.Frames.{State};
ghost use Rattle.st_format.specs.Member.{IsMember};

use crate::schedule::event::Event;
use crate::schedule::played::Handed;
use crate::schedule::sending::{Next, next_datagram};
use crate::schedule::steps::{arrive, merge, slide};
use crate::schedule::stop::Stop;
use packet_plan::{Plan, Stamp};
use path_receiver::Receiver;
use st_format::Picture;
use std::alloc::Allocator;

/// What is kept while a schedule is played: the sender, what it sent, and the receivers.
#[derive(Drop)]
pub struct Stage<A: Allocator> {
    pub receivers: Vec<Receiver<A>, A>,
    /// The frames that left windows, in the order of the events.
    pub handed: Vec<Handed<A>, A>,
    /// The datagrams that were sent, in order.
    pub sent: Vec<Vec<u8, A>, A>,
    pub next: Next,
    /// Room for a datagram of the plan's greatest size.
    pub buf: Vec<u8, A>,
}

/// Follows one event more. Where it is not admitted the answer is `Unfit`.
pub fn follow<A: Allocator + Copy, B: Allocator, C: Allocator>(
    alloc: A,
    plan: &Plan<B>,
    pictures: &[Picture<C>],
    stamp: Stamp,
    stage: &mut Stage<A>,
    event: Event,
) -> Result<(), Stop>
    requires payload_type { stamp.payload_type ≤ 127 }
    requires formats { All (λ p. p.format ≡ plan.now.format) pictures.now }
    requires few { length pictures.now ≤ 10000 }
    requires ready { IsReadyStage plan.now stage.old }
    ensures ready { IsReadyStage plan.now stage.new }
    ensures followed { OnOk result (IsFollowedBy plan.now stamp pictures.now event stage.old
        stage.new) }
    ensures unfit { result ≡ Err Stop.Unfit →
        NeverFits plan.now stamp pictures.now event stage.old }
{
    match event {
        Event::Send => send(alloc, plan, pictures, stamp, stage),
        Event::Arrive(to, path, number) => arrive(
            stage.receivers.as_mut_slice(),
            stage.sent.as_slice(),
            to,
            path,
            number,
        ),
        Event::Slide(at, next) => hand_out(alloc, stage, at, next),
        Event::Merge(into, from) => merge(stage.receivers.as_mut_slice(), into, from),
    }
}

/// Makes the next datagram and keeps it, so that it may arrive at any later event.
fn send<A: Allocator, B: Allocator, C: Allocator>(
    alloc: A,
    plan: &Plan<B>,
    pictures: &[Picture<C>],
    stamp: Stamp,
    stage: &mut Stage<A>,
) -> Result<(), Stop>
    requires payload_type { stamp.payload_type ≤ 127 }
    requires formats { All (λ p. p.format ≡ plan.now.format) pictures.now }
    requires few { length pictures.now ≤ 10000 }
    requires ready { IsReadyStage plan.now stage.old }
    ensures ready { IsReadyStage plan.now stage.new }
    ensures sent { OnOk result (SendsOne plan.now stamp pictures.now stage.old stage.new) }
    ensures none { result ≡ Err Stop.Unfit →
        to_come plan.now stamp pictures.now stage.old.next ≡ [] }
{
    let octets = next_datagram(
        alloc,
        plan,
        pictures,
        stamp,
        &mut stage.next,
        stage.buf.as_mut_slice(),
    )?;
    stage.sent.push(octets)?;
    Ok(())
}

/// A receiver's window moves on, and its first frame is kept as handed out.
fn hand_out<A: Allocator + Copy>(
    alloc: A,
    stage: &mut Stage<A>,
    at: u8,
    next: u32,
) -> Result<(), Stop>
    ensures handed { OnOk result (HandsOut at next stage.old stage.new) }
    ensures rest { (stage.new.next ≡ stage.old.next) × (stage.new.buf.items ≡ stage.old.buf.items) }
    ensures unfit { result ≡ Err Stop.Unfit → (state : State) →
        slice_get stage.old.receivers.items at ≡ Some state → IsMember next state.opening.window }
{
    let handed = slide(alloc, stage.receivers.as_mut_slice(), at, next)?;
    stage.handed.push(handed)?;
    Ok(())
}
