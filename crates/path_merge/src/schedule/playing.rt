//! Playing a schedule.
ghost use Rattle.std.specs.Prelude.{◌≡◌, ◌↔◌, ◌≤◌, ◌⊎◌, ◌<◌, ◌^◌, ℕ, IfErr, IfOk, IsErrOf, OnOk};
ghost use Rattle.std.specs.Prelude.{length};
ghost use Rattle.st_format.specs.Raster.{Raster};
ghost use Rattle.packet_plan.specs.Sender.{IsSenderList};
ghost use Rattle.path_receiver.specs.Opening.{AreDifferent, IsWindow, IsWindowSize};
ghost use Rattle.path_merge.specs.Admitted.{IsFirstBad};
ghost use Rattle.path_merge.specs.Played.{ArePictures, IsPlayed, IsReceiverCount};
ghost use Rattle.path_merge.specs.Reached.{IsFrameOf};
ghost use Rattle.path_merge.specs.Sent.{AreSentBy, IsSendersFrame, scene_of, sender_of};
ghost use Rattle.path_merge.specs.Stage.{RefusesAt, FollowsAll, IsReadyStage};
ghost use Rattle.path_merge.specs.Stays.{Stay};

use crate::schedule::check::check;
use crate::schedule::event::Event;
use crate::schedule::opening::open;
use crate::schedule::played::Played;
use crate::schedule::stage::{Stage, follow};
use crate::schedule::stop::Stop;
use packet_plan::{Plan, Stamp};
use path_receiver::PlayFault;
use st_format::Picture;
use std::alloc::Allocator;

/// Plays a schedule: what `receivers` receivers, opened alike, hand out and have in the end of a
/// list of events.
///
/// The pictures are sent in order by one plan, the first with this stamp. The receivers have the
/// plan's format and the stamp's payload type, and pin its source.
///
/// # Errors
///
/// `BadWindow`, `DoubleTimestamp`, `BadPictures`, `BadReceivers`, in this order; then `BadEvent`
/// with the place of the first event that is not admitted after those before it. `NoMemory` comes
/// only where the allocator refused memory, and may stand in place of what a later event would say.
pub fn play<A: Allocator + Copy, B: Allocator, C: Allocator>(
    alloc: A,
    plan: &Plan<B>,
    pictures: &[Picture<C>],
    stamp: Stamp,
    window: &[u32],
    receivers: u8,
    events: &[Event],
) -> Result<Played<A>, PlayFault>
    requires { stamp.payload_type ≤ 127 }

    // What is tested before the first event.
    ensures window { IsErrOf result PlayFault.BadWindow ↔ (IsWindowSize (length window.now) → ⊥) }
    ensures double { IsErrOf result PlayFault.DoubleTimestamp
        ↔ (IsWindowSize (length window.now) × (AreDifferent window.now → ⊥)) }
    ensures pictures { IsErrOf result PlayFault.BadPictures
        ↔ (IsWindow window.now × (ArePictures pictures.now plan.now.format → ⊥)) }
    ensures receivers { IsErrOf result PlayFault.BadReceivers
        ↔ (IsWindow window.now × ArePictures pictures.now plan.now.format
        × (IsReceiverCount receivers → ⊥)) }
    ensures fine { OnOk result (IsWindow window.now × ArePictures pictures.now plan.now.format
        × IsReceiverCount receivers) }

    // The first event that is not admitted; where there is an answer, all are.
    ensures event { (place : ℕ) → IsErrOf result (PlayFault.BadEvent place) →
        IsFirstBad place (scene_of plan.now pictures.now stamp window.now receivers) events.now }

    // What is handed out, and what the receivers have.
    ensures played { IfOk result (λ played. IsPlayed played
        (scene_of plan.now pictures.now stamp window.now receivers) events.now) }

    // The datagrams are those of one sender's list, by the plan's own packets, and each frame is
    // the sender's.
    ensures list { OnOk result
        (IsSenderList (scene_of plan.now pictures.now stamp window.now receivers).sent
        (sender_of plan.now stamp) stamp.first pictures.now) }
    ensures packets { OnOk result
        (AreSentBy (scene_of plan.now pictures.now stamp window.now receivers).sent
        (sender_of plan.now stamp) plan.now 0 stamp.first pictures.now) }
    ensures senders { OnOk result ((stay : Stay) (frame : Raster) →
        IsFrameOf frame stay (scene_of plan.now pictures.now stamp window.now receivers) events.now
        → IsSendersFrame frame stay (sender_of plan.now stamp) pictures.now
        (scene_of plan.now pictures.now stamp window.now receivers) events.now) }
{
    check(plan.format(), pictures, window, receivers)?;
    plan.facts();
    stamp_facts(stamp);
    let mut stage = open(alloc, plan, stamp, window, receivers)?;
    if let Err(fault) = follow_all(alloc, plan, pictures, stamp, &mut stage, events) {
        return Err(fault);
    }
    let Stage {
        receivers,
        handed,
        ..
    } = stage;
    Ok(Played { handed, receivers })
}

/// Follows the events up to the first that is not admitted, whose place is told.
fn follow_all<A: Allocator + Copy, B: Allocator, C: Allocator>(
    alloc: A,
    plan: &Plan<B>,
    pictures: &[Picture<C>],
    stamp: Stamp,
    stage: &mut Stage<A>,
    events: &[Event],
) -> Result<(), PlayFault>
    requires payload_type { stamp.payload_type ≤ 127 }
    requires pictures { ArePictures pictures.now plan.now.format }
    requires ready { IsReadyStage plan.now stage.old }
    ensures followed { OnOk result
        (FollowsAll plan.now stamp pictures.now events.now stage.old stage.new) }
    ensures bad { IfErr result (λ fault. (place : ℕ) → fault ≡ PlayFault.BadEvent place →
        RefusesAt plan.now stamp pictures.now events.now place stage.old) }
    ensures others { IfErr result (λ fault. (fault ≡ PlayFault.NoMemory)
        ⊎ ((place : ℕ) × (fault ≡ PlayFault.BadEvent place))) }
{
    for (place, event) in events.iter().enumerate() {
        match follow(alloc, plan, pictures, stamp, stage, *event) {
            Ok(()) => continue,
            Err(Stop::NoMemory) => return Err(PlayFault::NoMemory),
            Err(Stop::Unfit) => return Err(PlayFault::BadEvent(place)),
        }
    }
    Ok(())
}

/// What its type tells of a stamp's source. A caller's proof learns it from here; nothing is done.
fn stamp_facts(stamp: Stamp)
    ensures { stamp.ssrc < 2 ^ 32 }
{
    let _source = stamp.ssrc;
}
