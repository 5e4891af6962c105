//! The stage of a schedule before its first event.
ghost use Rattle.std.specs.Prelude.{◌≡◌, ◌≤◌, ◌<◌, [], All, Err, IfOk, List, OnErr, Some, length};
ghost use Rattle.st_format.specs.Picture.{Values};
ghost use Rattle.packet_plan.specs.Sending.{EachHasRoom};
ghost use Rattle.path_receiver.specs.Opening.{IsWindow};
ghost use Rattle.path_merge.specs.Sent.{scene_of};
ghost use Rattle.path_merge.specs.Stage.{IsOpened, IsReadyStage, IsStage};

use crate::schedule::sending::Next;
use crate::schedule::stage::Stage;
use packet_plan::{Plan, Stamp};
use path_receiver::{PlayFault, Receiver};
use st_format::Format;
use std::alloc::Allocator;

/// The stage before the first event. `NoMemory` where the memory was refused.
pub fn open<A: Allocator + Copy, B: Allocator>(
    alloc: A,
    plan: &Plan<B>,
    stamp: Stamp,
    window: &[u32],
    receivers: u8,
) -> Result<Stage<A>, PlayFault>
    requires payload_type { stamp.payload_type ≤ 127 }
    requires window { IsWindow window.now }
    ensures ready { IfOk result (λ stage. IsReadyStage plan.now stage) }
    ensures stage { IfOk result (λ stage. (pictures : List Values) →
        IsStage plan.now stamp pictures
        (scene_of plan.now pictures stamp window.now receivers) [] stage) }
    ensures memory { OnErr result (result ≡ Err PlayFault.NoMemory) }
{
    let format = plan.format();
    let opened = open_receivers(alloc, format, stamp, window, receivers)?;
    let buf = datagram_room(alloc, plan)?;
    plan.facts();
    Ok(Stage {
        receivers: opened,
        handed: Vec::new(alloc),
        sent: Vec::new(alloc),
        next: Next {
            picture: 0,
            index: 0,
            first: stamp.first,
        },
        buf,
    })
}

/// Receivers that have taken nothing, opened alike: with the sender's type, source and format.
fn open_receivers<A: Allocator + Copy>(
    alloc: A,
    format: Format,
    stamp: Stamp,
    window: &[u32],
    count: u8,
) -> Result<Vec<Receiver<A>, A>, PlayFault>
    requires payload_type { stamp.payload_type ≤ 127 }
    requires window { IsWindow window.now }
    ensures count { IfOk result (λ receivers. length receivers.items ≡ count) }
    ensures opened { IfOk result (λ receivers. All (λ r. IsOpened (record {
      format = format;
      payload_type = stamp.payload_type;
      ssrc = Some stamp.ssrc;
      window = window.now;
    }) r) receivers.items) }
    ensures memory { OnErr result (result ≡ Err PlayFault.NoMemory) }
{
    let Ok(mut receivers) = Vec::with_capacity(alloc, usize::from(count)) else {
        return Err(PlayFault::NoMemory);
    };
    for _ in 0..count {
        let Ok(receiver) = Receiver::open(
            alloc,
            format,
            stamp.payload_type,
            Some(stamp.ssrc),
            window,
        ) else {
            return Err(PlayFault::NoMemory);
        };
        let Ok(()) = receivers.push(receiver) else {
            return Err(PlayFault::NoMemory);
        };
    }
    Ok(receivers)
}

/// Room for each datagram of a plan: its greatest size.
fn datagram_room<A: Allocator, B: Allocator>(
    alloc: A,
    plan: &Plan<B>,
) -> Result<Vec<u8, A>, PlayFault>
    ensures room { IfOk result (λ buf. EachHasRoom plan.now (length buf.items)) }
    ensures memory { OnErr result (result ≡ Err PlayFault.NoMemory) }
{
    let octets = plan.max_octets() as usize;
    match Vec::from_elem(alloc, 0, octets) {
        Ok(buf) => Ok(buf),
        Err(_) => Err(PlayFault::NoMemory),
    }
}
