//! The sender of a schedule: one datagram after another.
ghost use Rattle.std.specs.Prelude.{◌≡◌, ◌<◌, ◌≤◌, ◌*◌, ◌+◌, ◌==◌, ◌∷◌, [], All, IfOk, OnErr};
ghost use Rattle.std.specs.Prelude.{Err, length};
ghost use Rattle.packet_plan.specs.Sending.{EachHasRoom};
ghost use Rattle.path_merge.specs.Steps.{after_packet, datagram_at, to_come};

use crate::schedule::stop::Stop;
use packet_plan::{Plan, Stamp};
use st_format::Picture;
use std::alloc::Allocator;

/// Which datagram comes next: its picture, its place in the picture's plan, and the number of the
/// picture's first packet.
#[derive(Drop)]
pub struct Next {
    pub picture: usize,
    pub index: u32,
    pub first: u32,
}

/// Makes the next datagram. `Unfit` where none is left, `NoMemory` where the memory was refused.
pub fn next_datagram<A: Allocator, B: Allocator, C: Allocator>(
    alloc: A,
    plan: &Plan<B>,
    pictures: &[Picture<C>],
    stamp: Stamp,
    next: &mut Next,
    buf: &mut [u8],
) -> Result<Vec<u8, A>, Stop>
    requires payload_type { stamp.payload_type ≤ 127 }
    requires formats { All (λ p. p.format ≡ plan.now.format) pictures.now }
    requires few { length pictures.now ≤ 10000 }
    requires room { EachHasRoom plan.now (length buf.old) }
    requires index { next.old.index < length plan.now.packets }
    ensures sent { IfOk result (λ v. to_come plan.now stamp pictures.now next.old
        ≡ v.items ∷ to_come plan.now stamp pictures.now next.new) }
    ensures none { result ≡ Err Stop.Unfit → to_come plan.now stamp pictures.now next.old ≡ [] }
    ensures room { length buf.new ≡ length buf.old }
    ensures index { next.new.index < length plan.now.packets }
{
    if next.picture >= pictures.len() {
        return Err(Stop::Unfit);
    }
    let own = Stamp {
        payload_type: stamp.payload_type,
        first: next.first,
        timestamp: plan
            .format()
            .timestamp(stamp.timestamp, next.picture as u32),
        ssrc: stamp.ssrc,
    };
    let octets = datagram_of(alloc, plan, next.index, &pictures[next.picture], own, buf)?;
    move_on(next, plan.len());
    Ok(octets)
}

#[tactic(auto, unfolding(crate::specs::Steps::datagram_at))]
fn datagram_of<A: Allocator, B: Allocator, C: Allocator>(
    alloc: A,
    plan: &Plan<B>,
    index: u32,
    picture: &Picture<C>,
    stamp: Stamp,
    buf: &mut [u8],
) -> Result<Vec<u8, A>, Stop>
    requires payload_type { stamp.payload_type ≤ 127 }
    requires format { picture.now.format ≡ plan.now.format }
    requires room { EachHasRoom plan.now (length buf.old) }
    requires index { index < length plan.now.packets }
    ensures text { IfOk result (λ v. v.items ≡ datagram_at plan.now picture.now stamp index) }
    ensures memory { OnErr result (result ≡ Err Stop.NoMemory) }
    ensures room { length buf.new ≡ length buf.old }
{
    let length = plan.datagram(index, picture, stamp, buf);
    Ok(Vec::from_slice(alloc, &buf[..length])?)
}

/// Moves on by one packet, of so many in each picture: packets are numbered through all pictures.
fn move_on(next: &mut Next, count: u32)
    requires index { next.old.index < count }
    requires picture { next.old.picture < 10000 }
    requires count { count ≤ 8192 * 8192 }
    ensures { next.new ≡ after_packet count next.old }
{
    next.index += 1;
    if next.index == count {
        next.index = 0;
        next.picture += 1;
        next.first = next.first.wrapping_add(count);
    }
}
