//! What each event does to the receivers.
ghost use Rattle.std.specs.Prelude.{◌≡◌, ◌≢◌, ◌<◌, ◌∷◌, [], IfOk, OnOk, OnErr, Err, Some};
ghost use Rattle.std.specs.Prelude.{length, slice_get};
ghost use Rattle.st_format.specs.Device.{AreOctets};
ghost use Rattle.st_format.specs.Member.{IsMember};
ghost use Rattle.path_receiver.specs.Frames.{IsReceiver, State, frames_of, joined_frames};
ghost use Rattle.path_merge.specs.Steps.{Arrives, MergesInto, SlidesOut, SlidesOne};

use crate::schedule::played::Handed;
use crate::schedule::stop::Stop;
use frame_assembly::Frame;
use path_receiver::Receiver;
use st_format::Path;
use std::alloc::Allocator;

/// A receiver takes a datagram of those sent; `Unfit` where there is no such one.
pub fn arrive<A: Allocator>(
    receivers: &mut [Receiver<A>],
    sent: &[Vec<u8, A>],
    to: u8,
    path: Path,
    number: u32,
) -> Result<(), Stop>
    ensures taken { OnOk result (Arrives to number sent.now receivers.old receivers.new) }
    ensures unfit { OnErr result (to < length receivers.old → number < length sent.now → ⊥) }
{
    let (place, number) = (usize::from(to), number as usize);
    if place >= receivers.len() || number >= sent.len() {
        return Err(Stop::Unfit);
    }
    take(&mut receivers[place], path, &sent[number]);
    Ok(())
}

/// A receiver takes a datagram, whatever it answers.
fn take<A: Allocator>(receiver: &mut Receiver<A>, path: Path, octets: &[u8])
    ensures octets { AreOctets octets.now }
    ensures opening { receiver.new.opening ≡ receiver.old.opening }
    ensures frames { receiver.new.frames
        ≡ joined_frames receiver.old.frames (frames_of receiver.old.opening (octets.now ∷ [])) }
    ensures receiver { IsReceiver receiver.new }
{
    let _ = receiver.take(path, octets);
}

/// A receiver's window moves on, and hands out its first frame. `Unfit` where the window has the
/// timestamp or there is no such receiver, `NoMemory` where the memory was refused.
pub fn slide<A: Allocator + Copy>(
    alloc: A,
    receivers: &mut [Receiver<A>],
    at: u8,
    next: u32,
) -> Result<Handed<A>, Stop>
    ensures handed { IfOk result (λ h. SlidesOut at next receivers.old receivers.new h) }
    ensures unfit { result ≡ Err Stop.Unfit → (state : State) →
        slice_get receivers.old at ≡ Some state → IsMember next state.opening.window }
{
    let place = usize::from(at);
    if place >= receivers.len() {
        return Err(Stop::Unfit);
    }
    slide_one(alloc, &mut receivers[place], at, next)
}

fn slide_one<A: Allocator + Copy>(
    alloc: A,
    receiver: &mut Receiver<A>,
    at: u8,
    next: u32,
) -> Result<Handed<A>, Stop>
    ensures handed { IfOk result (λ h. SlidesOne at next receiver.old receiver.new h) }
    ensures unfit { result ≡ Err Stop.Unfit → IsMember next receiver.old.opening.window }
{
    let mut frame = Frame::new(alloc, receiver.format())?;
    match receiver.slide(next, &mut frame) {
        Ok(timestamp) => Ok(Handed {
            receiver: at,
            timestamp,
            frame,
        }),
        Err(_) => Err(Stop::Unfit),
    }
}

/// A receiver is merged into another; `Unfit` where there aren't two such, or they were opened
/// unlike.
pub fn merge<A: Allocator>(receivers: &mut [Receiver<A>], into: u8, from: u8) -> Result<(), Stop>
    ensures merged { OnOk result (MergesInto into from receivers.old receivers.new) }
    ensures unfit { OnErr result ((state other : State) →
        slice_get receivers.old into ≡ Some state → slice_get receivers.old from ≡ Some other →
        into ≢ from → state.opening ≢ other.opening) }
{
    let (into, from) = (usize::from(into), usize::from(from));
    if into >= receivers.len() || from >= receivers.len() || into == from {
        return Err(Stop::Unfit);
    }
    merge_two(receivers, into, from)
}

/// The same, of two different places, which are lent apart.
fn merge_two<A: Allocator>(
    receivers: &mut [Receiver<A>],
    into: usize,
    from: usize,
) -> Result<(), Stop>
    requires into { into < length receivers.old }
    requires from { from < length receivers.old }
    requires two { into ≢ from }
    ensures merged { OnOk result (MergesInto into from receivers.old receivers.new) }
    ensures unfit { OnErr result ((state other : State) →
        slice_get receivers.old into ≡ Some state → slice_get receivers.old from ≡ Some other →
        into ≢ from → state.opening ≢ other.opening) }
{
    let merged = if into < from {
        let (front, back) = receivers.split_at_mut(from);
        front[into].merge(&back[0])
    } else {
        let (front, back) = receivers.split_at_mut(into);
        back[0].merge(&front[from])
    };
    match merged {
        Ok(()) => Ok(()),
        Err(_) => Err(Stop::Unfit),
    }
}
