//! What the types and the frames of a receiver tell of it.
ghost use Rattle.std.specs.Prelude.{◌≡◌, ◌<◌, ◌^◌, [], Ok};
ghost use Rattle.std.specs.List.{AllByRecursion};
ghost use Rattle.path_receiver.specs.Frames.{IsReceiver, State};
ghost use Rattle.media_file.specs.StateFile.{SsrcFits, state_text};
ghost use Rattle.receiver_file.specs.Saved.{IsFilled, IsWritable, kept_of};
ghost use Rattle.receiver_file.specs.StateReading.{state_walk};

use frame_assembly::Frame;
use path_receiver::Receiver;
use std::alloc::Allocator;

/// What is always so of a receiver. It only asks for what a proof needs: no cell is looked at.
pub(crate) fn tell_receiver<A: Allocator>(receiver: &Receiver<A>)
    ensures writable { IsWritable receiver.now }
    ensures again { state_walk (state_text (kept_of receiver.now)) ≡ Ok (kept_of receiver.now, []) }
    ensures same { (s : State) → IsReceiver s
        → state_walk (state_text (kept_of receiver.now)) ≡ Ok (kept_of s, [])
        → (s.opening ≡ receiver.now.opening) × (s.frames ≡ receiver.now.frames) }
{
    tell_all(receiver);
}

/// Asks for the numbers of a receiver, and for each of its frames.
fn tell_all<A: Allocator>(receiver: &Receiver<A>)
    ensures { IsWritable receiver.now }
{
    tell_ssrc(receiver.ssrc());
    tell_timestamps(receiver.window());
    for timestamp in receiver.window() {
        tell_frame(receiver.frame(*timestamp).unwrap());
    }
}

/// What its type tells of a source that is pinned, or of none.
fn tell_ssrc(ssrc: Option<u32>)
    ensures { SsrcFits ssrc }
{
    if let Some(_ssrc) = ssrc {}
}

/// What their type tells of timestamps.
fn tell_timestamps(timestamps: &[u32])
    ensures { AllByRecursion (λ t. t < 2 ^ 32) timestamps.now }
{
    let _timestamps = timestamps;
}

/// What a frame tells of its cells.
fn tell_frame<A: Allocator>(frame: &Frame<A>)
    ensures { IsFilled frame.now }
{
    frame.facts();
}
