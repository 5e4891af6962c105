//! The frames that go round.
ghost use Rattle.std.specs.Prelude.{◌≡◌, ◌+◌, ◌≤◌, ◌<◌, [], All, IfOk, OnErr, Err, length};
ghost use Rattle.std.specs.Prelude.{replicate, vec_capacity};
ghost use Rattle.st_format.specs.Raster.{blank};
ghost use Rattle.following.specs.declared.fault.FollowFault.{FollowFault};

use crate::fault::FollowFault;
use frame_assembly::Frame;
use st_format::Format;
use std::alloc::Allocator;

/// Room for so many frames.
pub fn room_for<A: Allocator>(alloc: A, count: usize) -> Result<Vec<Frame<A>, A>, FollowFault>
    ensures empty { IfOk result (λ frames. frames.items ≡ []) }
    ensures room { IfOk result (λ frames. count ≤ vec_capacity frames) }
    ensures memory { OnErr result (result ≡ Err FollowFault.NoMemory) }
{
    Ok(Vec::with_capacity(alloc, count)?)
}

/// Frames of which nothing is known.
pub fn blank_frames<A: Allocator + Copy>(
    alloc: A,
    format: Format,
    count: usize,
) -> Result<Vec<Frame<A>, A>, FollowFault>
    ensures blank { IfOk result (λ frames. frames.items ≡ replicate count (blank format)) }
    ensures room { IfOk result (λ frames. count ≤ vec_capacity frames) }
    ensures memory { OnErr result (result ≡ Err FollowFault.NoMemory) }
{
    let mut frames = Vec::with_capacity(alloc, count)?;
    for _ in 0..count {
        frames.push(Frame::new(alloc, format)?)?;
    }
    Ok(frames)
}

/// Takes one of the spare frames, which are of a format, and makes every cell missing.
pub fn spare_frame<A: Allocator>(format: &Format, spare: &mut Vec<Frame<A>, A>) -> Frame<A>
    requires some { 0 < length spare.old.items }
    requires of_format { All (λ r. r.format ≡ format.now) spare.old.items }
    ensures blank { result ≡ blank format.now }
    ensures count { length spare.new.items + 1 ≡ length spare.old.items }
    ensures of_format { All (λ r. r.format ≡ format.now) spare.new.items }
    ensures room { vec_capacity spare.new ≡ vec_capacity spare.old }
{
    let mut frame = spare.pop().unwrap();
    frame.clear();
    frame
}
