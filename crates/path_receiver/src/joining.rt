//! The frames of a receiver, one for each timestamp of its window.
ghost use Rattle.std.specs.Prelude.{◌≡◌, IfOk, OnErr, Err, replicate};
ghost use Rattle.st_format.specs.Raster.{blank};
ghost use Rattle.path_receiver.specs.Frames.{SameFormats, joined_frames};

use crate::fault::OpenFault;
use frame_assembly::Frame;
use st_format::Format;
use std::alloc::Allocator;

/// Frames of which nothing is known, of one format. `NoMemory` where the memory was refused.
pub fn blank_frames<A: Allocator + Copy>(
    alloc: A,
    format: Format,
    count: usize,
) -> Result<Vec<Frame<A>, A>, OpenFault>
    ensures blank { IfOk result (λ frames. frames.items ≡ replicate count (blank format)) }
    ensures memory { OnErr result (result ≡ Err OpenFault.NoMemory) }
{
    let mut frames = Vec::with_capacity(alloc, count)?;
    for _ in 0..count {
        frames.push(Frame::new(alloc, format)?)?;
    }
    Ok(frames)
}

/// Joins frames to frames of the same formats, each to the one at its own place.
pub fn join_frames<A: Allocator, B: Allocator>(frames: &mut [Frame<A>], others: &[Frame<B>])
    requires { SameFormats frames.old others.now }
    ensures { frames.new ≡ joined_frames frames.old others.now }
{
    for i in 0..frames.len() {
        frames[i].absorb(&others[i]);
    }
}
