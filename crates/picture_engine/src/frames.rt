//! The frame that is shown.
ghost use Rattle.std.specs.Prelude.{◌≡◌, [], IfErr, IfOk, Some};
ghost use Rattle.path_receiver.specs.Frames.{frame_at};
ghost use Rattle.run_outcome.specs.Fault.{Accounts};
ghost use Rattle.st_format.specs.Member.{IsMember};

use frame_assembly::Frame;
use path_receiver::Receiver;
use run_outcome::{Fault, Refusal};
use std::alloc::Allocator;

/// A receiver's frame of a timestamp. One that its window hasn't is refused.
pub(crate) fn frame_of<A: Allocator>(
    receiver: &Receiver<A>,
    timestamp: u32,
) -> Result<&Frame<A>, Fault>
    ensures is { IfOk result (λ q. frame_at receiver.now.opening.window receiver.now.frames
        timestamp ≡ Some q.now) }
    ensures refused { IfErr result (λ f. (f ≡ Fault.Refused Refusal.FrameTimestamp)
        × (IsMember timestamp receiver.now.opening.window → ⊥)) }
    ensures failures { Accounts result [] }
{
    match receiver.frame(timestamp) {
        Some(frame) => Ok(frame),
        None => Err(Fault::Refused(Refusal::FrameTimestamp)),
    }
}
