//! Calls of the library that want memory for frames, with each growth refused in turn; and then the
//! same call with memory.
use crate::checks::met;
use crate::pictures::{SETTLED, contested, settled};
use crate::two_paths::is_slid;
use frame_assembly::Frame;
use refusing::Refusing;
use std::alloc::{Allocator, Global};
use std::process::Abort;
use std::test::Fail;
use test_kit::picture_values::has_values;
use test_kit::wanting::{Wanting, grows};

/// A call for a frame.
#[derive(Clone, Copy)]
enum Held {
    /// *outside-and-slide*, of receivers and frames that are made.
    Slid,
    /// The copy of *contested*'s frame of *copies-and-settling*.
    Copy,
    /// That frame, settled: memory is wanted for its values.
    Settled,
}

/// Whether a frame's copy is the same, or `None` where memory is wanted.
fn is_same<A: Allocator + Copy>(frame: &Frame, alloc: A) -> Option<bool> {
    match frame.try_copy(alloc) {
        Ok(copy) => Some(copy.same(frame)),
        Err(_) => None,
    }
}

/// Whether a frame is settled as *copies-and-settling* says, or `None` where memory is wanted.
fn is_settled<A: Allocator>(frame: &Frame, alloc: A) -> Option<bool> {
    match settled(alloc, frame) {
        Ok(picture) => Some(has_values(&picture, &SETTLED)),
        Err(_) => None,
    }
}

impl Wanting for Held {
    fn answer(&self, global: Global, refusing: &Refusing<Global>) -> Result<Option<bool>, Fail> {
        let receiver = contested(global)?;
        let Some(frame) = receiver.frame(900) else {
            return Ok(Some(false));
        };
        match self {
            Held::Slid => is_slid(refusing),
            Held::Copy => Ok(is_same(frame, refusing)),
            Held::Settled => Ok(is_settled(frame, refusing)),
        }
    }
}

#[test]
fn frames(rt: HostRuntime) -> Result<(), Fail> {
    for (call, least) in &[(Held::Slid, 8), (Held::Copy, 1), (Held::Settled, 1)] {
        met(&rt, grows(rt.alloc(), call, *least)?);
    }
    Ok(())
}
