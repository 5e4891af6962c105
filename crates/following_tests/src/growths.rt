//! Calls that want memory, with each growth refused in turn; and then the same call with memory.
use crate::checks::met;
use crate::sources::opened;
use following::{FollowFault, FrameSink, MemoryFrames, TEN_SECONDS};
use frame_assembly::Frame;
use refusing::Refusing;
use std::alloc::Global;
use std::test::Fail;
use test_kit::small_format::small;
use test_kit::wanting::{Wanting, grows};

/// A call that wants memory.
#[derive(Clone, Copy)]
enum Held {
    /// A follower of so many frames is opened.
    Opened(usize),
    /// A frame is shown to a sink in memory.
    Shown,
}

/// Whether a follower of these frames has none at first, or `None` where memory is wanted.
fn is_opened(refusing: &Refusing<Global>, size: usize) -> Result<Option<bool>, Fail> {
    match opened(refusing, small()?, size, TEN_SECONDS) {
        Ok(follower) => Ok(Some(follower.window().is_empty() && follower.size() == size)),
        Err(FollowFault::NoMemory) => Ok(None),
        Err(FollowFault::BadSize) => Ok(Some(false)),
    }
}

/// Whether a sink takes a frame, or `None` where memory is wanted.
fn is_shown(global: Global, refusing: &Refusing<Global>) -> Result<Option<bool>, Fail> {
    let frame = Frame::new(global, small()?)?;
    let mut sink = MemoryFrames::new(refusing, 0);
    match sink.show(900, &frame) {
        Ok(()) => Ok(Some(sink.shown().len() == 1)),
        Err(_) => Ok(if sink.shown().is_empty() {
            None
        } else {
            Some(false)
        }),
    }
}

impl Wanting for Held {
    fn answer(&self, global: Global, refusing: &Refusing<Global>) -> Result<Option<bool>, Fail> {
        match self {
            Held::Opened(size) => is_opened(refusing, *size),
            Held::Shown => is_shown(global, refusing),
        }
    }
}

/// Two vectors of frames, and each frame's marks and octets; a copy's, and the vector's.
#[test]
fn refused_growths(rt: HostRuntime) -> Result<(), Fail> {
    for (call, least) in &[
        (Held::Opened(1), 4),
        (Held::Opened(16), 34),
        (Held::Shown, 3),
    ] {
        met(&rt, grows(rt.alloc(), call, *least)?);
    }
    Ok(())
}
