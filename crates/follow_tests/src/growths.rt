//! `follow` with each growth refused in turn: nothing is then told or shown; and then the same run
//! with memory.
use crate::checks::met;
use crate::running::{NONE, run_of};
use crate::streams::{RECORDED, Stream, TWO_PATHS};
use refusing::Refusing;
use std::alloc::{AllocError, Global};
use std::test::Fail;
use test_kit::wanting::{Wanting, grows};

impl Wanting for Stream {
    fn answer(&self, global: Global, refusing: &Refusing<Global>) -> Result<Option<bool>, Fail> {
        match run_of(global, refusing, self, NONE) {
            Ok(run) => Ok(run.answered(self.told)),
            // (the list of the files had no memory)
            Err(AllocError) => Ok(None),
        }
    }
}

/// Of 16 frames, each has marks and octets.
const SIXTEEN: Stream = Stream {
    frames: 16,
    ..TWO_PATHS
};

/// For the list of the files, for two texts or datagrams, for the follower's lists of frames, for
/// marks and octets of a frame that is in and of the one that leaves, and for a record or a packet
/// of each file.
#[test]
fn of_follow(rt: HostRuntime) -> Result<(), Fail> {
    for (stream, least) in [(TWO_PATHS, 11), (SIXTEEN, 41), (RECORDED, 11)] {
        met(&rt, grows(rt.alloc(), &stream, least)?);
    }
    Ok(())
}
