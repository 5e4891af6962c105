//! Timestamps, and a frame that is settled.
use crate::checks::met;
use frame_assembly::{Base, Frame};
use path_receiver::Receiver;
use st_format::{Depth, Format, Path, Picture, Sampling};
use std::alloc::{AllocError, Allocator, Global};
use std::process::Abort;
use std::test::Fail;
use test_kit::datagrams::opened;
use test_kit::small_format::{ANOTHER, UPPER, small};

/// *timestamps-5994*, and one past 2^32: base, number and timestamp.
const TIMESTAMPS: [(u32, u32, u32); 5] = [
    (0, 0, 0),
    (0, 1, 1501),
    (0, 2, 3003),
    (4_294_967_295, 1, 1500),
    (0, 4_294_967_295, 2_147_482_146),
];

/// Whether it is so at 60000/1001.
fn is_timestamp(base: u32, k: u32, timestamp: u32) -> bool {
    match Format::new(Sampling::Ycc422, Depth::D8, 1920, 1080, 60000, 1001) {
        Ok(format) => format.timestamp(base, k) == timestamp,
        Err(_) => false,
    }
}

#[test]
fn timestamps(rt: HostRuntime) {
    for (base, k, timestamp) in TIMESTAMPS {
        met(&rt, is_timestamp(base, k, timestamp));
    }
}

/// A receiver that took *contested*'s datagrams: the upper row, and the same with another sample.
pub fn contested(alloc: Global) -> Result<Receiver, Fail> {
    let mut receiver = opened(alloc, small()?)?;
    for octets in [UPPER, ANOTHER] {
        let _ = receiver.take(Path::A, octets);
    }
    Ok(receiver)
}

/// A frame settled with 50, 128, 128.
pub fn settled<A: Allocator>(alloc: A, frame: &Frame) -> Result<Picture<A>, AllocError> {
    frame.settle(alloc, Base::<Global>::Fill([50, 128, 128]))
}

/// The values of *copies-and-settling*.
pub const SETTLED: [(u32, u32, u8, Option<u16>); 4] = [
    (0, 0, 0, Some(50)),
    (0, 1, 0, Some(17)),
    (1, 3, 0, Some(50)),
    (1, 2, 1, Some(128)),
];
