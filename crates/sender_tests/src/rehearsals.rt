//! *rehearsal*, for a run in which memory is wanted.
use crate::sending::p0;
use packet_plan::{Plan, Stamp};
use path_merge::{Event, Played, play};
use path_receiver::PlayFault;
use st_format::Path;
use std::alloc::{Allocator, Global};
use std::test::Fail;
use test_kit::small_format::{counted, counts, small};

const STAMP: Stamp = Stamp {
    payload_type: 96,
    first: 0,
    timestamp: 0,
    ssrc: 1,
};

/// Its events.
const EVENTS: [Event; 7] = [
    Event::Send,
    Event::Send,
    Event::Arrive(0, Path::A, 0),
    Event::Merge(1, 0),
    Event::Arrive(0, Path::B, 1),
    Event::Slide(0, 1500),
    Event::Arrive(0, Path::A, 1),
];

/// Whether it hands out a whole frame, and leaves none of the next and most of the first.
fn is_rehearsal<A: Allocator>(played: &Played<A>) -> bool {
    let is_handed = match played.handed.as_slice() {
        [handed] => {
            handed.receiver == 0
                && handed.timestamp == 0
                && handed.frame.counts() == counted(16, 0, 0)
        }
        _ => false,
    };
    let are_left = match played.receivers.as_slice() {
        [first, second] => {
            counts(first, 1500) == Some(counted(0, 16, 0))
                && counts(second, 0) == Some(counted(12, 4, 0))
        }
        _ => false,
    };
    is_handed && are_left
}

/// Whether it is played over an allocator, or `None` where it wants memory.
pub fn is_played<A: Allocator + Copy>(global: Global, alloc: A) -> Result<Option<bool>, Fail> {
    let plan = Plan::new(global, small()?, 40)?;
    let pictures = [p0(global, small()?)?, p0(global, small()?)?];
    match play(alloc, &plan, &pictures, STAMP, &[0], 2, &EVENTS) {
        Ok(played) => Ok(Some(is_rehearsal(&played))),
        Err(PlayFault::NoMemory) => Ok(None),
        Err(_) => Ok(Some(false)),
    }
}
