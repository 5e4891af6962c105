//! Calls of the library that want memory for pictures, plans, receivers, schedules, maps of packet
//! numbers and SDP texts, with each growth refused in turn; and then the same call with memory.
use crate::checks::met;
use crate::number_map::{is_joined, is_mapped};
use crate::rehearsals::is_played;
use crate::sdp::{is_located, is_written};
use crate::sending::{is_pictured, is_planned, p0};
use path_receiver::{OpenFault, Receiver, Taken};
use refusing::Refusing;
use st_format::{Path, PictureFault};
use std::alloc::{Allocator, Global};
use std::process::Abort;
use std::test::Fail;
use test_kit::small_format::{UPPER, counted, counts, small};
use test_kit::wanting::{Wanting, grows};

/// Whether a copy of P0 equals it, or `None` where memory is wanted.
fn is_copied<A: Allocator>(global: Global, alloc: A) -> Result<Option<bool>, Fail> {
    let picture = p0(global, small()?)?;
    Ok(match picture.try_copy(alloc) {
        Ok(copy) => Some(copy.same(&picture)),
        Err(PictureFault::NoMemory) => None,
        Err(PictureFault::ValueTooLarge) => Some(false),
    })
}

/// A call for a picture, a plan of its packets, a receiver, receivers of a schedule, a map of
/// packet numbers, or an SDP text.
#[derive(Clone, Copy)]
enum Call {
    /// *sender-sizes* at 24 octets, of a picture that is made.
    Picture,
    /// The copy of P0 of *copies-and-settling*.
    Copy,
    /// The same, by a plan that is made.
    Plan,
    /// *first-datagram*, of a receiver of this window.
    Receiver(&'static [u32]),
    /// *rehearsal*.
    Schedule,
    /// *number-map*.
    Numbers,
    /// *numbers-of-two-paths*.
    Joined,
    /// `read_sdp` and `fmtp_text` of *camera-sdp*.
    Line,
    /// `read_located` of it.
    Located,
}

/// Whether a receiver of a window takes *first-datagram*, or `None` where memory is wanted.
fn is_taken<A: Allocator + Copy>(alloc: A, window: &[u32]) -> Result<Option<bool>, Fail> {
    match Receiver::open(alloc, small()?, 96, None, window) {
        Ok(mut receiver) => {
            let is_kept = receiver.take(Path::A, UPPER) == Ok(Taken::Kept(1));
            Ok(Some(is_kept && counts(&receiver, 900) == Some(counted(8, 8, 0))))
        }
        Err(OpenFault::NoMemory) => Ok(None),
        Err(_) => Ok(Some(false)),
    }
}

impl Wanting for Call {
    fn answer(&self, global: Global, refusing: &Refusing<Global>) -> Result<Option<bool>, Fail> {
        match self {
            Call::Picture => is_pictured(global, refusing),
            Call::Copy => is_copied(global, refusing),
            Call::Plan => is_planned(global, refusing),
            Call::Receiver(window) => is_taken(refusing, *window),
            Call::Schedule => is_played(global, refusing),
            Call::Numbers => Ok(is_mapped(refusing)),
            Call::Joined => is_joined(global, refusing),
            Call::Line => Ok(is_written(refusing)),
            Call::Located => Ok(is_located(refusing)),
        }
    }
}

/// Each call, and the least number of growths that it takes.
const CALLS: [(Call, u64); 10] = [
    (Call::Picture, 1),
    (Call::Copy, 1),
    (Call::Plan, 1),
    (Call::Receiver(&[900]), 1),
    (Call::Receiver(&[900, 2400]), 3),
    (Call::Schedule, 8),
    (Call::Numbers, 2),
    (Call::Joined, 1),
    (Call::Line, 2),
    (Call::Located, 1),
];

#[test]
fn each_growth_refused(rt: HostRuntime) -> Result<(), Fail> {
    for (call, least) in &CALLS {
        met(&rt, grows(rt.alloc(), call, *least)?);
    }
    Ok(())
}
