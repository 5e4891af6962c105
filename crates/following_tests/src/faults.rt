//! The words of each fault of following, its number and its name.
use crate::checks::met;
use following::{FollowFault, FrameFault, FrameSinkFault, StreamFault};
use path_receiver::ReceiveFault;
use st_format::SourceFault;
use test_kit::words::{all_say, says};

const OF_OPENINGS: [(FollowFault, &str); 2] = [
    (
        FollowFault::NoMemory,
        "the memory for the frames was refused",
    ),
    (
        FollowFault::BadSize,
        "it is to have no frame, or more than 16",
    ),
];

/// Faults of an opening, with number, name and what was wanted.
const NAMED: [(FollowFault, u8, &str, &str); 2] = [
    (
        FollowFault::NoMemory,
        1,
        "NoMemory",
        "more memory than there is",
    ),
    (FollowFault::BadSize, 2, "BadSize", "1 to 16 frames"),
];

#[test]
fn of_openings(rt: HostRuntime) {
    met(&rt, all_say(rt.alloc(), &OF_OPENINGS));
    for (fault, number, name, wanted) in NAMED {
        let is_named = fault.number() == number && fault.name() == name;
        met(&rt, is_named && fault.wanted() == wanted);
    }
}

/// A source that failed behind two datagrams, and a sink that failed behind three.
const OF_STREAMS: [(StreamFault, &str); 2] = [
    (
        StreamFault::Source(ReceiveFault {
            delivered: 2,
            fault: SourceFault::Device,
        }),
        "the source failed after 2 datagrams: the device failed",
    ),
    (
        StreamFault::Sink(FrameFault {
            delivered: 3,
            timestamp: 900,
        }),
        "a sink of frames did not take the frame 900, after 3 datagrams",
    ),
];

#[test]
fn of_streams(rt: HostRuntime) {
    met(&rt, all_say(rt.alloc(), &OF_STREAMS));
    met(
        &rt,
        says(
            rt.alloc(),
            &FrameSinkFault,
            "a sink of frames failed, and did not take the frame",
        ),
    );
}
