//! What a follower answers to each datagram of small streams, and which frame goes.
use crate::checks::met;
use crate::sources::{datagram, opened};
use following::{Followed, Follower, TEN_SECONDS};
use frame_assembly::Frame;
use std::test::Fail;
use test_kit::small_format::small;

/// What is done with a follower, and what it is to answer.
#[derive(Clone, Copy)]
enum Step {
    /// A datagram of this timestamp and of packet number 7 is taken.
    Take(u32, Followed),
    /// The oldest frame is handed out, with this timestamp; or none is in.
    Next(Option<u32>),
    /// It forgets what went last.
    Restart,
}

/// The answer of a datagram that is kept.
const KEPT: Followed = Followed::Kept(7);

/// Two frames at most, and 10 s ahead. 1,000 ticks before timestamps go round a frame comes in, one
/// 3,000 ticks later comes in, and then one that is between them: the oldest has to go first.
const TWO: [Step; 28] = [
    Step::Next(None),
    Step::Take(4_294_966_296, KEPT),
    Step::Take(2_000, KEPT),
    Step::Take(500, Followed::Due),
    Step::Take(4_294_966_296, KEPT),
    Step::Next(Some(4_294_966_296)),
    Step::Take(500, KEPT),
    // 900,000 ticks ahead of 2,000, and one more.
    Step::Take(902_000, Followed::Due),
    Step::Take(902_001, Followed::Far),
    // What went last, one before it, and one that is behind it but older than all.
    Step::Take(4_294_966_296, Followed::Late),
    Step::Take(4_294_966_000, Followed::Late),
    Step::Take(499, Followed::Late),
    Step::Next(Some(500)),
    // Between two that are there no more, and before the one that is.
    Step::Take(1_000, KEPT),
    Step::Take(1_500, Followed::Due),
    Step::Take(999, Followed::Late),
    Step::Next(Some(1_000)),
    Step::Next(Some(2_000)),
    Step::Next(None),
    // No frame is in: the newest is what went last.
    Step::Take(902_001, Followed::Far),
    Step::Take(2_000, Followed::Late),
    Step::Take(902_000, KEPT),
    Step::Next(Some(902_000)),
    // A sender begins anew.
    Step::Take(2_000, Followed::Late),
    Step::Restart,
    Step::Take(2_000, KEPT),
    Step::Next(Some(2_000)),
    Step::Take(2_000, Followed::Late),
];

/// Four frames, with no bound on how far ahead one may be. Of two that are 2^31 ticks apart neither
/// is newer (RFC 1982, 3.2): the second has no place.
const HALVES: [Step; 9] = [
    Step::Take(0, KEPT),
    Step::Take(2_147_483_648, Followed::Late),
    Step::Take(2_147_483_647, KEPT),
    // Newer than the one before, and older than the first.
    Step::Take(4_294_967_294, Followed::Late),
    // It isn't newer than what went last either, up to when another one went.
    Step::Next(Some(0)),
    Step::Take(4_294_967_294, Followed::Late),
    Step::Next(Some(2_147_483_647)),
    Step::Take(4_294_967_294, KEPT),
    Step::Next(Some(4_294_967_294)),
];

/// One frame: each new timestamp has the one before go.
const ONE: [Step; 6] = [
    Step::Take(900, KEPT),
    Step::Take(899, Followed::Late),
    Step::Take(901, Followed::Due),
    Step::Next(Some(900)),
    Step::Take(901, KEPT),
    Step::Next(Some(901)),
];

/// None may be ahead: no frame comes in behind the first.
const NONE_AHEAD: [Step; 4] = [
    Step::Take(900, KEPT),
    Step::Take(901, Followed::Far),
    Step::Take(899, KEPT),
    Step::Take(900, KEPT),
];

/// Whether a step is answered as it is to be.
fn is_answered(follower: &mut Follower, frame: &mut Frame, step: Step) -> bool {
    if !frame.format().same(&follower.format()) {
        return false;
    }
    match step {
        Step::Take(timestamp, answer) => {
            follower.take(&datagram(timestamp, 7, 0, 16)) == Ok(answer)
        }
        Step::Next(timestamp) => follower.next_frame(frame) == timestamp,
        Step::Restart => restarts(follower),
    }
}

/// Whether no frame is in, and what went last is forgotten.
fn restarts(follower: &mut Follower) -> bool {
    if !follower.window().is_empty() {
        return false;
    }
    follower.restart();
    true
}

/// Whether each step is answered so.
fn are_answered(follower: &mut Follower, frame: &mut Frame, steps: &[Step]) -> bool {
    for step in steps {
        if !is_answered(follower, frame, *step) {
            return false;
        }
    }
    true
}

/// How many frames may be in, how far ahead a timestamp may be, and what is done.
const STREAMS: [(usize, u32, &[Step]); 4] = [
    (2, TEN_SECONDS, &TWO),
    (4, u32::MAX, &HALVES),
    (1, TEN_SECONDS, &ONE),
    (3, 0, &NONE_AHEAD),
];

#[test]
fn steps(rt: HostRuntime) -> Result<(), Fail> {
    let format = small()?;
    for (size, most_ahead, steps) in STREAMS {
        let mut follower = opened(rt.alloc(), format, size, most_ahead)?;
        let mut frame = Frame::new(rt.alloc(), format)?;
        met(&rt, are_answered(&mut follower, &mut frame, steps));
    }
    Ok(())
}
