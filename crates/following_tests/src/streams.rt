//! Streams from a source into a sink of frames, up to a sink or a source that fails and on, and
//! early.
ghost use Rattle.std.specs.Prelude.{◌≡◌, ◌≤◌, IsTrue, length};

use crate::checks::met;
use crate::sources::{opened, shows, source};
use following::{
    FollowTally, Follower, FrameFault, FrameSink, MemoryFrames, StreamFault, TEN_SECONDS, finish,
    follow, follow_eagerly, goes_early, hand_out,
};
use frame_assembly::Frame;
use path_receiver::{ReceiveFault, Received};
use st_format::SourceFault;
use st_format::memory::MemoryTurns;
use std::alloc::Global;
use std::test::Fail;
use test_kit::small_format::small;

/// The timestamps of four pictures, 1,500 ticks apart, of which the second is behind the wrap.
const T: [u32; 4] = [4_294_966_296, 500, 2_000, 3_500];

/// Ten million ticks behind the last picture.
const STRAY: u32 = 10_003_500;

/// A picture of two rows, one that comes before the one that it follows, a stray, a row that comes
/// when the third frame came, and the second row of that.
const MIXED: [(u32, u8); 8] = [
    (T[0], 0),
    (T[0], 1),
    (T[2], 0),
    (T[1], 0),
    (STRAY, 0),
    (T[3], 0),
    (T[1], 1),
    (T[2], 1),
];

/// How it is followed by two frames: the second picture's other row comes when its frame has gone.
const MIXED_TALLY: FollowTally = FollowTally {
    kept: 6,
    late: 1,
    far: 1,
    refused: 0,
};

/// A follower with what a call of `follow` wants beside it.
#[derive(Drop)]
struct Stage {
    follower: Follower,
    frame: Frame,
    buf: Vec<u8>,
    sink: MemoryFrames,
    tally: FollowTally,
}

/// A follower of F1's frames that may be 10 s ahead, and a sink whose call `fails_in` fails.
fn staged(alloc: Global, size: usize, fails_in: u64) -> Result<Stage, Fail> {
    let format = small()?;
    Ok(Stage {
        follower: opened(alloc, format, size, TEN_SECONDS)?,
        frame: Frame::new(alloc, format)?,
        buf: Vec::from_elem(alloc, 0, 65_535)?,
        sink: MemoryFrames::new(alloc, fails_in),
        tally: FollowTally::NONE,
    })
}

/// Whether a follower can be given this frame and this buffer.
fn is_fit(stage: &Stage) -> bool
    ensures format { IsTrue result
        → stage.now.frame.format ≡ stage.now.follower.opening.format }
    ensures room { IsTrue result → 65535 ≤ length stage.now.buf.items }
{
    if !stage.frame.format().same(&stage.follower.format()) {
        return false;
    }
    stage.buf.len() >= 65_535
}

/// What following a source answers, up to so many turns.
fn followed(
    stage: &mut Stage,
    source: &mut MemoryTurns,
    limit: u64,
) -> Option<Result<Received, StreamFault>> {
    if !is_fit(stage) {
        return None;
    }
    Some(follow(
        source,
        &mut stage.follower,
        stage.buf.as_mut_slice(),
        limit,
        &mut stage.frame,
        &mut stage.sink,
        &mut stage.tally,
    ))
}

/// The same where frames go early.
fn followed_eagerly(
    stage: &mut Stage,
    source: &mut MemoryTurns,
    limit: u64,
) -> Option<Result<Received, StreamFault>> {
    if !is_fit(stage) {
        return None;
    }
    Some(follow_eagerly(
        source,
        &mut stage.follower,
        stage.buf.as_mut_slice(),
        limit,
        &mut stage.frame,
        &mut stage.sink,
        &mut stage.tally,
    ))
}

/// What the sink did not take at the end, if it failed there.
fn finished(stage: &mut Stage) -> Option<Option<u32>> {
    if !is_fit(stage) {
        return None;
    }
    Some(finish(&mut stage.follower, &mut stage.frame, &mut stage.sink))
}

/// The oldest frame is shown, where it goes early.
fn shown_early(stage: &mut Stage) -> bool {
    if !goes_early(&mut stage.follower, true) {
        return false;
    }
    if !is_fit(stage) {
        return false;
    }
    match hand_out(&mut stage.follower, &mut stage.frame) {
        Some(timestamp) => stage.sink.show(timestamp, &stage.frame).is_ok(),
        None => false,
    }
}

/// What is done with a stage and a source, and what comes of it.
#[derive(Clone, Copy)]
enum Step {
    /// The source is followed up to so many turns: so many datagrams come, and the end or not.
    Follow(u64, u64, bool),
    /// So where frames go early.
    Early(u64, u64, bool),
    /// It stops at a fault.
    Stops(StreamFault),
    /// So where frames go early.
    StopsEarly(StreamFault),
    /// The oldest frame goes early and is shown, or none does.
    Shown(bool),
    /// These are in then.
    Window(&'static [u32]),
    /// At the end the sink doesn't take this frame, if it doesn't take one.
    Finish(Option<u32>),
    /// The frame that the sink did not take is shown to it again.
    Again(u32),
    /// The sink was shown these, each with so many samples missing.
    Shows(&'static [(u32, u64)]),
    /// What became of the datagrams.
    Tally(FollowTally),
}

/// Whether a step comes to what it says.
fn does(stage: &mut Stage, source: &mut MemoryTurns, step: Step) -> bool {
    match step {
        Step::Follow(limit, delivered, ended) => {
            followed(stage, source, limit) == Some(Ok(Received { delivered, ended }))
        }
        Step::Early(limit, delivered, ended) => {
            followed_eagerly(stage, source, limit) == Some(Ok(Received { delivered, ended }))
        }
        Step::Stops(fault) => followed(stage, source, 100) == Some(Err(fault)),
        Step::StopsEarly(fault) => followed_eagerly(stage, source, 100) == Some(Err(fault)),
        Step::Shown(is_shown) => shown_early(stage) == is_shown,
        Step::Window(timestamps) => stage.follower.window() == timestamps,
        Step::Finish(timestamp) => finished(stage) == Some(timestamp),
        Step::Again(timestamp) => stage.sink.show(timestamp, &stage.frame).is_ok(),
        Step::Shows(shown) => shows(&stage.sink, shown),
        Step::Tally(tally) => stage.tally == tally,
    }
}

/// Whether each does.
fn does_all(stage: &mut Stage, source: &mut MemoryTurns, steps: &[Step]) -> bool {
    for step in steps {
        if !does(stage, source, *step) {
            return false;
        }
    }
    true
}

/// The frames of the mixed stream, each with how many samples are missing.
const SHOWN: [(u32, u64); 4] = [(T[0], 0), (T[1], 8), (T[2], 0), (T[3], 8)];

/// How each of the others ends.
const WHOLE: [Step; 3] = [
    Step::Finish(None),
    Step::Shows(&SHOWN),
    Step::Tally(MIXED_TALLY),
];

/// Turn by turn, and then the rest.
const IN_ORDER: [Step; 4] = [
    Step::Follow(1, 1, false),
    Step::Follow(1, 0, false),
    Step::Follow(100, 7, true),
    Step::Shows(&[(T[0], 0), (T[1], 8)]),
];

/// A sink that fails when it is shown the second picture, at the sixth datagram: the caller shows
/// it again, and goes on.
const SINK: [Step; 4] = [
    Step::Stops(StreamFault::Sink(FrameFault {
        delivered: 6,
        timestamp: T[1],
    })),
    Step::Shows(&[(T[0], 0)]),
    Step::Again(T[1]),
    Step::Follow(100, 2, true),
];

/// A sink that fails at the end, when it is shown the third picture.
const SINK_AT_END: [Step; 3] = [
    Step::Follow(100, 8, true),
    Step::Finish(Some(T[2])),
    Step::Again(T[2]),
];

/// A source that fails at its fourth call, behind two datagrams: what came before is taken, and the
/// rest comes later.
const SOURCE: [Step; 2] = [
    Step::Stops(StreamFault::Source(ReceiveFault {
        delivered: 2,
        fault: SourceFault::Device,
    })),
    Step::Follow(100, 6, true),
];

/// Which call of the sink and of the source fails, and what is done before the stream's end.
const MIXED_STREAMS: [(u64, u64, &[Step]); 4] = [
    (0, 0, &IN_ORDER),
    (2, 0, &SINK),
    (3, 0, &SINK_AT_END),
    (0, 4, &SOURCE),
];

/// A picture, and a row of it that comes again; half of the second; the third picture, which waits
/// for it; the other half; and a row of the fourth.
const EARLY: [(u32, u8); 8] = [
    (T[0], 0),
    (T[0], 1),
    (T[0], 0),
    (T[1], 0),
    (T[2], 0),
    (T[2], 1),
    (T[1], 1),
    (T[3], 0),
];

/// Frames that go as soon as nothing is missing, though four have room. The repeat comes when its
/// frame has gone.
const EARLY_STEPS: [Step; 8] = [
    Step::Early(4, 2, false),
    Step::Shows(&[(T[0], 0)]),
    Step::Early(8, 4, false),
    Step::Shows(&[(T[0], 0)]),
    Step::Early(100, 2, true),
    Step::Finish(None),
    Step::Shows(&[(T[0], 0), (T[1], 0), (T[2], 0), (T[3], 8)]),
    Step::Tally(FollowTally {
        kept: 7,
        late: 1,
        far: 0,
        refused: 0,
    }),
];

#[test]
fn in_order_and_early(rt: HostRuntime) -> Result<(), Fail> {
    for (sink, call, steps) in MIXED_STREAMS {
        let mut stage = staged(rt.alloc(), 2, sink)?;
        let mut turns = source(rt.alloc(), &MIXED, call)?;
        met(&rt, does_all(&mut stage, &mut turns, steps));
        met(&rt, does_all(&mut stage, &mut turns, &WHOLE));
    }
    let mut stage = staged(rt.alloc(), 4, 0)?;
    let mut turns = source(rt.alloc(), &EARLY, 0)?;
    met(&rt, does_all(&mut stage, &mut turns, &EARLY_STEPS));
    Ok(())
}

/// Half of a picture; the second and the third, which wait for it; its other half; and a row of the
/// second that comes again.
const TOGETHER: [(u32, u8); 7] = [
    (T[0], 0),
    (T[1], 0),
    (T[1], 1),
    (T[2], 0),
    (T[2], 1),
    (T[0], 1),
    (T[1], 0),
];

/// How both of these end.
const ALL_SHOWN: [Step; 4] = [
    Step::Shows(&[(T[0], 0), (T[1], 0), (T[2], 0)]),
    Step::Window(&[]),
    Step::Early(100, 1, true),
    Step::Tally(FollowTally {
        kept: 6,
        late: 1,
        far: 0,
        refused: 0,
    }),
];

/// All three go at one datagram, the last before a pause: nothing waits for the next.
const AT_ONCE: [Step; 3] = [
    Step::Early(10, 5, false),
    Step::Shows(&[]),
    Step::Early(1, 1, false),
];

/// A sink that fails at the second of them: the third stays in, and goes when the caller has shown
/// the second.
const BETWEEN: [Step; 6] = [
    Step::StopsEarly(StreamFault::Sink(FrameFault {
        delivered: 6,
        timestamp: T[1],
    })),
    Step::Shows(&[(T[0], 0)]),
    Step::Window(&[T[2]]),
    Step::Again(T[1]),
    Step::Shown(true),
    Step::Shown(false),
];

/// Two have room, and the first goes when a third comes: the second, which is whole, with it.
const BEHIND: [Step; 3] = [
    Step::Early(7, 4, false),
    Step::Shows(&[(T[0], 8), (T[1], 0)]),
    Step::Window(&[T[2]]),
];

#[test]
fn at_once(rt: HostRuntime) -> Result<(), Fail> {
    let mut stage = staged(rt.alloc(), 4, 0)?;
    let mut turns = source(rt.alloc(), &TOGETHER, 0)?;
    met(&rt, does_all(&mut stage, &mut turns, &AT_ONCE));
    met(&rt, does_all(&mut stage, &mut turns, &ALL_SHOWN));
    let mut stage = staged(rt.alloc(), 4, 2)?;
    let mut turns = source(rt.alloc(), &TOGETHER, 0)?;
    met(&rt, does_all(&mut stage, &mut turns, &BETWEEN));
    met(&rt, does_all(&mut stage, &mut turns, &ALL_SHOWN));
    let sent = [(T[0], 0), (T[1], 0), (T[1], 1), (T[2], 0)];
    let mut stage = staged(rt.alloc(), 2, 0)?;
    let mut turns = source(rt.alloc(), &sent, 0)?;
    met(&rt, does_all(&mut stage, &mut turns, &BEHIND));
    Ok(())
}
