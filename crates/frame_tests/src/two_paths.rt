//! Two redundant paths (SMPTE ST 2022-7): receivers that are merged, windows that slide, and
//! refusals that are kept, as tables of steps, without a growth.

use crate::checks::met;
use frame_assembly::{Counts, Frame};
use path_receiver::{OpenFault, Receiver, Refusal, SlideFault, Taken};
use refusing::Refusing;
use rtp_header::RtpFault;
use st_format::{Depth, Format, Path, Sampling};
use std::alloc::{Allocator, Global};
use std::mem;
use std::test::Fail;
use test_kit::small_format::{ANOTHER, LOWER, UPPER, counts, small};

/// The upper row with version 1.
pub const OTHER_VERSION: &[u8] =
    b"\x40\xE0\0\x01\0\0\x03\x84\0\0\0\x01\0\0\0\x08\0\0\0\0\x80\x10\x80\x11\x80\x12\x80\x13";

/// The upper row at timestamp 901.
const LATER: &[u8] =
    b"\x80\xE0\0\x01\0\0\x03\x85\0\0\0\x01\0\0\0\x08\0\0\0\0\x80\x10\x80\x11\x80\x12\x80\x13";

/// At timestamp 2400, two segments that disagree about one sample of the first two pixels.
const DISAGREE: &[u8] = b"\x80\xE0\0\x01\0\0\x09\x60\0\0\0\x01\0\0\0\x04\0\0\x80\0\0\x04\0\0\0\0\
    \x80\x10\x80\x11\x80\x20\x80\x11";

/// The same at timestamp 900.
const DISAGREE_FIRST: &[u8] = b"\x80\xE0\0\x01\0\0\x03\x84\0\0\0\x01\0\0\0\x04\0\0\x80\0\0\x04\0\0\
    \0\0\x80\x10\x80\x11\x80\x20\x80\x11";

const FIRST: Result<Taken, Refusal> = Ok(Taken::Kept(1));

const SECOND: Result<Taken, Refusal> = Ok(Taken::Kept(2));

const OUTSIDE: Result<Taken, Refusal> = Ok(Taken::Outside);

const SHORT: Refusal = Refusal::Header(RtpFault::ShortHeader);

const NONE: Counts = Counts {
    present: 0,
    missing: 16,
    contested: 0,
};

const HALF: Counts = Counts {
    present: 8,
    missing: 8,
    contested: 0,
};

const WHOLE: Counts = Counts {
    present: 16,
    missing: 0,
    contested: 0,
};

const DIFFERING: Counts = Counts {
    present: 15,
    missing: 0,
    contested: 1,
};

/// What is done with the nearer one of two receivers, and what comes of it.
enum Step {
    /// It takes a datagram by a path, and answers so.
    Take(Path, &'static [u8], Result<Taken, Refusal>),
    /// The farther one, which was opened alike, is merged into it.
    Merge,
    /// Its window moves on to a timestamp.
    Slide(u32, Result<u32, SlideFault>),
    /// Its window doesn't move on for a frame of another format.
    SlideUnlike(u32),
    /// The other one is the nearer one now.
    Swap,
    /// Its frame of a timestamp, where it has one.
    Has(u32, Option<Counts>),
    /// The frame that slid out.
    Out(Counts),
    Window(&'static [u32]),
    /// It keeps so many refusals.
    Refusals(usize),
}

/// Two receivers of F1, payload type 96 and any source, and frames to slide out, the second of RGB.
#[derive(Drop)]
struct Pair<A: Allocator = Global> {
    near: Receiver<A>,
    far: Receiver<A>,
    out: Frame<A>,
    unlike: Frame<A>,
}

impl<A: Allocator + Copy> Pair<A> {
    /// Receivers of F1, and frames of F1 and of RGB.
    fn open(alloc: A, window: &[u32]) -> Result<Pair<A>, Fail> {
        let unlike = Format::new(Sampling::Rgb, Depth::D8, 4, 2, 60, 1)?;
        Ok(Pair::of(alloc, small()?, unlike, window)?)
    }

    /// Receivers and a frame of a format, and a frame of another.
    fn of(alloc: A, format: Format, unlike: Format, window: &[u32]) -> Result<Pair<A>, OpenFault> {
        Ok(Pair {
            near: Receiver::open(alloc, format, 96, None, window)?,
            far: Receiver::open(alloc, format, 96, None, window)?,
            out: Frame::new(alloc, format)?,
            unlike: Frame::new(alloc, unlike)?,
        })
    }
}

impl<A: Allocator> Pair<A> {
    /// Whether a step does what it says.
    fn follows(&mut self, step: &Step) -> bool {
        match step {
            Step::Take(path, octets, answer) => self.near.take(*path, *octets) == *answer,
            Step::Merge => self.near.merge(&self.far) == Ok(()),
            Step::Slide(next, answer) => self.near.slide(*next, &mut self.out) == *answer,
            Step::SlideUnlike(next) => {
                self.near.slide(*next, &mut self.unlike) == Err(SlideFault::OtherFormat)
            }
            Step::Swap => {
                mem::swap(&mut self.near, &mut self.far);
                true
            }
            _ => self.shows(step),
        }
    }

    /// Where a step only looks.
    fn shows(&self, step: &Step) -> bool {
        match step {
            Step::Has(timestamp, wanted) => counts(&self.near, *timestamp) == *wanted,
            Step::Out(wanted) => self.out.counts() == *wanted,
            Step::Window(window) => self.near.window() == *window,
            Step::Refusals(count) => self.near.refusal_count() == *count,
            _ => false,
        }
    }

    /// Whether each step does what it says.
    fn follows_all(&mut self, steps: &[Step]) -> bool {
        for step in steps {
            if !self.follows(step) {
                return false;
            }
        }
        true
    }
}

/// *merge-two-halves*: the second one's refusal stays its own.
const MERGE: [Step; 13] = [
    Step::Take(Path::A, UPPER, FIRST),
    Step::Swap,
    Step::Take(Path::B, LOWER, SECOND),
    Step::Take(Path::B, b"", Err(SHORT)),
    Step::Swap,
    Step::Merge,
    Step::Has(900, Some(WHOLE)),
    Step::Refusals(0),
    Step::Merge,
    Step::Has(900, Some(WHOLE)),
    Step::Swap,
    Step::Has(900, Some(HALF)),
    Step::Refusals(1),
];

/// *outside-and-slide*, and a frame of another format.
const SLIDE: [Step; 10] = [
    Step::Take(Path::A, LATER, OUTSIDE),
    Step::Take(Path::A, UPPER, FIRST),
    Step::Slide(900, Err(SlideFault::InWindow)),
    Step::SlideUnlike(2400),
    Step::Slide(2400, Ok(900)),
    Step::Out(HALF),
    Step::Take(Path::A, UPPER, OUTSIDE),
    Step::Window(&[2400]),
    Step::Has(2400, Some(NONE)),
    Step::Has(900, None),
];

/// Whether receivers and frames over an allocator follow *outside-and-slide*, or `None` where
/// memory is wanted for them.
pub fn is_slid<A: Allocator + Copy>(alloc: A) -> Result<Option<bool>, Fail> {
    let unlike = Format::new(Sampling::Rgb, Depth::D8, 4, 2, 60, 1)?;
    match Pair::of(alloc, small()?, unlike, &[900]) {
        Ok(mut pair) => Ok(Some(pair.follows_all(&SLIDE))),
        Err(OpenFault::NoMemory) => Ok(None),
        Err(_) => Ok(Some(false)),
    }
}

/// A merge of what differs, a slide, and a datagram that disagrees with itself.
const WITHOUT_MEMORY: [Step; 17] = [
    Step::Take(Path::A, UPPER, FIRST),
    Step::Take(Path::B, UPPER, FIRST),
    Step::Take(Path::A, UPPER, FIRST),
    Step::Has(900, Some(HALF)),
    Step::Swap,
    Step::Take(Path::B, ANOTHER, FIRST),
    Step::Take(Path::B, LOWER, SECOND),
    Step::Swap,
    Step::Merge,
    Step::Has(900, Some(DIFFERING)),
    Step::Take(Path::A, b"", Err(SHORT)),
    Step::Slide(900, Err(SlideFault::InWindow)),
    Step::Slide(2400, Ok(900)),
    Step::Out(DIFFERING),
    Step::Take(Path::B, DISAGREE, FIRST),
    Step::Has(
        2400,
        Some(Counts {
            present: 3,
            missing: 12,
            contested: 1,
        }),
    ),
    Step::Refusals(1),
];

/// *both-paths-and-a-repeat*.
const BOTH_PATHS: [Step; 4] = [
    Step::Take(Path::A, UPPER, FIRST),
    Step::Take(Path::B, UPPER, FIRST),
    Step::Take(Path::A, UPPER, FIRST),
    Step::Has(900, Some(HALF)),
];

/// *contested*: the first datagram once more changes nothing.
const CONTESTED: [Step; 5] = [
    Step::Take(Path::A, UPPER, FIRST),
    Step::Take(Path::A, ANOTHER, FIRST),
    Step::Has(900, Some(HALF_CONTESTED)),
    Step::Take(Path::A, UPPER, FIRST),
    Step::Has(900, Some(HALF_CONTESTED)),
];

const HALF_CONTESTED: Counts = Counts {
    present: 7,
    missing: 8,
    contested: 1,
};

/// *segments-that-disagree*: two segments of one datagram differ.
const SEGMENTS: [Step; 2] = [
    Step::Take(Path::A, DISAGREE_FIRST, FIRST),
    Step::Has(
        900,
        Some(Counts {
            present: 3,
            missing: 12,
            contested: 1,
        }),
    ),
];

/// Whether receivers and frames that are made follow steps, where the next growth is refused, and
/// whether none is asked for.
fn follows_without_growth(refusing: &Refusing<Global>, steps: &[Step]) -> Result<bool, Fail> {
    refusing.refuse(0);
    let mut pair = Pair::open(refusing, &[900])?;
    refusing.refuse(1);
    Ok(pair.follows_all(steps) && !refusing.was_met())
}

/// With two receivers and frames made, `take`, `merge` and `slide` ask for no memory.
#[test]
fn no_growth(rt: HostRuntime) -> Result<(), Fail> {
    let refusing = Refusing::new(rt.alloc(), 0);
    for steps in [
        BOTH_PATHS.as_slice(),
        CONTESTED.as_slice(),
        SEGMENTS.as_slice(),
        SLIDE.as_slice(),
        MERGE.as_slice(),
        WITHOUT_MEMORY.as_slice(),
    ] {
        met(&rt, follows_without_growth(&refusing, steps)?);
    }
    Ok(())
}
