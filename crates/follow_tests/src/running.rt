//! Runs of `run_follow` over two files in memory.
ghost use Rattle.std.specs.Prelude.{IfOk};
ghost use Rattle.follow_engine.specs.Opened.{AllClosedSides};

use crate::shown::ShownFrames;
use crate::streams::Stream;
use flow::{Flow, Flows};
use follow_engine::FollowAsked;
use side_by_side::Side;
use st_format::memory::{MemorySink, MemorySource};
use st2110_tool::{FollowWanted, run_follow};
use std::alloc::{AllocError, Allocator, Global};

/// Path A by port 5004 and path B by port 5006, of any address.
const FLOWS: Flows = Flows {
    a: Some(Flow {
        interface: None,
        source: None,
        address: None,
        port: 5004,
    }),
    b: Some(Flow {
        interface: None,
        source: None,
        address: None,
        port: 5006,
    }),
};

/// Which call of each device fails: of the sources of the two files, of the sink of lines, and of
/// that of pictures; 0 means that none does.
#[derive(Clone, Copy)]
pub struct Failing {
    pub first: u64,
    pub second: u64,
    pub lines: u64,
    pub pictures: u64,
}

pub const NONE: Failing = Failing {
    first: 0,
    second: 0,
    lines: 0,
    pictures: 0,
};

/// A source of these octets, 64 a call.
fn source(alloc: Global, octets: &[u8], fails_in: u64) -> Result<MemorySource, AllocError> {
    Ok(MemorySource::new(Vec::from_slice(alloc, octets)?, 64, fails_in))
}

/// Two files that aren't opened.
fn closed_sides<A: Allocator>(
    alloc: A,
    first: MemorySource,
    second: MemorySource,
) -> Result<Vec<Side<A, MemorySource>, A>, AllocError>
    ensures { IfOk result (λ sides. AllClosedSides sides.items) }
{
    let mut sides = Vec::new(alloc);
    sides.push(Side::closed(first))?;
    sides.push(Side::closed(second))?;
    Ok(sides)
}

/// How a run ended, what it told of it, what it printed, and which frames it showed.
#[derive(Drop)]
pub struct Run {
    status: u8,
    faults: MemorySink,
    pub printed: MemorySink,
    pub shown: ShownFrames,
}

/// A run over devices of which some fail. Its own memory, and that of the list of files, comes from
/// `alloc`.
pub fn run_of<A: Allocator + Copy>(
    global: Global,
    alloc: A,
    stream: &Stream,
    failing: Failing,
) -> Result<Run, AllocError> {
    let mut shown = ShownFrames::new(failing.pictures);
    let mut printed = MemorySink::new(Vec::with_capacity(global, 1024)?, 7, failing.lines);
    let mut faults = MemorySink::new(Vec::with_capacity(global, 64)?, 7, 0);
    // (a capture says its paths itself)
    let ways = [Ok(FLOWS)];
    let wanted = FollowWanted {
        asked: FollowAsked {
            frames: stream.frames,
            ssrc: b"any",
            is_eager: false,
        },
        sdp: stream.sdp,
        ways: &ways,
    };
    let first = source(global, stream.first, failing.first)?;
    let second = source(global, stream.second, failing.second)?;
    let mut sides = closed_sides(alloc, first, second)?;
    let mut lent = &mut shown;
    let status = run_follow(
        alloc,
        wanted,
        &mut sides,
        &mut [],
        &mut lent,
        &mut printed,
        &mut faults,
    );
    Ok(Run {
        status,
        faults,
        printed,
        shown,
    })
}

impl Run {
    /// Whether it ended with this status, and told this of it.
    fn has_ended(&self, status: u8, told: &[u8]) -> bool {
        self.status == status && self.faults.held() == told
    }

    /// Whether it ended well and printed this, or `None` where it wanted memory: it neither printed
    /// nor showed anything then.
    pub fn answered(&self, told: &[u8]) -> Option<bool> {
        let printed = self.printed.held();
        if self.has_ended(4, b"st2110: memory\n") && printed.is_empty() && self.shown.shown == 0 {
            return None;
        }
        Some(self.has_ended(0, b"") && printed == told)
    }

    /// Whether a device failed.
    pub fn has_failed(&self) -> bool {
        self.has_ended(3, b"st2110: device\n")
    }
}
