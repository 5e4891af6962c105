//! *loopback* and *loop-limits* over a link in memory, which also repeats, reorders and fails.
use crate::checks::met;
use crate::text_runs::{DEVICE, MEMORY};
use refusing::Refusing;
use st_format::memory::{MemorySink, MemorySource};
use st2110_tool::{Looping, MemoryLink, run_loop};
use std::alloc::{AllocError, Allocator, Global};
use std::process::Abort;
use std::test::Fail;
use test_kit::wanting::{Wanting, grows};

/// *picture-file*.
const PICTURE: &[u8] =
    b"S20PIC01\0\x08\0\x04\0\x02\0\0\0\x3C\0\0\0\x01\x80\x10\x80\x11\x80\x12\x80\x13\x80\x14\x80\x15\x80\x16\x80\x17";

/// How a picture is sent, and what its link does.
#[derive(Clone, Copy)]
struct Way {
    max_octets: u32,
    limit: u64,
    /// Which datagram comes in each turn.
    comes: &'static [Option<usize>],
}

/// Ways, each with how many turns are taken and what is printed.
const WAYS: [(Way, usize, &[u8]); 7] = [
    // *loopback*
    (
        Way {
            max_octets: 40,
            limit: 100_000,
            comes: &[Some(0), Some(1)],
        },
        2,
        b"sent 2\ndelivered 2\nframe 0 present 16 missing 0 contested 0\n",
    ),
    // *loop-limits*: a limit of 1, and a link that loses everything
    (
        Way {
            max_octets: 40,
            limit: 1,
            comes: &[Some(0), Some(1)],
        },
        1,
        b"sent 1\ndelivered 1\nframe 0 present 12 missing 4 contested 0\n",
    ),
    (
        Way {
            max_octets: 40,
            limit: 100_000,
            comes: &[],
        },
        2,
        b"sent 2\ndelivered 0\nframe 0 present 0 missing 16 contested 0\n",
    ),
    // No turn at all
    (
        Way {
            max_octets: 40,
            limit: 0,
            comes: &[Some(0)],
        },
        0,
        b"sent 0\ndelivered 0\nframe 0 present 0 missing 16 contested 0\n",
    ),
    // Of four datagrams the first three times, and the last
    (
        Way {
            max_octets: 24,
            limit: 4,
            comes: &[Some(0), Some(0), Some(0), Some(3)],
        },
        4,
        b"sent 4\ndelivered 4\nframe 0 present 8 missing 8 contested 0\n",
    ),
    // The second before the first, one that is lost, and none in the first turn
    (
        Way {
            max_octets: 24,
            limit: 5,
            comes: &[None, Some(1), Some(0), Some(3)],
        },
        4,
        b"sent 4\ndelivered 3\nframe 0 present 12 missing 4 contested 0\n",
    ),
    // One that wasn't put in yet
    (
        Way {
            max_octets: 24,
            limit: 5,
            comes: &[Some(1), Some(1), Some(0), Some(2)],
        },
        4,
        b"sent 4\ndelivered 3\nframe 0 present 12 missing 4 contested 0\n",
    ),
];

/// A link with room for four datagrams.
fn link(global: Global, way: Way, fails_in: u64) -> Result<MemoryLink, AllocError> {
    let mut slots = Vec::with_capacity(global, 4)?;
    for _ in 0..4 {
        slots.push(Vec::with_capacity(global, way.max_octets as usize)?)?;
    }
    let comes = Vec::from_slice(global, way.comes)?;
    Ok(MemoryLink::new(slots, comes, fails_in))
}

/// A run's status, how many turns were taken, and its sinks of what it printed and of faults.
type Ran = (u8, usize, MemorySink, MemorySink);

/// A run over a link in memory, of which a call fails, counted from 1; 0 means that none does.
fn run<A: Allocator + Copy>(
    global: Global,
    alloc: A,
    way: Way,
    fails_in: u64,
) -> Result<Ran, AllocError> {
    let mut picture = MemorySource::new(Vec::from_slice(global, PICTURE)?, 7, 0);
    let mut link = link(global, way, fails_in)?;
    let mut printed = MemorySink::new(Vec::with_capacity(global, 128)?, 7, 0);
    let mut told = MemorySink::new(Vec::with_capacity(global, 128)?, 7, 0);
    let looping = Looping {
        max_octets: way.max_octets,
        limit: way.limit,
    };
    let status = run_loop(
        alloc,
        looping,
        &mut picture,
        &mut link,
        &mut printed,
        &mut told,
    );
    Ok((status, link.turns(), printed, told))
}

/// Whether a run ended well, in so many turns, and printed this.
fn is_done(ran: &Ran, turns: usize, text: &[u8]) -> bool {
    ran.0 == 0 && ran.1 == turns && ran.3.held().is_empty() && ran.2.held() == text
}

/// Whether a run ended by this status and line, and printed nothing.
fn stops(ran: &Ran, status: u8, line: &[u8]) -> bool {
    ran.0 == status && ran.2.held().is_empty() && ran.3.held() == line
}

/// *loopback*: `loop` over a link in memory.
#[derive(Clone, Copy)]
struct Loopback;

impl Wanting for Loopback {
    fn answer(&self, global: Global, refusing: &Refusing<Global>) -> Result<Option<bool>, Fail> {
        let (way, turns, text) = WAYS[0];
        let ran = run(global, refusing, way, 0)?;
        Ok(if stops(&ran, 4, MEMORY) {
            None
        } else {
            Some(is_done(&ran, turns, text))
        })
    }
}

#[test]
fn links(rt: HostRuntime) -> Result<(), Fail> {
    for (way, turns, text) in WAYS {
        let ran = run(rt.alloc(), rt.alloc(), way, 0)?;
        met(&rt, is_done(&ran, turns, text));
    }
    for fails_in in 1..5u64 {
        let ran = run(rt.alloc(), rt.alloc(), WAYS[0].0, fails_in)?;
        met(&rt, stops(&ran, 3, DEVICE));
    }
    Ok(())
}

#[test]
fn each_growth_refused(rt: HostRuntime) -> Result<(), Fail> {
    met(&rt, grows(rt.alloc(), &Loopback, 4)?);
    Ok(())
}
