//! Pictures that are sent to a sink that fails at each put.
use crate::checks::met;
use packet_plan::{Plan, PlanFault, SendFault, Stamp, send_frame};
use st_format::memory::MemoryDatagrams;
use st_format::{Format, Picture, PictureFault};
use std::alloc::{Allocator, Global};
use std::test::Fail;
use test_kit::picture_values::set;
use test_kit::sending::{STAMP, sink};
use test_kit::small_format::small;

/// P0, of F1: chroma 128, and luma 16 to 23 in raster order.
pub fn p0<A: Allocator>(alloc: A, format: Format) -> Result<Picture<A>, PictureFault> {
    let mut picture = Picture::new(alloc, format, [0, 128, 128])?;
    for row in 0..2u32 {
        for column in 0..4u32 {
            set(&mut picture, row, column, 0, (16 + 4 * row + column) as u16);
        }
    }
    Ok(picture)
}

/// Whether octets are those of some hexadecimal digits.
fn are_octets(alloc: Global, octets: &[u8], digits: &str) -> bool {
    match hex::decode(alloc, digits) {
        Ok(wanted) => wanted.as_slice() == octets,
        Err(_) => false,
    }
}

/// Whether a sink has taken these datagrams, and has failed once where it was to fail.
pub fn has_taken(alloc: Global, sink: &MemoryDatagrams, fails_in: u64, datagrams: &[&str]) -> bool {
    let taken = sink.taken();
    let mut agree = sink.failures() == fails_in.min(1) && taken.len() == datagrams.len();
    for (octets, digits) in taken.iter().zip(datagrams) {
        agree &= are_octets(alloc, octets.as_slice(), digits);
    }
    agree
}

/// Whether a picture sent by a plan gives these datagrams to a sink that fails at one put, and this
/// answer: a next number, or a fault of the sink.
fn gives<A: Allocator, B: Allocator>(
    global: Global,
    plan: &Plan<A>,
    picture: &Picture<B>,
    sending: (u32, u64),
    answer: Result<u32, SendFault>,
    datagrams: &[&str],
) -> bool {
    let (first, fails_in) = sending;
    let mut buf = [0; 1400];
    let Ok(mut sink) = sink(global, fails_in) else {
        return false;
    };
    let (ours, theirs) = (picture.format(), plan.format());
    if plan.max_octets() as usize > buf.len() || !ours.same(&theirs) {
        return false;
    }
    let stamp = Stamp { first, ..STAMP };
    send_frame(plan, picture, stamp, &mut buf, &mut sink) == answer
        && has_taken(global, &sink, fails_in, datagrams)
}

/// Whether a picture sent from a number on gives these datagrams and this next number with a sink
/// that fails at none of its puts, and the datagrams before with one that fails at each in turn.
fn gives_at_each(
    global: Global,
    plan: &Plan,
    picture: &Picture,
    numbers: (u32, u32),
    datagrams: &[&str],
) -> bool {
    let (first, next) = numbers;
    let mut agree = gives(global, plan, picture, (first, 0), Ok(next), datagrams);
    for before in 0..datagrams.len() {
        let sent = u32::try_from(before).unwrap_or(u32::MAX);
        let fault = Err(SendFault { sent });
        let sending = (first, before as u64 + 1);
        agree &= gives(global, plan, picture, sending, fault, &datagrams[..before]);
    }
    agree
}

/// Whether P0 over an allocator gives *sender-sizes*' datagrams at 24 octets, or `None` where the
/// picture wants memory.
pub fn is_pictured<A: Allocator>(global: Global, alloc: A) -> Result<Option<bool>, Fail> {
    let format = small()?;
    let plan = Plan::new(global, format, 24)?;
    Ok(match p0(alloc, format) {
        Ok(picture) => Some(gives(global, &plan, &picture, (1, 0), Ok(5), &GROUPS)),
        Err(PictureFault::NoMemory) => None,
        Err(_) => Some(false),
    })
}

/// Whether a plan over an allocator gives them, or `None` where it wants memory.
pub fn is_planned<A: Allocator>(global: Global, alloc: A) -> Result<Option<bool>, Fail> {
    let picture = p0(global, small()?)?;
    Ok(match Plan::new(alloc, picture.format(), 24) {
        Ok(plan) => Some(gives(global, &plan, &picture, (1, 0), Ok(5), &GROUPS)),
        Err(PlanFault::NoMemory) => None,
        Err(_) => Some(false),
    })
}

/// *sender-sizes*' datagram at 42 octets.
pub const WHOLE: &str = "80E0000100000384000000010000000800008000000800010000\
    80108011801280138014801580168017";

/// The four at 24 octets.
pub const GROUPS: [&str; 4] = [
    "806000010000038400000001000000040000000080108011",
    "806000020000038400000001000000040000000280128013",
    "806000030000038400000001000000040001000080148015",
    "80E000040000038400000001000000040001000280168017",
];

/// *sender-sizes* at 42, 40 and 24, and *number-wraps-and-failing-sink*: size, first and next
/// number, and datagrams.
const SENDER_SIZES: [(u32, u32, u32, &[&str]); 4] = [
    (42, 1, 2, &[WHOLE]),
    (
        40,
        1,
        3,
        &[
            "8060000100000384000000010000000800008000000400010000801080118012801380148015",
            "80E000020000038400000001000000040001000280168017",
        ],
    ),
    (
        40,
        0xFFFF_FFFF,
        1,
        &[
            "8060FFFF0000038400000001FFFF000800008000000400010000801080118012801380148015",
            "80E000000000038400000001000000040001000280168017",
        ],
    ),
    (24, 1, 5, &GROUPS),
];

#[test]
fn sender_sizes(rt: HostRuntime) -> Result<(), Fail> {
    let picture = p0(rt.alloc(), small()?)?;
    for (size, first, next, datagrams) in SENDER_SIZES {
        let plan = Plan::new(rt.alloc(), picture.format(), size)?;
        let numbers = (first, next);
        met(
            &rt,
            gives_at_each(rt.alloc(), &plan, &picture, numbers, datagrams),
        );
    }
    Ok(())
}
