//! What a receiver takes from a source of datagrams that fails.
use crate::checks::met;
use path_receiver::{ReceiveFault, Received, receive};
use st_format::memory::{MemoryTurn, MemoryTurns};
use st_format::{Path, SourceFault};
use std::alloc::{AllocError, Global};
use std::test::Fail;
use test_kit::datagrams::opened;
use test_kit::small_format::{UPPER, counted, counts, small};

/// A source of *first-datagram*'s datagram three times, of which a call fails.
fn thrice(alloc: Global, fails_in: u64) -> Result<MemoryTurns, AllocError> {
    let mut turns = Vec::new(alloc);
    for path in [Path::A, Path::B, Path::A] {
        turns.push(MemoryTurn::Datagram(path, Vec::from_slice(alloc, UPPER)?))?;
    }
    Ok(MemoryTurns::new(turns, fails_in))
}

/// Whether a source that fails behind so many datagrams gives what came before, and then the rest.
fn comes_in_two(alloc: Global, source: &mut MemoryTurns, before: u64) -> Result<bool, Fail> {
    let mut receiver = opened(alloc, small()?)?;
    let mut buf = Vec::from_elem(alloc, 0, 65_535)?;
    let stopped = receive(source, &mut receiver, buf.as_mut_slice(), 10);
    let fault = ReceiveFault {
        delivered: before,
        fault: SourceFault::Device,
    };
    let present = if before == 0 { 0u64 } else { 8 };
    let is_part = counts(&receiver, 900) == Some(counted(present, 16u64.wrapping_sub(present), 0));
    let rest = receive(source, &mut receiver, buf.as_mut_slice(), 10);
    let received = Received {
        delivered: 3u64.saturating_sub(before),
        ended: true,
    };
    let is_all = counts(&receiver, 900) == Some(counted(8, 8, 0));
    Ok(stopped == Err(fault) && is_part && rest == Ok(received) && is_all)
}

/// A source that fails at one call: what came before is taken, and the rest comes later.
#[test]
fn received_up_to_a_fault(rt: HostRuntime) -> Result<(), Fail> {
    for before in 0..3u64 {
        let mut source = thrice(rt.alloc(), before + 1)?;
        met(&rt, comes_in_two(rt.alloc(), &mut source, before)?);
    }
    Ok(())
}
