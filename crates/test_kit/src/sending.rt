//! The stamp of *sender-sizes*, and sinks of what is sent.
use packet_plan::Stamp;
use st_format::memory::MemoryDatagrams;
use std::alloc::{AllocError, Global};

/// *sender-sizes*' stamp.
pub const STAMP: Stamp = Stamp {
    payload_type: 96,
    first: 1,
    timestamp: 900,
    ssrc: 1,
};

/// A sink of so many slots of so many octets, that fails at one call; 0 at none.
pub fn sink_of(
    alloc: Global,
    count: u32,
    octets: usize,
    fails_in: u64,
) -> Result<MemoryDatagrams, AllocError> {
    let mut slots = Vec::with_capacity(alloc, count as usize)?;
    for _ in 0..count {
        slots.push(Vec::with_capacity(alloc, octets)?)?;
    }
    Ok(MemoryDatagrams::new(slots, fails_in))
}

/// A sink of 64 slots of 1,400 octets, that fails at one call; 0 at none.
pub fn sink(alloc: Global, fails_in: u64) -> Result<MemoryDatagrams, AllocError> {
    sink_of(alloc, 64, 1400, fails_in)
}
