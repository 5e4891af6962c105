//! Datagrams of F1's rows, sources of them, followers, and what a sink was shown.
use following::{FollowFault, Follower, MemoryFrames};
use st_format::memory::{MemoryTurn, MemoryTurns};
use st_format::{Format, Path};
use std::alloc::{AllocError, Allocator, Global};

/// A datagram of F1, payload type 96 and source 1: of this timestamp and packet number, with eight
/// octets of this value in a row.
pub fn datagram(timestamp: u32, number: u32, row: u8, value: u8) -> [u8; 28] {
    let mut octets = [value; 28];
    let number = number.to_be_bytes();
    octets[0] = 0x80;
    octets[1] = 96;
    octets[2] = number[2];
    octets[3] = number[3];
    octets[4..8].copy_from_slice(&timestamp.to_be_bytes());
    octets[8..12].copy_from_slice(&[0, 0, 0, 1]);
    octets[12] = number[0];
    octets[13] = number[1];
    octets[14..20].copy_from_slice(&[0, 8, 0, row, 0, 0]);
    octets
}

/// A follower of payload type 96 and any source.
pub fn opened<A: Allocator + Copy>(
    alloc: A,
    format: Format,
    size: usize,
    most_ahead: u32,
) -> Result<Follower<A>, FollowFault> {
    Follower::open(alloc, format, 96, None, size, most_ahead)
}

/// A source of datagrams of these timestamps and rows, numbered from 1 on, by A and B in turn, with
/// a quiet turn behind each. Its call `fails_in` fails.
pub fn source(alloc: Global, sent: &[(u32, u8)], fails_in: u64) -> Result<MemoryTurns, AllocError> {
    let mut turns = Vec::new(alloc);
    let mut number = 1u32;
    for (timestamp, row) in sent {
        let octets = datagram(*timestamp, number, *row, 16);
        let path = if number % 2 == 1 { Path::A } else { Path::B };
        turns.push(MemoryTurn::Datagram(path, Vec::from_slice(alloc, &octets)?))?;
        turns.push(MemoryTurn::Quiet)?;
        number = number.wrapping_add(1);
    }
    Ok(MemoryTurns::new(turns, fails_in))
}

/// Whether a sink was shown frames of these timestamps, in this order, with so many samples
/// missing.
pub fn shows(sink: &MemoryFrames, wanted: &[(u32, u64)]) -> bool {
    let mut are_wanted = sink.shown().len() == wanted.len();
    for (shown, (timestamp, missing)) in sink.shown().iter().zip(wanted.iter()) {
        are_wanted &= shown.timestamp == *timestamp && shown.frame.counts().missing == *missing;
    }
    are_wanted
}
