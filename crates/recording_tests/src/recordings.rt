//! A recording read packet by packet from a source that fails.
use crate::checks::met;
use pcap_file::{RecordingFault, next_packet, open_recording};
use st_format::memory::MemorySource;
use std::alloc::{AllocError, Global};
use std::process::Abort;
use std::test::Fail;

/// Two packets in the classic layout, most significant octet first, in microseconds.
const RECORDS: [u8; 24 + 18 + 17] = [
    0xa1, 0xb2, 0xc3, 0xd4, 0, 2, 0, 4, 0, 0, 0, 0, 0, 0, 0, 0, 0, 0, 0, 9, 0, 0, 0, 101, // file
    0, 0, 0, 1, 0, 0, 0, 7, 0, 0, 0, 2, 0, 0, 0, 3, 8, 9, // a packet
    0, 0, 0, 2, 0, 0, 0, 0, 0, 0, 0, 1, 0, 0, 0, 5, 6, // another
];

/// How many packets are read, in pieces of five octets, and the fault behind them. The call
/// `fails_in` of the source fails.
fn read(alloc: Global, fails_in: u64) -> Result<(usize, Option<RecordingFault>), AllocError> {
    let mut source = MemorySource::new(Vec::from_slice(alloc, &RECORDS)?, 5, fails_in);
    let mut buffer = [0u8; 36];
    let mut layout = match open_recording(&mut source, &mut buffer) {
        Ok(layout) => layout,
        Err(fault) => return Ok((0, Some(fault))),
    };
    for count in 0..3usize {
        match next_packet(&mut source, &mut layout, &mut buffer) {
            Ok(Some(_)) => {}
            Ok(None) => return Ok((count, None)),
            Err(fault) => return Ok((count, Some(fault))),
        }
    }
    Ok((3, None))
}

/// One call of the source fails: a call of four octets, four of twenty, four of a record's head,
/// one of its octets, and the last, which tells the end.
#[test]
fn failing_device(rt: HostRuntime) -> Result<(), Fail> {
    for call in 1..18u64 {
        let wanted = match call {
            1..=10 => (0, Some(RecordingFault::Device)),
            11..=15 => (1, Some(RecordingFault::Device)),
            16 => (2, Some(RecordingFault::Device)),
            _ => (2, None),
        };
        met(&rt, read(rt.alloc(), call)? == wanted);
    }
    Ok(())
}
