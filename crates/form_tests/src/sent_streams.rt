//! `run_send_stream` over devices in memory: with memory and with each growth refused in turn, and
//! over devices that fail midway.
use crate::checks::{met, sink, source};
use refusing::Refusing;
use st_format::memory::MemorySink;
use st2110_tool::{Paths, Sending, run_send_stream};
use std::alloc::{AllocError, Allocator, Global};
use std::test::Fail;
use test_kit::wanting::{Wanting, grows};

const SENDING: Sending = Sending {
    payload_type: 97,
    first: 65_535,
    base: 900,
    ssrc: 7,
    max_octets: 42,
    paths: Paths::OnlyA,
};

/// A stream of two pictures of 4 by 2, 60 a second: Y is 16 and so on, Cb and Cr are 128, and of
/// the second picture Cr is 1.
const STREAM: &[u8] = b"YUV4MPEG2 W4 H2 F60:1 Ip A1:1 C422\n\
    FRAME\n\x10\x11\x12\x13\x14\x15\x16\x17\x80\x80\x80\x80\x80\x80\x80\x80\
    FRAME Xa\n\x10\x11\x12\x13\x14\x15\x16\x17\x80\x80\x80\x80\x01\x01\x01\x01";

/// The front of a capture without a text.
const FRONT: &[u8] = b"S20CAP02\0\0";

/// The record of the first picture, by A, of moment 0 and 42 octets: packet 65535 at 900.
const FIRST: &[u8] = b"\0\0\0\0\0\0\0\0\0\0\x2A\x80\xE1\xFF\xFF\0\0\x03\x84\0\0\0\x07\0\0\
    \0\x08\0\0\x80\0\0\x08\0\x01\0\0\
    \x80\x10\x80\x11\x80\x12\x80\x13\x80\x14\x80\x15\x80\x16\x80\x17";

/// That of the second: packet 65536, 1500 ticks later.
const SECOND: &[u8] = b"\0\0\0\0\0\0\0\0\x01\0\x2A\x80\xE1\0\0\0\0\x09\x60\0\0\0\x07\0\x01\
    \0\x08\0\0\x80\0\0\x08\0\x01\0\0\
    \x80\x10\x01\x11\x80\x12\x01\x13\x80\x14\x01\x15\x80\x16\x01\x17";

/// How a run ended, what it told of it, and what it wrote and printed.
#[derive(Drop)]
struct Run {
    status: u8,
    told: MemorySink,
    written: MemorySink,
    printed: MemorySink,
}

/// A run over the stream whose read of this number fails, and a capture whose write of this number
/// does; none where it is 0.
fn send_over<A: Allocator + Copy>(
    global: Global,
    alloc: A,
    read: u64,
    write: u64,
) -> Result<Run, AllocError> {
    let mut stream = source(global, STREAM, read)?;
    let mut written = MemorySink::new(Vec::with_capacity(global, 256)?, 7, write);
    let (mut printed, mut told) = (sink(global)?, sink(global)?);
    let status = run_send_stream(
        alloc,
        SENDING,
        false,
        &mut None,
        &mut stream,
        &mut written,
        &mut printed,
        &mut told,
    );
    Ok(Run {
        status,
        told,
        written,
        printed,
    })
}

/// The capture of both.
fn capture(global: Global) -> Result<Vec<u8>, AllocError> {
    let mut octets = Vec::from_slice(global, FRONT)?;
    octets.extend_from_slice(FIRST)?;
    octets.extend_from_slice(SECOND)?;
    Ok(octets)
}

/// Whether a run ended with this status, and told this of it.
fn has_ended(run: &Run, status: u8, told: &[u8]) -> bool {
    run.status == status && run.told.held() == told
}

/// Whether a run ended well and wrote and printed this.
fn ended(run: &Run, written: &[u8], printed: &[u8]) -> bool {
    has_ended(run, 0, b"") && run.written.held() == written && run.printed.held() == printed
}

/// Whether a run failed by its device, printed nothing, and wrote a first part of this.
fn failed(run: &Run, whole: &[u8]) -> bool {
    has_ended(run, 3, b"st2110: device\n")
        && run.printed.held().is_empty()
        && whole.starts_with(run.written.held())
}

/// Each read, and each write, fails in turn, up to the one that isn't asked for.
#[test]
fn failing_devices(rt: HostRuntime) -> Result<(), Fail> {
    let both = capture(rt.alloc())?;
    for (read, write) in [(1u64, 0u64), (0, 1)] {
        for nth in 1..1000u64 {
            let run = send_over(
                rt.alloc(),
                rt.alloc(),
                nth.wrapping_mul(read),
                nth.wrapping_mul(write),
            )?;
            if run.status == 0 {
                break;
            }
            met(&rt, failed(&run, &both));
        }
    }
    Ok(())
}

/// A stream that is sent.
struct Sent;

impl Wanting for Sent {
    fn answer(&self, global: Global, refusing: &Refusing<Global>) -> Result<Option<bool>, Fail> {
        let both = capture(global)?;
        let run = send_over(global, refusing, 0, 0)?;
        if has_ended(&run, 4, b"st2110: memory\n") {
            return Ok(None);
        }
        Ok(Some(ended(&run, &both, b"sent 2\n")))
    }
}

/// The memory of one picture, however many there are: with the plan and a datagram.
#[test]
fn each_growth_refused(rt: HostRuntime) -> Result<(), Fail> {
    met(&rt, grows(rt.alloc(), &Sent, 3)?);
    Ok(())
}
