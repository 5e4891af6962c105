//! A capture exported at the moments of a sender, by devices that fail.
use crate::checks::met;
use crate::engines::sink;
use crate::export::RECORDING;
use export_engine::Exporting;
use paced_export::Pacing;
use st_format::memory::{MemorySink, MemorySource};
use st2110_tool::run_export_paced;
use std::alloc::{AllocError, Global};
use std::process::Abort;
use std::test::Fail;

/// A capture of an SDP text of 25 frames a second, and of a record by A of two octets, which has no
/// timestamp, and one by B of none.
const CAPTURE: &[u8] = b"S20CAP02\x00\xafm=video 5004 RTP/AVP 96\na=rtpmap:96 raw/90000\n\
    a=fmtp:96 sampling=YCbCr-4:2:2; width=4; height=2; exactframerate=25; depth=8; \
    colorimetry=BT709; PM=2110GPM; SSN=ST2110-20:2017\n\
    \x00\xff\xff\xff\xff\xff\xff\xff\xff\x00\x02\x01\x02\
    \x01\x00\x00\x00\x00\x00\x00\x00\x00\x00\x00";

/// Which call of each device fails: of the source that is read ahead, of the second source, and of
/// the sink; 0 means that none does.
#[derive(Clone, Copy)]
struct Failing {
    ahead: u64,
    second: u64,
    written: u64,
}

const NONE: Failing = Failing {
    ahead: 0,
    second: 0,
    written: 0,
};

/// How a run ended, what it wrote and printed, and what it told of its end.
#[derive(Drop)]
struct PacedRun {
    status: u8,
    written: MemorySink,
    printed: MemorySink,
    told: MemorySink,
}

/// A run of `run_export_paced` on the capture, to one flow, from 1.000000001 seconds on, over
/// devices of seven octets a call.
fn paced(global: Global, failing: Failing) -> Result<PacedRun, AllocError> {
    let mut ahead = MemorySource::new(Vec::from_slice(global, CAPTURE)?, 7, failing.ahead);
    let mut second = MemorySource::new(Vec::from_slice(global, CAPTURE)?, 7, failing.second);
    let mut written = MemorySink::new(Vec::with_capacity(global, 256)?, 7, failing.written);
    let (mut printed, mut told) = (sink(global)?, sink(global)?);
    let wanted = Pacing {
        flows: Exporting {
            a: b"239.1.1.1:5004",
            b: None,
        },
        start: 1_000_000_001,
    };
    let status = run_export_paced(
        global,
        wanted,
        &mut ahead,
        &mut second,
        &mut written,
        &mut printed,
        &mut told,
    );
    Ok(PacedRun {
        status,
        written,
        printed,
        told,
    })
}

impl PacedRun {
    /// Whether it ended with this status, and printed and told this.
    fn has_ended(&self, status: u8, printed: &[u8], told: &[u8]) -> bool {
        self.status == status && self.printed.held() == printed && self.told.held() == told
    }
}

/// A run without a fault, and with one: which call of each device fails, the status, and how many
/// octets are written then.
const CASES: [(Failing, u8, usize); 4] = [
    (NONE, 0, 84),
    (Failing { ahead: 3, ..NONE }, 3, 0),
    (Failing { second: 3, ..NONE }, 3, 0),
    (Failing { written: 2, ..NONE }, 3, 7),
];

/// Whether a run ended so.
fn has_ended(run: &PacedRun, status: u8, count: usize) -> bool {
    let (printed, told): (&[u8], &[u8]) = if status == 0 {
        (b"exported 1 left out 1\n", b"")
    } else {
        (b"", b"st2110: device\n")
    };
    run.status == status
        && run.printed.held() == printed
        && run.told.held() == told
        && Some(run.written.held()) == RECORDING.get(..count)
}

/// Nothing is printed, and written as much as stands before the failing call: nothing where a
/// source fails within the text, and where the sink's second call does seven octets.
#[test]
fn failing_devices(rt: HostRuntime) -> Result<(), Fail> {
    for (failing, status, count) in CASES {
        let run = paced(rt.alloc(), failing)?;
        met(&rt, has_ended(&run, status, count));
    }
    Ok(())
}
