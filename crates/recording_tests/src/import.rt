//! Captures and recordings imported, against octets by hand.
ghost use Rattle.std.specs.Prelude.{IfOk};
ghost use Rattle.recording_engines.specs.Files.{AllClosed};

use crate::checks::met;
use crate::engines::{Run, sink, source};
use crate::export::RECORDING;
use recording_engines::{FlowWords, ImportFile, import};
use run_outcome::Fault;
use st_format::memory::MemorySource;
use std::alloc::{AllocError, Allocator, Global};
use std::process::Abort;
use std::test::Fail;

/// A text of 175 octets.
const SDP: &[u8] = b"m=video 5004 RTP/AVP 96\n\
    a=rtpmap:96 raw/90000\n\
    a=fmtp:96 sampling=YCbCr-4:2:2; width=4; height=2; exactframerate=60; depth=8; \
    colorimetry=BT709; PM=2110GPM; SSN=ST2110-20:2017\n";

/// A file of pcap in microseconds and of raw IP, at 0.000005 seconds: a datagram of three octets to
/// 192.0.2.2, port 5006, and a packet of TCP.
const OTHER: &[u8] = b"\xa1\xb2\xc3\xd4\x00\x02\x00\x04\
    \x00\x00\x00\x00\x00\x00\x00\x00\x00\x04\x00\x00\x00\x00\x00\x65\
    \x00\x00\x00\x00\x00\x00\x00\x05\x00\x00\x00\x1f\x00\x00\x00\x1f\
    \x45\x00\x00\x1f\x00\x00\x40\x00\x40\x11\x00\x00\xc0\x00\x02\x01\xc0\x00\x02\x02\
    \x13\x8c\x13\x8e\x00\x0b\x00\x00\x07\x08\x09\
    \x00\x00\x00\x00\x00\x00\x00\x05\x00\x00\x00\x14\x00\x00\x00\x14\
    \x45\x00\x00\x14\x00\x00\x40\x00\x40\x06\x00\x00\xc0\x00\x02\x01\xc0\x00\x02\x02";

/// A capture of version 02 with a text of three octets: records by B of one octet at 3 nanoseconds,
/// by A of none at 1,000,000,001, and by B of two at 2,000,000,000.
const OLDER: &[u8] = b"S20CAP02\x00\x03abc\
    \x01\x00\x00\x00\x00\x00\x00\x00\x03\x00\x01\x09\
    \x00\x00\x00\x00\x00\x3b\x9a\xca\x01\x00\x00\
    \x01\x00\x00\x00\x00\x77\x35\x94\x00\x00\x02\x04\x05";

/// The records of all three: by B at 3 nanoseconds of the capture, at 5,000 of the second
/// recording; by A at 1,000,000,001 of the first recording, and then of the capture; by B of the
/// capture.
const RECORDS: &[u8] = b"\x01\x00\x00\x00\x00\x00\x00\x00\x03\x00\x01\x09\
    \x01\x00\x00\x00\x00\x00\x00\x13\x88\x00\x03\x07\x08\x09\
    \x00\x00\x00\x00\x00\x3b\x9a\xca\x01\x00\x02\x01\x02\
    \x00\x00\x00\x00\x00\x3b\x9a\xca\x01\x00\x00\
    \x01\x00\x00\x00\x00\x77\x35\x94\x00\x00\x02\x04\x05";

const WANTED: FlowWords<'static> = FlowWords {
    a: Some(b"239.1.1.1:5004"),
    b: Some(b"5006"),
};

/// The capture that is made: version 02, the text, and the records.
fn capture(global: Global) -> Result<Vec<u8>, AllocError> {
    let mut capture = Vec::from_slice(global, b"S20CAP02\x00\xaf")?;
    capture.extend_from_slice(SDP)?;
    capture.extend_from_slice(RECORDS)?;
    Ok(capture)
}

/// Three files in their order: both recordings, and the capture, of whose source a call fails.
fn three_files<A: Allocator>(
    global: Global,
    fails_in: u64,
) -> Result<Vec<ImportFile<A, MemorySource>>, AllocError>
    ensures { IfOk result (λ files. AllClosed files.items) }
{
    let mut files = Vec::new(global);
    files.push(ImportFile::Closed(source(global, RECORDING)?))?;
    files.push(ImportFile::Closed(source(global, OTHER)?))?;
    files.push(ImportFile::Closed(MemorySource::new(
        Vec::from_slice(global, OLDER)?,
        64,
        fails_in,
    )))?;
    Ok(files)
}

/// A run of `import` of these files.
fn import_of<A: Allocator + Copy>(
    global: Global,
    alloc: A,
    files: &mut [ImportFile<A, MemorySource>],
) -> Result<Run, AllocError>
    requires closed { AllClosed files.old }
{
    let mut sdp = source(global, SDP)?;
    let (mut written, mut printed) = (sink(global)?, sink(global)?);
    let outcome = match import(alloc, WANTED, &mut sdp, files, &mut written, &mut printed) {
        Ok(_) => Ok(()),
        Err(fault) => Err(fault),
    };
    Ok(Run {
        outcome,
        written,
        printed,
    })
}

/// Whether both recordings and the capture become one capture, or `None` where memory is wanted.
pub fn is_imported<A: Allocator + Copy>(
    global: Global,
    alloc: A,
) -> Result<Option<bool>, AllocError> {
    let capture = capture(global)?;
    let mut files = three_files(global, 0)?;
    let run = import_of(global, alloc, files.as_mut_slice())?;
    Ok(run.answered(&capture, b"recorded A 2 B 3 left out 1\n"))
}

/// Whether a device failed in a run, which wrote a first part of a capture and printed nothing.
fn has_failed(run: &Run, capture: &[u8]) -> bool {
    matches!(run.outcome, Err(Fault::Device))
        && capture.starts_with(run.written.held())
        && run.printed.held().is_empty()
}

/// Each call of a capture's source fails in turn: what was written is a first part of the capture,
/// and nothing is printed. So many calls are made, ten at least.
#[test]
fn failing_device(rt: HostRuntime) -> Result<(), Fail> {
    let capture = capture(rt.alloc())?;
    let mut calls = 0u64;
    for call in 1..60u64 {
        let mut files = three_files(rt.alloc(), call)?;
        let run = import_of(rt.alloc(), rt.alloc(), files.as_mut_slice())?;
        if run.outcome.is_ok() {
            break;
        }
        met(&rt, has_failed(&run, &capture));
        calls = call;
    }
    met(&rt, 10 <= calls && calls < 59);
    Ok(())
}
