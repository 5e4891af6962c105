//! Captures of the upper and the lower row of a picture of 4 columns and 2 rows, and devices.
ghost use Rattle.std.specs.Prelude.{◌≡◌, [], IfOk};

use st_format::memory::{MemorySink, MemorySource};
use std::alloc::{AllocError, Global};

/// The SDP text of the stream.
pub const SDP: &[u8] =
    b"m=video 5004 RTP/AVP 96\na=rtpmap:96 raw/90000\na=fmtp:96 sampling=YCbCr-4:2:2; width=4; height=2; exactframerate=60; depth=8; colorimetry=BT709; PM=2110GPM; SSN=ST2110-20:2017\n";

/// The upper row's record by A, and by B; and the lower row's: path, moment, octets.
pub const UPPER_BY_A: &[u8] = b"\0\0\0\0\0\0\0\0\0\0\x1C\
    \x80\xE0\0\x01\0\0\x03\x84\0\0\0\x01\0\0\0\x08\0\0\0\0\x80\x10\x80\x11\x80\x12\x80\x13";

pub const UPPER_BY_B: &[u8] = b"\x01\0\0\0\0\0\0\0\x05\0\x1C\
    \x80\xE0\0\x01\0\0\x03\x84\0\0\0\x01\0\0\0\x08\0\0\0\0\x80\x10\x80\x11\x80\x12\x80\x13";

pub const LOWER_BY_A: &[u8] = b"\0\0\0\0\0\0\0\0\x01\0\x1C\
    \x80\xE0\0\x02\0\0\x03\x84\0\0\0\x01\0\0\0\x08\0\x01\0\0\x80\x14\x80\x15\x80\x16\x80\x17";

pub const LOWER_BY_B: &[u8] = b"\x01\0\0\0\0\0\0\0\x07\0\x1C\
    \x80\xE0\0\x02\0\0\x03\x84\0\0\0\x01\0\0\0\x08\0\x01\0\0\x80\x14\x80\x15\x80\x16\x80\x17";

/// The receiver's file of both rows, and those of one (docs/FORMATS.md, receivers).
pub const BOTH: &[u8] =
    b"S20RCV01\0\x08\0\x04\0\x02\0\0\0\x3C\0\0\0\x01\x60\0\0\0\0\0\x01\0\0\x03\x84\
    \x01\x80\x10\x80\x11\x01\x80\x12\x80\x13\x01\x80\x14\x80\x15\x01\x80\x16\x80\x17";

pub const UPPER_ROW: &[u8] =
    b"S20RCV01\0\x08\0\x04\0\x02\0\0\0\x3C\0\0\0\x01\x60\0\0\0\0\0\x01\0\0\x03\x84\
    \x01\x80\x10\x80\x11\x01\x80\x12\x80\x13\0\0";

pub const LOWER_ROW: &[u8] =
    b"S20RCV01\0\x08\0\x04\0\x02\0\0\0\x3C\0\0\0\x01\x60\0\0\0\0\0\x01\0\0\x03\x84\
    \0\0\x01\x80\x14\x80\x15\x01\x80\x16\x80\x17";

/// A source of these octets.
pub fn source(alloc: Global, octets: &[u8]) -> Result<MemorySource, AllocError> {
    Ok(MemorySource::new(Vec::from_slice(alloc, octets)?, 7, 0))
}

/// A source of a capture of version 01 of some records.
pub fn capture(alloc: Global, records: &[&[u8]]) -> Result<MemorySource, AllocError> {
    let mut octets = Vec::from_slice(alloc, b"S20CAP01")?;
    for record in records {
        octets.extend_from_slice(record)?;
    }
    Ok(MemorySource::new(octets, 5, 0))
}

/// A sink that holds nothing yet.
pub fn sink(alloc: Global) -> Result<MemorySink, AllocError>
    ensures { IfOk result (λ s. s.held ≡ []) }
{
    Ok(MemorySink::new(Vec::with_capacity(alloc, 4096)?, 7, 0))
}
