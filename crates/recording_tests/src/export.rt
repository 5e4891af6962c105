//! A capture exported, against octets by hand.
use crate::engines::{Run, sink, source};
use export_engine::{Exporting, export};
use std::alloc::{AllocError, Allocator, Global};

/// A capture of version 02 without a text: a record by A of two octets at 1.000000001 seconds, and
/// one by B of none.
const CAPTURE: &[u8] = b"S20CAP02\x00\x00\
    \x00\x00\x00\x00\x00\x3b\x9a\xca\x01\x00\x02\x01\x02\
    \x01\x00\x00\x00\x00\x00\x00\x00\x00\x00\x00";

/// A file of pcap in nanoseconds and of Ethernet, and one packet of IPv4 and UDP in it, from
/// 192.0.2.1 to 239.1.1.1, port 5004. The checksums are those of RFC 1071, summed apart.
pub const RECORDING: &[u8] = b"\xa1\xb2\x3c\x4d\x00\x02\x00\x04\
    \x00\x00\x00\x00\x00\x00\x00\x00\x00\x04\x00\x00\x00\x00\x00\x01\
    \x00\x00\x00\x01\x00\x00\x00\x01\x00\x00\x00\x2c\x00\x00\x00\x2c\
    \x01\x00\x5e\x01\x01\x01\x00\x00\x00\x00\x00\x00\x08\x00\
    \x45\x00\x00\x1e\x00\x00\x40\x00\x40\x11\x88\xcb\xc0\x00\x02\x01\xef\x01\x01\x01\
    \x13\x8c\x13\x8c\x00\x0a\x25\xbc\x01\x02";

/// Whether path A's record alone is exported, or `None` where memory is wanted.
pub fn is_exported<A: Allocator + Copy>(
    global: Global,
    alloc: A,
) -> Result<Option<bool>, AllocError> {
    let mut capture = source(global, CAPTURE)?;
    let (mut written, mut printed) = (sink(global)?, sink(global)?);
    let wanted = Exporting {
        a: b"239.1.1.1:5004",
        b: None,
    };
    let outcome = export(alloc, wanted, &mut capture, &mut written, &mut printed);
    let run = Run {
        outcome,
        written,
        printed,
    };
    Ok(run.answered(RECORDING, b"exported 1 left out 1\n"))
}
