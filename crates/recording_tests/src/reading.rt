//! A recording and a capture of the same datagrams, read as sources of datagrams: from devices that
//! fail, and without memory.
use crate::checks::met;
use crate::engines::source;
use flow::{Flow, Flows};
use recording_reader::{DatagramReader, FileOpeningFault};
use refusing::Refusing;
use st_format::memory::MemorySource;
use st_format::{DatagramSource, Path, Turn};
use std::alloc::{AllocError, Allocator, Global};
use std::test::Fail;
use test_kit::wanting::{Wanting, growths};

/// A file of pcap in microseconds and of raw IP. At 0.000005 seconds a datagram of three octets by
/// IPv4 to port 5006, and a packet of TCP; at 0.000006 a datagram of one octet by IPv6, behind a
/// header of options, to port 5004, and two octets behind it; and at 1.000007 one of no octets to
/// port 5008, and one of two to port 5006.
const RECORDING: &[u8] = b"\xa1\xb2\xc3\xd4\x00\x02\x00\x04\
    \x00\x00\x00\x00\x00\x00\x00\x00\x00\x04\x00\x00\x00\x00\x00\x65\
    \x00\x00\x00\x00\x00\x00\x00\x05\x00\x00\x00\x1f\x00\x00\x00\x1f\
    \x45\x00\x00\x1f\x00\x00\x40\x00\x40\x11\x00\x00\xc0\x00\x02\x01\xc0\x00\x02\x02\
    \x13\x8c\x13\x8e\x00\x0b\x00\x00\x07\x08\x09\
    \x00\x00\x00\x00\x00\x00\x00\x05\x00\x00\x00\x14\x00\x00\x00\x14\
    \x45\x00\x00\x14\x00\x00\x40\x00\x40\x06\x00\x00\xc0\x00\x02\x01\xc0\x00\x02\x02\
    \x00\x00\x00\x00\x00\x00\x00\x06\x00\x00\x00\x3b\x00\x00\x00\x3b\
    \x60\x00\x00\x00\x00\x11\x00\x40\
    \x20\x01\x0d\xb8\x00\x00\x00\x00\x00\x00\x00\x00\x00\x00\x00\x01\
    \xff\x02\x00\x00\x00\x00\x00\x00\x00\x00\x00\x00\x00\x00\x00\x01\
    \x11\x00\x01\x04\x00\x00\x00\x00\
    \x13\x8c\x13\x8c\x00\x09\x00\x00\x06\x00\x00\
    \x00\x00\x00\x01\x00\x00\x00\x07\x00\x00\x00\x1c\x00\x00\x00\x1c\
    \x45\x00\x00\x1c\x00\x00\x40\x00\x40\x11\x00\x00\xc0\x00\x02\x01\xc0\x00\x02\x02\
    \x13\x8c\x13\x90\x00\x08\x00\x00\
    \x00\x00\x00\x01\x00\x00\x00\x07\x00\x00\x00\x1e\x00\x00\x00\x1e\
    \x45\x00\x00\x1e\x00\x00\x40\x00\x40\x11\x00\x00\xc0\x00\x02\x01\xc0\x00\x02\x02\
    \x13\x8c\x13\x8e\x00\x0a\x00\x00\x04\x05";

/// A capture of a text and of the same datagrams, with their moments.
const CAPTURE: &[u8] = b"S20CAP02\x00\x03v=0\
    \x01\x00\x00\x00\x00\x00\x00\x13\x88\x00\x03\x07\x08\x09\
    \x00\x00\x00\x00\x00\x00\x00\x17\x70\x00\x01\x06\
    \x01\x00\x00\x00\x00\x3b\x9a\xe5\x58\x00\x02\x04\x05";

/// The datagrams of the flows: path, and octets.
const DATAGRAMS: [(Path, &[u8]); 3] = [(Path::B, &[7, 8, 9]), (Path::A, &[6]), (Path::B, &[4, 5])];

/// Path A by port 5004 and path B by port 5006, of any address.
const FLOWS: Flows = Flows {
    a: Some(Flow {
        interface: None,
        source: None,
        address: None,
        port: 5004,
    }),
    b: Some(Flow {
        interface: None,
        source: None,
        address: None,
        port: 5006,
    }),
};

/// Whether a turn is the datagram of this place, whose octets stand in a buffer.
fn is_datagram(place: usize, turn: Turn, buf: &[u8]) -> bool {
    match (DATAGRAMS.get(place), turn) {
        (Some((path, octets)), Turn::Datagram(by, count)) => {
            by == *path && buf.get(..count) == Some(*octets)
        }
        _ => false,
    }
}

/// How many of the datagrams come of a source, and whether it then tells a fault, or else its end;
/// each of these comes twice. `None` where another datagram comes.
fn came<D: DatagramSource>(source: &mut D) -> Option<(usize, bool)> {
    let mut buf = [0u8; 65535];
    for place in 0..4usize {
        match source.next(&mut buf) {
            Ok(Turn::End) if source.next(&mut buf) == Ok(Turn::End) => return Some((place, false)),
            Ok(turn) if is_datagram(place, turn, &buf) => {}
            Err(fault) if source.next(&mut buf) == Err(fault) => return Some((place, true)),
            _ => return None,
        }
    }
    None
}

/// What comes of octets as a file in pieces of five, where a call of the source fails: a device
/// fails once at most.
fn read(alloc: Global, octets: &[u8], fails_in: u64) -> Result<Option<(usize, bool)>, AllocError> {
    let mut source = MemorySource::new(Vec::from_slice(alloc, octets)?, 5, fails_in);
    let mut text = [0u8; 65535];
    let came = match DatagramReader::open(alloc, Some(FLOWS), &mut source, &mut text) {
        Ok(mut reader) => came(&mut reader),
        Err(_) => Some((0, true)),
    };
    let failures = source.failures();
    Ok(if failures < 2 { came } else { None })
}

/// A file, the call of its source that fails, how many datagrams come before, and whether a fault
/// is behind them. Five are of a recording's head; each packet has four of its head and one for
/// each five of its octets. Two are of a capture's name and version, and two of the text; each
/// record has one of its first octet, two of the others of its head, and one of its octets. The
/// last one tells the end.
const FAILING: [(&[u8], u64, usize, bool); 13] = [
    (RECORDING, 5, 0, true),
    (RECORDING, 16, 0, true),
    (RECORDING, 24, 1, true),
    (RECORDING, 60, 2, true),
    (RECORDING, 61, 3, true),
    (RECORDING, 62, 3, false),
    (CAPTURE, 1, 0, true),
    (CAPTURE, 4, 0, true),
    (CAPTURE, 8, 0, true),
    (CAPTURE, 9, 1, true),
    (CAPTURE, 16, 2, true),
    (CAPTURE, 17, 3, true),
    (CAPTURE, 18, 3, false),
];

#[test]
fn failing_device(rt: HostRuntime) -> Result<(), Fail> {
    for (octets, call, datagrams, fails) in FAILING {
        met(
            &rt,
            read(rt.alloc(), octets, call)? == Some((datagrams, fails)),
        );
    }
    Ok(())
}

/// A file of the datagrams: a recording, or a capture.
#[derive(Clone, Copy)]
struct File {
    octets: &'static [u8],
}

/// Whether a file's datagrams come; `None` where memory is wanted, with its first four octets read.
fn is_file<A: Allocator>(
    global: Global,
    alloc: A,
    octets: &[u8],
) -> Result<Option<bool>, AllocError> {
    let mut text = [0u8; 65535];
    let source = source(global, octets)?;
    match DatagramReader::open(alloc, Some(FLOWS), source, &mut text) {
        Ok(mut reader) => Ok(Some(came(&mut reader) == Some((3, false)))),
        Err((FileOpeningFault::NoMemory, source)) if Some(source.to_give()) == octets.get(4..) => {
            Ok(None)
        }
        Err(_) => Ok(Some(false)),
    }
}

impl Wanting for File {
    fn answer(&self, global: Global, refusing: &Refusing<Global>) -> Result<Option<bool>, Fail> {
        Ok(is_file(global, refusing, self.octets)?)
    }
}

/// For a packet or a record, and for nothing else.
#[test]
fn of_either_kind(rt: HostRuntime) -> Result<(), Fail> {
    for octets in [RECORDING, CAPTURE] {
        met(&rt, growths(rt.alloc(), &File { octets })? == Some(1));
    }
    Ok(())
}
