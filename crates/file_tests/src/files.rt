//! Worked files, and each call that reads one over a source in memory: how much it read, and its
//! fault; with a source that fails at each call, and with each growth refused.
ghost use Rattle.std.specs.Prelude.{◌≤◌, length};

use crate::checks::met;
use capture_file::{CaptureReader, FileFault, read_capture, read_packed_picture, read_picture};
use receiver_file::load_receiver;
use refusing::Refusing;
use st_format::memory::MemorySource;
use st_format::{DatagramSource, SourceFault, Turn};
use std::alloc::{AllocError, Allocator, Global};
use std::process::Abort;
use std::test::Fail;
use test_kit::small_format::counts;
use test_kit::wanting::{Wanting, growths};

/// The captures of *first-datagram*'s datagram, of version 01 and 02.
const OLD: &[u8] = b"S20CAP01\0\0\0\0\0\0\0\0\0\0\x1C\
    \x80\xE0\0\x01\0\0\x03\x84\0\0\0\x01\0\0\0\x08\0\0\0\0\x80\x10\x80\x11\x80\x12\x80\x13";

const NEW: &[u8] = b"S20CAP02\0\0\0\0\0\0\0\0\0\0\0\0\x1C\
    \x80\xE0\0\x01\0\0\x03\x84\0\0\0\x01\0\0\0\x08\0\0\0\0\x80\x10\x80\x11\x80\x12\x80\x13";

/// A capture of version 01 of that datagram by A, and by B.
pub const BOTH_OLD: &[u8] = b"S20CAP01\0\0\0\0\0\0\0\0\0\0\x1C\
    \x80\xE0\0\x01\0\0\x03\x84\0\0\0\x01\0\0\0\x08\0\0\0\0\x80\x10\x80\x11\x80\x12\x80\x13\
    \x01\0\0\0\0\0\0\0\x01\0\x1C\
    \x80\xE0\0\x01\0\0\x03\x84\0\0\0\x01\0\0\0\x08\0\0\0\0\x80\x10\x80\x11\x80\x12\x80\x13";

/// The same of version 02, with the text `v=0`.
pub const BOTH_NEW: &[u8] = b"S20CAP02\0\x03v=0\0\0\0\0\0\0\0\0\0\0\x1C\
    \x80\xE0\0\x01\0\0\x03\x84\0\0\0\x01\0\0\0\x08\0\0\0\0\x80\x10\x80\x11\x80\x12\x80\x13\
    \x01\0\0\0\0\0\0\0\x01\0\x1C\
    \x80\xE0\0\x01\0\0\x03\x84\0\0\0\x01\0\0\0\x08\0\0\0\0\x80\x10\x80\x11\x80\x12\x80\x13";

/// *picture-file*: P0, chroma 128, and luma 16 to 23 in raster order.
pub const PICTURE: &[u8] = b"S20PIC01\0\x08\0\x04\0\x02\0\0\0\x3C\0\0\0\x01\
    \x80\x10\x80\x11\x80\x12\x80\x13\x80\x14\x80\x15\x80\x16\x80\x17";

/// *contested-state-file*: the receiver of *contested*'s two datagrams.
pub const RECEIVER: &[u8] =
    b"S20RCV01\0\x08\0\x04\0\x02\0\0\0\x3C\0\0\0\x01\x60\0\0\0\0\0\x01\0\0\x03\x84\
    \x02\0\x02\x80\0\x80\x11\x01\x80\x12\x80\x13\0\0";

/// How much was read, and the fault.
type Answer = (usize, Option<FileFault>);

/// A call that reads a file.
#[derive(Clone, Copy)]
enum Reading {
    /// `read_capture` of two records at most: how many records it has.
    Capture,
    /// `CaptureReader`: how many datagrams it delivers, before its fault too.
    Delivered,
    /// `read_picture`: how many samples it has.
    Picture,
    /// `read_packed_picture`: how many octets its pgroups have.
    Packed,
    /// `load_receiver`: how many samples of the frame of timestamp 900 are present.
    Receiver,
}

impl Reading {
    /// The call over this source: its answer, and how far the source has come.
    fn read<A: Allocator + Copy>(
        self,
        global: Global,
        alloc: A,
        mut source: MemorySource,
    ) -> Result<(Answer, MemorySource), AllocError> {
        let answer = match self {
            Reading::Delivered => return delivered(global, source),
            Reading::Capture => of_capture(alloc, &mut source),
            Reading::Picture => of_picture(alloc, &mut source),
            Reading::Packed => of_packed(alloc, &mut source),
            Reading::Receiver => of_receiver(alloc, &mut source),
        };
        Ok((answer, source))
    }
}

fn of_capture<A: Allocator + Copy>(alloc: A, source: &mut MemorySource) -> Answer {
    match read_capture(alloc, source, 2) {
        Ok(capture) => (capture.records.len(), None),
        Err(fault) => (0, Some(fault)),
    }
}

fn of_picture<A: Allocator>(alloc: A, source: &mut MemorySource) -> Answer {
    match read_picture(alloc, source) {
        Ok(picture) => (picture.samples().len(), None),
        Err(fault) => (0, Some(fault)),
    }
}

fn of_packed<A: Allocator>(alloc: A, source: &mut MemorySource) -> Answer {
    match read_packed_picture(source, Vec::new(alloc)) {
        Ok(picture) => (picture.octets().len(), None),
        Err(fault) => (0, Some(fault)),
    }
}

fn of_receiver<A: Allocator + Copy>(alloc: A, source: &mut MemorySource) -> Answer {
    match load_receiver(alloc, source) {
        Ok(receiver) => match counts(&receiver, 900) {
            Some(counts) => (counts.present as usize, None),
            None => (0, None),
        },
        Err(fault) => (0, Some(fault)),
    }
}

fn delivered(alloc: Global, source: MemorySource) -> Result<(Answer, MemorySource), AllocError> {
    let mut buf = vec![in alloc; 0u8; 65535]?;
    match CaptureReader::open(source, &mut buf) {
        Ok(mut reader) => {
            let answer = deliver(&mut reader, &mut buf);
            Ok((answer, reader.into_inner()))
        }
        Err((fault, source)) => Ok(((0, Some(fault)), source)),
    }
}

/// What a reader delivers up to its end or its fault, at most nine datagrams. The turn behind a
/// device's fault is that fault again.
fn deliver(reader: &mut CaptureReader<MemorySource>, buf: &mut [u8]) -> Answer
    requires { 65535 ≤ length buf.old }
{
    for count in 0..9usize {
        match reader.next(buf) {
            Ok(Turn::Datagram(..)) => {}
            Ok(_) => return (count, None),
            Err(fault) => {
                let is_told = fault == SourceFault::Device && reader.next(buf) == Err(fault);
                return (count, is_told.then_some(FileFault::Device));
            }
        }
    }
    (9, None)
}

/// A source of octets, one a call, of which one call may fail.
pub fn source(alloc: Global, octets: &[u8], fails_in: u64) -> Result<MemorySource, AllocError> {
    Ok(MemorySource::new(Vec::from_slice(alloc, octets)?, 1, fails_in))
}

/// A call, a file, where each of its records ends for a call that delivers them one by one, and how
/// much is read of the whole file.
type Subject = (Reading, &'static [u8], &'static [usize], usize);

const READINGS: [Subject; 9] = [
    (Reading::Capture, OLD, &[], 1),
    (Reading::Capture, NEW, &[], 1),
    (Reading::Capture, BOTH_NEW, &[], 2),
    (Reading::Delivered, OLD, &[47], 1),
    (Reading::Delivered, NEW, &[49], 1),
    (Reading::Delivered, BOTH_NEW, &[52, 91], 2),
    (Reading::Picture, PICTURE, &[], 16),
    (Reading::Packed, PICTURE, &[], 16),
    (Reading::Receiver, RECEIVER, &[], 7),
];

/// Whether a source that fails at a call is told so, or not at all where all calls are before it: a
/// file of n octets takes n + 1, the last for its end. The octets given before it are gone.
fn is_told(alloc: Global, read: Subject, call: usize) -> Result<bool, AllocError> {
    let (reading, file, ends, whole) = read;
    let given = call.saturating_sub(1).min(file.len());
    let is_whole = call > file.len() + 1;
    let within = ends.iter().filter(|end| **end <= given).count();
    let wanted: Answer = if is_whole {
        (whole, None)
    } else {
        (within, Some(FileFault::Device))
    };
    let (answer, source) = reading.read(alloc, alloc, source(alloc, file, call as u64)?)?;
    Ok(
        answer == wanted
            && source.failures() == u64::from(!is_whole)
            && source.to_give() == &file[given..],
    )
}

#[test]
fn from_a_source_that_fails(rt: HostRuntime) -> Result<(), Fail> {
    for read in READINGS {
        for call in 1..read.1.len() + 3 {
            met(&rt, is_told(rt.alloc(), read, call)?);
        }
    }
    Ok(())
}

/// A call that reads a whole file, and how much of it.
#[derive(Clone, Copy)]
struct Whole(Reading, &'static [u8], usize);

impl Wanting for Whole {
    fn answer(&self, global: Global, refusing: &Refusing<Global>) -> Result<Option<bool>, Fail> {
        let Whole(reading, file, whole) = *self;
        let (answer, _) = reading.read(global, refusing, source(global, file, 0)?)?;
        Ok(match answer {
            (_, Some(FileFault::NoMemory)) => None,
            answer => Some(answer == (whole, None)),
        })
    }
}

/// A call, a file, how much is read of it, and the least and the greatest number of growths that it
/// takes: a picture takes one, packed or not.
const GROWING: [(Reading, &[u8], usize, u64, u64); 4] = [
    (Reading::Picture, PICTURE, 16, 1, 1),
    (Reading::Packed, PICTURE, 16, 1, 1),
    (Reading::Capture, OLD, 1, 2, 1000),
    (Reading::Receiver, RECEIVER, 7, 4, 1000),
];

#[test]
fn each_growth_refused(rt: HostRuntime) -> Result<(), Fail> {
    for (reading, file, whole, least, most) in GROWING {
        let taken = growths(rt.alloc(), &Whole(reading, file, whole))?.ok_or("another answer")?;
        met(&rt, least <= taken && taken <= most);
    }
    Ok(())
}
