//! Files and the report to a sink that moves one octet a call and fails at a call, each in turn;
//! and captures migrated over such devices.
ghost use Rattle.std.specs.Prelude.{◌≡◌, ◌≤◌, [], length, IfOk};

use crate::checks::met;
use crate::files::{BOTH_NEW, BOTH_OLD, PICTURE, RECEIVER, source};
use crate::text_runs::REPORT;
use capture_file::{
    CaptureWriter, FileFault, Paths, Record, migrate_capture, read_picture, write_capture,
    write_picture,
};
use frame_report::{ReportFault, write_report};
use path_receiver::Receiver;
use receiver_file::{load_receiver, save_receiver};
use st_format::memory::MemorySink;
use st_format::{DatagramSink, Path};
use std::alloc::{AllocError, Global};
use std::process::Abort;
use std::test::Fail;
use test_kit::small_format::UPPER;

/// A call that writes a file.
#[derive(Clone, Copy)]
enum Writing {
    /// `write_capture` of *first-datagram*'s datagram by both paths as records.
    Records,
    /// `CaptureWriter` of that datagram by both paths.
    Taken,
    /// `write_picture` of *picture-file*'s picture.
    Picture,
    /// `save_receiver` of *contested*'s receiver.
    Receiver,
    /// `write_report` of it.
    Report,
}

/// A fault, and the sink as it then is.
type Written = (Option<FileFault>, MemorySink);

impl Writing {
    /// Its fault, and the sink, of which one call may fail.
    fn write(self, alloc: Global, fails_in: u64) -> Result<Written, Fail> {
        match self {
            Writing::Records => put_records(alloc, fails_in),
            Writing::Taken => put_datagrams(alloc, fails_in),
            Writing::Picture => put_picture(alloc, fails_in),
            Writing::Receiver => put_receiver(alloc, fails_in, false),
            Writing::Report => put_receiver(alloc, fails_in, true),
        }
    }
}

/// A sink that holds nothing yet and takes one octet a call, of which one may fail.
fn sink(alloc: Global, fails_in: u64) -> Result<MemorySink, AllocError>
    ensures { IfOk result (λ s. s.held ≡ []) }
{
    Ok(MemorySink::new(Vec::with_capacity(alloc, 4096)?, 1, fails_in))
}

/// A record of that datagram.
fn record(alloc: Global, path: Path, moment: u64) -> Result<Record, AllocError>
    ensures { IfOk result (λ r. length r.octets.items ≤ 65535) }
{
    let octets = Vec::from_slice(alloc, UPPER)?;
    Ok(Record {
        path,
        moment,
        octets,
    })
}

fn put_records(alloc: Global, fails_in: u64) -> Result<Written, Fail> {
    let records = [record(alloc, Path::A, 0)?, record(alloc, Path::B, 1)?];
    let mut sink = sink(alloc, fails_in)?;
    let fault = write_capture(&mut sink, b"v=0", &records).err();
    Ok((fault, sink))
}

/// Where a datagram's put fails, the next one does too.
fn put_datagrams(alloc: Global, fails_in: u64) -> Result<Written, Fail> {
    match CaptureWriter::open(sink(alloc, fails_in)?, Paths::Both, b"v=0") {
        Ok(mut writer) => {
            let fails = writer.put(UPPER).is_err() && writer.put(UPPER).is_err();
            Ok((fails.then_some(FileFault::Device), writer.into_inner()))
        }
        Err((fault, sink)) => Ok((Some(fault), sink)),
    }
}

fn put_picture(alloc: Global, fails_in: u64) -> Result<Written, Fail> {
    let picture = read_picture(alloc, &mut source(alloc, PICTURE, 0)?)?;
    let mut sink = sink(alloc, fails_in)?;
    let fault = write_picture(&mut sink, &picture).err();
    Ok((fault, sink))
}

/// The receiver's file, or its report.
fn put_receiver(alloc: Global, fails_in: u64, is_report: bool) -> Result<Written, Fail> {
    let receiver: Receiver = load_receiver(alloc, &mut source(alloc, RECEIVER, 0)?)?;
    let mut sink = sink(alloc, fails_in)?;
    let fault = if is_report {
        match write_report(&receiver, &mut sink) {
            Ok(()) => None,
            Err(ReportFault::Device) => Some(FileFault::Device),
        }
    } else {
        save_receiver(&mut sink, &receiver).err()
    };
    Ok((fault, sink))
}

/// Whether a sink that fails at a call is told so and has what it took before, or the whole file
/// where all calls are before it: a file of n octets takes n.
fn has_taken(alloc: Global, writing: Writing, file: &[u8], call: usize) -> Result<bool, Fail> {
    let taken = call.saturating_sub(1).min(file.len());
    let is_whole = call > file.len();
    let wanted = if is_whole {
        None
    } else {
        Some(FileFault::Device)
    };
    let (fault, sink) = writing.write(alloc, call as u64)?;
    Ok(fault == wanted && sink.failures() == u64::from(!is_whole) && sink.held() == &file[..taken])
}

/// Each call, and the file.
const FILES: [(Writing, &[u8]); 5] = [
    (Writing::Records, BOTH_NEW),
    (Writing::Taken, BOTH_NEW),
    (Writing::Picture, PICTURE),
    (Writing::Receiver, RECEIVER),
    (Writing::Report, REPORT),
];

#[test]
fn to_a_sink_that_fails(rt: HostRuntime) -> Result<(), Fail> {
    for (writing, file) in FILES {
        for call in 1..file.len() + 2 {
            met(&rt, has_taken(rt.alloc(), writing, file, call)?);
        }
    }
    Ok(())
}

/// How many octets are written of *migrated*'s capture of both paths once so many are read: nothing
/// before the version, then the front, and each record that is whole.
const MIGRATED: [(usize, usize); 4] = [(0, 0), (8, 13), (47, 52), (86, 91)];

/// How many octets are written where the source fails at a call, or the sink does; 0 is none.
fn written_before(source: usize, sink: usize) -> usize {
    let read = source.saturating_sub(1);
    let mut written = sink.saturating_sub(1);
    if source > 0 {
        for (from, octets) in &MIGRATED {
            if *from <= read {
                written = *octets;
            }
        }
    }
    written.min(BOTH_NEW.len())
}

/// Whether migrating stops, with the text `v=0`, where the source or the sink fails at a call.
fn stops(alloc: Global, fails: (usize, usize)) -> Result<bool, AllocError> {
    let mut buf = vec![in alloc; 0u8; 65535]?;
    let mut source = source(alloc, BOTH_OLD, fails.0 as u64)?;
    let mut sink = sink(alloc, fails.1 as u64)?;
    let answer = migrate_capture(&mut source, &mut sink, b"v=0", &mut buf, 2);
    let failures = source.failures().saturating_add(sink.failures());
    let written = written_before(fails.0, fails.1);
    Ok(
        answer == Err(FileFault::Device)
            && failures == 1
            && sink.held() == &BOTH_NEW[..written.min(BOTH_NEW.len())],
    )
}

#[test]
fn migrated_over_devices_that_fail(rt: HostRuntime) -> Result<(), Fail> {
    for call in 1..BOTH_OLD.len() + 2 {
        met(&rt, stops(rt.alloc(), (call, 0))?);
    }
    for call in 1..BOTH_NEW.len() + 1 {
        met(&rt, stops(rt.alloc(), (0, call))?);
    }
    Ok(())
}
