//! Sinks of what frames lack, and two sinks as one, by devices that fail.
use crate::checks::{met, sink};
use follow_engine::PictureSink;
use frame_assembly::Frame;
use frame_sinks::{BothSinks, ReportSink};
use run_outcome::Fault;
use st_format::memory::MemorySink;
use st_format::{Depth, Format, Sampling};
use std::alloc::{AllocError, Global};
use std::test::Fail;

/// What a report has of two frames of 4 by 2 pixels, of which nothing is known.
const TWO: &[u8] = b"frame 900 present 0 missing 16 contested 0\n\
    missing row 0 columns 0 to 3\nmissing row 1 columns 0 to 3\n\
    frame 4294967295 present 0 missing 16 contested 0\n\
    missing row 0 columns 0 to 3\nmissing row 1 columns 0 to 3\n";

/// A frame of these, shown to a sink by two timestamps.
fn show_two<P: PictureSink>(alloc: Global, pictures: &mut P) -> Result<Result<(), Fault>, Fail> {
    let format = Format::new(Sampling::Ycc422, Depth::D8, 4, 2, 25, 1)?;
    let frame = Frame::new(alloc, format)?;
    match pictures.show(900, &frame) {
        Ok(()) => Ok(pictures.show(u32::MAX, &frame)),
        Err(fault) => Ok(Err(fault)),
    }
}

/// A sink of which the call of this number fails, with room for any text of the tests.
fn failing(alloc: Global, fails_in: u64) -> Result<MemorySink, AllocError> {
    let room = Vec::with_capacity(alloc, 256)?;
    Ok(MemorySink::new(room, 7, fails_in))
}

/// A device that fails in each call: what was written is a first part.
#[test]
fn in_each_call(rt: HostRuntime) -> Result<(), Fail> {
    for call in 1..20 {
        let mut report = ReportSink {
            sink: failing(rt.alloc(), call)?,
        };
        let shown = show_two(rt.alloc(), &mut report)?;
        let has_failed = matches!(shown, Err(Fault::Device));
        met(&rt, has_failed && TWO.starts_with(report.sink.held()));
    }
    Ok(())
}

/// Where the first of two sinks fails, the second has the frames before alone.
#[test]
fn first_fails(rt: HostRuntime) -> Result<(), Fail> {
    let mut sinks = BothSinks {
        first: ReportSink {
            sink: failing(rt.alloc(), 16)?,
        },
        second: ReportSink {
            sink: sink(rt.alloc())?,
        },
    };
    let shown = show_two(rt.alloc(), &mut sinks)?;
    let second = sinks.second.sink.held();
    met(
        &rt,
        matches!(shown, Err(Fault::Device)) && second.len() == 101,
    );
    met(&rt, TWO.starts_with(second));
    Ok(())
}
