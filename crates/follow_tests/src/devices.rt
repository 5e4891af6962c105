//! Devices that fail: each call of a file's source, of the sink of lines and of that of pictures in
//! turn. What was told and shown before stands, and nothing else is.
use crate::checks::met;
use crate::running::{Failing, NONE, Run, run_of};
use crate::streams::TWO_PATHS;
use std::alloc::{AllocError, Global};
use std::test::Fail;

/// How many lines there are, by their ends.
fn lines_in(text: &[u8]) -> u64 {
    let mut count = 0u64;
    for octet in text {
        if *octet == b'\n' {
            count = count.saturating_add(1);
        }
    }
    count
}

/// Whether a device failed in a run, and what was printed is a first part of all, with a line for
/// each frame that was shown; where the sink of lines failed, the last of them may lack.
fn has_failed(run: &Run, is_of_lines: bool) -> bool {
    let printed = run.printed.held();
    let lines = lines_in(printed);
    let is_part = TWO_PATHS.told.starts_with(printed) && printed.len() < TWO_PATHS.told.len();
    let are_shown = lines == run.shown.shown
        || (is_of_lines && lines.saturating_add(1) == run.shown.shown);
    run.has_failed() && is_part && are_shown
}

/// Which device fails.
#[derive(Clone, Copy)]
enum Device {
    First,
    Second,
    Lines,
}

/// Where this call of a device fails.
fn failing_at(device: Device, call: u64) -> Failing {
    match device {
        Device::First => Failing {
            first: call,
            ..NONE
        },
        Device::Second => Failing {
            second: call,
            ..NONE
        },
        Device::Lines => Failing {
            lines: call,
            ..NONE
        },
    }
}

/// Whether a device has this many calls, or more, and each that fails ends the run so.
fn fails_in_each(alloc: Global, device: Device, least: u64) -> Result<bool, AllocError> {
    for call in 1..200u64 {
        let run = run_of(alloc, alloc, &TWO_PATHS, failing_at(device, call))?;
        if run.answered(TWO_PATHS.told) == Some(true) {
            return Ok(least < call);
        }
        if !has_failed(&run, matches!(device, Device::Lines)) {
            return Ok(false);
        }
    }
    Ok(false)
}

/// Of A and B each: two calls for what stands before the records, two for each record, and one that
/// tells the end. Of the lines, seven octets a call.
#[test]
fn in_each_call(rt: HostRuntime) -> Result<(), Fail> {
    for (device, least) in [
        (Device::First, 13u64),
        (Device::Second, 11),
        (Device::Lines, 35),
    ] {
        met(&rt, fails_in_each(rt.alloc(), device, least)?);
    }
    Ok(())
}

/// The sink of pictures fails at each frame, and all before it are shown and told.
#[test]
fn at_each_frame(rt: HostRuntime) -> Result<(), Fail> {
    for frame in 1..5u64 {
        let failing = Failing {
            pictures: frame,
            ..NONE
        };
        let run = run_of(rt.alloc(), rt.alloc(), &TWO_PATHS, failing)?;
        met(
            &rt,
            has_failed(&run, false) && run.shown.shown == frame.wrapping_sub(1),
        );
    }
    Ok(())
}
