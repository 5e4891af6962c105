//! What `run_convert` and `run_picture` write and tell with each growth refused, and with each call
//! of a device failing.
use crate::checks::met;
use crate::form_calls::{Call, Failing, NONE, Run, conversions, make_call, views};
use refusing::Refusing;
use std::alloc::Global;
use std::test::Fail;
use test_kit::wanting::{Wanting, grows};

/// Whether a call ended with this status, and told this of it.
fn has_ended(run: &Run, status: u8, told: &[u8]) -> bool {
    run.status == status && run.told.held() == told
}

/// Whether a call ended well, with all written.
fn is_whole(run: &Run, call: &Call) -> bool {
    has_ended(run, 0, b"") && run.sink.held() == call.text
}

/// Nothing is written where memory is wanted.
impl Wanting for Call {
    fn answer(&self, global: Global, refusing: &Refusing<Global>) -> Result<Option<bool>, Fail> {
        let run = make_call(global, refusing, self, NONE)?;
        if has_ended(&run, 4, b"st2110: memory\n") && run.sink.held().is_empty() {
            return Ok(None);
        }
        Ok(Some(is_whole(&run, self)))
    }
}

/// Whether each of these calls takes as many growths as its example says, or more.
fn grow(alloc: Global, calls: &[Call]) -> Result<bool, Fail> {
    let mut do_grow = true;
    for call in calls {
        do_grow &= grows(alloc, call, call.growths)?;
    }
    Ok(do_grow)
}

/// Each call writes what its example says, also once a growth was refused.
#[test]
fn with_each_growth_refused(rt: HostRuntime) -> Result<(), Fail> {
    met(&rt, grow(rt.alloc(), &conversions())?);
    met(&rt, grow(rt.alloc(), &views())?);
    Ok(())
}

/// A device of a call.
#[derive(Clone, Copy)]
enum Device {
    File,
    Held,
    Sink,
}

/// Where this call of a device fails.
fn failing_at(device: Device, nth: u64) -> Failing {
    match device {
        Device::File => Failing { file: nth, ..NONE },
        Device::Held => Failing { held: nth, ..NONE },
        Device::Sink => Failing { sink: nth, ..NONE },
    }
}

/// How often a device failed in a call.
fn failures(run: &Run, device: Device) -> u64 {
    match (device, &run.held) {
        (Device::File, _) => run.file.failures(),
        (Device::Held, Some(held)) => held.failures(),
        (Device::Held, None) => 0,
        (Device::Sink, _) => run.sink.failures(),
    }
}

/// Whether a call told that a device failed, once. Where it is one that is read nothing is written,
/// and else a part, as much as each of the calls before took.
fn has_failed(run: &Run, call: &Call, device: Device, nth: u64) -> bool {
    let held = run.sink.held();
    let is_part = match device {
        Device::File | Device::Held => held.is_empty(),
        Device::Sink => held.len() < call.text.len() && held.is_empty() == (nth == 1),
    };
    let is_told = has_ended(run, 3, b"st2110: device\n");
    is_told && is_part && call.text.starts_with(held) && failures(run, device) == 1
}

/// Whether a device has this many calls, or more, and each that fails is told, and the next run is
/// as if none had.
fn fails_in_each(alloc: Global, call: &Call, device: Device, least: u64) -> Result<bool, Fail> {
    for nth in 1..200u64 {
        let failed = make_call(alloc, alloc, call, failing_at(device, nth))?;
        if is_whole(&failed, call) {
            return Ok(least < nth);
        }
        let next = make_call(alloc, alloc, call, NONE)?;
        if !has_failed(&failed, call, device, nth) || !is_whole(&next, call) {
            return Ok(false);
        }
    }
    Ok(false)
}

/// Whether it is so of each device of these calls.
fn fail_in_each(alloc: Global, calls: &[Call]) -> Result<bool, Fail> {
    let mut fail_so = true;
    for call in calls {
        let reads = if call.held.is_some() { 3 } else { 0 };
        fail_so &= fails_in_each(alloc, call, Device::File, 3)?;
        fail_so &= fails_in_each(alloc, call, Device::Held, reads)?;
        fail_so &= fails_in_each(alloc, call, Device::Sink, 2)?;
    }
    Ok(fail_so)
}

/// Seven octets a call: a file is read by three or more, and written by two or more.
#[test]
fn with_each_call_failing(rt: HostRuntime) -> Result<(), Fail> {
    met(&rt, fail_in_each(rt.alloc(), &conversions())?);
    met(&rt, fail_in_each(rt.alloc(), &views())?);
    Ok(())
}
