//! Measures the calls of the hot path as ratios to a copy of the same octets, all in one run.
//!
//! Without words it makes one round of a small picture and prints nothing. Its words are `measure`,
//! `measure large` for a picture of 8192 by 8192, which takes about 2 GB, or `measure jobs` for the
//! jobs of the processor.
#![tactic(auto)]

mod calls;
mod fault;
mod jobs;
mod plain;
mod sending;
mod streams;

use crate::calls::{Call, Room};
use crate::fault::Fault;
use crate::jobs::{Inputs, JOBS, Way};
use crate::sending::Frames;
use crate::streams::{Change, Stream};
use key_mix::Job;
use st_format::{Depth, Format, Sampling};
use std::env;
use std::process::ExitCode;

/// A depth, columns and rows of 4:2:2, the most octets of a packet, and how many of the calls are
/// measured.
type Case = (Depth, u32, u32, u32, usize);

const CASES: [Case; 5] = [
    (Depth::D8, 1920, 1080, 1400, 13),
    (Depth::D8, 1920, 1080, 9000, 13),
    (Depth::D10, 1920, 1080, 1400, 13),
    (Depth::D10, 1920, 1080, 9000, 13),
    (Depth::D10, 1280, 720, 1400, 5),
];

/// The calls, first those on the way of each datagram, without loss and where nothing is contested.
const CALLS: [(&str, Call); 13] = [
    ("send_frame", Call::Send),
    ("take, into missing cells", Call::TakeFirst),
    ("take, second path", Call::TakeSecond),
    ("merge, into a blank receiver", Call::MergeBlank),
    ("merge, equal", Call::MergeEqual),
    ("second path, 1 % lost by the first", Call::TakeLost),
    ("second path, a region of 1 % differs", Call::Differ(1, 10)),
    (
        "second path, each 100th sample differs",
        Call::Differ(100, 1),
    ),
    ("second path, every sample differs", Call::Differ(1, 1)),
    ("counts", Call::Counts),
    ("settle", Call::Settle),
    ("try_copy", Call::TryCopy),
    ("write_report, each second datagram lost", Call::Report),
];

fn main(rt: HostRuntime) -> ExitCode {
    match run(&rt) {
        Ok(()) => ExitCode::SUCCESS,
        Err(_) => ExitCode::FAILURE,
    }
}

fn run(rt: &HostRuntime) -> Result<(), Fault> {
    let mut words = env::args(rt)?;
    words.next();
    let Some(word) = words.next() else {
        return measure_few(rt);
    };
    let what = words.next();
    follow(rt, word.as_str(), what.as_deref())
}

/// Makes one round of a small picture, and prints nothing.
fn measure_few(rt: &HostRuntime) -> Result<(), Fault> {
    measure(rt, (Depth::D10, 48, 4, 1400, 13), 1, false)?;
    measure_jobs(rt, Depth::D10, (48, 4), 1, false)
}

/// Measures what the words say.
fn follow(rt: &HostRuntime, word: &str, what: Option<&str>) -> Result<(), Fault> {
    match (word, what) {
        ("measure", None) => {
            for case in CASES {
                measure(rt, case, 25, true)?;
            }
            Ok(())
        }
        ("measure", Some("large")) => { measure(rt, (Depth::D10, 8192, 8192, 1400, 5), 5, true) }
        ("measure", Some("jobs")) => {
            measure_jobs(rt, Depth::D10, (1920, 1080), 25, true)?;
            measure_jobs(rt, Depth::D16, (1920, 1080), 25, true)
        }
        _ => Err(Fault),
    }
}

/// Measures the calls of a case.
fn measure(rt: &HostRuntime, case: Case, rounds: u32, prints: bool) -> Result<(), Fault> {
    let (depth, width, height, size, _) = case;
    let Ok(format) = Format::new(Sampling::Ycc422, depth, width, height, 60, 1) else {
        return Err(Fault);
    };
    let first = Stream::new(rt.alloc(), format, size, Change(0, 1))?;
    let mut room = Room::new(rt.alloc(), &first)?;
    measure_calls(rt, &first, &mut room, case, rounds, prints)
}

/// Measures each call of a case, against a copy of as many octets.
fn measure_calls(
    rt: &HostRuntime,
    first: &Stream,
    room: &mut Room,
    case: Case,
    rounds: u32,
    prints: bool,
) -> Result<(), Fault> {
    let copied = room.best(rt, Call::Copy, (first, first), rounds)?;
    let octets = room.octets.len();
    if prints {
        print_case(rt, case, copied, octets)?;
    }
    for (name, call) in CALLS.iter().take(case.4) {
        let spent = spend(rt, *call, first, room, case.3, rounds)?;
        if prints {
            print(rt, name, spent, copied, octets)?;
        }
    }
    Ok(())
}

/// Prints what a case is, and how long a copy of as many octets takes.
fn print_case(rt: &HostRuntime, case: Case, copied: u64, octets: usize) -> Result<(), Fault> {
    let (depth, width, height, size, _) = case;
    let bits = depth.bits();
    println!(rt; "{width} by {height}, 4:2:2, {bits} bits, packets of {size}, {octets} octets")?;
    print(rt, "copy of the octets", copied, copied, octets)
}

/// The nanoseconds of a call's best round, in packets of this size.
fn spend(
    rt: &HostRuntime,
    call: Call,
    first: &Stream,
    room: &mut Room,
    size: u32,
    rounds: u32,
) -> Result<u64, Fault> {
    let Call::Differ(step, part) = call else {
        return room.best(rt, call, (first, first), rounds);
    };
    let other = Stream::new(rt.alloc(), first.format, size, Change(step, part))?;
    room.best(rt, call, (first, &other), rounds)
}

/// Prints a call's line: the microseconds of its best round, its ratio to the copy of so many
/// octets (the copy's time divided by its own) and its nanoseconds for 1000 octets.
fn print(
    rt: &HostRuntime,
    name: &str,
    nanoseconds: u64,
    copied: u64,
    octets: usize,
) -> Result<(), Fault> {
    let ratio = u128::from(copied) * 1000 / u128::from(nanoseconds.max(1));
    let cost = u128::from(nanoseconds) * 1000 / (octets as u128).max(1);
    let (whole, part, micros) = (ratio / 1000, ratio % 1000, nanoseconds / 1000);
    println!(rt; "  {name}: {micros} us, {whole}.{part:03}, {cost} ns per 1000 octets")?;
    Ok(())
}

/// Measures each job at a depth, the same as a plain loop, and sending what it makes.
fn measure_jobs(
    rt: &HostRuntime,
    depth: Depth,
    size: (u32, u32),
    rounds: u32,
    prints: bool,
) -> Result<(), Fault> {
    for (name, job, sampling, count) in JOBS {
        let Ok(format) = Format::new(sampling, depth, size.0, size.1, 60, 1) else {
            return Err(Fault);
        };
        let spent = spend_job(rt, &job, format, count, rounds)?;
        if prints {
            print_job(rt, name, format, count, spent)?;
        }
        measure_sending(rt, &job, format, count, rounds, prints)?;
    }
    Ok(())
}

/// The nanoseconds of the best rounds of a copy of a job's inputs, of the job, and of a plain loop.
fn spend_job(
    rt: &HostRuntime,
    job: &Job,
    format: Format,
    count: usize,
    rounds: u32,
) -> Result<(u64, u64, u64), Fault> {
    let mut inputs = Inputs::new(rt.alloc(), format)?;
    let copied = inputs.best(rt, job, count, Way::Copy, rounds)?;
    let called = inputs.best(rt, job, count, Way::Call, rounds)?;
    let looped = inputs.best(rt, job, count, Way::Plain, rounds)?;
    Ok((copied, called, looped))
}

/// Prints a job, and the lines of a copy of its inputs, of the job, and of a plain loop.
fn print_job(
    rt: &HostRuntime,
    name: &str,
    format: Format,
    count: usize,
    spent: (u64, u64, u64),
) -> Result<(), Fault> {
    let (copied, called, looped) = spent;
    let octets = format.sample_count().wrapping_mul(2).wrapping_mul(count);
    let bits = format.depth().bits();
    println!(rt; "{name}, {bits} bits, {count} of {octets} octets in all")?;
    print(rt, "copy of the samples", copied, copied, octets)?;
    print(rt, "the job", called, copied, octets)?;
    print(rt, "a plain loop", looped, copied, octets)
}

/// Measures `send_job`, as a ratio to its parts.
fn measure_sending(
    rt: &HostRuntime,
    job: &Job,
    format: Format,
    count: usize,
    rounds: u32,
    prints: bool,
) -> Result<(), Fault> {
    let frames = Frames::new(rt.alloc(), format)?;
    let (parts, whole) = frames.best(rt, job, count, rounds)?;
    if prints {
        let octets = format.sample_count().wrapping_mul(2).wrapping_mul(count);
        print(
            rt,
            "settle, run_job, Plan::new, send_frame",
            parts,
            parts,
            octets,
        )?;
        print(rt, "send_job", whole, parts, octets)?;
    }
    Ok(())
}
