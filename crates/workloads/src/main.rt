//! Runs a job of many made inputs, of the shape and size that users have, for a benchmark.
//!
//! Its words are a job and a seed, a number below 2^32: the jobs are `merge`, `process`, `report`,
//! `receive`, `live`, `script` and `follow`. It prints the job and a digest of all that it
//! answered, which is the same for the same seed. Without words it runs each job on a small input.
#![tactic(auto)]

mod camera;
mod fault;
mod followed;
mod numbers;
mod records;
mod running;
mod scripts;
mod state_files;
mod states;
mod streams;

use crate::fault::Fault;
use crate::followed::follow;
use crate::numbers::Digest;
use crate::scripts::script;
use crate::states::{Size, merge, process, report};
use crate::streams::{live, receive};
use std::alloc::Global;
use std::env;
use std::process::ExitCode;

/// The columns and rows of a picture.
const FULL: Size = (1920, 1080);

/// The columns and rows of a picture of a small input, by which a job is tried.
const SMALL: Size = (48, 12);

/// The jobs, each with how many rounds of it are run.
const JOBS: [(&str, u64); 7] = [
    ("merge", 16),
    ("process", 10),
    ("report", 20),
    ("receive", 40),
    ("live", 100),
    ("script", 30),
    ("follow", 4),
];

fn main(rt: HostRuntime) -> ExitCode {
    match run(&rt) {
        Ok(()) => ExitCode::SUCCESS,
        Err(_) => ExitCode::FAILURE,
    }
}

fn run(rt: &HostRuntime) -> Result<(), Fault> {
    let mut words = env::args(rt)?;
    words.next();
    let Some(name) = words.next() else {
        return run_small(rt);
    };
    let seed = words.next().ok_or(Fault)?;
    let seed: u32 = seed.as_str().parse().ok().ok_or(Fault)?;
    for (job, rounds) in JOBS {
        if name.as_str() == job {
            return print(rt, job, FULL, u64::from(seed), rounds);
        }
    }
    Err(Fault)
}

/// Runs each job on a small input.
fn run_small(rt: &HostRuntime) -> Result<(), Fault> {
    for (job, _) in JOBS {
        print(rt, job, SMALL, 1, 4)?;
    }
    Ok(())
}

/// Runs a job, and prints its digest.
fn print(rt: &HostRuntime, job: &str, size: Size, seed: u64, rounds: u64) -> Result<(), Fault> {
    let mut digest = Digest(seed);
    run_job(rt.alloc(), job, size, seed, rounds, &mut digest)?;
    println!(rt; "{job} {:016x}", digest.0)?;
    Ok(())
}

fn run_job(
    alloc: Global,
    job: &str,
    size: Size,
    seed: u64,
    rounds: u64,
    digest: &mut Digest,
) -> Result<(), Fault> {
    match job {
        "merge" => merge(alloc, size, seed, rounds, digest),
        "process" => process(alloc, size, seed, rounds, digest),
        "report" => report(alloc, size, seed, rounds, digest),
        "receive" => receive(alloc, size, seed, rounds, digest),
        "live" => live(alloc, size, seed, rounds, digest),
        "script" => script(alloc, size, seed, rounds, digest),
        _ => follow(alloc, size, seed, rounds, digest),
    }
}
