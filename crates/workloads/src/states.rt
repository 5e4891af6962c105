//! The jobs on receivers' files.
use crate::fault::Fault;
use crate::numbers::{Digest, Noise, number};
use crate::running::{note, sink, source};
use crate::state_files::{Kept, Known, state_file};
use st_format::memory::MemorySource;
use st_format::{Depth, Format, Sampling};
use st2110_tool::{Processing, Stamp, run_merge, run_process, run_report};
use std::alloc::Global;

/// Columns and rows of the pictures.
pub type Size = (u32, u32);

/// What a source gives in a round: mostly as much as is asked for, and in each fourth round pieces
/// of no round size.
fn piece(round: u64) -> usize {
    if round % 4 == 3 { 1021 } else { usize::MAX }
}

fn format(sampling: Sampling, size: Size) -> Result<Format, Fault> {
    Format::new(sampling, Depth::D10, size.0, size.1, 60, 1)
        .ok()
        .ok_or(Fault)
}

/// Two machines' receivers of the same pictures, each with bursts missing, are merged.
pub fn merge(
    alloc: Global,
    size: Size,
    seed: u64,
    rounds: u64,
    digest: &mut Digest,
) -> Result<(), Fault> {
    let format = format(Sampling::Ycc422, size)?;
    let noise = Noise::new(alloc, seed)?;
    for round in 0..rounds {
        let drawn = number(seed, round);
        let kept = |losses| {
            Kept {
                pictures: drawn,
                losses,
                count: 2,
                known: Known::Bursts,
            }
        };
        let one = state_file(alloc, &format, &noise, kept(number(drawn, 1)))?;
        let other = state_file(alloc, &format, &noise, kept(number(drawn, 2)))?;
        let mut state = sink(alloc, one.len().wrapping_add(other.len()))?;
        let mut output = sink(alloc, 4096)?;
        let mut faults = sink(alloc, 256)?;
        let status = run_merge(
            alloc,
            &mut source(one, piece(round)),
            &mut source(other, piece(round)),
            &mut state,
            &mut output,
            &mut faults,
        );
        note(digest, status, [&state, &output])?;
    }
    Ok(())
}

/// A ragged receiver is reported: bursts missing, contested samples, each second packet missing.
pub fn report(
    alloc: Global,
    size: Size,
    seed: u64,
    rounds: u64,
    digest: &mut Digest,
) -> Result<(), Fault> {
    let format = format(Sampling::Ycc422, size)?;
    let noise = Noise::new(alloc, seed)?;
    for round in 0..rounds {
        let drawn = number(seed, round);
        let known = match round % 3 {
            0 => Known::Bursts,
            1 => Known::Contested(13),
            _ => Known::Halves,
        };
        let kept = Kept {
            pictures: drawn,
            losses: number(drawn, 1),
            count: 2,
            known,
        };
        let file = state_file(alloc, &format, &noise, kept)?;
        let mut output = sink(alloc, file.len().wrapping_mul(2).wrapping_add(4096))?;
        let mut faults = sink(alloc, 256)?;
        let mut state = source(file, piece(round));
        let status = run_report(alloc, &mut state, &mut output, &mut faults);
        note(digest, status, [&output, &faults])?;
    }
    Ok(())
}

/// A picture is keyed over another by a third one, and one of RGB becomes YCbCr.
pub fn process(
    alloc: Global,
    size: Size,
    seed: u64,
    rounds: u64,
    digest: &mut Digest,
) -> Result<(), Fault> {
    let video = format(Sampling::Ycc422, size)?;
    let graphics = format(Sampling::Rgb, size)?;
    let noise = Noise::new(alloc, seed)?;
    for round in 0..rounds {
        let drawn = number(seed, round);
        run_job(alloc, (&video, &noise), (drawn, round, 3), b"key", digest)?;
        run_job(
            alloc,
            (&graphics, &noise),
            (number(drawn, 7), round, 1),
            b"ycc444",
            digest,
        )?;
    }
    Ok(())
}

/// Runs a job on so many receivers, of a seed and a round.
fn run_job(
    alloc: Global,
    of: (&Format, &Noise),
    by: (u64, u64, u64),
    job: &[u8],
    digest: &mut Digest,
) -> Result<(), Fault> {
    let (format, noise) = of;
    let (seed, round, count) = by;
    let mut states = Vec::new(alloc);
    let mut octets = 4096usize;
    for index in 0..count {
        let kept = Kept {
            pictures: number(seed, index),
            losses: number(seed, index.wrapping_add(8)),
            count: 1,
            known: Known::Bursts,
        };
        let file = state_file(alloc, format, noise, kept)?;
        octets = octets.wrapping_add(file.len());
        states.push(source(file, piece(round))).ok().ok_or(Fault)?;
    }
    process_states(alloc, states.as_mut_slice(), job, octets, digest)
}

fn process_states(
    alloc: Global,
    states: &mut [MemorySource],
    job: &[u8],
    octets: usize,
    digest: &mut Digest,
) -> Result<(), Fault> {
    let wanted = Processing {
        job,
        timestamp: 0,
        fill: b"64,512,512",
        stamp: Stamp {
            payload_type: 96,
            first: 0,
            timestamp: 0,
            ssrc: 1,
        },
        max_octets: 1400,
    };
    let mut capture = sink(alloc, octets.wrapping_mul(2))?;
    let mut output = sink(alloc, 64)?;
    let mut faults = sink(alloc, 256)?;
    let mut no_hold = None;
    let status = run_process(
        alloc,
        wanted,
        states,
        &mut no_hold,
        &mut capture,
        &mut output,
        &mut faults,
    );
    note(digest, status, [&capture, &output])
}
