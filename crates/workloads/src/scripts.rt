//! The jobs on scripts: datagrams in hexadecimal that are traced, and a rehearsal.
ghost use Rattle.std.specs.Prelude.{◌≡◌, ◌≤◌, length};

use crate::camera::Datagrams;
use crate::fault::Fault;
use crate::numbers::{Bursts, Digest, Noise, number};
use crate::running::{note, sink, source};
use crate::states::Size;
use st_format::{Depth, Format, Sampling};
use st2110_tool::{run_rehearse, run_trace};
use std::alloc::Global;

/// How many datagrams a script has at most.
const MOST: usize = 1400;

/// The digits of a number below 16: capitals in three of four datagrams.
const DIGITS: [&[u8; 16]; 2] = [b"0123456789ABCDEF", b"0123456789abcdef"];

/// Appends octets in hexadecimal.
fn push_digits(script: &mut Vec<u8>, octets: &[u8], digits: &[u8; 16]) -> Result<(), Fault> {
    let mut room = [0u8; 256];
    for part in octets.chunks(128) {
        for i in 0..part.len().min(128) {
            room[2 * i] = digits[(part[i] >> 4) as usize];
            room[2 * i + 1] = digits[(part[i] & 15) as usize];
        }
        script.extend_from_slice(&room[..2 * part.len().min(128)])?;
    }
    Ok(())
}

/// A long script of datagrams is traced, and then a rehearsal played.
pub fn script(
    alloc: Global,
    size: Size,
    seed: u64,
    rounds: u64,
    digest: &mut Digest,
) -> Result<(), Fault> {
    let noise = Noise::new(alloc, seed)?;
    for round in 0..rounds {
        let drawn = number(seed, round);
        let text = trace_text(alloc, &noise, size, drawn)?;
        let mut output = sink(alloc, 1 << 20)?;
        let mut faults = sink(alloc, 256)?;
        let mut script = source(text, usize::MAX);
        let status = run_trace(alloc, &mut script, &mut output, &mut faults);
        note(digest, status, [&output, &faults])?;
        let text = rehearsal_text(alloc, &noise, (size.0 / 4, size.1 / 4), drawn)?;
        let mut output = sink(alloc, 1 << 20)?;
        let mut faults = sink(alloc, 256)?;
        let mut script = source(text, usize::MAX);
        let status = run_rehearse(alloc, &mut script, &mut output, &mut faults);
        note(digest, status, [&output, &faults])?;
    }
    Ok(())
}

/// A script of the first datagrams of a picture, each by one path or the other.
fn trace_text(alloc: Global, noise: &Noise, size: Size, seed: u64) -> Result<Vec<u8>, Fault> {
    let format = Format::new(Sampling::Ycc422, Depth::D10, size.0, size.1, 60, 1);
    let format = format.ok().ok_or(Fault)?;
    let sent = Datagrams::shoot(alloc, &format, noise, &[number(seed, 1)], 0)?;
    let mut script = Vec::with_capacity(alloc, MOST.wrapping_mul(2900))?;
    let head = format!(in alloc;
        "format YCbCr-4:2:2 10 {} {} 60/1\nopen 96 any 0,1500\nnumbers 0 4096\n",
        size.0, size.1
    )?;
    script.extend_from_slice(head.as_bytes())?;
    for place in 0..sent.len().min(MOST) {
        let drawn = number(seed, (place as u64).wrapping_add(16));
        let path: &[u8] = if drawn % 2 == 0 { b"A " } else { b"B " };
        if drawn % 101 == 0 {
            continue;
        }
        script.extend_from_slice(path)?;
        push_digits(
            &mut script,
            sent.get(place),
            DIGITS[(drawn % 4 == 0) as usize],
        )?;
        script.extend_from_slice(b"\n")?;
        if drawn % 8 == 3 {
            let cell = format!(in alloc;
                "cell 0 {} {} 0\n",
                drawn >> 48 & 1023,
                drawn >> 32 & 1023
            )?;
            script.extend_from_slice(cell.as_bytes())?;
        }
    }
    script.extend_from_slice(b"slide 3000\n")?;
    Ok(script)
}

/// A rehearsal of four pictures, which eight receivers take by two paths that lose bursts.
fn rehearsal_text(alloc: Global, noise: &Noise, size: Size, seed: u64) -> Result<Vec<u8>, Fault> {
    let format = Format::new(Sampling::Ycc422, Depth::D10, size.0, size.1, 60, 1);
    let format = format.ok().ok_or(Fault)?;
    let octets = format.row_octets().wrapping_mul(format.height() as usize);
    let packets = (octets / 1400).wrapping_mul(4).max(4);
    let mut script = Vec::with_capacity(alloc, octets.wrapping_mul(8).wrapping_add(1 << 20))?;
    let head = format!(in alloc;
        "format YCbCr-4:2:2 10 {} {} 60/1\nstamp 96 0 0 1\nmax 1400\n\
        window 0,1500,3000\nreceivers 8\n",
        size.0, size.1
    )?;
    script.extend_from_slice(head.as_bytes())?;
    for index in 0..4u64 {
        script.extend_from_slice(b"picture ")?;
        for row in 0..u64::from(format.height()) {
            let piece = noise.piece(number(seed, row.wrapping_mul(8).wrapping_add(index)));
            if piece.len() < format.row_octets() {
                return Err(Fault);
            }
            push_digits(&mut script, &piece[..format.row_octets()], DIGITS[0])?;
        }
        script.extend_from_slice(b"\n")?;
    }
    for _ in 0..packets {
        script.extend_from_slice(b"send\n")?;
    }
    for receiver in 0..8u64 {
        push_arrivals(
            alloc,
            &mut script,
            receiver,
            packets,
            number(seed, receiver),
        )?;
    }
    script.extend_from_slice(b"slide 0 4500\nmerge 1 2\nmerge 3 4\nmerge 1 3\nmerge 7 6\n")?;
    Ok(script)
}

/// Appends what a receiver takes.
fn push_arrivals(
    alloc: Global,
    script: &mut Vec<u8>,
    receiver: u64,
    packets: usize,
    seed: u64,
) -> Result<(), Fault> {
    let mut bursts = [Bursts::new(number(seed, 1)), Bursts::new(number(seed, 2))];
    for packet in 0..packets {
        if !bursts[0].next() {
            let line = format!(in alloc; "arrive {receiver} A {packet}\n")?;
            script.extend_from_slice(line.as_bytes())?;
        }
        if !bursts[1].next() {
            let line = format!(in alloc; "arrive {receiver} B {packet}\n")?;
            script.extend_from_slice(line.as_bytes())?;
        }
    }
    Ok(())
}
