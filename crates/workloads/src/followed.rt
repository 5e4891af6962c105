//! The job on the captures of a stream's two paths: they are followed, and its pictures written.
ghost use Rattle.std.specs.Prelude.{IfOk};
ghost use Rattle.follow_engine.specs.Opened.{AllClosedSides};

use crate::camera::{Datagrams, HEAD, description, video};
use crate::fault::Fault;
use crate::numbers::{Bursts, Digest, Noise, number};
use crate::records::{Records, comes};
use crate::running::{note, sink, source};
use crate::states::Size;
use follow_engine::{FollowAsked, follow_files};
use frame_sinks::{Filling, FormSink};
use side_by_side::Side;
use st_format::memory::{MemorySink, MemorySource};
use st_format::{Format, Path};
use std::alloc::{AllocError, Global};

/// How many pictures a stream has: more than frames are in, so that some leave for newer ones and
/// the others at the end.
const PICTURES: usize = 12;

/// How many frames are in at most.
const WINDOW: usize = 8;

/// Two captures of a stream, one of each path, are followed, and the pictures written as a file:
/// in each second round what a frame lacks is that of the picture before. The pictures are the same
/// in each round, and what each path loses, repeats and exchanges is another.
pub fn follow(
    alloc: Global,
    size: Size,
    seed: u64,
    rounds: u64,
    digest: &mut Digest,
) -> Result<(), Fault> {
    let format = video(size)?;
    let text = description(alloc, size)?;
    let noise = Noise::new(alloc, seed)?;
    let mut seeds = [0; PICTURES];
    for place in 0..PICTURES {
        seeds[place] = number(number(seed, rounds), place as u64);
    }
    let sent = Datagrams::shoot(alloc, &format, &noise, &seeds, 0)?;
    for round in 0..rounds {
        let drawn = number(seed, round);
        let a = capture_of(alloc, &sent, text.as_bytes(), Path::A, drawn)?;
        let b = capture_of(alloc, &sent, b"", Path::B, drawn)?;
        let filling = if round % 2 == 0 {
            Filling::Fill
        } else {
            Filling::Hold
        };
        let written = sink(alloc, stream_room(&format))?;
        let pictures = FormSink::new(alloc, filling, None, written);
        follow_both(
            alloc,
            source(a, usize::MAX),
            source(b, usize::MAX),
            pictures,
            digest,
        )?;
    }
    Ok(())
}

/// Room for the pictures' file: its line, and of each picture a line and two octets a sample.
fn stream_room(format: &Format) -> usize {
    let picture = format.sample_count().wrapping_mul(2).wrapping_add(6);
    picture.wrapping_mul(PICTURES).wrapping_add(256)
}

/// The capture of a path, with bursts lost, and some datagrams that come twice or exchanged.
fn capture_of(
    alloc: Global,
    sent: &Datagrams,
    text: &[u8],
    path: Path,
    seed: u64,
) -> Result<Vec<u8>, Fault> {
    let count = sent.len();
    let (code, lost, arriving) = match path {
        Path::A => (0, 1, 3),
        Path::B => (1, 2, 4),
    };
    let room = count.wrapping_mul(1400 + HEAD).wrapping_add(65_536);
    let mut records = Records::new(alloc, text, room.wrapping_add(room / 64))?;
    let mut bursts = Bursts::new(number(seed, lost));
    for step in 0..count {
        if let Some((place, twice)) = comes(number(seed, arriving), step, &mut bursts, count) {
            for _ in 0..1 + u8::from(twice) {
                records.put(code, sent.get(place), false)?;
            }
        }
    }
    Ok(records.into_octets())
}

/// Two files that aren't opened.
fn closed_sides(
    alloc: Global,
    first: MemorySource,
    second: MemorySource,
) -> Result<Vec<Side<Global, MemorySource>>, AllocError>
    ensures { IfOk result (λ sides. AllClosedSides sides.items) }
{
    let mut sides = Vec::new(alloc);
    sides.push(Side::closed(first))?;
    sides.push(Side::closed(second))?;
    Ok(sides)
}

/// Follows the stream of two captures, by the text of the first.
fn follow_both(
    alloc: Global,
    first: MemorySource,
    second: MemorySource,
    pictures: FormSink<MemorySink>,
    digest: &mut Digest,
) -> Result<(), Fault> {
    let asked = FollowAsked {
        frames: WINDOW,
        ssrc: b"1",
        is_eager: false,
    };
    let mut pictures = pictures;
    let mut sides = closed_sides(alloc, first, second)?;
    let mut output = sink(alloc, 4096)?;
    let followed = follow_files(
        alloc,
        asked,
        None,
        &mut sides,
        &[],
        &mut [],
        &mut pictures,
        &mut output,
    );
    let status = u8::from(followed.is_err());
    note(digest, status, [&pictures.sink, &output])
}
