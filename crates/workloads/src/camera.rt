//! Pictures without order, and their datagrams.
ghost use Rattle.std.specs.Prelude.{◌≡◌, ◌≤◌, length};

use crate::fault::Fault;
use crate::numbers::{Noise, number};
use crate::running::{sink, source};
use crate::states::Size;
use media_file::format_block;
use st_format::memory::MemorySource;
use st_format::{Depth, Format, Sampling};
use st2110_tool::{Paths, Sending, run_send};
use std::alloc::Global;

/// How many octets stand before the records of a capture without a text.
const FRONT: usize = 10;

/// The octets of a record's head in a capture, of which the last two are the datagram's length.
pub const HEAD: usize = 11;

/// The format of a stream: YCbCr 4:2:2 at 10 bits, 60 pictures a second.
pub fn video(size: Size) -> Result<Format, Fault> {
    Format::new(Sampling::Ycc422, Depth::D10, size.0, size.1, 60, 1)
        .ok()
        .ok_or(Fault)
}

/// The SDP text of such a stream, of payload type 96.
pub fn description(alloc: Global, size: Size) -> Result<String, Fault> {
    Ok(format!(in alloc;
        "m=video 5004 RTP/AVP 96\r\na=rtpmap:96 raw/90000\r\n\
        a=fmtp:96 sampling=YCbCr-4:2:2; width={}; height={}; exactframerate=60; depth=10; \
        colorimetry=BT709; PM=2110GPM; SSN=ST2110-20:2017\r\n",
        size.0, size.1
    )?)
}

/// The datagrams of pictures of one format, in the order in which they are sent.
#[derive(Drop)]
pub struct Datagrams {
    /// A capture of all, and where each record begins in it; behind the last one, its end.
    capture: Vec<u8>,
    starts: Vec<usize>,
}

impl Datagrams {
    /// The datagrams, of at most 1400 octets, of pictures of these seeds. The first has this
    /// timestamp, and each one 1500 ticks more than the one before.
    pub fn shoot(
        alloc: Global,
        format: &Format,
        noise: &Noise,
        seeds: &[u64],
        base: u32,
    ) -> Result<Datagrams, Fault> {
        let octets = format.row_octets().wrapping_mul(format.height() as usize);
        let mut pictures = Vec::new(alloc);
        for seed in seeds {
            let file = picture_file(alloc, format, noise, *seed)?;
            pictures.push(source(file, usize::MAX)).ok().ok_or(Fault)?;
        }
        let records = octets.wrapping_mul(seeds.len());
        let most = records.wrapping_add(records / 8).wrapping_add(4096);
        let capture = send(alloc, pictures.as_mut_slice(), base, most)?;
        let starts = starts_of(alloc, &capture)?;
        Ok(Datagrams { capture, starts })
    }

    /// How many datagrams there are.
    pub fn len(&self) -> usize {
        self.starts.len().saturating_sub(1)
    }

    /// A datagram, by its number from 0; nothing where there is none.
    pub fn get(&self, number: usize) -> &[u8] {
        let Some(start) = self.starts.get(number) else {
            return &[];
        };
        let Some(end) = self.starts.get(number.wrapping_add(1)) else {
            return &[];
        };
        let from = start.saturating_add(HEAD);
        if from > *end || *end > self.capture.len() {
            return &[];
        }
        &self.capture[from..*end]
    }
}

/// The file of a picture each of whose rows is a piece of noise.
fn picture_file(
    alloc: Global,
    format: &Format,
    noise: &Noise,
    seed: u64,
) -> Result<Vec<u8>, Fault> {
    let octets = format.row_octets();
    let room = octets.wrapping_mul(format.height() as usize);
    let mut file = Vec::with_capacity(alloc, room.wrapping_add(22))?;
    file.extend_from_slice(b"S20PIC01")?;
    file.extend_from_slice(&format_block(format))?;
    for row in 0..format.height() {
        let piece = noise.piece(number(seed, u64::from(row)));
        if piece.len() < octets {
            return Err(Fault);
        }
        file.extend_from_slice(&piece[..octets])?;
    }
    Ok(file)
}

/// The capture that `send` makes of pictures, in packets of 1400 octets, payload type 96.
fn send(
    alloc: Global,
    pictures: &mut [MemorySource],
    base: u32,
    most: usize,
) -> Result<Vec<u8>, Fault> {
    let wanted = Sending {
        payload_type: 96,
        first: 0,
        base,
        ssrc: 1,
        max_octets: 1400,
        paths: Paths::OnlyA,
    };
    let mut capture = sink(alloc, most)?;
    let mut output = sink(alloc, 64)?;
    let mut faults = sink(alloc, 256)?;
    let mut no_text = None;
    let status = run_send(
        alloc,
        wanted,
        &mut no_text,
        pictures,
        &mut capture,
        &mut output,
        &mut faults,
    );
    if status != 0 {
        return Err(Fault);
    }
    Ok(Vec::from_slice(alloc, capture.held())?)
}

/// Where the records of a capture without a text begin, and where the last one ends.
fn starts_of(alloc: Global, capture: &[u8]) -> Result<Vec<usize>, Fault> {
    let mut starts = Vec::new(alloc);
    let mut at = FRONT;
    for _ in 0..capture.len() {
        starts.push(at).ok().ok_or(Fault)?;
        if at >= capture.len() || capture.len() - at < HEAD {
            break;
        }
        let length = u16::from_be_bytes([capture[at + 9], capture[at + 10]]);
        at = at.saturating_add(HEAD).saturating_add(length as usize);
    }
    Ok(starts)
}
