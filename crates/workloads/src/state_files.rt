//! Receivers' files, written by hand: what two machines' receivers kept of the same pictures.
ghost use Rattle.std.specs.Prelude.{◌≡◌, ◌≤◌, ◌+◌, length, OnOk};

use crate::fault::Fault;
use crate::numbers::{Bursts, Noise, number};
use byteorder::{BigEndian, ByteOrder};
use media_file::format_block;
use st_format::Format;
use std::alloc::Global;

/// How many pgroups a packet has, near enough.
const PACKET_GROUPS: u64 = 276;

/// What is known of a receiver's frames.
#[derive(Clone, Copy)]
pub enum Known {
    /// Bursts of packets are missing.
    Bursts,
    /// Bursts are missing, and one group in so many has contested samples.
    Contested(u64),
    /// Each second packet is missing.
    Halves,
}

/// What a receiver's file is made by: the seeds of its pictures and of its losses, and how many
/// timestamps its window has.
#[derive(Clone, Copy)]
pub struct Kept {
    pub pictures: u64,
    pub losses: u64,
    pub count: u8,
    pub known: Known,
}

/// The file of a receiver whose window begins with 0 and goes on by 1500 ticks.
pub fn state_file(
    alloc: Global,
    format: &Format,
    noise: &Noise,
    kept: Kept,
) -> Result<Vec<u8>, Fault> {
    let groups = (format.row_groups() as usize).wrapping_mul(format.height() as usize);
    let most = groups
        .wrapping_mul(format.pgroup().octets + 2)
        .wrapping_add(4);
    let mut file = Vec::from_elem(
        alloc,
        0u8,
        most.wrapping_mul(kept.count as usize).wrapping_add(64),
    )?;
    let mut at = put(&mut file, 0, b"S20RCV01")?;
    at = put(&mut file, at, &format_block(format))?;
    at = put(&mut file, at, &[96, 1, 0, 0, 0, 1, kept.count])?;
    for index in 0..kept.count {
        let mut timestamp = [0; 4];
        BigEndian::write_u32(&mut timestamp, u32::from(index).wrapping_mul(1500));
        at = put(&mut file, at, &timestamp)?;
        at = put_frame(&mut file, at, (format, noise), kept, u64::from(index))?;
    }
    file.truncate(at);
    Ok(file)
}

/// Puts octets at a place, and answers where they end.
fn put(file: &mut [u8], at: usize, octets: &[u8]) -> Result<usize, Fault>
    ensures { length file.new ≡ length file.old }
{
    let Some(end) = at.checked_add(octets.len()) else {
        return Err(Fault);
    };
    if end > file.len() {
        return Err(Fault);
    }
    file[at..end].copy_from_slice(octets);
    Ok(end)
}

/// Puts the groups of a frame, packet by packet.
fn put_frame(
    file: &mut [u8],
    at: usize,
    of: (&Format, &Noise),
    kept: Kept,
    index: u64,
) -> Result<usize, Fault>
    ensures { length file.new ≡ length file.old }
{
    let (format, noise) = of;
    let groups = u64::from(format.row_groups()).wrapping_mul(u64::from(format.height()));
    let picture = number(kept.pictures, index);
    let mut bursts = Bursts::new(number(kept.losses, index));
    let mut end = at;
    for packet in 0..groups.div_ceil(PACKET_GROUPS) {
        let is_lost = match kept.known {
            Known::Halves => packet % 2 == 1,
            _ => bursts.next(),
        };
        let first = packet.wrapping_mul(PACKET_GROUPS);
        let count = PACKET_GROUPS.min(groups.wrapping_sub(first)) as usize;
        end = if is_lost {
            put_missing(file, end, count)?
        } else {
            let piece = noise.piece(number(picture, packet));
            put_packet(file, end, (format, kept.known, piece), first, count)?
        };
    }
    Ok(end)
}

/// Puts so many missing groups, an octet 0 for each, and answers where they end.
fn put_missing(file: &mut [u8], at: usize, count: usize) -> Result<usize, Fault>
    ensures { length file.new ≡ length file.old }
{
    let Some(end) = at.checked_add(count) else {
        return Err(Fault);
    };
    if end > file.len() {
        return Err(Fault);
    }
    file[at..end].fill(0);
    Ok(end)
}

/// Puts the groups of a packet, whose first is of this number in raster order: each has its octets
/// from 16 of a piece of noise.
fn put_packet(
    file: &mut [u8],
    at: usize,
    by: (&Format, Known, &[u8]),
    first: u64,
    count: usize,
) -> Result<usize, Fault>
    ensures { length file.new ≡ length file.old }
{
    let (format, known, piece) = by;
    let size = format.pgroup().octets;
    let mut end = at;
    for index in 0..count.min(PACKET_GROUPS as usize) {
        let group = first.wrapping_add(index as u64);
        end = match known {
            Known::Contested(step) if step > 0 && group % step == 0 => {
                put_mixed(file, end, size, group)?
            }
            _ => put_whole(file, end, size, piece, 16 * index)?,
        };
    }
    Ok(end)
}

/// Puts a group of values, and others behind its end.
#[inline(always)]
fn put_whole(
    file: &mut [u8],
    at: usize,
    size: usize,
    piece: &[u8],
    from: usize,
) -> Result<usize, Fault>
    ensures { length file.new ≡ length file.old }
{
    if size > 15 || at > file.len() || file.len() - at < 17 {
        return Err(Fault);
    }
    if from > piece.len() || piece.len() - from < 16 {
        return Err(Fault);
    }
    file[at] = 1;
    file[at + 1..at + 17].copy_from_slice(&piece[from..from + 16]);
    Ok(at + (1 + size))
}

/// Puts a group some of whose first three samples are contested, and all are 0.
fn put_mixed(file: &mut [u8], at: usize, size: usize, drawn: u64) -> Result<usize, Fault>
    ensures { length file.new ≡ length file.old }
{
    if size > 15 || at > file.len() || file.len() - at < 18 {
        return Err(Fault);
    }
    file[at] = 2;
    file[at + 1] = 0;
    file[at + 2] = (drawn % 7) as u8 + 1;
    file[at + 3..at + (3 + size)].fill(0);
    Ok(at + (3 + size))
}
