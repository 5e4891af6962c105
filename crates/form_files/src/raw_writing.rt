//! Writing the packed pgroups of a picture, and nothing else.
ghost use Rattle.std.specs.Prelude.{◌≡◌, ◌≤◌, ◌<◌, ◌+◌, ◌*◌, ◌%◌, ◌++◌, length, OnErr, OnOk};
ghost use Rattle.pgroup_pack.specs.Packing.{Agree, Fit};
ghost use Rattle.st_format.specs.Device.{CountsFaults, GrowsPart};
ghost use Rattle.st_format.specs.Pgroup.{bits_of};
ghost use Rattle.st_format.specs.Samples.{octets_in};
ghost use Rattle.form_files.specs.Files.{packed_text};

use st_format::{ByteSink, Depth, DeviceFault, Format, Picture, write_whole};
use std::alloc::Allocator;

/// How many octets are written at once: whole pgroups of each format, as 360 octets are.
const PIECE: usize = 3600;

/// Writes the pgroups of a picture in raster order, in pieces. No memory is taken.
pub(crate) fn write_raw<A: Allocator, K: ByteSink>(
    sink: &mut K,
    picture: &Picture<A>,
) -> Result<(), DeviceFault>
    ensures took { OnOk result (K.took sink.new ≡ K.took sink.old ++ packed_text picture.now) }
    ensures part { OnErr result
        (GrowsPart (K.took sink.old) (K.took sink.new) (packed_text picture.now)) }
    ensures counted { CountsFaults (K.failures sink.old) (K.failures sink.new) result }
{
    let format = picture.format();
    let mut piece = [0u8; PIECE];
    write_samples(sink, &format, picture.samples(), &mut piece)
}

/// Writes the octets that samples spell, in pieces that are packed into `piece`.
fn write_samples<K: ByteSink>(
    sink: &mut K,
    format: &Format,
    samples: &[u16],
    piece: &mut [u8],
) -> Result<(), DeviceFault>
    requires room { length piece.old ≡ 3600 }
    requires whole { bits_of format.now.depth * length samples.now % 8 ≡ 0 }
    requires fit { Fit (bits_of format.now.depth) samples.now }
    ensures took { OnOk result (K.took sink.new
        ≡ K.took sink.old ++ octets_in (bits_of format.now.depth) samples.now) }
    ensures part { OnErr result (GrowsPart (K.took sink.old) (K.took sink.new)
        (octets_in (bits_of format.now.depth) samples.now)) }
    ensures counted { CountsFaults (K.failures sink.old) (K.failures sink.new) result }
{
    let mut done = 0;
    while done < samples.len() {
        let n = piece_samples(format, done, samples.len());
        let size = piece_octets(format, n);
        write_piece(sink, format, &samples[done..done + n], &mut piece[..size])?;
        done += n;
    }
    Ok(())
}

/// How many samples of a format the octets of a piece spell: its bits over those of a sample.
fn most_samples(format: &Format) -> usize
    ensures exact { bits_of format.now.depth * result ≡ 28800 }
    ensures fits { result ≤ 3600 }
{
    match format.depth() {
        Depth::D8 => 3600,
        Depth::D10 => 2880,
        Depth::D12 => 2400,
        Depth::D16 => 1800,
    }
}

/// How many samples the next piece has, behind `done` of `count`: as many as a piece's octets
/// spell, or those that are left. All of them and those that are done take whole octets.
fn piece_samples(format: &Format, done: usize, count: usize) -> usize
    requires left { done < count }
    requires done { bits_of format.now.depth * done % 8 ≡ 0 }
    requires count { bits_of format.now.depth * count % 8 ≡ 0 }
    ensures some { 0 < result }
    ensures within { done + result ≤ count }
    ensures few { bits_of format.now.depth * result ≤ 28800 }
    ensures whole { bits_of format.now.depth * result % 8 ≡ 0 }
    ensures next { bits_of format.now.depth * (done + result) % 8 ≡ 0 }
{
    let left = count - done;
    let most = most_samples(format);
    if left < most {
        return left;
    }
    most
}

/// How many octets a piece's samples take: whole ones, as a piece is of whole pgroups.
fn piece_octets(format: &Format, samples: usize) -> usize
    requires few { bits_of format.now.depth * samples ≤ 28800 }
    requires whole { bits_of format.now.depth * samples % 8 ≡ 0 }
    ensures exact { 8 * result ≡ bits_of format.now.depth * samples }
    ensures few { result ≤ 3600 }
{
    format.depth().bits() as usize * samples / 8
}

/// Packs samples and writes their octets, for which `octets` has just the room.
fn write_piece<K: ByteSink>(
    sink: &mut K,
    format: &Format,
    samples: &[u16],
    octets: &mut [u8],
) -> Result<(), DeviceFault>
    requires lengths { Agree format.now (length octets.old) (length samples.now) }
    requires fit { Fit (bits_of format.now.depth) samples.now }
    ensures room { length octets.new ≡ length octets.old }
    ensures took { OnOk result (K.took sink.new
        ≡ K.took sink.old ++ octets_in (bits_of format.now.depth) samples.now) }
    ensures part { OnErr result (GrowsPart (K.took sink.old) (K.took sink.new)
        (octets_in (bits_of format.now.depth) samples.now)) }
    ensures counted { CountsFaults (K.failures sink.old) (K.failures sink.new) result }
{
    pack(format, samples, octets);
    write_whole(sink, octets)
}

fn pack(format: &Format, samples: &[u16], octets: &mut [u8])
    requires lengths { Agree format.now (length octets.old) (length samples.now) }
    requires fit { Fit (bits_of format.now.depth) samples.now }
    ensures { octets.new ≡ octets_in (bits_of format.now.depth) samples.now }
{
    pgroup_pack::pack(format, samples, octets);
}
