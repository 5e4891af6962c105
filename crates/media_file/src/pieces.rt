//! The pieces in which the samples of a picture are packed and unpacked.
ghost use Rattle.std.specs.Prelude.{◌≡◌, ◌≤◌, ◌<◌, ◌+◌, ◌*◌, ◌%◌};
ghost use Rattle.st_format.specs.Pgroup.{bits_of};

use st_format::{Depth, Format};

/// How many octets are read or written at once: whole pgroups of each format, as 360 octets
/// are.
pub(crate) const PIECE: usize = 3600;

/// How many samples of a format the octets of a piece spell: its bits over those of a sample.
fn most_samples(format: &Format) -> usize
    ensures exact { bits_of format.now.depth * result ≡ 28800 }
    ensures fits { result ≤ 3600 }
{
    match format.depth() {
        Depth::D8 => 3600,
        Depth::D10 => 2880,
        Depth::D12 => 2400,
        Depth::D16 => 1800,
    }
}

/// How many samples the next piece has, behind `done` of `count`: as many as a piece's octets
/// spell, or those that are left. All of them and those that are done take whole octets.
pub(crate) fn piece_samples(format: &Format, done: usize, count: usize) -> usize
    requires left { done < count }
    requires done { bits_of format.now.depth * done % 8 ≡ 0 }
    requires count { bits_of format.now.depth * count % 8 ≡ 0 }
    ensures some { 0 < result }
    ensures within { done + result ≤ count }
    ensures fits { result ≤ 3600 }
    ensures few { bits_of format.now.depth * result ≤ 28800 }
    ensures whole { bits_of format.now.depth * result % 8 ≡ 0 }
    ensures next { bits_of format.now.depth * (done + result) % 8 ≡ 0 }
{
    let left = count - done;
    let most = most_samples(format);
    if left < most {
        return left;
    }
    most
}

/// How many octets a piece's samples take: whole ones, as a piece is of whole pgroups.
pub(crate) fn piece_octets(format: &Format, samples: usize) -> usize
    requires few { bits_of format.now.depth * samples ≤ 28800 }
    requires whole { bits_of format.now.depth * samples % 8 ≡ 0 }
    ensures exact { 8 * result ≡ bits_of format.now.depth * samples }
    ensures few { result ≤ 3600 }
{
    format.depth().bits() as usize * samples / 8
}
