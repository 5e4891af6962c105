//! Samples in octets, and back: the pgroups of RFC 4175, 4.3, and SMPTE ST 2110-20, pixel
//! groups.
//!
//! The samples of a pgroup follow one another without gaps, each with its most significant bit
//! first. So octets spell samples where the bits of the octets are the bits of the samples, joined
//! in order. Octets are passed by whole pgroups, as a row, a segment or one group of it.
#![tactic(auto)]

mod contests;
mod eight_bits;
mod groups;
mod packed_picture;
mod sixteen_bits;
mod ten_bits;
mod twelve_bits;

ghost use Rattle.std.specs.Prelude.{◌≡◌, ◌<◌, ◌*◌, ◌/◌, length, slice_index};
ghost use Rattle.pgroup_pack.specs.Packing.{Agree, Fit};
ghost use Rattle.st_format.specs.Pgroup.{bits_of};
ghost use Rattle.st_format.specs.Samples.{Spells, values_in};

pub use contests::contest;
pub use groups::{blank, differing};
pub use packed_picture::PackedPicture;
use st_format::{Depth, Format};

/// Reads the samples that octets spell, in the order in which they are sent.
///
/// The slices agree: the octets have as many bits as the samples, none too. Those of whole pgroups
/// have, and nothing more is asked.
pub fn unpack(format: &Format, octets: &[u8], samples: &mut [u16])
    requires { Agree format.now (length octets.now) (length samples.old) }
    ensures spelled { Spells (bits_of format.now.depth) octets.now samples.new }
    ensures values { samples.new ≡ values_in (bits_of format.now.depth) octets.now }
{
    unpack_at(format.depth, octets, samples);
}

/// Writes the octets that spell samples, which stand in the order in which they are sent.
///
/// Each sample fits the depth, and the slices agree: the octets have as many bits as the samples,
/// none too. Those of whole pgroups have, and nothing more is asked.
pub fn pack(format: &Format, samples: &[u16], octets: &mut [u8])
    requires lengths { Agree format.now (length octets.old) (length samples.now) }
    requires fit { Fit (bits_of format.now.depth) samples.now }
    ensures spelled { Spells (bits_of format.now.depth) octets.new samples.now }
    ensures values { samples.now ≡ values_in (bits_of format.now.depth) octets.new }
{
    pack_at(format.depth, samples, octets);
}

/// Sample `i`, counted from 0, of those that octets spell.
///
/// For some samples out of many: a row is read faster by `unpack`.
pub fn sample_at(format: &Format, octets: &[u8], i: usize) -> u16
    requires { i < 8 * length octets.now / bits_of format.now.depth }
    ensures { result ≡ slice_index (values_in (bits_of format.now.depth) octets.now) i }
{
    match format.depth {
        Depth::D8 => eight_bits::sample_at(octets, i),
        Depth::D10 => ten_bits::sample_at(octets, i),
        Depth::D12 => twelve_bits::sample_at(octets, i),
        Depth::D16 => sixteen_bits::sample_at(octets, i),
    }
}

/// The same by the depth alone, so that a caller may have it as a literal.
#[inline(always)]
fn unpack_at(depth: Depth, octets: &[u8], samples: &mut [u16])
    requires { 8 * length octets.now ≡ bits_of depth * length samples.old }
    ensures { Spells (bits_of depth) octets.now samples.new }
{
    match depth {
        Depth::D8 => eight_bits::unpack(octets, samples),
        Depth::D10 => ten_bits::unpack(octets, samples),
        Depth::D12 => twelve_bits::unpack(octets, samples),
        Depth::D16 => sixteen_bits::unpack(octets, samples),
    }
}

/// The same by the depth alone, so that a caller may have it as a literal.
#[inline(always)]
fn pack_at(depth: Depth, samples: &[u16], octets: &mut [u8])
    requires lengths { 8 * length octets.old ≡ bits_of depth * length samples.now }
    requires fit { Fit (bits_of depth) samples.now }
    ensures { Spells (bits_of depth) octets.new samples.now }
{
    match depth {
        Depth::D8 => eight_bits::pack(samples, octets),
        Depth::D10 => ten_bits::pack(samples, octets),
        Depth::D12 => twelve_bits::pack(samples, octets),
        Depth::D16 => sixteen_bits::pack(samples, octets),
    }
}
