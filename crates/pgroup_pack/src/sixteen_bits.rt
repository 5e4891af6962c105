//! Samples of 16 bits: each is two octets.
ghost use Rattle.std.specs.Prelude.{◌≡◌, ◌<◌, ◌*◌, ◌/◌, length, slice_index};
ghost use Rattle.pgroup_pack.specs.Packing.{Fit};
ghost use Rattle.st_format.specs.Samples.{Spells, values_in};

use std::simd::prelude::*;

/// Most octets go sixteen at a time, as eight lanes, and the last few two at a time.
#[inline(always)]
pub(crate) fn unpack(octets: &[u8], samples: &mut [u16])
    requires { 8 * length octets.now ≡ 16 * length samples.old }
    ensures { Spells 16 octets.now samples.new }
{
    let blocks = octets.len() / 16;
    for i in 0..blocks {
        let block = u8x16::from_slice(&octets[16 * i..]);
        samples_of(block).copy_to_slice(&mut samples[8 * i..]);
    }
    unpack_twos(&octets[16 * blocks..], &mut samples[8 * blocks..]);
}

/// Two octets for each sample, the high one first. In a function of its own the loop goes by
/// vectors, wherever the two slices come from.
#[inline(never)]
pub(crate) fn pack(samples: &[u16], octets: &mut [u8])
    requires lengths { 8 * length octets.old ≡ 16 * length samples.now }
    requires fit { Fit 16 samples.now }
    ensures { Spells 16 octets.new samples.now }
{
    for i in 0..samples.len() {
        octets[2 * i] = (samples[i] / 256) as u8;
        octets[2 * i + 1] = (samples[i] % 256) as u8;
    }
}

/// The sample of a number among those of 16 bits (RFC 4175, 4.3).
pub(crate) fn sample_at(octets: &[u8], i: usize) -> u16
    requires { i < 8 * length octets.now / 16 }
    ensures { result ≡ slice_index (values_in 16 octets.now) i }
{
    octets[2 * i] as u16 * 256 + octets[2 * i + 1] as u16
}

/// The eight samples of sixteen octets.
#[inline(always)]
fn samples_of(octets: u8x16) -> u16x8
    ensures spelled { Spells 16 octets result }
    ensures long { length result ≡ 8 }
{
    let high = octets.swizzle([0, 2, 4, 6, 8, 10, 12, 14]).cast::<u16>();
    let low = octets.swizzle([1, 3, 5, 7, 9, 11, 13, 15]).cast::<u16>();
    high * u16x8::splat(256) + low
}

/// A sample of each two octets, the high one first (RFC 4175, 4.3).
#[inline(always)]
fn unpack_twos(octets: &[u8], samples: &mut [u16])
    requires { 8 * length octets.now ≡ 16 * length samples.old }
    ensures { Spells 16 octets.now samples.new }
{
    for i in 0..samples.len() {
        samples[i] = octets[2 * i] as u16 * 256 + octets[2 * i + 1] as u16;
    }
}
