//! Samples of 12 bits: two are three octets.
ghost use Rattle.std.specs.Prelude.{◌≡◌, ◌<◌, ◌*◌, ◌/◌, length, slice_index, take};
ghost use Rattle.pgroup_pack.specs.Packing.{Fit};
ghost use Rattle.st_format.specs.Samples.{Spells, values_in};

use std::simd::prelude::*;

/// Most octets go twelve at a time, as eight lanes, and the last few three at a time.
#[inline(always)]
pub(crate) fn unpack(octets: &[u8], samples: &mut [u16])
    requires { 8 * length octets.now ≡ 12 * length samples.old }
    ensures { Spells 12 octets.now samples.new }
{
    // A load takes sixteen octets.
    let blocks = octets.len().saturating_sub(4) / 12;
    for i in 0..blocks {
        let block = u8x16::from_slice(&octets[12 * i..]);
        samples_of(block).copy_to_slice(&mut samples[8 * i..]);
    }
    unpack_threes(&octets[12 * blocks..], &mut samples[8 * blocks..]);
}

/// Most samples go eight at a time, as lanes, and the last few two at a time.
#[inline(always)]
pub(crate) fn pack(samples: &[u16], octets: &mut [u8])
    requires lengths { 8 * length octets.old ≡ 12 * length samples.now }
    requires fit { Fit 12 samples.now }
    ensures { Spells 12 octets.new samples.now }
{
    // A store writes sixteen octets, and what comes after it writes the last four again.
    let blocks = octets.len().saturating_sub(4) / 12;
    for i in 0..blocks {
        let block = u16x8::from_slice(&samples[8 * i..]);
        octets_of(block).copy_to_slice(&mut octets[12 * i..]);
    }
    pack_twos(&samples[8 * blocks..], &mut octets[12 * blocks..]);
}

/// A sample's bits lie in two octets.
pub(crate) fn sample_at(octets: &[u8], i: usize) -> u16
    requires { i < 8 * length octets.now / 12 }
    ensures { result ≡ slice_index (values_in 12 octets.now) i }
{
    let at = i + i / 2;
    let word = octets[at] as u16 * 256 + octets[at + 1] as u16;
    (word >> (4 - i % 2 * 4)) % 4096
}

/// The eight samples of the first twelve octets.
#[inline(always)]
fn samples_of(octets: u8x16) -> u16x8
    ensures spelled { Spells 12 (take 12 octets) result }
    ensures long { length result ≡ 8 }
{
    let high = octets.swizzle([0, 1, 3, 4, 6, 7, 9, 10]).cast::<u16>();
    let low = octets.swizzle([1, 2, 4, 5, 7, 8, 10, 11]).cast::<u16>();
    let words = high * u16x8::splat(256) + low;
    words * u16x8::from_array([1, 16, 1, 16, 1, 16, 1, 16]) / u16x8::splat(16)
}

/// Twelve octets of eight samples, and four more of no meaning.
#[inline(always)]
fn octets_of(samples: u16x8) -> u8x16
    requires { Fit 12 samples }
    ensures spelled { Spells 12 (take 12 result) samples }
    ensures long { length result ≡ 16 }
{
    let raised = samples * u16x8::from_array([16, 1, 16, 1, 16, 1, 16, 1]);
    let high = (raised / u16x8::splat(256)).cast::<u8>();
    let low = (raised % u16x8::splat(256)).cast::<u8>();
    let first = low.shuffle(high, [8, 0, 1, 10, 2, 3, 12, 4, 5, 14, 6, 7, 0, 0, 0, 0]);
    let second = high.shuffle(
        u8x8::splat(0),
        [8, 1, 8, 8, 3, 8, 8, 5, 8, 8, 7, 8, 8, 8, 8, 8],
    );
    first + second
}

/// Two samples of each three octets, the highest bits of each first (RFC 4175, 4.3).
#[inline(always)]
fn unpack_threes(octets: &[u8], samples: &mut [u16])
    requires { 8 * length octets.now ≡ 12 * length samples.old }
    ensures { Spells 12 octets.now samples.new }
{
    for i in 0..octets.len() / 3 {
        let a = octets[3 * i] as u16;
        let b = octets[3 * i + 1] as u16;
        let c = octets[3 * i + 2] as u16;
        samples[2 * i] = a * 16 + b / 16;
        samples[2 * i + 1] = b % 16 * 256 + c;
    }
}

/// Three octets of each two samples, as `unpack_threes` reads them.
#[inline(always)]
fn pack_twos(samples: &[u16], octets: &mut [u8])
    requires lengths { 8 * length octets.old ≡ 12 * length samples.now }
    requires fit { Fit 12 samples.now }
    ensures { Spells 12 octets.new samples.now }
{
    for i in 0..samples.len() / 2 {
        let a = samples[2 * i];
        let b = samples[2 * i + 1];
        octets[3 * i] = (a / 16) as u8;
        octets[3 * i + 1] = (a % 16 * 16 + b / 256) as u8;
        octets[3 * i + 2] = (b % 256) as u8;
    }
}
