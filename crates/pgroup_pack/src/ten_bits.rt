//! Samples of 10 bits: four are five octets.
ghost use Rattle.std.specs.Prelude.{◌≡◌, ◌<◌, ◌≤◌, ◌*◌, ◌/◌, ◌++◌, length, slice_index, take, drop};
ghost use Rattle.pgroup_pack.specs.Packing.{Fit};
ghost use Rattle.st_format.specs.Samples.{Spells, values_in};

use std::simd::prelude::*;

/// Most octets go ten at a time, as eight lanes, and the last few five at a time.
#[inline(always)]
pub(crate) fn unpack(octets: &[u8], samples: &mut [u16])
    requires { 8 * length octets.now ≡ 10 * length samples.old }
    ensures { Spells 10 octets.now samples.new }
{
    // A load takes sixteen octets.
    let blocks = octets.len().saturating_sub(6) / 10;
    for i in 0..blocks {
        let block = u8x16::from_slice(&octets[10 * i..]);
        samples_of(block).copy_to_slice(&mut samples[8 * i..]);
    }
    unpack_rest(&octets[10 * blocks..], &mut samples[8 * blocks..]);
}

/// Ten octets that are fewer than a load go as lanes too.
#[inline(always)]
fn unpack_rest(octets: &[u8], samples: &mut [u16])
    requires { 8 * length octets.now ≡ 10 * length samples.old }
    ensures { Spells 10 octets.now samples.new }
{
    if octets.len() < 10 {
        unpack_fives(octets, samples);
        return;
    }
    samples_of(ten_octets(octets)).copy_to_slice(samples);
    unpack_fives(&octets[10..], &mut samples[8..]);
}

/// The first ten octets, and six more of no meaning.
#[inline(always)]
fn ten_octets(octets: &[u8]) -> u8x16
    requires { 10 ≤ length octets.now }
    ensures octets { take 10 result ≡ take 10 octets.now }
    ensures long { length result ≡ 16 }
{
    let first = u8x8::from_slice(octets);
    let last = u8x8::from_slice(&octets[2..]);
    first.shuffle(last, [0, 1, 2, 3, 4, 5, 6, 7, 14, 15, 0, 0, 0, 0, 0, 0])
}

/// Most samples go eight at a time, as lanes, and the last few four at a time.
#[inline(always)]
pub(crate) fn pack(samples: &[u16], octets: &mut [u8])
    requires lengths { 8 * length octets.old ≡ 10 * length samples.now }
    requires fit { Fit 10 samples.now }
    ensures { Spells 10 octets.new samples.now }
{
    // A store writes sixteen octets, and what comes after it writes the last six again.
    let blocks = octets.len().saturating_sub(6) / 10;
    for i in 0..blocks {
        let block = u16x8::from_slice(&samples[8 * i..]);
        octets_of(block).copy_to_slice(&mut octets[10 * i..]);
    }
    pack_rest(&samples[8 * blocks..], &mut octets[10 * blocks..]);
}

/// Ten octets that are fewer than a store go as lanes too.
#[inline(always)]
fn pack_rest(samples: &[u16], octets: &mut [u8])
    requires lengths { 8 * length octets.old ≡ 10 * length samples.now }
    requires fit { Fit 10 samples.now }
    ensures { Spells 10 octets.new samples.now }
{
    if samples.len() < 8 {
        pack_fours(samples, octets);
        return;
    }
    store_ten(octets_of(u16x8::from_slice(samples)), octets);
    pack_fours(&samples[8..], &mut octets[10..]);
}

/// Stores the first ten octets of a vector, and leaves what is behind them.
#[inline(always)]
fn store_ten(from: u8x16, octets: &mut [u8])
    requires { 10 ≤ length octets.old }
    ensures { octets.new ≡ take 10 from ++ drop 10 octets.old }
{
    from.swizzle([0, 1, 2, 3, 4, 5, 6, 7]).copy_to_slice(octets);
    octets[8] = from[8];
    octets[9] = from[9];
}

/// A sample's bits lie in two octets.
pub(crate) fn sample_at(octets: &[u8], i: usize) -> u16
    requires { i < 8 * length octets.now / 10 }
    ensures { result ≡ slice_index (values_in 10 octets.now) i }
{
    let at = i + i / 4;
    let word = octets[at] as u16 * 256 + octets[at + 1] as u16;
    (word >> (6 - i % 4 * 2)) % 1024
}

/// The eight samples of the first ten octets.
#[inline(always)]
fn samples_of(octets: u8x16) -> u16x8
    ensures spelled { Spells 10 (take 10 octets) result }
    ensures long { length result ≡ 8 }
{
    let high = octets.swizzle([0, 1, 2, 3, 5, 6, 7, 8]).cast::<u16>();
    let low = octets.swizzle([1, 2, 3, 4, 6, 7, 8, 9]).cast::<u16>();
    let words = high * u16x8::splat(256) + low;
    words * u16x8::from_array([1, 4, 16, 64, 1, 4, 16, 64]) / u16x8::splat(64)
}

/// Ten octets of eight samples, and six more of no meaning.
#[inline(always)]
fn octets_of(samples: u16x8) -> u8x16
    requires { Fit 10 samples }
    ensures spelled { Spells 10 (take 10 result) samples }
    ensures long { length result ≡ 16 }
{
    let raised = samples * u16x8::from_array([64, 16, 4, 1, 64, 16, 4, 1]);
    let high = (raised / u16x8::splat(256)).cast::<u8>();
    let low = (raised % u16x8::splat(256)).cast::<u8>();
    let first = low.shuffle(high, [8, 0, 1, 2, 3, 12, 4, 5, 6, 7, 0, 0, 0, 0, 0, 0]);
    let second = high.shuffle(
        u8x8::splat(0),
        [8, 1, 2, 3, 8, 8, 5, 6, 7, 8, 8, 8, 8, 8, 8, 8],
    );
    first + second
}

/// Four samples of each five octets, the highest bits of each first (RFC 4175, 4.3).
#[inline(always)]
fn unpack_fives(octets: &[u8], samples: &mut [u16])
    requires { 8 * length octets.now ≡ 10 * length samples.old }
    ensures { Spells 10 octets.now samples.new }
{
    for i in 0..octets.len() / 5 {
        let a = octets[5 * i] as u16;
        let b = octets[5 * i + 1] as u16;
        let c = octets[5 * i + 2] as u16;
        let d = octets[5 * i + 3] as u16;
        let e = octets[5 * i + 4] as u16;
        samples[4 * i] = a * 4 + b / 64;
        samples[4 * i + 1] = b % 64 * 16 + c / 16;
        samples[4 * i + 2] = c % 16 * 64 + d / 4;
        samples[4 * i + 3] = d % 4 * 256 + e;
    }
}

/// Five octets of each four samples, as `unpack_fives` reads them.
#[inline(always)]
fn pack_fours(samples: &[u16], octets: &mut [u8])
    requires lengths { 8 * length octets.old ≡ 10 * length samples.now }
    requires fit { Fit 10 samples.now }
    ensures { Spells 10 octets.new samples.now }
{
    for i in 0..samples.len() / 4 {
        let a = samples[4 * i];
        let b = samples[4 * i + 1];
        let c = samples[4 * i + 2];
        let d = samples[4 * i + 3];
        octets[5 * i] = (a / 4) as u8;
        octets[5 * i + 1] = (a % 4 * 64 + b / 16) as u8;
        octets[5 * i + 2] = (b % 16 * 16 + c / 64) as u8;
        octets[5 * i + 3] = (c % 64 * 4 + d / 256) as u8;
        octets[5 * i + 4] = (d % 256) as u8;
    }
}
