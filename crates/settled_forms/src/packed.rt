//! Components of 4:2:2 at 10 bits, spelled straight from the octets of pgroups.
//!
//! A pgroup is five octets: Cb, Y, Cr and Y of 10 bits each, the highest bits first (RFC 4175, 4.3;
//! SMPTE ST 2110-20, pixel groups). A sample's bits lie in two octets: those of eight samples of a
//! component are put side by side, as the words of a vector, and the others are left.
ghost use Rattle.std.specs.Prelude.{◌≡◌, ◌≤◌, ◌<◌, ◌+◌, ◌*◌, ◌/◌, length, map, slice_index, take};
ghost use Rattle.std.specs.List.{range_with_len};
ghost use Rattle.picture_forms.specs.Layouts.{plane_step};
ghost use Rattle.settled_forms.specs.Packed.{low_first_words, octet_pair, packed_samples};
ghost use Rattle.settled_forms.specs.Packed.{ten_bit_text};
ghost use Rattle.st_format.specs.Samples.{values_in};

use picture_forms::stride_of;
use st_format::Sampling;
use std::simd::prelude::*;

/// How many samples go at once: the lanes of a vector.
const LANES: usize = 8;

/// Spells the first `count` samples that packed pgroups have of a component, 0 for Y, 1 for Cb and
/// 2 for Cr, into `octets`, which has just the room.
pub(crate) fn spell_packed(component: u8, packed: &[u8], count: usize, octets: &mut [u8])
    requires component { component < 3 }
    requires inside { 5 * (plane_step Sampling.Ycc422 component * count) ≤ 4 * length packed.now }
    requires room { length octets.old ≡ 2 * count }
    ensures { octets.new ≡ ten_bit_text component packed.now count }
{
    // A literal for the component: the compiler then makes a loop for each.
    match component {
        0 => spell_lanes(0, packed, count, octets),
        1 => spell_lanes(1, packed, count, octets),
        _ => spell_lanes(2, packed, count, octets),
    }
}

/// Most samples go as lanes, and the last few one by one.
#[inline(always)]
fn spell_lanes(component: u8, packed: &[u8], count: usize, octets: &mut [u8])
    requires component { component < 3 }
    requires inside { 5 * (plane_step Sampling.Ycc422 component * count) ≤ 4 * length packed.now }
    requires room { length octets.old ≡ 2 * count }
    ensures { octets.new ≡ ten_bit_text component packed.now count }
{
    let blocks = count / LANES;
    for i in 0..blocks {
        let samples = lanes_of(component, packed, i);
        samples.to_le_bytes().copy_to_slice(&mut octets[16 * i..]);
    }
    spell_rest(component, packed, LANES * blocks, count, octets);
}

/// Spells the samples from the one of number `done` on, one by one.
fn spell_rest(component: u8, packed: &[u8], done: usize, count: usize, octets: &mut [u8])
    requires component { component < 3 }
    requires inside { 5 * (plane_step Sampling.Ycc422 component * count) ≤ 4 * length packed.now }
    requires room { length octets.old ≡ 2 * count }
    requires few { done ≤ count }
    requires done { take (2 * done) octets.old ≡ ten_bit_text component packed.now done }
    ensures { octets.new ≡ ten_bit_text component packed.now count }
{
    let stride = stride_of(Sampling::Ycc422, component);
    for i in done..count {
        let value = packed_sample(packed, stride.first + stride.step * i);
        octets[2 * i] = (value % 256) as u8;
        octets[2 * i + 1] = (value / 256) as u8;
    }
}

/// A sample's bits lie in two octets.
fn packed_sample(packed: &[u8], i: usize) -> u16
    requires { i < 8 * length packed.now / 10 }
    ensures { result ≡ slice_index (values_in 10 packed.now) i }
{
    (word_at(packed, i + i / 4) >> (6 - i % 4 * 2)) % 1024
}

/// Two octets as a number, the high one first.
#[inline(always)]
fn word_at(packed: &[u8], at: usize) -> u16
    requires { at + 1 < length packed.now }
    ensures { result ≡ octet_pair packed.now at }
{
    packed[at] as u16 * 256 + packed[at + 1] as u16
}

/// The samples of a component from the one of number `8 * block` on, as many as lanes.
#[inline(always)]
fn lanes_of(component: u8, packed: &[u8], block: usize) -> u16x8
    requires component { component < 3 }
    requires inside { 5 * (plane_step Sampling.Ycc422 component * (8 * (block + 1)))
        ≤ 4 * length packed.now }
    ensures { result ≡ packed_samples component packed.now (8 * block) 8 }
{
    match component {
        0 => luma_lanes(packed, block),
        1 => cb_lanes(packed, block),
        _ => cr_lanes(packed, block),
    }
}

/// Those of Y: of four pgroups.
#[inline(always)]
fn luma_lanes(packed: &[u8], block: usize) -> u16x8
    requires { 20 * (block + 1) ≤ length packed.now }
    ensures { result ≡ packed_samples 0 packed.now (8 * block) 8 }
{
    let first = octets_at(packed, 20 * block);
    let last = octets_at(packed, 20 * block + 4);
    let octets = first.shuffle(
        last,
        [2, 1, 4, 3, 7, 6, 9, 8, 12, 11, 14, 13, 29, 28, 31, 30],
    );
    words_in(octets) / u16x8::from_array([16, 1, 16, 1, 16, 1, 16, 1]) % u16x8::splat(1024)
}

/// Those of Cb: of eight pgroups.
#[inline(always)]
fn cb_lanes(packed: &[u8], block: usize) -> u16x8
    requires { 40 * (block + 1) ≤ length packed.now }
    ensures { result ≡ packed_samples 1 packed.now (8 * block) 8 }
{
    let first = octets_at(packed, 40 * block);
    let middle = octets_at(packed, 40 * block + 15);
    let last = octets_at(packed, 40 * block + 24);
    let octets = first
        .shuffle(
            middle,
            [1, 0, 6, 5, 11, 10, 17, 16, 22, 21, 0, 0, 0, 0, 0, 0],
        )
        .shuffle(last, [0, 1, 2, 3, 4, 5, 6, 7, 8, 9, 18, 17, 23, 22, 28, 27]);
    words_in(octets) / u16x8::splat(64) % u16x8::splat(1024)
}

/// Those of Cr: of eight pgroups.
#[inline(always)]
fn cr_lanes(packed: &[u8], block: usize) -> u16x8
    requires { 40 * (block + 1) ≤ length packed.now }
    ensures { result ≡ packed_samples 2 packed.now (8 * block) 8 }
{
    let first = octets_at(packed, 40 * block);
    let middle = octets_at(packed, 40 * block + 15);
    let last = octets_at(packed, 40 * block + 24);
    let octets = first
        .shuffle(
            middle,
            [3, 2, 8, 7, 13, 12, 19, 18, 24, 23, 0, 0, 0, 0, 0, 0],
        )
        .shuffle(last, [0, 1, 2, 3, 4, 5, 6, 7, 8, 9, 20, 19, 25, 24, 30, 29]);
    words_in(octets) / u16x8::splat(4) % u16x8::splat(1024)
}

/// Sixteen octets.
#[inline(always)]
fn octets_at(packed: &[u8], at: usize) -> u8x16
    requires { at + 16 ≤ length packed.now }
    ensures { result ≡ map (λ k. slice_index packed.now (at + k)) (range_with_len 0 16) }
{
    u8x16::from_slice(&packed[at..])
}

/// Octets by twos as numbers, the low one first.
#[inline(always)]
fn words_in(octets: u8x16) -> u16x8
    ensures { result ≡ low_first_words octets }
{
    u16x8::from_le_bytes(octets)
}
