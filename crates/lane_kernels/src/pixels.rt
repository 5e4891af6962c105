//! The matrix from R, G, B to Y, Cb, Cr (ITU-R BT.709) of whole pixels, as they lie in a picture.
ghost use Rattle.std.specs.Prelude.{◌≡◌, ◌<◌, ◌≤◌, ◌*◌, ◌/◌, ◌%◌, ◌^◌};
ghost use Rattle.std.specs.Prelude.{length, slice_index, EachIndex};
ghost use Rattle.lane_kernels.specs.Lanes.{HasLanes};
ghost use Rattle.lane_kernels.specs.Differences.{difference};
ghost use Rattle.lane_kernels.specs.Formulas.{clip, luma, video_data};
ghost use Rattle.lane_kernels.specs.Pixels.{in_turn, narrow_of, near_lanes, ycc_at};

use crate::matrix::{Difference, colour_wide_lanes, luma_lanes, scale};
use crate::narrowing::{narrowed, narrowed_wide};
use std::simd::prelude::*;

/// What a colour difference's formula has by lanes of 16 bits.
///
/// A quotient is first reckoned by 65536ths of each component: it is right, or too great by 1. Then
/// the remainder tells which, by numbers that wrap. They are the formula's, by the number that
/// brings the divisor nearest to a whole one, of which a little is left over.
#[derive(Clone, Copy)]
struct Narrow {
    main_part: u16,
    first_part: u16,
    second_part: u16,
    main: u16,
    first: u16,
    second: u16,
    whole: u16,
    zero: u32,
    of_scale: u32,
    left: u16,
    left_of_scale: u16,
    left_zero: u16,
    left_divisor: u16,
}

#[inline(always)]
fn narrow_numbers(colour: Difference) -> Narrow
    ensures { result ≡ narrow_of colour }
{
    match colour {
        Difference::Cb => Narrow {
            main_part: 33516,
            first_part: 7680,
            second_part: 25836,
            main: 4639,
            first: 1063,
            second: 3576,
            whole: 9071,
            zero: 4535,
            of_scale: 1188288,
            left: 11,
            left_of_scale: 15,
            left_zero: 50,
            left_divisor: 112,
        },
        Difference::Cr => Narrow {
            main_part: 33516,
            first_part: 30443,
            second_part: 3073,
            main: 15748,
            first: 14304,
            second: 1444,
            whole: 30793,
            zero: 15396,
            of_scale: 4033878,
            left: 1,
            left_of_scale: 9,
            left_zero: 13,
            left_divisor: 28,
        },
    }
}

/// So many 65536ths of each lane.
#[inline(always)]
fn part_of(v: u16x8, by: u16) -> u16x8
    ensures { HasLanes 8 result (λ k. slice_index v k * by / 65536) }
{
    narrowed(v.cast::<u32>() * u32x8::splat(by as u32) / u32x8::splat(65536))
}

/// The luma of each triple of lanes, of up to 12 bits, from `low` to `high`.
#[inline(always)]
fn narrow_luma(red: u16x8, green: u16x8, blue: u16x8, low: u16, high: u16) -> u16x8
    requires of_red { EachIndex red (λ k. slice_index red k < 4096) }
    requires of_green { EachIndex green (λ k. slice_index green k < 4096) }
    requires of_blue { EachIndex blue (λ k. slice_index blue k < 4096) }
    ensures { HasLanes 8 result (λ k.
        clip low high (luma (slice_index red k) (slice_index green k) (slice_index blue k))) }
{
    let eight = u16x8::splat(8);
    let parts = part_of(red * eight, 13933)
        + part_of(green * eight, 46871)
        + part_of(blue * eight, 4732);
    let near = (parts + eight) / eight;
    let sum = red * u16x8::splat(1063) + green * u16x8::splat(3576) + blue * u16x8::splat(361);
    let far = sum + u16x8::splat(2500) - near * u16x8::splat(5000);
    let exact = near - far / u16x8::splat(32768);
    exact
        .simd_max(u16x8::splat(low))
        .simd_min(u16x8::splat(high))
}

/// Cb or Cr of the triples of lanes, of up to 12 bits, raised by 131 scales: right, or too great
/// by 1.
#[inline(always)]
fn near_colour(of: Narrow, main: u16x8, first: u16x8, second: u16x8, s: u16) -> u16x8
    requires { s ≤ 16 }
    ensures { HasLanes 8 result (λ k.
        near_lanes of s (slice_index main k) (slice_index first k) (slice_index second k)) }
{
    let eight = u16x8::splat(8);
    let up = part_of(main * eight, of.main_part) + u16x8::splat(1048 * s + 6);
    let down = part_of(first * eight, of.first_part) + part_of(second * eight, of.second_part);
    (up - down) / eight
}

/// Cb or Cr of the triples of lanes, of up to 12 bits, brought to video data.
#[inline(always)]
fn narrow_colour(colour: Difference, main: u16x8, first: u16x8, second: u16x8, bits: u32) -> u16x8
    requires depth { (8 ≤ bits) × (bits ≤ 12) }
    requires of_main { EachIndex main (λ k. slice_index main k < 2 ^ bits) }
    requires of_first { EachIndex first (λ k. slice_index first k < 2 ^ bits) }
    requires of_second { EachIndex second (λ k. slice_index second k < 2 ^ bits) }
    ensures { HasLanes 8 result (λ k.
        video_data bits (difference colour bits
        (slice_index main k) (slice_index first k) (slice_index second k))) }
{
    let s = scale(bits) as u16;
    let of = narrow_numbers(colour);
    let near = near_colour(of, main, first, second, s);
    let left = near * u16x8::splat(of.left) + u16x8::splat(of.left_of_scale * s + of.left_zero);
    let zero = ((of.zero + of.of_scale * s as u32) % 65536) as u16;
    let up = main * u16x8::splat(of.main)
        + u16x8::splat(zero)
        + left / u16x8::splat(of.left_divisor);
    let down = first * u16x8::splat(of.first)
        + second * u16x8::splat(of.second)
        + near * u16x8::splat(of.whole);
    let exact = near - (up - down) / u16x8::splat(32768);
    exact
        .simd_max(u16x8::splat(s + 3 * s))
        .simd_min(u16x8::splat(255 * s - 1 + 3 * s))
        - u16x8::splat(3 * s)
}

/// Y of eight pixels, brought to video data.
#[inline(always)]
fn pixel_luma(red: u16x8, green: u16x8, blue: u16x8, bits: u32) -> u16x8
    requires depth { (8 ≤ bits) × (bits ≤ 16) }
    requires of_red { EachIndex red (λ k. slice_index red k < 2 ^ bits) }
    requires of_green { EachIndex green (λ k. slice_index green k < 2 ^ bits) }
    requires of_blue { EachIndex blue (λ k. slice_index blue k < 2 ^ bits) }
    ensures { HasLanes 8 result (λ k. video_data bits
        (luma (slice_index red k) (slice_index green k) (slice_index blue k))) }
{
    let low = scale(bits);
    let high = 255 * low - 1;
    if bits <= 12 {
        narrow_luma(red, green, blue, low as u16, high as u16)
    } else {
        narrowed(luma_lanes(red, green, blue, low, high))
    }
}

/// Cb or Cr of eight pixels, brought to video data.
#[inline(always)]
fn pixel_colour(colour: Difference, main: u16x8, first: u16x8, second: u16x8, bits: u32) -> u16x8
    requires depth { (8 ≤ bits) × (bits ≤ 16) }
    requires of_main { EachIndex main (λ k. slice_index main k < 2 ^ bits) }
    requires of_first { EachIndex first (λ k. slice_index first k < 2 ^ bits) }
    requires of_second { EachIndex second (λ k. slice_index second k < 2 ^ bits) }
    ensures { HasLanes 8 result (λ k.
        video_data bits (difference colour bits
        (slice_index main k) (slice_index first k) (slice_index second k))) }
{
    if bits <= 12 {
        narrow_colour(colour, main, first, second, bits)
    } else {
        narrowed_wide(colour_wide_lanes(colour, main, first, second, bits))
    }
}

/// The lanes of three vectors in turn: lane 0 of the first, 1 of the second, 2 of the third, 3 of
/// the first and so on.
#[inline(always)]
fn in_turns(first: u16x8, second: u16x8, third: u16x8) -> u16x8
    ensures { HasLanes 8 result (λ k.
        in_turn k (slice_index first k) (slice_index second k) (slice_index third k)) }
{
    first
        .shuffle(second, [0, 9, 2, 3, 12, 5, 6, 15])
        .shuffle(third, [0, 1, 10, 3, 4, 13, 6, 7])
}

/// The samples of Cb, Y and Cr of eight pixels of R, G and B, each of `bits` bits and brought to
/// video data.
///
/// Three vectors have eight pixels: their lanes are taken in turn, and put in order.
#[inline(always)]
fn eight_pixels(rgb: &[u16], bits: u32, out: &mut [u16])
    requires depth { (8 ≤ bits) × (bits ≤ 16) }
    requires lengths { length rgb.now ≡ length out.old }
    requires eight { length out.old ≡ 24 }
    requires fit { EachIndex rgb.now (λ k. slice_index rgb.now k < 2 ^ bits) }
    ensures long { length out.new ≡ length out.old }
    ensures each { EachIndex out.new (λ k. slice_index out.new k ≡ ycc_at bits rgb.now k) }
{
    let first = u16x8::from_slice(&rgb[0..]);
    let second = u16x8::from_slice(&rgb[8..]);
    let third = u16x8::from_slice(&rgb[16..]);
    let red = in_turns(first, second, third).swizzle([0, 3, 6, 1, 4, 7, 2, 5]);
    let green = in_turns(third, first, second).swizzle([1, 4, 7, 2, 5, 0, 3, 6]);
    let blue = in_turns(second, third, first).swizzle([2, 5, 0, 3, 6, 1, 4, 7]);
    let y = pixel_luma(red, green, blue, bits).swizzle([5, 0, 3, 6, 1, 4, 7, 2]);
    let cb = pixel_colour(Difference::Cb, blue, red, green, bits).swizzle([0, 3, 6, 1, 4, 7, 2, 5]);
    let cr = pixel_colour(Difference::Cr, red, green, blue, bits).swizzle([2, 5, 0, 3, 6, 1, 4, 7]);
    in_turns(cb, y, cr).copy_to_slice(&mut out[0..]);
    in_turns(cr, cb, y).copy_to_slice(&mut out[8..]);
    in_turns(y, cr, cb).copy_to_slice(&mut out[16..]);
}

/// The same of fewer than eight pixels, as the first of eight of which the others are black.
fn last_pixels(rgb: &[u16], bits: u32, out: &mut [u16])
    requires depth { (8 ≤ bits) × (bits ≤ 16) }
    requires lengths { length rgb.now ≡ length out.old }
    requires whole { length out.old % 3 ≡ 0 }
    requires few { length out.old < 24 }
    requires fit { EachIndex rgb.now (λ k. slice_index rgb.now k < 2 ^ bits) }
    ensures long { length out.new ≡ length out.old }
    ensures each { EachIndex out.new (λ k. slice_index out.new k ≡ ycc_at bits rgb.now k) }
{
    let (mut given, mut made) = ([0; 24], [0; 24]);
    given[..rgb.len()].copy_from_slice(rgb);
    eight_pixels(&given, bits, &mut made);
    out.copy_from_slice(&made[..out.len()]);
}

/// The samples of Cb, Y and Cr of pixels of R, G and B, each of `bits` bits and brought to video
/// data. Both slices are whole pixels.
pub fn ycc709(rgb: &[u16], bits: u32, out: &mut [u16])
    requires depth { (8 ≤ bits) × (bits ≤ 16) }
    requires lengths { length rgb.now ≡ length out.old }
    requires whole { length out.old % 3 ≡ 0 }
    requires fit { EachIndex rgb.now (λ k. slice_index rgb.now k < 2 ^ bits) }
    ensures long { length out.new ≡ length out.old }
    ensures each { EachIndex out.new (λ k. slice_index out.new k ≡ ycc_at bits rgb.now k) }
{
    let mut at = 0;
    while out.len() - at >= 24 {
        eight_pixels(&rgb[at..at + 24], bits, &mut out[at..at + 24]);
        at += 24;
    }
    if at < out.len() {
        last_pixels(&rgb[at..], bits, &mut out[at..]);
    }
}
