//! The matrix from R, G, B to Y, Cb, Cr, by lanes (ITU-R BT.709).
ghost use Rattle.std.specs.Prelude.{◌≡◌, ◌<◌, ◌≤◌, ◌^◌, length, slice_index, EachIndex};
ghost use Rattle.lane_kernels.specs.Lanes.{HasLanes};
ghost use Rattle.lane_kernels.specs.Formulas.{cb, clip, cr, luma, scale, video_data};
ghost use Rattle.lane_kernels.specs.Differences.{coefficients, difference};

use crate::narrowing::{narrowed, narrowed_wide};
use std::simd::prelude::*;

/// How many values of a depth lie in one step of 8 bits.
#[inline(always)]
pub(crate) fn scale(bits: u32) -> u32
    requires { (8 ≤ bits) × (bits ≤ 16) }
    ensures value { result ≡ scale bits }
    ensures least { 1 ≤ result }
    ensures most { result ≤ 256 }
{
    1 << (bits - 8)
}

/// A colour difference: of which component it tells the distance to luma.
#[derive(Clone, Copy)]
pub(crate) enum Difference {
    /// Blue; the two others are red and green.
    Cb,
    /// Red; the two others are green and blue.
    Cr,
}

/// What a colour difference's formula has: a number for its own component and for each of the two
/// others, and the divisor.
#[derive(Clone, Copy)]
struct Coefficients {
    main: u16,
    first: u16,
    second: u16,
    divisor: u32,
}

/// BT.709's numbers times 5000; the divisor is that of 112 times their difference.
#[inline(always)]
fn coefficients_of(colour: Difference) -> Coefficients
    ensures { result ≡ coefficients colour }
{
    match colour {
        Difference::Cb => Coefficients {
            main: 4639,
            first: 1063,
            second: 3576,
            divisor: 1015941,
        },
        Difference::Cr => Coefficients {
            main: 3937,
            first: 3576,
            second: 361,
            divisor: 862203,
        },
    }
}

/// The luma of each triple of lanes, from `low` to `high`.
#[inline(always)]
pub(crate) fn luma_lanes(red: u16x8, green: u16x8, blue: u16x8, low: u32, high: u32) -> u32x8
    ensures { HasLanes 8 result (λ k.
        clip low high (luma (slice_index red k) (slice_index green k) (slice_index blue k))) }
{
    let sum = red.cast::<u32>() * u32x8::splat(1063)
        + green.cast::<u32>() * u32x8::splat(3576)
        + blue.cast::<u32>() * u32x8::splat(361);
    let rounded = (sum + u32x8::splat(2500)) / u32x8::splat(5000);
    rounded
        .simd_max(u32x8::splat(low))
        .simd_min(u32x8::splat(high))
}

/// As `luma_lanes`, of one pixel.
#[inline(always)]
fn luma_of(red: u16, green: u16, blue: u16, low: u32, high: u32) -> u16
    requires range { low ≤ high }
    requires most { high < 65536 }
    ensures { result ≡ clip low high (luma red green blue) }
{
    let sum = red as u32 * 1063 + green as u32 * 3576 + blue as u32 * 361;
    ((sum + 2500) / 5000).max(low).min(high) as u16
}

/// The luma (BT.709) of each pixel of `bits` bits, brought to video data. Only tests call it:
/// `ycc709` makes whole pixels.
pub fn luma709(r: &[u16], g: &[u16], b: &[u16], bits: u32, out: &mut [u16])
    requires depth { (8 ≤ bits) × (bits ≤ 16) }
    requires of_r { length r.now ≡ length out.old }
    requires of_g { length g.now ≡ length out.old }
    requires of_b { length b.now ≡ length out.old }
    ensures { EachIndex out.new (λ k.
        slice_index out.new k
        ≡ video_data bits (luma
        (slice_index r.now k) (slice_index g.now k) (slice_index b.now k))) }
{
    let low = scale(bits);
    let high = 255 * low - 1;
    let mut at = 0;
    while out.len() - at >= 8 {
        let red = u16x8::from_slice(&r[at..]);
        let green = u16x8::from_slice(&g[at..]);
        let blue = u16x8::from_slice(&b[at..]);
        let luma = narrowed(luma_lanes(red, green, blue, low, high));
        luma.copy_to_slice(&mut out[at..]);
        at += 8;
    }
    for i in at..out.len() {
        out[i] = luma_of(r[i], g[i], b[i], low, high);
    }
}

/// Cb or Cr of the triples of lanes, of up to 12 bits, brought to video data.
///
/// All is raised by 131 scales, so that nothing lies below 0.
#[inline(always)]
fn colour_lanes(colour: Difference, main: u16x8, first: u16x8, second: u16x8, bits: u32) -> u32x8
    requires depth { (8 ≤ bits) × (bits ≤ 12) }
    requires of_main { EachIndex main (λ k. slice_index main k < 2 ^ bits) }
    requires of_first { EachIndex first (λ k. slice_index first k < 2 ^ bits) }
    requires of_second { EachIndex second (λ k. slice_index second k < 2 ^ bits) }
    ensures { HasLanes 8 result (λ k.
        video_data bits (difference colour bits
        (slice_index main k) (slice_index first k) (slice_index second k))) }
{
    let s = scale(bits);
    let of = coefficients_of(colour);
    let up = main.cast::<u32>() * u32x8::splat(112 * of.main as u32);
    let down = first.cast::<u32>() * u32x8::splat(112 * of.first as u32)
        + second.cast::<u32>() * u32x8::splat(112 * of.second as u32);
    let divisor = u32x8::splat(of.divisor);
    let half = u32x8::splat(of.divisor / 2);
    let zero = half + divisor * u32x8::splat(131) * u32x8::splat(s);
    let raised = (up + zero - down) / divisor;
    raised
        .simd_max(u32x8::splat(s + 3 * s))
        .simd_min(u32x8::splat(255 * s - 1 + 3 * s))
        - u32x8::splat(3 * s)
}

/// Cb or Cr of the triples of lanes, of up to 16 bits, brought to video data.
#[inline(always)]
pub(crate) fn colour_wide_lanes(
    colour: Difference,
    main: u16x8,
    first: u16x8,
    second: u16x8,
    bits: u32,
) -> u64x8
    requires depth { (8 ≤ bits) × (bits ≤ 16) }
    requires of_main { EachIndex main (λ k. slice_index main k < 2 ^ bits) }
    requires of_first { EachIndex first (λ k. slice_index first k < 2 ^ bits) }
    requires of_second { EachIndex second (λ k. slice_index second k < 2 ^ bits) }
    ensures { HasLanes 8 result (λ k.
        video_data bits (difference colour bits
        (slice_index main k) (slice_index first k) (slice_index second k))) }
{
    let s = scale(bits) as u64;
    let of = coefficients_of(colour);
    let up = main.cast::<u64>() * u64x8::splat(112 * of.main as u64);
    let down = first.cast::<u64>() * u64x8::splat(112 * of.first as u64)
        + second.cast::<u64>() * u64x8::splat(112 * of.second as u64);
    let divisor = u64x8::splat(of.divisor as u64);
    let half = u64x8::splat(of.divisor as u64 / 2);
    let zero = half + divisor * u64x8::splat(131) * u64x8::splat(s);
    let raised = (up + zero - down) / divisor;
    raised
        .simd_max(u64x8::splat(s + 3 * s))
        .simd_min(u64x8::splat(255 * s - 1 + 3 * s))
        - u64x8::splat(3 * s)
}

/// Cb or Cr of the triples of lanes, brought to video data.
#[inline(always)]
fn colour_block(colour: Difference, main: u16x8, first: u16x8, second: u16x8, bits: u32) -> u16x8
    requires depth { (8 ≤ bits) × (bits ≤ 16) }
    requires of_main { EachIndex main (λ k. slice_index main k < 2 ^ bits) }
    requires of_first { EachIndex first (λ k. slice_index first k < 2 ^ bits) }
    requires of_second { EachIndex second (λ k. slice_index second k < 2 ^ bits) }
    ensures { HasLanes 8 result (λ k.
        video_data bits (difference colour bits
        (slice_index main k) (slice_index first k) (slice_index second k))) }
{
    if bits <= 12 {
        narrowed(colour_lanes(colour, main, first, second, bits))
    } else {
        narrowed_wide(colour_wide_lanes(colour, main, first, second, bits))
    }
}

/// Cb or Cr of one pixel, as of eight that are alike, brought to video data.
#[inline(always)]
fn colour_of(colour: Difference, main: u16, first: u16, second: u16, bits: u32) -> u16
    requires depth { (8 ≤ bits) × (bits ≤ 16) }
    requires of_main { main < 2 ^ bits }
    requires of_first { first < 2 ^ bits }
    requires of_second { second < 2 ^ bits }
    ensures { result ≡ video_data bits (difference colour bits main first second) }
{
    let alike = colour_block(
        colour,
        u16x8::splat(main),
        u16x8::splat(first),
        u16x8::splat(second),
        bits,
    );
    alike[0]
}

/// Cb or Cr of each pixel, of `bits` bits, brought to video data.
#[inline(always)]
fn colour709(
    colour: Difference,
    main: &[u16],
    first: &[u16],
    second: &[u16],
    bits: u32,
    out: &mut [u16],
)
    requires depth { (8 ≤ bits) × (bits ≤ 16) }
    requires of_main { length main.now ≡ length out.old }
    requires of_first { length first.now ≡ length out.old }
    requires of_second { length second.now ≡ length out.old }
    requires fit_main { EachIndex main.now (λ k. slice_index main.now k < 2 ^ bits) }
    requires fit_first { EachIndex first.now (λ k. slice_index first.now k < 2 ^ bits) }
    requires fit_second { EachIndex second.now (λ k. slice_index second.now k < 2 ^ bits) }
    ensures { EachIndex out.new (λ k.
        slice_index out.new k
        ≡ video_data bits (difference colour bits
        (slice_index main.now k) (slice_index first.now k) (slice_index second.now k))) }
{
    let mut at = 0;
    while out.len() - at >= 8 {
        let own = u16x8::from_slice(&main[at..]);
        let one = u16x8::from_slice(&first[at..]);
        let other = u16x8::from_slice(&second[at..]);
        let block = colour_block(colour, own, one, other, bits);
        block.copy_to_slice(&mut out[at..]);
        at += 8;
    }
    for i in at..out.len() {
        out[i] = colour_of(colour, main[i], first[i], second[i], bits);
    }
}

/// Cb (BT.709) of each pixel of `bits` bits, brought to video data. Only tests call it.
pub fn cb709(r: &[u16], g: &[u16], b: &[u16], bits: u32, out: &mut [u16])
    requires depth { (8 ≤ bits) × (bits ≤ 16) }
    requires of_r { length r.now ≡ length out.old }
    requires of_g { length g.now ≡ length out.old }
    requires of_b { length b.now ≡ length out.old }
    requires fit_r { EachIndex r.now (λ k. slice_index r.now k < 2 ^ bits) }
    requires fit_g { EachIndex g.now (λ k. slice_index g.now k < 2 ^ bits) }
    requires fit_b { EachIndex b.now (λ k. slice_index b.now k < 2 ^ bits) }
    ensures { EachIndex out.new (λ k.
        slice_index out.new k
        ≡ video_data bits (cb bits
        (slice_index r.now k) (slice_index g.now k) (slice_index b.now k))) }
{
    colour709(Difference::Cb, b, r, g, bits, out);
}

/// Cr (BT.709) of each pixel of `bits` bits, brought to video data. Only tests call it.
pub fn cr709(r: &[u16], g: &[u16], b: &[u16], bits: u32, out: &mut [u16])
    requires depth { (8 ≤ bits) × (bits ≤ 16) }
    requires of_r { length r.now ≡ length out.old }
    requires of_g { length g.now ≡ length out.old }
    requires of_b { length b.now ≡ length out.old }
    requires fit_r { EachIndex r.now (λ k. slice_index r.now k < 2 ^ bits) }
    requires fit_g { EachIndex g.now (λ k. slice_index g.now k < 2 ^ bits) }
    requires fit_b { EachIndex b.now (λ k. slice_index b.now k < 2 ^ bits) }
    ensures { EachIndex out.new (λ k.
        slice_index out.new k
        ≡ video_data bits (cr bits
        (slice_index r.now k) (slice_index g.now k) (slice_index b.now k))) }
{
    colour709(Difference::Cr, r, g, b, bits, out);
}
