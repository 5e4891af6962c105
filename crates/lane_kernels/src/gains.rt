//! Gain by lanes: values brought nearer to another value, or farther from it.
ghost use Rattle.std.specs.Prelude.{◌≡◌, ◌<◌, ◌≤◌, ◌%◌, length, slice_index, EachIndex};
ghost use Rattle.lane_kernels.specs.Lanes.{HasLanes};
ghost use Rattle.lane_kernels.specs.Formulas.{clip, gain};

use crate::narrowing::above;
use std::simd::prelude::*;

/// The lanes brought to `g / 4096` of their distance to `zeros`, and to `low` to `high`. All is
/// raised by three times the zero, so that no lane is below 0.
#[inline(always)]
fn gain_lanes(x: u16x8, zeros: u16x8, g: u16, low: u16, high: u16) -> u16x8
    requires of_g { g ≤ 16384 }
    requires range { low ≤ high }
    ensures { HasLanes 8 result (λ k.
        clip low high (gain (slice_index zeros k) g (slice_index x k))) }
{
    let zero = zeros.cast::<u32>();
    let turned = zero * u32x8::splat(16384 - g as u32) + u32x8::splat(2048);
    let sum = x.cast::<u32>() * u32x8::splat(g as u32) + turned;
    let raised = sum / u32x8::splat(4096);
    above(raised, zero * u32x8::splat(3))
        .simd_max(u16x8::splat(low))
        .simd_min(u16x8::splat(high))
}

/// As `gain_lanes`, of one value.
#[inline(always)]
fn gain_of(x: u16, zero: u32, g: u32, low: u32, high: u32) -> u16
    requires of_zero { zero < 65536 }
    requires of_g { g ≤ 16384 }
    requires range { low ≤ high }
    requires most { high < 65536 }
    ensures { result ≡ clip low high (gain zero g x) }
{
    let raised = (x as u32 * g + (zero * (16384 - g) + 2048)) / 4096;
    (raised.max(low + 3 * zero).min(high + 3 * zero) - 3 * zero) as u16
}

/// Brings each value `g / 4096` as far from `zero`, and then to the nearest one from `low` to
/// `high`. Only tests call it: `gain_about` takes the zeros of all components in one pass.
pub fn gain(values: &mut [u16], zero: u16, g: u32, low: u16, high: u16)
    requires of_g { g ≤ 16384 }
    requires range { low ≤ high }
    ensures { EachIndex values.new (λ k.
        slice_index values.new k ≡ clip low high (gain zero g (slice_index values.old k))) }
{
    gain_about(values, &[zero; 24], g, low, high);
}

/// The same, where the values lie about 24 `zeros` in turn, three vectors of them.
pub fn gain_about(values: &mut [u16], zeros: &[u16; 24], g: u32, low: u16, high: u16)
    requires of_g { g ≤ 16384 }
    requires range { low ≤ high }
    ensures long { length values.new ≡ length values.old }
    ensures each { EachIndex values.new (λ k.
        slice_index values.new k
        ≡ clip low high (gain (slice_index zeros.now (k % 24)) g (slice_index values.old k))) }
{
    let first = u16x8::from_slice(&zeros[0..]);
    let second = u16x8::from_slice(&zeros[8..]);
    let third = u16x8::from_slice(&zeros[16..]);
    let by = g as u16;
    let mut at = 0;
    while values.len() - at >= 24 {
        let x = u16x8::from_slice(&values[at..]);
        gain_lanes(x, first, by, low, high).copy_to_slice(&mut values[at..]);
        let x = u16x8::from_slice(&values[at + 8..]);
        gain_lanes(x, second, by, low, high).copy_to_slice(&mut values[at + 8..]);
        let x = u16x8::from_slice(&values[at + 16..]);
        gain_lanes(x, third, by, low, high).copy_to_slice(&mut values[at + 16..]);
        at += 24;
    }
    for i in at..values.len() {
        values[i] = gain_of(values[i], zeros[i % 24] as u32, g, low as u32, high as u32);
    }
}
