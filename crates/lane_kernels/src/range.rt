//! Values by lanes, brought to a range.
ghost use Rattle.std.specs.Prelude.{◌≡◌, ◌≤◌, ◌%◌, length, slice_index, EachIndex, pos};
ghost use Rattle.lane_kernels.specs.Formulas.{clip};

use std::simd::prelude::*;

/// Brings each value to the nearest one from `low` to `high`.
pub fn clip(values: &mut [u16], low: u16, high: u16)
    requires { low ≤ high }
    ensures { EachIndex values.new (λ k.
        slice_index values.new k ≡ clip low high (pos (slice_index values.old k))) }
{
    let mut at = 0;
    while values.len() - at >= 16 {
        let x = u16x16::from_slice(&values[at..]);
        let clipped = x.simd_max(u16x16::splat(low)).simd_min(u16x16::splat(high));
        clipped.copy_to_slice(&mut values[at..]);
        at += 16;
    }
    for i in at..values.len() {
        values[i] = values[i].max(low).min(high);
    }
}

/// Brings each value to the nearest one from `low` to 24 `highs` in turn, three vectors of them.
pub fn clip_below(values: &mut [u16], low: u16, highs: &[u16; 24])
    ensures long { length values.new ≡ length values.old }
    ensures each { EachIndex values.new (λ k.
        slice_index values.new k
        ≡ clip low (slice_index highs.now (k % 24)) (pos (slice_index values.old k))) }
{
    let first = u16x8::from_slice(&highs[0..]);
    let second = u16x8::from_slice(&highs[8..]);
    let third = u16x8::from_slice(&highs[16..]);
    let least = u16x8::splat(low);
    let mut at = 0;
    while values.len() - at >= 24 {
        let x = u16x8::from_slice(&values[at..]).simd_max(least);
        x.simd_min(first).copy_to_slice(&mut values[at..]);
        let x = u16x8::from_slice(&values[at + 8..]).simd_max(least);
        x.simd_min(second).copy_to_slice(&mut values[at + 8..]);
        let x = u16x8::from_slice(&values[at + 16..]).simd_max(least);
        x.simd_min(third).copy_to_slice(&mut values[at + 16..]);
        at += 24;
    }
    for i in at..values.len() {
        values[i] = values[i].max(low).min(highs[i % 24]);
    }
}
