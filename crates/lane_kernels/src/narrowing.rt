//! Lanes in a part of their width.
ghost use Rattle.std.specs.Prelude.{◌<◌, ◌-◌, min, slice_index, EachIndex};
ghost use Rattle.lane_kernels.specs.Lanes.{HasLanes};

use std::simd::prelude::*;

/// The same lanes in half the width, where none is above it.
#[inline(always)]
pub fn narrowed(v: u32x8) -> u16x8
    requires { EachIndex v (λ k. slice_index v k < 65536) }
    ensures { HasLanes 8 result (λ k. slice_index v k) }
{
    v.cast::<u16>()
}

/// The same lanes in a quarter of the width, where none is above it.
#[inline(always)]
pub fn narrowed_wide(v: u64x8) -> u16x8
    requires { EachIndex v (λ k. slice_index v k < 65536) }
    ensures { HasLanes 8 result (λ k. slice_index v k) }
{
    v.cast::<u16>()
}

/// How far the lanes lie above others: none below, and 65535 at most. By signed lanes, which the
/// baseline processor packs to 16 bits in one step.
#[inline(always)]
pub fn above(v: u32x8, other: u32x8) -> u16x8
    requires of_v { EachIndex v (λ k. slice_index v k < 1048576) }
    requires of_other { EachIndex other (λ k. slice_index other k < 1048576) }
    ensures { HasLanes 8 result (λ k. min 65535 (slice_index v k - slice_index other k)) }
{
    let far = v.cast::<i32>() - (other + u32x8::splat(32768)).cast::<i32>();
    let near = far
        .simd_max(i32x8::splat(-32768))
        .simd_min(i32x8::splat(32767));
    (near + i32x8::splat(32768)).cast::<u16>()
}
