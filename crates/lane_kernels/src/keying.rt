//! The keys of a row of 4:2:2, by lanes.
ghost use Rattle.std.specs.Prelude.{◌≡◌, ◌≤◌, ◌-◌, ◌%◌, length, min, slice_index, EachIndex};
ghost use Rattle.lane_kernels.specs.Pixels.{pair_luma};

use std::simd::prelude::*;

/// The key of each sample of a row of 4:2:2, by the lumas of such a row: what its column's luma has
/// above `low`, and `most` at most. Of Cb, Y, Cr and Y three are at the first column.
pub fn pair_keys(row: &[u16], low: u16, most: u16, keys: &mut [u16])
    requires whole { length keys.old % 4 ≡ 0 }
    requires of_row { length keys.old ≤ length row.now }
    ensures long { length keys.new ≡ length keys.old }
    ensures each { EachIndex keys.new (λ j.
        slice_index keys.new j ≡ min most (slice_index row.now (pair_luma j) - low)) }
{
    let mut at = 0;
    while keys.len() - at >= 8 {
        let lumas = u16x8::from_slice(&row[at..]).swizzle([1, 1, 1, 3, 5, 5, 5, 7]);
        let above = lumas.simd_max(u16x8::splat(low)) - u16x8::splat(low);
        above
            .simd_min(u16x8::splat(most))
            .copy_to_slice(&mut keys[at..]);
        at += 8;
    }
    for j in at..keys.len() {
        let luma = row[j / 4 * 4 + j % 4 / 3 * 2 + 1];
        keys[j] = most.min(luma.saturating_sub(low));
    }
}
