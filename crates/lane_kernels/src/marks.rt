//! Mark words by lanes: their bits joined, and counted.
ghost use Rattle.std.specs.Prelude.{◌≡◌, ◌<◌, ◌≤◌, ◌^◌, length, slice_index, EachIndex, bit_or};
ghost use Rattle.lane_kernels.specs.Marks.{ones_under};

use std::simd::prelude::*;

/// Sets in each mark word the bits that are set in the other row's.
pub fn or_marks(into: &mut [u16], from: &[u16])
    requires { length from.now ≡ length into.old }
    ensures { EachIndex into.new (λ k.
        slice_index into.new k ≡ bit_or (slice_index into.old k) (slice_index from.now k)) }
{
    let mut at = 0;
    while into.len() - at >= 16 {
        let x = u16x16::from_slice(&into[at..]);
        let y = u16x16::from_slice(&from[at..]);
        let both = x | y;
        both.copy_to_slice(&mut into[at..]);
        at += 16;
    }
    for i in at..into.len() {
        into[i] |= from[i];
    }
}

/// How many of the mask's bits the lanes have: at most 256, so 16 bits hold it.
#[inline(always)]
fn ones_in(v: u16x16, mask: u16) -> u16
    ensures value { result ≡ ones_under mask v }
    ensures most { result ≤ 256 }
{
    (v & u16x16::splat(mask)).count_ones().strict_reduce_sum()
}

/// How many of the mask's bits the words have in all.
///
/// A word has up to 16 of them, so the number of fewer than 2^60 words fits 64 bits. No longer
/// slice is met: it would take 2^61 octets.
pub fn count_marks(marks: &[u16], mask: u16) -> u64
    requires { length marks.now < 2 ^ 60 }
    ensures { result ≡ ones_under mask marks.now }
{
    let mut total = 0u64;
    let mut at = 0;
    while marks.len() - at >= 16 {
        total += u64::from(ones_in(u16x16::from_slice(&marks[at..]), mask));
        at += 16;
    }
    for i in at..marks.len() {
        total += u64::from((marks[i] & mask).count_ones());
    }
    total
}
