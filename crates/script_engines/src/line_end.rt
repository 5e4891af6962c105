//! Where a line ends.
ghost use Rattle.std.specs.Prelude.{◌≡◌, ◌≤◌, ◌<◌, ◌==◌, ℕ, false, length, slice_index};
ghost use Rattle.std.specs.List.{position_or_len};

use std::simd::prelude::*;

/// How many octets are looked at one by one first, and so many at a time behind them.
const BLOCK: usize = 32;

/// The index of the first LF, or the text's length where it has none.
///
/// The first octets are looked at one by one, since a short line ends among them before a vector
/// would tell it; behind them it is sought 32 octets at a time, since most of a long script is
/// within its lines.
pub(crate) fn line_end(text: &[u8]) -> usize
    ensures { result ≡ position_or_len (λ octet. octet == 10) text.now }
{
    if text.len() < BLOCK {
        return end_from(text, 0);
    }
    // Always so many turns: they are unrolled, so that each has a branch of its own.
    for i in 0..BLOCK {
        if text[i] == b'\n' {
            return i;
        }
    }
    end_in_blocks(text, BLOCK)
}

/// The same, where no LF stands before an index.
fn end_in_blocks(text: &[u8], from: usize) -> usize
    requires within { from ≤ length text.now }
    requires none { (k : ℕ) → k < from → (slice_index text.now k == 10) ≡ false }
    ensures { result ≡ position_or_len (λ octet. octet == 10) text.now }
{
    let mut at = from;
    while text.len() - at >= BLOCK {
        let block = u8x32::from_slice(&text[at..]);
        let ends = block.simd_eq(u8x32::splat(b'\n')).to_bitmask();
        if ends != 0 {
            return at + ends.trailing_zeros() as usize;
        }
        at += BLOCK;
    }
    end_from(text, at)
}

/// The same, octet by octet.
fn end_from(text: &[u8], from: usize) -> usize
    requires within { from ≤ length text.now }
    requires none { (k : ℕ) → k < from → (slice_index text.now k == 10) ≡ false }
    ensures { result ≡ position_or_len (λ octet. octet == 10) text.now }
{
    for i in from..text.len() {
        if text[i] == b'\n' {
            return i;
        }
    }
    text.len()
}
