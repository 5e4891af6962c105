//! Octets as hexadecimal digits: `hex` reads them, behind whole blocks that are read at a time,
//! since most of a long script is digits.
ghost use Rattle.std.specs.Prelude.{◌≡◌, ◌≤◌, ◌<◌, ◌+◌, ◌*◌, ◌/◌, ℕ, List, Ok, IsFalse, IsTrue};
ghost use Rattle.std.specs.Prelude.{length, slice_index};
ghost use Rattle.hex.specs.Hex.{decode_of};
ghost use Rattle.script_engines.specs.Digits.{AreDecoded, AreDigitValues, IsNotDecoded};

use std::simd::prelude::*;

/// Decodes hexadecimal digits, and tells whether they are those of just as many octets as there is
/// room for.
///
/// The blocks of digits that a text begins with are read at a time; `hex` reads all that is behind
/// them, and is what says of a text that it isn't one of digits.
pub(crate) fn decodes(text: &[u8], octets: &mut [u8]) -> bool
    ensures room { length octets.new ≡ length octets.old }
    ensures is { IsTrue result → decode_of text.now ≡ Ok octets.new }
    ensures none { IsFalse result → (said : List ℕ) → length said ≡ length octets.old
        → decode_of text.now ≡ Ok said → ⊥ }
{
    let done = decode_blocks(text, octets);
    hex::decode_to_slice(&text[2 * done..], &mut octets[done..]).is_ok()
}

/// Decodes sixteen octets at a time, up to the first of these blocks with an octet that is no
/// digit, and answers how many octets those are: none of a text that isn't twice as long as the
/// room.
fn decode_blocks(text: &[u8], octets: &mut [u8]) -> usize
    ensures within { result ≤ length octets.old }
    ensures twice { 2 * result ≤ length text.now }
    ensures room { length octets.new ≡ length octets.old }
    ensures is { AreDecoded text.now result octets.new }
{
    if text.len() % 2 != 0 || text.len() / 2 != octets.len() {
        return 0;
    }
    for i in 0..octets.len() / 16 {
        if !decode_block(text, octets, 16 * i) {
            return 16 * i;
        }
    }
    octets.len() / 16 * 16
}

/// Decodes the sixteen octets from an index on, and tells whether all are digits. Where they aren't
/// it writes none.
#[inline(always)]
fn decode_block(text: &[u8], octets: &mut [u8], at: usize) -> bool
    requires long { length text.now ≡ 2 * length octets.old }
    requires within { at + 16 ≤ length octets.old }
    ensures room { length octets.new ≡ length octets.old }
    ensures is { IsTrue result → AreDecoded text.now at octets.old
        → AreDecoded text.now (at + 16) octets.new }
    ensures none { IsFalse result → IsNotDecoded text.now }
    ensures same { IsFalse result → octets.new ≡ octets.old }
{
    let values = digit_values(u8x32::from_slice(&text[2 * at..]));
    if !are_values(values) {
        return false;
    }
    octets_of(values).copy_to_slice(&mut octets[at..]);
    true
}

/// The values of 32 digits; of an octet that is no digit 16 or more.
#[inline(always)]
fn digit_values(digits: u8x32) -> u8x32
    ensures { AreDigitValues 32 digits result }
{
    let decimal = digits - u8x32::splat(b'0');
    let upper = digits - u8x32::splat(b'A');
    let lower = digits - u8x32::splat(b'a');
    let letter = upper.simd_min(lower) + u8x32::splat(10);
    decimal.simd_lt(u8x32::splat(10)).select(decimal, letter)
}

/// Whether all of these are below 16, as values of digits are.
#[inline(always)]
fn are_values(values: u8x32) -> bool
    ensures is { IsTrue result → (k : ℕ) → k < 32 → slice_index values k < 16 }
    ensures none { IsFalse result → (k : ℕ) × (k < 32) × (16 ≤ slice_index values k) }
{
    !values.simd_ge(u8x32::splat(16)).any()
}

/// The octets of these values, of which each has two.
#[inline(always)]
fn octets_of(values: u8x32) -> u8x16
    requires { (k : ℕ) → k < 32 → slice_index values k < 16 }
    ensures long { length result ≡ 16 }
    ensures each { (k : ℕ) → k < 16 → slice_index result k
        ≡ slice_index values (2 * k) * 16 + slice_index values (2 * k + 1) }
{
    let high = values.swizzle([0, 2, 4, 6, 8, 10, 12, 14, 16, 18, 20, 22, 24, 26, 28, 30]);
    let low = values.swizzle([1, 3, 5, 7, 9, 11, 13, 15, 17, 19, 21, 23, 25, 27, 29, 31]);
    high * u8x16::splat(16) + low
}
