//! One pgroup: which of its samples differ from another's, and blanking some of them.
ghost use Rattle.std.specs.Prelude.{◌≡◌, ◌<◌, ◌≤◌, ◌==◌, if◌then◌else◌, ℕ, length};
ghost use Rattle.std.specs.Int.{bit_at};
ghost use Rattle.pgroup_pack.specs.Groups.{blanked_samples, differs_at};
ghost use Rattle.pgroup_pack.specs.Packing.{Fit};
ghost use Rattle.st_format.specs.Pgroup.{bits_of, pixel_group};
ghost use Rattle.st_format.specs.Samples.{values_in};

use crate::{pack, unpack};
use st_format::Format;

/// The most samples that a pgroup has.
const MOST: usize = 12;

/// Which samples of two pgroups differ: bit `i` is set exactly where sample `i` does.
///
/// The octets are those of one pgroup each.
pub fn differing(format: &Format, a: &[u8], b: &[u8]) -> u16
    requires first { length a.now ≡ (pixel_group format.now.sampling format.now.depth).octets }
    requires second { length b.now ≡ (pixel_group format.now.sampling format.now.depth).octets }
    ensures { (i : ℕ)
        → bit_at result i
        ≡ differs_at (values_in (bits_of format.now.depth) a.now)
        (values_in (bits_of format.now.depth) b.now) i }
{
    let count = format.pgroup().samples;
    let mut left = [0; MOST];
    let mut right = [0; MOST];
    unpack(format, a, &mut left[..count]);
    unpack(format, b, &mut right[..count]);
    differing_samples(&left[..count], &right[..count])
}

/// Makes each sample of a pgroup 0 whose bit of the mask is set: a contested sample is kept as 0.
pub fn blank(format: &Format, octets: &mut [u8], mask: u16)
    requires { length octets.old ≡ (pixel_group format.now.sampling format.now.depth).octets }
    ensures { values_in (bits_of format.now.depth) octets.new
        ≡ blanked_samples mask (values_in (bits_of format.now.depth) octets.old) }
{
    let count = format.pgroup().samples;
    let mut room = [0; MOST];
    let samples = &mut room[..count];
    unpack(format, octets, samples);
    blank_samples(samples, mask);
    pack(format, samples, octets);
}

/// Bit `i` is set where the samples of number `i` differ.
fn differing_samples(left: &[u16], right: &[u16]) -> u16
    requires long { length left.now ≡ length right.now }
    requires few { length left.now ≤ MOST }
    ensures { (i : ℕ) → bit_at result i ≡ differs_at left.now right.now i }
{
    let mut word = 0;
    for i in 0..left.len() {
        if left[i] != right[i] {
            word |= 1 << i;
        }
    }
    word
}

/// Makes each sample 0 whose number is that of a set bit of the mask.
fn blank_samples(samples: &mut [u16], mask: u16)
    requires { length samples.old ≤ MOST }
    ensures { samples.new ≡ blanked_samples mask samples.old }
{
    for i in 0..samples.len() {
        samples[i] = kept_sample(mask, i, samples[i]);
    }
}

/// 0 where bit `i` of the mask is set, else the sample.
fn kept_sample(mask: u16, i: usize, sample: u16) -> u16
    requires { i < 16 }
    ensures { result ≡ (if bit_at mask i == 1 then 0 else sample) }
{
    if (mask >> i) & 1 == 1 { 0 } else { sample }
}
