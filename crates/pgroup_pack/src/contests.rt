//! Several pgroups at once: which of their samples differ from others', and blanking these.
ghost use Rattle.std.specs.Prelude.{◌≡◌, ◌<◌, ◌≤◌, ◌+◌, ◌*◌, ◌==◌, if◌then◌else◌, ℕ, length, max};
ghost use Rattle.std.specs.Prelude.{nat_lt, slice_index};
ghost use Rattle.std.specs.Int.{bit_at};
ghost use Rattle.pgroup_pack.specs.Groups.{AreContested, differs_at};
ghost use Rattle.st_format.specs.Pgroup.{bits_of, pixel_group};
ghost use Rattle.st_format.specs.Samples.{values_in};

use crate::{pack_at, unpack_at};
use st_format::{Depth, Format};
use std::simd::prelude::*;

/// How many samples are compared at once, as three vectors; each has a bit of one word.
const LANES: usize = 48;

/// How many pgroups of any format have no more samples than that.
const FEW: usize = 4;

/// Compares up to eight pgroups with others: in each one's mark word the bit of each sample that
/// differs is set, and each sample whose bit is then set becomes 0.
///
/// The octets are whole pgroups, one for each mark word.
pub fn contest(format: &Format, octets: &mut [u8], others: &[u8], marks: &mut [u16])
    requires few { length marks.old ≤ 8 }
    requires octets { length octets.old
        ≡ (pixel_group format.now.sampling format.now.depth).octets * length marks.old }
    requires others { length others.now ≡ length octets.old }
    ensures { AreContested (pixel_group format.now.sampling format.now.depth).samples
        (values_in (bits_of format.now.depth) octets.old)
        (values_in (bits_of format.now.depth) others.now) marks.old marks.new
        (values_in (bits_of format.now.depth) octets.new) }
{
    if format.pgroup().samples * marks.len() <= LANES {
        contest_few(format, octets, others, marks);
        return;
    }
    let half = format.pgroup().octets * FEW;
    let (octets, more_octets) = octets.split_at_mut(half);
    let (others, more_others) = others.split_at(half);
    let (marks, more_marks) = marks.split_at_mut(FEW);
    contest_few(format, octets, others, marks);
    contest_few(format, more_octets, more_others, more_marks);
}

/// The same of pgroups that have no more samples than are compared at once.
fn contest_few(format: &Format, octets: &mut [u8], others: &[u8], marks: &mut [u16])
    requires few { (pixel_group format.now.sampling format.now.depth).samples * length marks.old
        ≤ LANES }
    requires octets { length octets.old
        ≡ (pixel_group format.now.sampling format.now.depth).octets * length marks.old }
    requires others { length others.now ≡ length octets.old }
    ensures { AreContested (pixel_group format.now.sampling format.now.depth).samples
        (values_in (bits_of format.now.depth) octets.old)
        (values_in (bits_of format.now.depth) others.now) marks.old marks.new
        (values_in (bits_of format.now.depth) octets.new) }
{
    let samples = format.pgroup().samples;
    let groups = marks.len();
    let are_alike = octets.len() == others.len();
    // The sizes of each format as literals: the compiler then unrolls all that is done, and the
    // worst case takes half the time. The last arm is the same with variables, of which the proof
    // is.
    match format.depth {
        Depth::D8 if are_alike && samples == 4 && groups == 8 && octets.len() == 32 => {
            contest_lanes(format, Depth::D8, 4, octets, others, marks)
        }
        Depth::D8 if are_alike && samples == 3 && groups == 8 && octets.len() == 24 => {
            contest_lanes(format, Depth::D8, 3, octets, others, marks)
        }
        Depth::D10 if are_alike && samples == 4 && groups == 8 && octets.len() == 40 => {
            contest_lanes(format, Depth::D10, 4, octets, others, marks)
        }
        Depth::D10 if are_alike && samples == 12 && groups == 4 && octets.len() == 60 => {
            contest_lanes(format, Depth::D10, 12, octets, others, marks)
        }
        Depth::D12 if are_alike && samples == 4 && groups == 8 && octets.len() == 48 => {
            contest_lanes(format, Depth::D12, 4, octets, others, marks)
        }
        Depth::D12 if are_alike && samples == 6 && groups == 8 && octets.len() == 72 => {
            contest_lanes(format, Depth::D12, 6, octets, others, marks)
        }
        Depth::D16 if are_alike && samples == 4 && groups == 8 && octets.len() == 64 => {
            contest_lanes(format, Depth::D16, 4, octets, others, marks)
        }
        Depth::D16 if are_alike && samples == 3 && groups == 8 && octets.len() == 48 => {
            contest_lanes(format, Depth::D16, 3, octets, others, marks)
        }
        depth => contest_lanes(format, depth, samples, octets, others, marks),
    }
}

/// The same, of this depth and so many samples a pgroup.
#[inline(always)]
fn contest_lanes(
    format: &Format,
    depth: Depth,
    samples: usize,
    octets: &mut [u8],
    others: &[u8],
    marks: &mut [u16],
)
    requires depth { depth ≡ format.now.depth }
    requires samples { samples ≡ (pixel_group format.now.sampling format.now.depth).samples }
    requires few { (pixel_group format.now.sampling format.now.depth).samples * length marks.old
        ≤ LANES }
    requires octets { length octets.old
        ≡ (pixel_group format.now.sampling format.now.depth).octets * length marks.old }
    requires others { length others.now ≡ length octets.old }
    ensures { AreContested (pixel_group format.now.sampling format.now.depth).samples
        (values_in (bits_of format.now.depth) octets.old)
        (values_in (bits_of format.now.depth) others.now) marks.old marks.new
        (values_in (bits_of format.now.depth) octets.new) }
{
    let count = samples * marks.len();
    let mut left = [0; LANES];
    let mut right = [0; LANES];
    unpack_at(depth, octets, &mut left[..count]);
    unpack_at(depth, others, &mut right[..count]);
    let differ = differing_bits(&left, &right);
    let contested = mark_differing(samples, differ, marks);
    blank_bits(&mut left, contested);
    pack_at(depth, &left[..count], octets);
}

/// Bit `k` is set where the samples of number `k` differ.
#[inline(always)]
fn differing_bits(left: &[u16], right: &[u16]) -> u64
    requires left { length left.now ≡ LANES }
    requires right { length right.now ≡ LANES }
    ensures { (k : ℕ) → k < LANES → bit_at result k ≡ differs_at left.now right.now k }
{
    let first = differing_lanes(&left[..16], &right[..16]);
    let second = differing_lanes(&left[16..32], &right[16..32]);
    let third = differing_lanes(&left[32..], &right[32..]);
    (third * 65536 + second) * 65536 + first
}

/// Bit `k` is set where lane `k` differs.
#[inline(always)]
fn differing_lanes(left: &[u16], right: &[u16]) -> u64
    requires left { length left.now ≡ 16 }
    requires right { length right.now ≡ 16 }
    ensures bits { (k : ℕ) → k < 16 → bit_at result k ≡ differs_at left.now right.now k }
    ensures most { result < 65536 }
{
    u16x16::from_slice(left)
        .simd_ne(u16x16::from_slice(right))
        .to_bitmask()
}

/// Sets in each pgroup's mark word the bits of its samples that differ, and answers the bits of all
/// samples that are then set.
#[inline(always)]
fn mark_differing(samples: usize, differ: u64, marks: &mut [u16]) -> u64
    requires some { 0 < samples }
    requires most { samples ≤ 12 }
    requires few { samples * length marks.old ≤ LANES }
    ensures marks { (group : ℕ) → group < length marks.old → (i : ℕ)
        → bit_at (slice_index marks.new group) i
        ≡ max (bit_at (slice_index marks.old group) i)
        (if nat_lt i samples then bit_at differ (samples * group + i) else 0) }
    ensures bits { (group : ℕ) → group < length marks.old → (i : ℕ) → i < samples
        → bit_at result (samples * group + i) ≡ bit_at (slice_index marks.new group) i }
{
    let all = (1 << samples) - 1;
    let mut bits = 0;
    for i in 0..marks.len() {
        let at = samples * i;
        marks[i] |= ((differ >> at) & all) as u16;
        bits |= (marks[i] as u64 & all) << at;
    }
    bits
}

/// Makes each sample 0 whose bit is set.
#[inline(always)]
fn blank_bits(samples: &mut [u16], bits: u64)
    requires { length samples.old ≡ LANES }
    ensures { (k : ℕ) → k < LANES
        → slice_index samples.new k
        ≡ (if bit_at bits k == 1 then 0 else slice_index samples.old k) }
{
    blank_lanes(samples, 0, (bits % 65536) as u16);
    blank_lanes(samples, 16, (bits / 65536 % 65536) as u16);
    blank_lanes(samples, 32, (bits / 65536 / 65536 % 65536) as u16);
}

/// Makes each of the sixteen samples from number `at` on 0 whose bit is set.
#[inline(always)]
fn blank_lanes(samples: &mut [u16], at: usize, bits: u16)
    requires { at + 16 ≤ length samples.old }
    ensures inside { (k : ℕ) → k < 16
        → slice_index samples.new (at + k)
        ≡ (if bit_at bits k == 1 then 0 else slice_index samples.old (at + k)) }
    ensures before { (k : ℕ) → k < at → slice_index samples.new k ≡ slice_index samples.old k }
    ensures behind { (k : ℕ) → at + 16 ≤ k → slice_index samples.new k ≡ slice_index samples.old k }
{
    let weights = u16x16::from_array([
        1, 2, 4, 8, 16, 32, 64, 128, 256, 512, 1024, 2048, 4096, 8192, 16384, 32768,
    ]);
    let kept = (u16x16::splat(bits) & weights)
        .simd_eq(u16x16::splat(0))
        .select(u16x16::from_slice(&samples[at..]), u16x16::splat(0));
    kept.copy_to_slice(&mut samples[at..]);
}
