//! What is made of each value of a picture by itself: range and gain.
ghost use Rattle.std.specs.Prelude.{
  ◌≡◌,
  if◌then◌else◌,
  ◌≤◌,
  ◌<◌,
  ℕ,
  EachIndex,
  length,
  slice_index,
  IfOk,
  ◌↔◌,
  IsTrue,
};
ghost use Rattle.st_format.specs.Pgroup.{bits_of};
ghost use Rattle.st_format.specs.Picture.{IsPicture};
ghost use Rattle.st_format.specs.Position.{component_in_row};
ghost use Rattle.lane_kernels.specs.Formulas.{scale};
ghost use Rattle.bt709_fixed.specs.Operations.{
  IsBounded,
  IsOf,
  changed_sample,
  changed_value,
  gain_value,
  is_colour,
  limit_value,
};

use st_format::{Depth, Picture, Sampling};
use std::alloc::{AllocError, Allocator};

/// A range of values, in scales: a scale is 2^(bits - 8), so that of 8 bits is 1.
#[derive(Clone, Copy, Debug, PartialEq, Eq)]
pub enum RangeKind {
    /// Luma, R, G and B from 16 to 235 scales, Cb and Cr from 16 to 240.
    Nominal,
    /// All from one scale to one below 255 scales.
    VideoData,
}

/// 2^(bits - 8): how many values of a depth lie in one step of 8 bits.
pub fn scale_of(depth: Depth) -> u16
    ensures value { result ≡ scale (bits_of depth) }
    ensures least { 1 ≤ result }
    ensures most { result ≤ 256 }
{
    match depth {
        Depth::D8 => 1,
        Depth::D10 => 4,
        Depth::D12 => 16,
        Depth::D16 => 256,
    }
}

/// Brings each value to the nearest one of the range named.
pub fn limit<A: Allocator>(picture: Picture<A>, range: RangeKind) -> Picture<A>
    ensures value { IsOf picture.format (limit_value range picture) result }
    ensures whole { IsPicture result }
{
    changed(picture, Change::Limit(range))
}

/// A copy of a picture, in memory of `alloc`, in which each value is brought to the range named.
/// `AllocError` where the memory was refused.
pub fn limited_copy<A: Allocator, B: Allocator>(
    alloc: B,
    picture: &Picture<A>,
    range: RangeKind,
) -> Result<Picture<B>, AllocError>
    ensures value { IfOk result (λ p. IsOf picture.now.format (limit_value range picture.now) p) }
    ensures whole { IfOk result (λ p. IsPicture p) }
{
    changed_copy(alloc, picture, Change::Limit(range))
}

/// Brings each value `g / 4096` as far from black, or from the centre for Cb and Cr, and to video
/// data.
pub fn gain<A: Allocator>(picture: Picture<A>, g: u32) -> Picture<A>
    requires { g ≤ 16384 }
    ensures value { IsOf picture.format (gain_value g picture) result }
    ensures whole { IsPicture result }
{
    changed(picture, Change::Gain(g))
}

/// A copy of a picture, in memory of `alloc`, in which each value is brought `g / 4096` as far from
/// what it keeps, as by [`gain`]. `AllocError` where the memory was refused.
pub fn gained_copy<A: Allocator, B: Allocator>(
    alloc: B,
    picture: &Picture<A>,
    g: u32,
) -> Result<Picture<B>, AllocError>
    requires { g ≤ 16384 }
    ensures value { IfOk result (λ p. IsOf picture.now.format (gain_value g picture.now) p) }
    ensures whole { IfOk result (λ p. IsPicture p) }
{
    changed_copy(alloc, picture, Change::Gain(g))
}

/// What is made of each value of a picture, from it and its component alone.
#[derive(Clone, Copy)]
enum Change {
    /// It becomes the nearest one of the range.
    Limit(RangeKind),
    /// It is brought so many 4096ths as far from what it keeps, and to video data.
    Gain(u32),
}

/// Changes each value of a picture, in place: no memory is taken.
fn changed<A: Allocator>(picture: Picture<A>, change: Change) -> Picture<A>
    requires { IsBounded change }
    ensures value { IsOf picture.format (changed_value change picture) result }
    ensures whole { IsPicture result }
{
    let format = picture.format();
    let mut samples = picture.into_samples();
    change_samples(
        format.sampling(),
        format.depth(),
        change,
        samples.as_mut_slice(),
    );
    Picture::from_samples(format, samples)
}

/// A copy of a picture with each value changed. An `Err` where the memory was refused.
fn changed_copy<A: Allocator, B: Allocator>(
    alloc: B,
    picture: &Picture<A>,
    change: Change,
) -> Result<Picture<B>, AllocError>
    requires { IsBounded change }
    ensures value { IfOk result
        (λ p. IsOf picture.now.format (changed_value change picture.now) p) }
    ensures whole { IfOk result (λ p. IsPicture p) }
{
    let format = picture.format();
    let (sampling, depth) = (format.sampling(), format.depth());
    let samples = changed_samples(alloc, sampling, depth, change, picture.samples())?;
    Ok(Picture::from_samples(format, samples))
}

/// A copy of samples, each changed: block after block while it is near, each but the last of whole
/// turns of components.
fn changed_samples<B: Allocator>(
    alloc: B,
    sampling: Sampling,
    depth: Depth,
    change: Change,
    samples: &[u16],
) -> Result<Vec<u16, B>, AllocError>
    requires { IsBounded change }
    ensures long { IfOk result (λ v. length v.items ≡ length samples.now) }
    ensures each { IfOk result (λ v. EachIndex v.items (λ k.
        slice_index v.items k
        ≡ changed_sample change sampling (bits_of depth) k (slice_index samples.now k))) }
{
    let mut copy = Vec::with_capacity(alloc, samples.len())?;
    let mut done = 0;
    while done < samples.len() {
        let some = (samples.len() - done).min(6144);
        copy.extend_from_slice(&samples[done..done + some])?;
        change_samples(sampling, depth, change, &mut copy.as_mut_slice()[done..]);
        done += some;
    }
    Ok(copy)
}

/// Changes each sample, in place: the first of them is a row's or a raster's first.
fn change_samples(sampling: Sampling, depth: Depth, change: Change, samples: &mut [u16])
    requires { IsBounded change }
    ensures long { length samples.new ≡ length samples.old }
    ensures each { EachIndex samples.new (λ k.
        slice_index samples.new k
        ≡ changed_sample change sampling (bits_of depth) k (slice_index samples.old k)) }
{
    let s = scale_of(depth);
    match change {
        Change::Limit(range) => match range {
            RangeKind::VideoData => lane_kernels::clip(samples, s, 255 * s - 1),
            RangeKind::Nominal => {
                let highs = turns(sampling, 235 * s, 240 * s);
                lane_kernels::clip_below(samples, 16 * s, &highs);
            }
        },
        Change::Gain(g) => {
            let zeros = turns(sampling, 16 * s, 128 * s);
            lane_kernels::gain_about(samples, &zeros, g, s, 255 * s - 1);
        }
    }
}

/// Whether the sample of this number, counted from the start of a row or of a raster, is Y or R.
#[tactic(auto, using(crate::proofs::Firsts::firsts))]
#[inline(always)]
fn is_first(sampling: Sampling, number: usize) -> bool
    ensures { IsTrue result ↔ (component_in_row sampling number ≡ 0) }
{
    match sampling {
        Sampling::Ycc422 => number % 2 == 1,
        Sampling::Ycc444 => number % 3 == 1,
        Sampling::Rgb => number % 3 == 0,
    }
}

/// For each of the first 24 samples, after which their components are the same again: `colour` for
/// Cb and Cr, else `luma`.
fn turns(sampling: Sampling, luma: u16, colour: u16) -> [u16; 24]
    ensures { (k : ℕ) → k < 24 → slice_index result k
        ≡ (if is_colour sampling (component_in_row sampling k) then colour else luma) }
{
    let mut all = [luma; 24];
    for k in 0..24 {
        if sampling != Sampling::Rgb && !is_first(sampling, k) {
            all[k] = colour;
        }
    }
    all
}
