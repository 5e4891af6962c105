//! The matrix from R, G, B to Y, Cb, Cr (ITU-R BT.709).
ghost use Rattle.std.specs.Prelude.{
  ◌≡◌,
  ◌<◌,
  ◌%◌,
  ◌^◌,
  EachIndex,
  length,
  slice_index,
  IfOk,
  Err,
  ◌↔◌,
  ◌≢◌,
};
ghost use Rattle.st_format.specs.Pgroup.{bits_of};
ghost use Rattle.st_format.specs.Picture.{IsPicture};
ghost use Rattle.st_format.specs.declared.sampling.Sampling.TheVariants.{Rgb, Ycc444};
ghost use Rattle.bt709_fixed.specs.Operations.{
  IsOf,
  IsResampled,
  matrixed_at,
  ycc444_value,
};
ghost use Rattle.bt709_fixed.specs.declared.faults.ColourFault.TheVariants.{NotRgb, NotYcc444};

use crate::faults::ColourFault;
use st_format::{Depth, Format, Picture, Sampling};
use std::alloc::{AllocError, Allocator};

/// How many samples are made at a time: those of 64 times eight pixels.
const BLOCK: usize = 1536;

/// The format with Y, Cb and Cr in place of R, G and B: that of what [`to_ycc444`] gives.
pub fn as_ycc444(format: Format) -> Format
    requires { format.sampling ≡ Rgb }
    ensures { IsResampled result format Ycc444 }
{
    Format {
        sampling: Sampling::Ycc444,
        depth: format.depth,
        width: format.width,
        height: format.height,
        n: format.n,
        d: format.d,
    }
}

/// The picture in Y, Cb and Cr. `NotRgb` where it isn't of R, G and B; else `NoMemory` where the
/// memory was refused.
pub fn to_ycc444<A: Allocator, B: Allocator>(
    alloc: B,
    picture: &Picture<A>,
) -> Result<Picture<B>, ColourFault>
    ensures made { IfOk result (λ p. IsOf p.format (ycc444_value picture.now) p) }
    ensures format { IfOk result (λ p. IsResampled p.format picture.now.format Ycc444) }
    ensures whole { IfOk result (λ p. IsPicture p) }
    ensures rgb { (result ≡ Err NotRgb) ↔ (picture.now.format.sampling ≢ Rgb) }
    ensures only { result ≢ Err NotYcc444 }
{
    let format = picture.format();
    let Sampling::Rgb = format.sampling() else {
        return Err(ColourFault::NotRgb);
    };
    let rgb = picture.samples();
    let samples = matrixed_samples(alloc, format.depth(), rgb)?;
    Ok(Picture::from_samples(as_ycc444(format), samples))
}

/// Y, Cb and Cr of R, G and B, in the order in which 4:4:4 sends them: block after block, each but
/// the last of whole vectors.
fn matrixed_samples<B: Allocator>(
    alloc: B,
    depth: Depth,
    rgb: &[u16],
) -> Result<Vec<u16, B>, AllocError>
    requires whole { length rgb.now % 3 ≡ 0 }
    requires fit { EachIndex rgb.now (λ k. slice_index rgb.now k < 2 ^ bits_of depth) }
    ensures long { IfOk result (λ v. length v.items ≡ length rgb.now) }
    ensures each { IfOk result
        (λ v. EachIndex v.items
        (λ k. slice_index v.items k ≡ matrixed_at (bits_of depth) rgb.now k)) }
{
    let bits = depth.bits();
    let mut samples = Vec::with_capacity(alloc, rgb.len())?;
    let mut block = [0u16; BLOCK];
    let mut done = 0;
    while done < rgb.len() {
        let some = (rgb.len() - done).min(BLOCK);
        let matrixed = &mut block[..some];
        lane_kernels::ycc709(&rgb[done..done + some], bits, matrixed);
        samples.extend_from_slice(matrixed)?;
        done += some;
    }
    Ok(samples)
}
