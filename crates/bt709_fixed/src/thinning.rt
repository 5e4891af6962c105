//! From 4:4:4 to 4:2:2, by the Cb and Cr of the even columns.
ghost use Rattle.std.specs.Prelude.{
  ◌≡◌,
  ◌*◌,
  ◌/◌,
  EachIndex,
  length,
  slice_index,
  IfOk,
  Err,
  ◌↔◌,
  ◌≢◌,
};
ghost use Rattle.st_format.specs.Picture.{IsPicture};
ghost use Rattle.st_format.specs.declared.sampling.Sampling.TheVariants.{Ycc422, Ycc444};
ghost use Rattle.bt709_fixed.specs.Operations.{IsOf, IsResampled, ycc422_value};
ghost use Rattle.bt709_fixed.specs.Thinned.{thinned_number};
ghost use Rattle.bt709_fixed.specs.declared.faults.ColourFault.TheVariants.{NotRgb, NotYcc444};

use crate::faults::ColourFault;
use st_format::{Format, Picture, Sampling};
use std::alloc::{AllocError, Allocator};

/// The format with Cb and Cr at the even columns alone: that of what [`to_ycc422`] gives.
pub fn as_ycc422(format: Format) -> Format
    requires { format.sampling ≡ Ycc444 }
    ensures { IsResampled result format Ycc422 }
{
    Format {
        sampling: Sampling::Ycc422,
        depth: format.depth,
        width: format.width,
        height: format.height,
        n: format.n,
        d: format.d,
    }
}

/// The picture with the Cb and Cr of the even columns alone. `NotYcc444` where it hasn't Y, Cb and
/// Cr at each column; else `NoMemory` where the memory was refused.
pub fn to_ycc422<A: Allocator, B: Allocator>(
    alloc: B,
    picture: &Picture<A>,
) -> Result<Picture<B>, ColourFault>
    ensures made { IfOk result (λ p. IsOf p.format (ycc422_value picture.now) p) }
    ensures format { IfOk result (λ p. IsResampled p.format picture.now.format Ycc422) }
    ensures whole { IfOk result (λ p. IsPicture p) }
    ensures ycc444 { (result ≡ Err NotYcc444) ↔ (picture.now.format.sampling ≢ Ycc444) }
    ensures only { result ≢ Err NotRgb }
{
    let format = picture.format();
    let Sampling::Ycc444 = format.sampling() else {
        return Err(ColourFault::NotYcc444);
    };
    let full = picture.samples();
    let samples = thinned_samples(alloc, full)?;
    Ok(Picture::from_samples(as_ycc422(format), samples))
}

/// The samples of pairs of pixels that 4:2:2 keeps of 4:4:4: four of six, block after block.
fn thinned_samples<B: Allocator>(alloc: B, full: &[u16]) -> Result<Vec<u16, B>, AllocError>
    ensures long { IfOk result (λ v. length v.items ≡ 4 * (length full.now / 6)) }
    ensures each { IfOk result (λ v. EachIndex v.items (λ k.
        slice_index v.items k ≡ slice_index full.now (thinned_number k))) }
{
    let pairs = full.len() / 6;
    let mut samples = Vec::with_capacity(alloc, 4 * pairs)?;
    let mut block = [0u16; 1024];
    let mut done = 0;
    while done < pairs {
        let some = (pairs - done).min(256);
        let thinned = &mut block[..4 * some];
        thin_samples(&full[6 * done..6 * (done + some)], thinned);
        samples.extend_from_slice(thinned)?;
        done += some;
    }
    Ok(samples)
}

/// Of each two pixels of 4:4:4 takes Cb, Y and Cr of the first, and Y of the second.
fn thin_samples(full: &[u16], out: &mut [u16])
    requires lengths { length out.old ≡ 4 * (length full.now / 6) }
    ensures long { length out.new ≡ length out.old }
    ensures each { EachIndex out.new (λ k.
        slice_index out.new k ≡ slice_index full.now (thinned_number k)) }
{
    for pair in 0..out.len() / 4 {
        out[4 * pair] = full[6 * pair];
        out[4 * pair + 1] = full[6 * pair + 1];
        out[4 * pair + 2] = full[6 * pair + 2];
        out[4 * pair + 3] = full[6 * pair + 4];
    }
}
