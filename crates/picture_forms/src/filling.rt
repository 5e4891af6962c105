//! Octets put into every step-th of a picture's samples.
ghost use Rattle.std.specs.Prelude.{◌≡◌, ◌+◌, ◌*◌, length};
ghost use Rattle.picture_forms.specs.Planes.{Inside, KeepsOthers, every_text, sample_size};

use crate::planes::{Spelling, Stride};

/// Puts the values that octets spell into the samples of a plane, `count` from the `start`-th on.
pub(crate) fn put_piece(
    spelling: Spelling,
    octets: &[u8],
    stride: Stride,
    start: usize,
    count: usize,
    samples: &mut [u16],
)
    requires inside { Inside samples.old stride.first stride.step (start + count) }
    requires room { length octets.now ≡ sample_size spelling * count }
    ensures put { every_text spelling samples.new stride.first stride.step start count
        ≡ octets.now }
    ensures others { KeepsOthers samples.old samples.new stride.first stride.step start count }
{
    match spelling {
        Spelling::One => put_ones(octets, stride, start, count, samples),
        Spelling::Little => put_little(octets, stride, start, count, samples),
        Spelling::Big => put_big(octets, stride, start, count, samples),
    }
}

/// A sample of each octet.
fn put_ones(octets: &[u8], stride: Stride, start: usize, count: usize, samples: &mut [u16])
    requires inside { Inside samples.old stride.first stride.step (start + count) }
    requires room { length octets.now ≡ count }
    ensures put { every_text Spelling.One samples.new stride.first stride.step start count
        ≡ octets.now }
    ensures others { KeepsOthers samples.old samples.new stride.first stride.step start count }
{
    for i in 0..count {
        samples[stride.first + stride.step * (start + i)] = u16::from(octets[i]);
    }
}

/// A sample of each two octets, the low one first.
fn put_little(octets: &[u8], stride: Stride, start: usize, count: usize, samples: &mut [u16])
    requires inside { Inside samples.old stride.first stride.step (start + count) }
    requires room { length octets.now ≡ 2 * count }
    ensures put { every_text Spelling.Little samples.new stride.first stride.step start count
        ≡ octets.now }
    ensures others { KeepsOthers samples.old samples.new stride.first stride.step start count }
{
    for i in 0..count {
        let value = octets[2 * i] as u16 + octets[2 * i + 1] as u16 * 256;
        samples[stride.first + stride.step * (start + i)] = value;
    }
}

/// A sample of each two octets, the high one first.
fn put_big(octets: &[u8], stride: Stride, start: usize, count: usize, samples: &mut [u16])
    requires inside { Inside samples.old stride.first stride.step (start + count) }
    requires room { length octets.now ≡ 2 * count }
    ensures put { every_text Spelling.Big samples.new stride.first stride.step start count
        ≡ octets.now }
    ensures others { KeepsOthers samples.old samples.new stride.first stride.step start count }
{
    for i in 0..count {
        let value = octets[2 * i] as u16 * 256 + octets[2 * i + 1] as u16;
        samples[stride.first + stride.step * (start + i)] = value;
    }
}
