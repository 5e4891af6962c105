//! Every step-th of a picture's samples, as octets.
ghost use Rattle.std.specs.Prelude.{◌≡◌, ◌≤◌, ◌<◌, ◌+◌, ◌*◌, length, OnErr, OnOk};
ghost use Rattle.std.specs.List.{All};
ghost use Rattle.st_format.specs.Device.{CountsFaults};
ghost use Rattle.picture_forms.specs.Planes.{Inside, every, every_text, sample_limit};
ghost use Rattle.picture_forms.specs.Planes.{sample_size};
ghost use Rattle.picture_forms.specs.Writing.{Writes, WritesPart};

use crate::sinking::write_all;
use st_format::{ByteSink, DeviceFault};

/// How many samples go at once.
pub(crate) const PIECE: usize = 2048;

/// How a sample stands in a file.
#[derive(Clone, Copy)]
pub enum Spelling {
    /// An octet.
    One,
    /// Two octets, the low one first.
    Little,
    /// Two octets, the high one first.
    Big,
}

impl Spelling {
    /// How many octets a sample takes.
    pub fn size(self) -> usize
        ensures value { result ≡ sample_size self }
        ensures few { (0 < result) × (result ≤ 2) }
    {
        match self {
            Spelling::One => 1,
            Spelling::Little | Spelling::Big => 2,
        }
    }
}

/// Which samples of a list a plane has: the first, and each that is so many behind.
#[derive(Clone, Copy)]
pub struct Stride {
    pub first: usize,
    pub step: usize,
}

/// Spells samples of a plane, `count` from the `start`-th on, into `octets`, which have just the
/// room.
pub fn spell(
    spelling: Spelling,
    samples: &[u16],
    stride: Stride,
    start: usize,
    count: usize,
    octets: &mut [u8],
)
    requires inside { Inside samples.now stride.first stride.step (start + count) }
    requires fit { All (λ v. v < sample_limit spelling) samples.now }
    requires room { length octets.old ≡ sample_size spelling * count }
    ensures { octets.new
        ≡ every_text spelling samples.now stride.first stride.step start count }
{
    match spelling {
        Spelling::One => spell_one(samples, stride, start, count, octets),
        Spelling::Little => spell_little(samples, stride, start, count, octets),
        Spelling::Big => spell_big(samples, stride, start, count, octets),
    }
}

/// An octet for each sample, in a loop of its own for each stride of a component.
fn spell_one(samples: &[u16], stride: Stride, start: usize, count: usize, octets: &mut [u8])
    requires inside { Inside samples.now stride.first stride.step (start + count) }
    requires fit { All (λ v. v < 256) samples.now }
    requires room { length octets.old ≡ count }
    ensures { octets.new
        ≡ every_text Spelling.One samples.now stride.first stride.step start count }
{
    match (stride.first, stride.step) {
        (1, 2) => spell_one_by(samples, Stride { first: 1, step: 2 }, start, count, octets),
        (0, 4) => spell_one_by(samples, Stride { first: 0, step: 4 }, start, count, octets),
        (2, 4) => spell_one_by(samples, Stride { first: 2, step: 4 }, start, count, octets),
        (1, 3) => spell_one_by(samples, Stride { first: 1, step: 3 }, start, count, octets),
        (0, 3) => spell_one_by(samples, Stride { first: 0, step: 3 }, start, count, octets),
        (2, 3) => spell_one_by(samples, Stride { first: 2, step: 3 }, start, count, octets),
        _ => spell_one_by(samples, stride, start, count, octets),
    }
}

/// The same in a loop that is compiled for each stride that its callers write out.
#[inline(always)]
fn spell_one_by(samples: &[u16], stride: Stride, start: usize, count: usize, octets: &mut [u8])
    requires inside { Inside samples.now stride.first stride.step (start + count) }
    requires fit { All (λ v. v < 256) samples.now }
    requires room { length octets.old ≡ count }
    ensures { octets.new
        ≡ every_text Spelling.One samples.now stride.first stride.step start count }
{
    for i in 0..count {
        octets[i] = sample_of(samples, stride, start + i) as u8;
    }
}

/// Two octets for each sample, the low one first.
fn spell_little(samples: &[u16], stride: Stride, start: usize, count: usize, octets: &mut [u8])
    requires inside { Inside samples.now stride.first stride.step (start + count) }
    requires room { length octets.old ≡ 2 * count }
    ensures { octets.new
        ≡ every_text Spelling.Little samples.now stride.first stride.step start count }
{
    match (stride.first, stride.step) {
        (1, 2) => spell_little_by(samples, Stride { first: 1, step: 2 }, start, count, octets),
        (0, 4) => spell_little_by(samples, Stride { first: 0, step: 4 }, start, count, octets),
        (2, 4) => spell_little_by(samples, Stride { first: 2, step: 4 }, start, count, octets),
        (1, 3) => spell_little_by(samples, Stride { first: 1, step: 3 }, start, count, octets),
        (0, 3) => spell_little_by(samples, Stride { first: 0, step: 3 }, start, count, octets),
        (2, 3) => spell_little_by(samples, Stride { first: 2, step: 3 }, start, count, octets),
        _ => spell_little_by(samples, stride, start, count, octets),
    }
}

/// The same in a loop that is compiled for each stride that its callers write out.
#[inline(always)]
fn spell_little_by(samples: &[u16], stride: Stride, start: usize, count: usize, octets: &mut [u8])
    requires inside { Inside samples.now stride.first stride.step (start + count) }
    requires room { length octets.old ≡ 2 * count }
    ensures { octets.new
        ≡ every_text Spelling.Little samples.now stride.first stride.step start count }
{
    for i in 0..count {
        let value = sample_of(samples, stride, start + i);
        octets[2 * i] = (value % 256) as u8;
        octets[2 * i + 1] = (value / 256) as u8;
    }
}

/// Two octets for each sample, the high one first.
fn spell_big(samples: &[u16], stride: Stride, start: usize, count: usize, octets: &mut [u8])
    requires inside { Inside samples.now stride.first stride.step (start + count) }
    requires room { length octets.old ≡ 2 * count }
    ensures { octets.new
        ≡ every_text Spelling.Big samples.now stride.first stride.step start count }
{
    for i in 0..count {
        let value = sample_of(samples, stride, start + i);
        octets[2 * i] = (value / 256) as u8;
        octets[2 * i + 1] = (value % 256) as u8;
    }
}

/// The `k`-th sample of a plane.
#[inline(always)]
fn sample_of(samples: &[u16], stride: Stride, k: usize) -> u16
    requires { stride.first + stride.step * k < length samples.now }
    ensures { result ≡ every samples.now stride.first stride.step k }
{
    samples[stride.first + stride.step * k]
}

/// Writes the first `count` samples of a plane. No memory is taken.
pub(crate) fn write_plane<K: ByteSink>(
    sink: &mut K,
    spelling: Spelling,
    samples: &[u16],
    stride: Stride,
    count: usize,
) -> Result<(), DeviceFault>
    requires inside { Inside samples.now stride.first stride.step count }
    requires fit { All (λ v. v < sample_limit spelling) samples.now }
    ensures ok { OnOk result (Writes (K.held sink.old) (K.held sink.new)
        (K.took sink.old) (K.took sink.new)
        (every_text spelling samples.now stride.first stride.step 0 count)) }
    ensures fault { OnErr result (WritesPart (K.held sink.old) (K.held sink.new)
        (K.took sink.old) (K.took sink.new)
        (every_text spelling samples.now stride.first stride.step 0 count)) }
    ensures counted { CountsFaults (K.failures sink.old) (K.failures sink.new) result }
    ensures names { K.names sink.new ≡ K.names sink.old }
{
    let mut piece = [0u8; 2 * PIECE];
    write_pieces(sink, spelling, samples, stride, count, &mut piece)
}

/// The same, in pieces that are spelled into `piece`.
fn write_pieces<K: ByteSink>(
    sink: &mut K,
    spelling: Spelling,
    samples: &[u16],
    stride: Stride,
    count: usize,
    piece: &mut [u8],
) -> Result<(), DeviceFault>
    requires inside { Inside samples.now stride.first stride.step count }
    requires fit { All (λ v. v < sample_limit spelling) samples.now }
    requires room { length piece.old ≡ 4096 }
    ensures ok { OnOk result (Writes (K.held sink.old) (K.held sink.new)
        (K.took sink.old) (K.took sink.new)
        (every_text spelling samples.now stride.first stride.step 0 count)) }
    ensures fault { OnErr result (WritesPart (K.held sink.old) (K.held sink.new)
        (K.took sink.old) (K.took sink.new)
        (every_text spelling samples.now stride.first stride.step 0 count)) }
    ensures counted { CountsFaults (K.failures sink.old) (K.failures sink.new) result }
    ensures names { K.names sink.new ≡ K.names sink.old }
{
    let mut done = 0;
    while done < count {
        let n = (count - done).min(PIECE);
        let size = spelling.size() * n;
        write_piece(sink, spelling, samples, stride, done, n, &mut piece[..size])?;
        done += n;
    }
    Ok(())
}

/// Spells samples and writes them.
fn write_piece<K: ByteSink>(
    sink: &mut K,
    spelling: Spelling,
    samples: &[u16],
    stride: Stride,
    start: usize,
    count: usize,
    octets: &mut [u8],
) -> Result<(), DeviceFault>
    requires inside { Inside samples.now stride.first stride.step (start + count) }
    requires fit { All (λ v. v < sample_limit spelling) samples.now }
    requires room { length octets.old ≡ sample_size spelling * count }
    ensures room { length octets.new ≡ length octets.old }
    ensures ok { OnOk result (Writes (K.held sink.old) (K.held sink.new)
        (K.took sink.old) (K.took sink.new)
        (every_text spelling samples.now stride.first stride.step start count)) }
    ensures fault { OnErr result (WritesPart (K.held sink.old) (K.held sink.new)
        (K.took sink.old) (K.took sink.new)
        (every_text spelling samples.now stride.first stride.step start count)) }
    ensures counted { CountsFaults (K.failures sink.old) (K.failures sink.new) result }
    ensures names { K.names sink.new ≡ K.names sink.old }
{
    spell(spelling, samples, stride, start, count, octets);
    write_all(sink, octets)
}
