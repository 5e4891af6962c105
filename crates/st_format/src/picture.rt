//! Pictures: a value for each sample of a raster.
ghost use Rattle.std.specs.Prelude.{◌≡◌, ◌≤◌, ◌<◌, ◌^◌, ◌↔◌, IfOk, IsTrue, Err, map, length};
ghost use Rattle.std.specs.Prelude.{slice_index};
ghost use Rattle.std.specs.List.{AllByRecursion, range_with_len};
ghost use Rattle.st_format.specs.Pgroup.{bits_of};
ghost use Rattle.st_format.specs.Picture.{FitsDepth, IsPicture, SetsOne, filled_picture, value_at};
ghost use Rattle.st_format.specs.Position.{IsPosition, component_in_row};
ghost use Rattle.st_format.specs.declared.picture.PictureFault.TheVariants.{NoMemory};

use crate::{Format, Sampling};
use std::alloc::{AllocError, Allocator, Global};
use std::marker::Model;
use thiserror::Error;

/// Why a picture was not made.
#[derive(Clone, Copy, Debug, PartialEq, Eq, Error)]
pub enum PictureFault {
    /// The allocator refused the memory for the samples. Tested last.
    #[error("the memory was refused")]
    NoMemory = 4,
    /// A value has more bits than a sample of the format.
    #[error("a value has more bits than a sample of the format")]
    ValueTooLarge,
}

impl PictureFault {
    ghost use Rattle.st_format.specs.Faults.{picture_fault_name, picture_fault_number};

    /// Its number: 4 or 5. `ValueTooLarge` is tested first.
    pub fn number(self) -> u8
        ensures { result ≡ picture_fault_number self }
    {
        self as u8
    }

    /// Its bare name, as the texts of the program have it.
    pub fn name(self) -> &'static str
        ensures { result.now ≡ picture_fault_name self }
    {
        match self {
            PictureFault::NoMemory => "NoMemory",
            PictureFault::ValueTooLarge => "ValueTooLarge",
        }
    }
}

impl From<AllocError> for PictureFault {
    ghost from_gives = { λ _ e. e ≡ NoMemory };

    fn from(_error: AllocError) -> PictureFault {
        PictureFault::NoMemory
    }
}

/// A picture: a value for each position of a format. Contracts see it as a raster of values.
#[derive(Drop)]
pub struct Picture<A: Allocator = Global> {
    format: Format,
    samples: Vec<u16, A>,
}

impl<A: Allocator> Model for Picture<A> {
    ghost use Rattle.st_format.specs.Picture.{Values, IsPicture};

    ghost Value = { Values };

    ghost view = { λ p. record { format = p.format; samples = p.samples.items } };

    ghost invariant = { λ p. IsPicture (record { format = p.format; samples = p.samples.items }) };
}

impl<A: Allocator> Picture<A> {
    /// A picture of one colour: `fill` has a value for each component (Y, Cb, Cr or R, G, B).
    ///
    /// `ValueTooLarge` where one of the three has more bits than a sample; else `NoMemory` where
    /// the memory was refused.
    pub fn new(alloc: A, format: Format, fill: [u16; 3]) -> Result<Picture<A>, PictureFault>
        ensures large { (result ≡ Err PictureFault.ValueTooLarge)
            ↔ (AllByRecursion (FitsDepth format) fill → ⊥) }
        ensures made { IfOk result (λ p. p ≡ filled_picture format fill) }
        ensures whole { IfOk result (λ p. IsPicture p) }
    {
        let most = format.max_value();
        if fill[0] > most || fill[1] > most || fill[2] > most {
            return Err(PictureFault::ValueTooLarge);
        }
        let samples = filled_samples(alloc, format, fill)?;
        Ok(Picture { format, samples })
    }

    /// The picture of these values, which are in raster order: one for each position of the format,
    /// and each fits the depth. No memory is taken.
    pub fn from_samples(format: Format, samples: Vec<u16, A>) -> Picture<A>
        requires { IsPicture (record { format = format; samples = samples.items }) }
        ensures value { result ≡ record { format = format; samples = samples.items } }
        ensures whole { IsPicture result }
    {
        Picture { format, samples }
    }

    /// The format that its samples are of, one for each of its positions.
    pub fn format(&self) -> Format
        ensures value { result ≡ self.now.format }
        ensures whole { IsPicture self.now }
    {
        self.format
    }

    /// The value at a row, a column and a component (0 to 2: Y, Cb, Cr or R, G, B).
    pub fn get(&self, row: u32, column: u32, component: u8) -> u16
        requires { IsPosition (record { row = row; column = column; component = component })
            self.now.format }
        ensures value { result
            ≡ value_at self.now (record { row = row; column = column; component = component }) }
        ensures fits { FitsDepth self.now.format result }
    {
        self.samples[self.format.sample_number(row, column, component)]
    }

    /// Sets the value at a row, a column and a component (0 to 2: Y, Cb, Cr or R, G, B), and no
    /// other.
    pub fn set(&mut self, row: u32, column: u32, component: u8, value: u16)
        requires place { IsPosition (record { row = row; column = column; component = component })
            self.old.format }
        requires fits { FitsDepth self.old.format value }
        ensures one { SetsOne self.old self.new
            (record { row = row; column = column; component = component }) value }
        ensures whole { IsPicture self.new }
    {
        let number = self.format.sample_number(row, column, component);
        self.samples[number] = value;
    }

    /// All its values, in raster order and in the order in which they are sent.
    pub fn samples(&self) -> &[u16]
        ensures value { result.now ≡ self.now.samples }
        ensures whole { IsPicture self.now }
    {
        &self.samples
    }

    /// All its values, in raster order, given up. No memory is taken.
    pub fn into_samples(self) -> Vec<u16, A>
        ensures value { result.items ≡ self.samples }
        ensures whole { IsPicture self }
    {
        self.samples
    }

    /// A copy of its own, over another allocator. `NoMemory` where the memory was refused.
    pub fn try_copy<B: Allocator>(&self, alloc: B) -> Result<Picture<B>, PictureFault>
        ensures same { IfOk result (λ p. p ≡ self.now) }
        ensures only { (result ≡ Err PictureFault.ValueTooLarge) → ⊥ }
        ensures whole { IsPicture self.now }
    {
        let samples = Vec::from_slice(alloc, &self.samples)?;
        Ok(Picture {
            format: self.format,
            samples,
        })
    }

    /// Whether two pictures have one format and the same values, whatever their allocators.
    pub fn same<B: Allocator>(&self, other: &Picture<B>) -> bool
        ensures { IsTrue result ↔ (self.now ≡ other.now) }
    {
        self.format.same(&other.format) && same_samples(&self.samples, &other.samples)
    }
}

fn same_samples(left: &[u16], right: &[u16]) -> bool
    ensures { IsTrue result ↔ (left.now ≡ right.now) }
{
    left == right
}

/// The values of a picture of one colour, in raster order; an `Err` where the memory was refused.
fn filled_samples<A: Allocator>(
    alloc: A,
    format: Format,
    fill: [u16; 3],
) -> Result<Vec<u16, A>, AllocError>
    ensures { IfOk result (λ v. v.items ≡ (filled_picture format fill).samples) }
{
    let mut samples = Vec::from_elem(alloc, 0, format.sample_count())?;
    fill_samples(format.sampling, fill, samples.as_mut_slice());
    Ok(samples)
}

/// Gives each sample the value of its component: samples of a row, from its first on, or of rows.
pub fn fill_samples(sampling: Sampling, fill: [u16; 3], samples: &mut [u16])
    ensures { samples.new
        ≡ map (λ k. slice_index fill (component_in_row sampling k))
        (range_with_len 0 (length samples.old)) }
{
    for (number, sample) in samples.iter_mut().enumerate() {
        *sample = fill[sampling.component_in_row(number)];
    }
}
