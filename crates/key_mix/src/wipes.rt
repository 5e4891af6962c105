//! A wipe from one picture to another.
ghost use Rattle.std.specs.Prelude.{
  ◌≡◌,
  ◌≢◌,
  ◌≤◌,
  ◌<◌,
  ◌^◌,
  ◌⊎◌,
  ◌↔◌,
  ◌∷◌,
  [],
  EachIndex,
  length,
  slice_index,
  IfOk,
  OnOk,
  Err,
};
ghost use Rattle.std.specs.Result.{IfErr};
ghost use Rattle.st_format.specs.Picture.{IsPicture};
ghost use Rattle.st_format.specs.Position.{row_samples, sample_count};
ghost use Rattle.lane_kernels.specs.Formulas.{weight};
ghost use Rattle.bt709_fixed.specs.Operations.{IsOf};
ghost use Rattle.key_mix.specs.Jobs.{IsFault, IsSoundJob, extent, wipe_value};
ghost use Rattle.key_mix.specs.Rows.{next_weight, row_weight, wiped_at};
ghost use Rattle.key_mix.specs.declared.Job.TheVariants.{Wipe};
ghost use Rattle.key_mix.specs.declared.faults.JobFault.TheVariants.{FormatsDiffer, BadWipe};

use crate::formats::test_wipe;
use crate::rows::column_in_row;
use crate::{Axis, JobFault, WipeShape};
use st_format::{Format, Picture, Sampling};
use std::alloc::{AllocError, Allocator};

/// The wipe from `a` to `b`. `FormatsDiffer` where the two have two formats; else `BadWipe` where
/// the position or the softness is above the width or height that the axis names; else `NoMemory`
/// where the memory was refused.
pub fn wipe<A: Allocator, B: Allocator, C: Allocator + Copy>(
    alloc: C,
    a: &Picture<A>,
    b: &Picture<B>,
    shape: WipeShape,
) -> Result<Picture<C>, JobFault>
    ensures made { IfOk result (λ p. IsOf a.now.format (wipe_value shape a.now b.now) p) }
    ensures whole { IfOk result (λ p. IsPicture p) }
    ensures formats { (result ≡ Err FormatsDiffer) ↔ (a.now.format ≢ b.now.format) }
    ensures shape { (result ≡ Err BadWipe)
        ↔ ((a.now.format ≡ b.now.format)
        × ((extent shape.axis a.now.format < shape.position)
        ⊎ (extent shape.axis a.now.format < shape.soft))) }
    ensures sound { OnOk result (IsSoundJob (Wipe shape) (a.now.format ∷ b.now.format ∷ [])) }
    ensures fault { IfErr result (λ e.
        IsFault e (Wipe shape) (a.now.format ∷ b.now.format ∷ [])) }
{
    let format = a.format();
    test_wipe(format, b.format(), shape)?;
    let samples = wiped_samples(alloc, format, shape, a.samples(), b.samples())?;
    Ok(Picture::from_samples(format, samples))
}

/// The weight at a column or row, in 256ths of the second picture.
#[tactic(auto, using(crate::proofs::Mixed::weights))]
fn weight_at(shape: WipeShape, place: usize) -> u16
    requires { place < 2 ^ 32 }
    ensures { result ≡ weight place shape.position shape.soft }
{
    let position = shape.position as usize;
    let soft = shape.soft as usize;
    if place < position {
        0
    } else if place - position >= soft {
        256
    } else {
        ((place - position) * 256 / soft) as u16
    }
}

/// The samples of a wipe between two lists of one format.
fn wiped_samples<C: Allocator + Copy>(
    alloc: C,
    format: Format,
    shape: WipeShape,
    a: &[u16],
    b: &[u16],
) -> Result<Vec<u16, C>, AllocError>
    requires of_a { length a.now ≡ sample_count format }
    requires of_b { length b.now ≡ sample_count format }
    ensures long { IfOk result (λ v. length v.items ≡ sample_count format) }
    ensures each { IfOk result (λ v. EachIndex v.items (λ k.
        slice_index v.items k ≡ wiped_at shape format a.now b.now k)) }
{
    let mut weights = Vec::from_elem(alloc, 0, format.row_samples())?;
    let mut samples = Vec::from_elem(alloc, 0, format.sample_count())?;
    wipe_rows(
        format,
        shape,
        a,
        b,
        weights.as_mut_slice(),
        samples.as_mut_slice(),
    );
    Ok(samples)
}

/// Wipes row by row. `weights` is room for the weights of a row.
fn wipe_rows(
    format: Format,
    shape: WipeShape,
    a: &[u16],
    b: &[u16],
    weights: &mut [u16],
    out: &mut [u16],
)
    requires of_a { length a.now ≡ sample_count format }
    requires of_b { length b.now ≡ sample_count format }
    requires of_row { length weights.old ≡ row_samples format }
    requires of_out { length out.old ≡ sample_count format }
    ensures long { length out.new ≡ length out.old }
    ensures each { EachIndex out.new (λ k.
        slice_index out.new k ≡ wiped_at shape format a.now b.now k) }
{
    let sampling = format.sampling();
    let height = format.height();
    let n = format.row_samples();
    first_weights(sampling, shape, weights);
    let mut at = 0;
    for row in 0..height {
        let end = at + n;
        lane_kernels::mix256(&a[at..end], &b[at..end], weights, &mut out[at..end]);
        next_weights(shape, row + 1, weights);
        at = end;
    }
}

fn first_weights(sampling: Sampling, shape: WipeShape, weights: &mut [u16])
    requires { length weights.old ≤ 32768 }
    ensures long { length weights.new ≡ length weights.old }
    ensures each { EachIndex weights.new (λ j.
        slice_index weights.new j ≡ row_weight shape sampling 0 j) }
{
    for (j, weight) in weights.iter_mut().enumerate() {
        let place = match shape.axis {
            Axis::Columns => column_in_row(sampling, j),
            Axis::Rows => 0,
        };
        *weight = weight_at(shape, place);
    }
}

/// The weights of a row, from those of the row above it: along columns all rows have the same.
fn next_weights(shape: WipeShape, row: u32, weights: &mut [u16])
    ensures long { length weights.new ≡ length weights.old }
    ensures each { EachIndex weights.new (λ j.
        slice_index weights.new j
        ≡ next_weight shape.axis (weight row shape.position shape.soft)
        (slice_index weights.old j)) }
{
    match shape.axis {
        Axis::Columns => {}
        Axis::Rows => fill_weights(weight_at(shape, row as usize), weights),
    }
}

fn fill_weights(weight: u16, weights: &mut [u16])
    ensures long { length weights.new ≡ length weights.old }
    ensures each { EachIndex weights.new (λ j. slice_index weights.new j ≡ weight) }
{
    for j in 0..weights.len() {
        weights[j] = weight;
    }
}
