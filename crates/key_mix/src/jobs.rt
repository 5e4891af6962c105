//! Running a job on pictures.
ghost use Rattle.std.specs.Prelude.{◌≡◌, ◌∷◌, [], IfErr, IfOk, OnOk};
ghost use Rattle.st_format.specs.Picture.{IsPicture};
ghost use Rattle.key_mix.specs.Jobs.{IsFault, IsJobPicture, IsSoundJob, formats_of};

use crate::formats::MOST_GAIN;
use crate::{Job, JobFault, key, wipe};
use bt709_fixed::{gained_copy, limited_copy, to_ycc422, to_ycc444};
use st_format::Picture;
use std::alloc::Allocator;

/// The picture that a job makes of pictures: one for `Limit`, `Gain`, `ToYcc444` and `ToYcc422`;
/// two for `Wipe`, from the first to the second; three for `Key`, the third being the key.
///
/// # Errors
///
/// The first of these: `WrongInputCount` where the job takes more or fewer pictures; `BadGain`
/// where the gain is above 16384; what [`wipe`], [`key`], [`to_ycc444`](bt709_fixed::to_ycc444) and
/// [`to_ycc422`](bt709_fixed::to_ycc422) refuse; `NoMemory` where the memory was refused.
pub fn run_job<A: Allocator, C: Allocator + Copy>(
    alloc: C,
    job: &Job,
    inputs: &[Picture<A>],
) -> Result<Picture<C>, JobFault>
    ensures made { IfOk result (λ p. IsJobPicture p job.now inputs.now) }
    ensures whole { IfOk result (λ p. IsPicture p) }
    ensures sound { OnOk result (IsSoundJob job.now (formats_of inputs.now)) }
    ensures fault { IfErr result (λ e. IsFault e job.now (formats_of inputs.now)) }
{
    match inputs.len() {
        1 => run_on_one(alloc, job, &inputs[0]),
        2 => run_on_two(alloc, job, &inputs[0], &inputs[1]),
        3 => run_on_three(alloc, job, &inputs[0], &inputs[1], &inputs[2]),
        _ => Err(JobFault::WrongInputCount),
    }
}

/// The same of one picture. It stays the caller's, so a range and a gain are made of a copy.
fn run_on_one<A: Allocator, C: Allocator + Copy>(
    alloc: C,
    job: &Job,
    picture: &Picture<A>,
) -> Result<Picture<C>, JobFault>
    ensures made { IfOk result (λ p. IsJobPicture p job.now (picture.now ∷ [])) }
    ensures whole { IfOk result (λ p. IsPicture p) }
    ensures sound { OnOk result (IsSoundJob job.now (picture.now.format ∷ [])) }
    ensures fault { IfErr result (λ e. IsFault e job.now (picture.now.format ∷ [])) }
{
    match job {
        Job::Limit(range) => Ok(limited_copy(alloc, picture, *range)?),
        Job::Gain(g) if *g > MOST_GAIN => Err(JobFault::BadGain),
        Job::Gain(g) => Ok(gained_copy(alloc, picture, *g)?),
        Job::ToYcc444 => Ok(to_ycc444(alloc, picture)?),
        Job::ToYcc422 => Ok(to_ycc422(alloc, picture)?),
        Job::Wipe(_) | Job::Key => Err(JobFault::WrongInputCount),
    }
}

/// The same of two pictures, of which only a wipe is made.
fn run_on_two<A: Allocator, C: Allocator + Copy>(
    alloc: C,
    job: &Job,
    a: &Picture<A>,
    b: &Picture<A>,
) -> Result<Picture<C>, JobFault>
    ensures made { IfOk result (λ p. IsJobPicture p job.now (a.now ∷ b.now ∷ [])) }
    ensures whole { IfOk result (λ p. IsPicture p) }
    ensures sound { OnOk result (IsSoundJob job.now (a.now.format ∷ b.now.format ∷ [])) }
    ensures fault { IfErr result (λ e. IsFault e job.now (a.now.format ∷ b.now.format ∷ [])) }
{
    match job {
        Job::Wipe(shape) => wipe(alloc, a, b, *shape),
        _ => Err(JobFault::WrongInputCount),
    }
}

/// The same of three pictures, of which only a key is made.
fn run_on_three<A: Allocator, C: Allocator + Copy>(
    alloc: C,
    job: &Job,
    a: &Picture<A>,
    b: &Picture<A>,
    by: &Picture<A>,
) -> Result<Picture<C>, JobFault>
    ensures made { IfOk result (λ p. IsJobPicture p job.now (a.now ∷ b.now ∷ by.now ∷ [])) }
    ensures whole { IfOk result (λ p. IsPicture p) }
    ensures sound { OnOk result
        (IsSoundJob job.now (a.now.format ∷ b.now.format ∷ by.now.format ∷ [])) }
    ensures fault { IfErr result (λ e.
        IsFault e job.now (a.now.format ∷ b.now.format ∷ by.now.format ∷ [])) }
{
    match job {
        Job::Key => key(alloc, a, b, by),
        _ => Err(JobFault::WrongInputCount),
    }
}
