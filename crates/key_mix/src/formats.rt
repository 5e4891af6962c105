//! The format of a job's picture, and what speaks against a job.
ghost use Rattle.std.specs.Prelude.{
  ◌≡◌,
  ◌≢◌,
  ◌<◌,
  ◌⊎◌,
  ◌∷◌,
  ◌↔◌,
  [],
  Err,
  IfErr,
  IfOk,
  IsTrue,
  OnOk,
};
ghost use Rattle.st_format.specs.declared.sampling.Sampling.TheVariants.{Rgb};
ghost use Rattle.key_mix.specs.Jobs.{IsAlike, IsJobFormat, IsRefusal, IsSoundJob, extent};
ghost use Rattle.key_mix.specs.declared.Job.TheVariants.{Key, Wipe};
ghost use Rattle.key_mix.specs.declared.faults.JobFault.TheVariants.{
  FormatsDiffer,
  KeyNotYcc,
  BadWipe,
};

use crate::{Axis, Job, JobFault, WipeShape};
use bt709_fixed::{as_ycc422, as_ycc444};
use st_format::{Format, Sampling};

/// The format of a job's picture of one picture of this format, or the first refusal.
pub(crate) fn format_of_one(job: &Job, format: Format) -> Result<Format, JobFault>
    ensures format { IfOk result (λ f. IsJobFormat f job.now (format ∷ [])) }
    ensures sound { OnOk result (IsSoundJob job.now (format ∷ [])) }
    ensures refusal { IfErr result (λ e. IsRefusal e job.now (format ∷ [])) }
{
    match job {
        Job::Limit(_) => Ok(format),
        Job::Gain(g) if *g > MOST_GAIN => Err(JobFault::BadGain),
        Job::Gain(_) => Ok(format),
        Job::ToYcc444 => match format.sampling() {
            Sampling::Rgb => Ok(as_ycc444(format)),
            _ => Err(JobFault::NotRgb),
        },
        Job::ToYcc422 => match format.sampling() {
            Sampling::Ycc444 => Ok(as_ycc422(format)),
            _ => Err(JobFault::NotYcc444),
        },
        Job::Wipe(_) | Job::Key => Err(JobFault::WrongInputCount),
    }
}

/// The greatest gain (own): four times as far, in 4096ths.
pub(crate) const MOST_GAIN: u32 = 16384;

/// The same of two pictures, of which only a wipe is made.
pub(crate) fn format_of_two(job: &Job, a: Format, b: Format) -> Result<Format, JobFault>
    ensures format { IfOk result (λ f. IsJobFormat f job.now (a ∷ b ∷ [])) }
    ensures sound { OnOk result (IsSoundJob job.now (a ∷ b ∷ [])) }
    ensures refusal { IfErr result (λ e. IsRefusal e job.now (a ∷ b ∷ [])) }
{
    match job {
        Job::Wipe(shape) => {
            test_wipe(a, b, *shape)?;
            Ok(a)
        }
        _ => Err(JobFault::WrongInputCount),
    }
}

/// The same of three pictures, of which only a key is made.
pub(crate) fn format_of_three(
    job: &Job,
    a: Format,
    b: Format,
    by: Format,
) -> Result<Format, JobFault>
    ensures format { IfOk result (λ f. IsJobFormat f job.now (a ∷ b ∷ by ∷ [])) }
    ensures sound { OnOk result (IsSoundJob job.now (a ∷ b ∷ by ∷ [])) }
    ensures refusal { IfErr result (λ e. IsRefusal e job.now (a ∷ b ∷ by ∷ [])) }
{
    match job {
        Job::Key => {
            test_key(a, b, by)?;
            Ok(a)
        }
        _ => Err(JobFault::WrongInputCount),
    }
}

/// Whether pictures of these formats can be wiped, or the first refusal.
pub(crate) fn test_wipe(a: Format, b: Format, shape: WipeShape) -> Result<(), JobFault>
    ensures same { OnOk result (a ≡ b) }
    ensures formats { (result ≡ Err FormatsDiffer) ↔ (a ≢ b) }
    ensures shape { (result ≡ Err BadWipe)
        ↔ ((a ≡ b)
        × ((extent shape.axis a < shape.position) ⊎ (extent shape.axis a < shape.soft))) }
    ensures only { IfErr result (λ e. (e ≡ FormatsDiffer) ⊎ (e ≡ BadWipe)) }
    ensures sound { OnOk result (IsSoundJob (Wipe shape) (a ∷ b ∷ [])) }
    ensures refusal { IfErr result (λ e. IsRefusal e (Wipe shape) (a ∷ b ∷ [])) }
{
    if !a.same(&b) {
        return Err(JobFault::FormatsDiffer);
    }
    let most = extent_of(shape.axis, a);
    if most < shape.position || most < shape.soft {
        return Err(JobFault::BadWipe);
    }
    Ok(())
}

/// Whether pictures of these formats can be keyed, or the first refusal.
pub(crate) fn test_key(a: Format, b: Format, by: Format) -> Result<(), JobFault>
    ensures same { OnOk result ((a ≡ b) × IsAlike a by) }
    ensures formats { (result ≡ Err FormatsDiffer) ↔ ((a ≢ b) ⊎ (IsAlike a by → ⊥)) }
    ensures ycc { (result ≡ Err KeyNotYcc)
        ↔ ((a ≡ b) × IsAlike a by × (by.sampling ≡ Rgb)) }
    ensures only { IfErr result (λ e. (e ≡ FormatsDiffer) ⊎ (e ≡ KeyNotYcc)) }
    ensures sound { OnOk result (IsSoundJob Key (a ∷ b ∷ by ∷ [])) }
    ensures refusal { IfErr result (λ e. IsRefusal e Key (a ∷ b ∷ by ∷ [])) }
{
    if !a.same(&b) || !are_alike(a, by) {
        return Err(JobFault::FormatsDiffer);
    }
    if by.sampling() == Sampling::Rgb {
        return Err(JobFault::KeyNotYcc);
    }
    Ok(())
}

/// Whether two formats have one size, depth and rate, whatever their samplings.
pub(crate) fn are_alike(left: Format, right: Format) -> bool
    ensures { IsTrue result ↔ IsAlike left right }
{
    left.depth() == right.depth()
        && left.width() == right.width()
        && left.height() == right.height()
        && left.n() == right.n()
        && left.d() == right.d()
}

/// How many columns or rows there are: at most so many a wipe's position and softness name.
pub(crate) fn extent_of(axis: Axis, format: Format) -> u32
    ensures { result ≡ extent axis format }
{
    match axis {
        Axis::Columns => format.width(),
        Axis::Rows => format.height(),
    }
}
