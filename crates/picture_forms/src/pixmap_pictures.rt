//! Reading the pictures of portable pixmaps.
ghost use Rattle.std.specs.Prelude.{◌≡◌, length, IfErr, IfOk, OnOk};
ghost use Rattle.st_format.specs.Given.{GaveValue, Takes};
ghost use Rattle.st_format.specs.Picture.{IsPicture};
ghost use Rattle.st_format.specs.Position.{sample_count};
ghost use Rattle.picture_forms.specs.Faults.{CountsDevice};
ghost use Rattle.picture_forms.specs.Layouts.{IsRgb, pixels_text};
ghost use Rattle.picture_forms.specs.Pixmaps.{pixels_walk};
ghost use Rattle.picture_forms.specs.Walks.{Fails, GaveFault, Reads, Refuses};

use crate::fault::FormFault;
use crate::frames::fit;
use crate::pixmap_reading::read_pixmap_samples;
use st_format::{ByteSource, Format, Picture};
use std::alloc::Allocator;

/// Reads the picture that stands behind a pixmap's head, of the format that
/// [`read_pixmap_head`](crate::read_pixmap_head) answered. The picture's samples are the one memory
/// that is taken.
///
/// # Errors
///
/// `NoMemory`, before an octet is read; `Truncated` where the source ends within the samples;
/// `ValueTooLarge` where one of them, which are whole, has more bits than the depth; and `Device`.
pub fn read_pixmap_raster<A: Allocator, S: ByteSource>(
    alloc: A,
    source: &mut S,
    format: &Format,
) -> Result<Picture<A>, FormFault>
    requires { IsRgb format.now.sampling }
    ensures format { IfOk result (λ p. p.format ≡ format.now) }
    ensures whole { IfOk result (λ p. IsPicture p) }
    ensures read { IfOk result (λ p. Takes (pixels_walk format.now)
        (S.to_give source.old) (S.to_give source.new) (pixels_text p)) }
    ensures fault { IfErr result (λ f. Fails (pixels_walk format.now) (S.to_give source.old) f) }
    // The same of what was given, of every device.
    ensures gave { IfOk result (λ p. GaveValue (pixels_walk format.now)
        (S.gave source.old) (S.gave source.new) (pixels_text p)) }
    ensures gave_wrong { IfErr result (λ f. GaveFault (pixels_walk format.now)
        (S.gave source.old) (S.gave source.new) (S.ended source.new) f) }
    ensures counted { CountsDevice (S.failures source.old) (S.failures source.new) result }
    ensures names { S.names source.new ≡ S.names source.old }
{
    let mut samples = Vec::from_elem(alloc, 0u16, format.sample_count())?;
    read_fitting(source, format, samples.as_mut_slice())?;
    Ok(Picture::from_samples(*format, samples))
}

/// Reads the samples, and finds that each fits the depth.
fn read_fitting<S: ByteSource>(
    source: &mut S,
    format: &Format,
    samples: &mut [u16],
) -> Result<(), FormFault>
    requires { length samples.old ≡ sample_count format.now }
    ensures long { length samples.new ≡ length samples.old }
    ensures fit { OnOk result
        (IsPicture (record { format = format.now; samples = samples.new })) }
    ensures read { OnOk result (Reads (pixels_walk format.now)
        (S.to_give source.old) (S.to_give source.new) (S.gave source.old) (S.gave source.new)
        (pixels_text (record { format = format.now; samples = samples.new }))) }
    ensures fault { IfErr result (λ f. Refuses (pixels_walk format.now)
        (S.to_give source.old) (S.to_give source.new)
        (S.gave source.old) (S.gave source.new) (S.ended source.new) f) }
    ensures counted { CountsDevice (S.failures source.old) (S.failures source.new) result }
    ensures names { S.names source.new ≡ S.names source.old }
{
    read_pixmap_samples(source, format, samples)?;
    if !fit(samples, format) {
        return Err(FormFault::ValueTooLarge);
    }
    Ok(())
}
