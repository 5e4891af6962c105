//! Reading the pictures of YUV4MPEG2 streams.
ghost use Rattle.std.specs.Prelude.{◌≡◌, ◌<◌, ◌++◌, List, ℕ, Some, length, IfErr, IfOk};
ghost use Rattle.std.specs.Prelude.{MatchResult};
ghost use Rattle.st_format.specs.Given.{GavePart};
ghost use Rattle.st_format.specs.History.{IsRead};
ghost use Rattle.st_format.specs.Picture.{IsPicture, Values};
ghost use Rattle.picture_forms.specs.Faults.{CountsDevice, IfContent, IsMachine};
ghost use Rattle.picture_forms.specs.Frames.{GaveFrame, TakesFrame, frame_walk};
ghost use Rattle.picture_forms.specs.Layouts.{IsYcc, frame_text};
ghost use Rattle.picture_forms.specs.Walks.{Fails, GaveFault};

use crate::fault::FormFault;
use crate::frames::read_samples;
use st_format::{ByteSource, Format, Picture};
use std::alloc::Allocator;

/// Reads the next picture of a stream of pictures of this format, which are YCbCr; none where the
/// source is at its end. The picture's samples are the one memory that is taken.
///
/// # Errors
///
/// `NoMemory`, before an octet is read; then the first fault in the order of the octets, or one of
/// the device before it: `Truncated` where there are fewer than six, `BadHeader` where these aren't
/// `FRAME` and LF or a space, or 256 behind a space have no LF, `Truncated` where the source ends
/// before it or within the planes, and `ValueTooLarge` where a value of the planes, which are
/// whole, has more bits than the depth.
pub fn read_y4m_frame<A: Allocator, S: ByteSource>(
    alloc: A,
    source: &mut S,
    format: &Format,
) -> Result<Option<Picture<A>>, FormFault>
    requires { IsYcc format.now.sampling }
    ensures found { IfOk result (λ o.
        TakesFrame format.now (S.to_give source.old) (S.to_give source.new) o) }
    ensures fault { IfErr result (λ f. Fails (frame_walk format.now) (S.to_give source.old) f) }
    // The same of what was given, of every device.
    ensures gave { IfOk result (λ o. GaveFrame format.now
        (S.gave source.old) (S.gave source.new) (S.ended source.new) o) }
    ensures gave_wrong { IfErr result (λ f. GaveFault (frame_walk format.now)
        (S.gave source.old) (S.gave source.new) (S.ended source.new) f) }
    // A fault of the content comes behind one octet at least: the end is none.
    ensures begun { IfErr result (λ f. IfContent f
        (length (S.gave source.old) < length (S.gave source.new))) }
    // At any fault, the device's too, what was given is no frame: a first part, or a wrong one.
    ensures gave_part { IfErr result
        (λ _. GavePart (frame_walk format.now) (S.gave source.old) (S.gave source.new)) }
    // What is written of a picture is read as that picture, unless memory or device fail.
    ensures only { (v : Values) (behind : List ℕ) → IsPicture v → v.format ≡ format.now
        → S.to_give source.old ≡ Some (frame_text v ++ behind)
        → MatchResult result (λ o. (o ≡ Some v) × (S.to_give source.new ≡ Some behind))
        IsMachine }
    ensures gave_only { (v : Values) (behind : List ℕ) → IsPicture v → v.format ≡ format.now
        → IsRead (S.gave source.old) (S.gave source.new) (S.ended source.new)
        (frame_text v ++ behind)
        → MatchResult result
        (λ o. (o ≡ Some v) × (S.gave source.new ≡ S.gave source.old ++ frame_text v)) IsMachine }
    ensures counted { CountsDevice (S.failures source.old) (S.failures source.new) result }
    ensures names { S.names source.new ≡ S.names source.old }
{
    read_frame(alloc, source, format)
}

/// The same without what follows from it.
fn read_frame<A: Allocator, S: ByteSource>(
    alloc: A,
    source: &mut S,
    format: &Format,
) -> Result<Option<Picture<A>>, FormFault>
    requires { IsYcc format.now.sampling }
    ensures found { IfOk result (λ o.
        TakesFrame format.now (S.to_give source.old) (S.to_give source.new) o) }
    ensures fault { IfErr result (λ f. Fails (frame_walk format.now) (S.to_give source.old) f) }
    ensures gave { IfOk result (λ o. GaveFrame format.now
        (S.gave source.old) (S.gave source.new) (S.ended source.new) o) }
    ensures gave_wrong { IfErr result (λ f. GaveFault (frame_walk format.now)
        (S.gave source.old) (S.gave source.new) (S.ended source.new) f) }
    ensures begun { IfErr result (λ f. IfContent f
        (length (S.gave source.old) < length (S.gave source.new))) }
    ensures gave_part { IfErr result
        (λ _. GavePart (frame_walk format.now) (S.gave source.old) (S.gave source.new)) }
    ensures counted { CountsDevice (S.failures source.old) (S.failures source.new) result }
    ensures names { S.names source.new ≡ S.names source.old }
{
    let mut samples = Vec::from_elem(alloc, 0u16, format.sample_count())?;
    if !read_samples(source, format, samples.as_mut_slice())? {
        return Ok(None);
    }
    Ok(Some(Picture::from_samples(*format, samples)))
}

/// Reads the next picture of a stream of pictures like the last one, into the samples of that one.
/// No memory is taken.
///
/// # Errors
///
/// Those of [`read_y4m_frame`], without `NoMemory`.
pub(crate) fn read_over<A: Allocator, S: ByteSource>(
    source: &mut S,
    last: Picture<A>,
) -> Result<Option<Picture<A>>, FormFault>
    requires { IsYcc last.format.sampling }
    ensures found { IfOk result (λ o.
        TakesFrame last.format (S.to_give source.old) (S.to_give source.new) o) }
    ensures fault { IfErr result (λ f. Fails (frame_walk last.format) (S.to_give source.old) f) }
    ensures gave { IfOk result (λ o. GaveFrame last.format
        (S.gave source.old) (S.gave source.new) (S.ended source.new) o) }
    ensures gave_wrong { IfErr result (λ f. GaveFault (frame_walk last.format)
        (S.gave source.old) (S.gave source.new) (S.ended source.new) f) }
    ensures begun { IfErr result (λ f. IfContent f
        (length (S.gave source.old) < length (S.gave source.new))) }
    ensures gave_part { IfErr result
        (λ _. GavePart (frame_walk last.format) (S.gave source.old) (S.gave source.new)) }
    ensures counted { CountsDevice (S.failures source.old) (S.failures source.new) result }
    ensures names { S.names source.new ≡ S.names source.old }
{
    let format = last.format();
    let mut samples = last.into_samples();
    if !read_samples(source, &format, samples.as_mut_slice())? {
        return Ok(None);
    }
    Ok(Some(Picture::from_samples(format, samples)))
}
