//! Reading one picture of a YUV4MPEG2 stream.
ghost use Rattle.std.specs.Prelude.{◌≡◌, ◌∷◌, [], ℕ, List, IfErr, IfOk, OnOk};
ghost use Rattle.st_format.specs.Given.{GaveValue};
ghost use Rattle.st_format.specs.History.{IsRead};
ghost use Rattle.st_format.specs.Picture.{IsPicture};
ghost use Rattle.picture_forms.specs.Faults.{CountsDevice, IfContent};
ghost use Rattle.picture_forms.specs.Frames.{frame_walk};
ghost use Rattle.picture_forms.specs.Layouts.{IsYcc, planes_text};
ghost use Rattle.picture_forms.specs.Walks.{GaveFault};
ghost use Rattle.run_outcome.specs.Fault.{Accounts, counts};
ghost use Rattle.run_outcome.specs.Refusing.{OfRefusal};
ghost use Rattle.convert_engine.specs.Converting.{IsInputRefusal, SaysInput};
ghost use Rattle.convert_engine.specs.Inputs.{IsInStream, IsStreamFault, PassesOver};
ghost use Rattle.convert_engine.specs.Inputs.{frame_at_place};
ghost use Rattle.convert_engine.specs.declared.converting.InputForm.TheVariants.{Y4m};

use crate::faults::of_form;
use picture_forms::{FormFault, read_y4m_frame, read_y4m_head};
use run_outcome::Fault;
use st_format::{ByteSource, Format, Picture};
use std::alloc::Allocator;

/// Reads the picture of this place of a stream, 0 of the first. What is behind it is not read. The
/// samples of one picture at a time are the memory that is taken.
///
/// # Errors
///
/// A refusal (`Refusal::Form`) by the first fault up to the picture's end: `Truncated` where the
/// stream ends before; and else that a device or the allocator failed.
pub(crate) fn read_stream<A: Allocator + Copy, S: ByteSource>(
    alloc: A,
    source: &mut S,
    place: u64,
) -> Result<Picture<A>, Fault>
    ensures says { IfOk result (λ p. SaysInput (Y4m place)
        (IsRead (S.gave source.old) (S.gave source.new) (S.ended source.new)) p) }
    ensures refusal { IfErr result (λ f. OfRefusal f (IsInputRefusal (Y4m place)
        (IsRead (S.gave source.old) (S.gave source.new) (S.ended source.new)))) }
    ensures failures { Accounts result (counts (S.failures source.old) (S.failures source.new)
        ∷ []) }
{
    match read_picture(alloc, source, place) {
        Ok(picture) => Ok(picture),
        Err(fault) => Err(of_form(fault)),
    }
}

/// Reads the picture of this place of a stream.
fn read_picture<A: Allocator + Copy, S: ByteSource>(
    alloc: A,
    source: &mut S,
    place: u64,
) -> Result<Picture<A>, FormFault>
    ensures says { IfOk result (λ p. (octets : List ℕ)
        → IsRead (S.gave source.old) (S.gave source.new) (S.ended source.new) octets
        → IsInStream place octets p) }
    ensures fault { IfErr result (λ f. IfContent f ((octets : List ℕ)
        → IsRead (S.gave source.old) (S.gave source.new) (S.ended source.new) octets
        → IsStreamFault place octets f)) }
    ensures counted { CountsDevice (S.failures source.old) (S.failures source.new) result }
{
    let format = read_y4m_head(source)?;
    read_at_place(alloc, source, &format, place)
}

/// Reads the picture of this place, 0 of the next.
fn read_at_place<A: Allocator + Copy, S: ByteSource>(
    alloc: A,
    source: &mut S,
    format: &Format,
    place: u64,
) -> Result<Picture<A>, FormFault>
    requires { IsYcc format.now.sampling }
    ensures format { IfOk result (λ p. p.format ≡ format.now) }
    ensures whole { IfOk result (λ p. IsPicture p) }
    ensures gave { IfOk result (λ p. GaveValue (frame_at_place format.now place)
        (S.gave source.old) (S.gave source.new) (planes_text p)) }
    ensures gave_wrong { IfErr result (λ f. GaveFault (frame_at_place format.now place)
        (S.gave source.old) (S.gave source.new) (S.ended source.new) f) }
    ensures counted { CountsDevice (S.failures source.old) (S.failures source.new) result }
{
    pass_frames(alloc, source, format, place)?;
    read_frame(alloc, source, format)
}

/// Reads so many pictures, and passes them over.
fn pass_frames<A: Allocator + Copy, S: ByteSource>(
    alloc: A,
    source: &mut S,
    format: &Format,
    count: u64,
) -> Result<(), FormFault>
    requires { IsYcc format.now.sampling }
    ensures passed { OnOk result
        (PassesOver format.now count (S.gave source.old) (S.gave source.new)) }
    ensures gave_wrong { IfErr result (λ f. GaveFault (frame_at_place format.now count)
        (S.gave source.old) (S.gave source.new) (S.ended source.new) f) }
    ensures counted { CountsDevice (S.failures source.old) (S.failures source.new) result }
{
    let mut passed = 0;
    while passed < count {
        read_frame(alloc, source, format)?;
        passed += 1;
    }
    Ok(())
}

/// Reads the next picture. A stream that has ended is cut before it.
fn read_frame<A: Allocator, S: ByteSource>(
    alloc: A,
    source: &mut S,
    format: &Format,
) -> Result<Picture<A>, FormFault>
    requires { IsYcc format.now.sampling }
    ensures format { IfOk result (λ p. p.format ≡ format.now) }
    ensures whole { IfOk result (λ p. IsPicture p) }
    ensures gave { IfOk result (λ p. GaveValue (frame_walk format.now)
        (S.gave source.old) (S.gave source.new) (planes_text p)) }
    ensures gave_wrong { IfErr result (λ f. GaveFault (frame_walk format.now)
        (S.gave source.old) (S.gave source.new) (S.ended source.new) f) }
    ensures counted { CountsDevice (S.failures source.old) (S.failures source.new) result }
{
    match read_y4m_frame(alloc, source, format) {
        Ok(Some(picture)) => Ok(picture),
        Ok(None) => Err(FormFault::Truncated),
        Err(fault) => Err(fault),
    }
}
