//! Writing a frame as a picture.
ghost use Rattle.std.specs.Prelude.{◌≡◌, ◌++◌, ◌∷◌, [], IfErr, OnErr, OnOk};
ghost use Rattle.form_files.specs.Files.{form_file};
ghost use Rattle.form_files.specs.Form.{HoldsSampling};
ghost use Rattle.picture_engine.specs.Refused.{IsMarkingRefusal, IsSettlingRefusal};
ghost use Rattle.picture_engine.specs.Shown.{WritesForm, WritesFormPart};
ghost use Rattle.picture_engine.specs.Views.{IsMarkedView, SettlesFrame};
ghost use Rattle.run_outcome.specs.Fault.{Accounts, IfRefused, counts};
ghost use Rattle.run_outcome.specs.Refusing.{OfRefusal};
ghost use Rattle.st_format.specs.Device.{GrowsPart};

use crate::filling::{check_held, fitting_fill, settled};
use form_files::{Form, write_form};
use frame_assembly::Frame;
use marked_view::marked_picture;
use run_outcome::{Fault, Refusal};
use st_format::{ByteSink, Picture, Sampling};
use std::alloc::Allocator;

/// Writes a frame with its marks, in a form.
///
/// # Errors
///
/// `FrameForm` where the form doesn't hold R, G and B: the sink is untouched then. Else that the
/// sink failed or memory was wanted.
pub(crate) fn show_marked<A: Allocator + Copy, K: ByteSink>(
    alloc: A,
    form: Form,
    frame: &Frame<A>,
    sink: &mut K,
) -> Result<(), Fault>
    ensures shown { OnOk result (WritesForm form (IsMarkedView frame.now)
        (K.took sink.old) (K.took sink.new)) }
    ensures part { OnErr result (WritesFormPart form (IsMarkedView frame.now)
        (K.took sink.old) (K.took sink.new)) }
    ensures refused { IfErr result (λ f. IfRefused f (sink.new ≡ sink.old)) }
    ensures refusal { IfErr result (λ f. OfRefusal f
        (λ r. IsMarkingRefusal form r frame.now)) }
    ensures failures { Accounts result (counts (K.failures sink.old) (K.failures sink.new) ∷ []) }
{
    if !form.holds(Sampling::Rgb) {
        return Err(Fault::Refused(Refusal::FrameForm));
    }
    let picture = marked_picture(alloc, frame)?;
    write(form, &picture, sink)
}

/// Writes a frame that is settled, in a form: what it lacks has the values of the picture that is
/// held, or where none is those of the text, or black's where there is no text.
///
/// # Errors
///
/// In this order: `FrameFill` where the text says no values, or one above the greatest of the
/// frame's depth; `FrameHold` where the held picture has another format; `FrameForm` where the form
/// doesn't hold the frame's sampling. The sink is untouched then. Else that the sink failed or
/// memory was wanted.
pub(crate) fn show_settled<A: Allocator + Copy, K: ByteSink>(
    alloc: A,
    form: Form,
    text: Option<&[u8]>,
    held: &Option<Picture<A>>,
    frame: &Frame<A>,
    sink: &mut K,
) -> Result<(), Fault>
    ensures shown { OnOk result (WritesForm form (SettlesFrame text.entry held.now frame.now)
        (K.took sink.old) (K.took sink.new)) }
    ensures part { OnErr result (WritesFormPart form (SettlesFrame text.entry held.now frame.now)
        (K.took sink.old) (K.took sink.new)) }
    ensures refused { IfErr result (λ f. IfRefused f (sink.new ≡ sink.old)) }
    ensures refusal { IfErr result (λ f. OfRefusal f
        (λ r. IsSettlingRefusal text.entry form held.now r frame.now)) }
    ensures failures { Accounts result (counts (K.failures sink.old) (K.failures sink.new) ∷ []) }
{
    let fill = fitting_fill(text, frame)?;
    check_held(held, frame)?;
    if !form.holds(frame.format().sampling) {
        return Err(Fault::Refused(Refusal::FrameForm));
    }
    let picture = settled(alloc, frame, fill, held)?;
    write(form, &picture, sink)
}

/// Writes a picture in a form that holds its sampling.
fn write<A: Allocator, K: ByteSink>(
    form: Form,
    picture: &Picture<A>,
    sink: &mut K,
) -> Result<(), Fault>
    requires { HoldsSampling form picture.now.format.sampling }
    ensures written { OnOk result
        (K.took sink.new ≡ K.took sink.old ++ form_file form picture.now) }
    ensures part { OnErr result
        (GrowsPart (K.took sink.old) (K.took sink.new) (form_file form picture.now)) }
    ensures unrefused { IfErr result (λ f. IfRefused f ⊥) }
    ensures failures { Accounts result (counts (K.failures sink.old) (K.failures sink.new) ∷ []) }
{
    match write_form(sink, form, picture) {
        Ok(()) => Ok(()),
        Err(_) => Err(Fault::Device),
    }
}
