//! What `picture` is asked for.
ghost use Rattle.std.specs.Prelude.{◌≡◌, ℕ, List, [], IfErr, OnOk};
ghost use Rattle.picture_engine.specs.Views.{SaysFill, SaysNoFill, SaysNoView, SaysView};
ghost use Rattle.receiver_engines.specs.Inputs.{IsFill};
ghost use Rattle.receiver_engines.specs.Refused.{HasNoFill};
ghost use Rattle.run_outcome.specs.Fault.{Accounts};
ghost use Rattle.run_outcome.specs.Refusing.{OfRefusal};
ghost use Rattle.run_outcome.specs.declared.refusal.Refusal.TheVariants.{FrameFill};

use form_files::Form;
use receiver_engines::read_fill;
use run_outcome::{Fault, Refusal};

/// How a frame is shown.
#[derive(Clone, Copy)]
pub enum View<'a> {
    /// Settled: a sample that is missing or contested has the value of its component that this text
    /// says, three numbers with commas between, or black's where there is no text; or the value of
    /// the picture that is held, where one is.
    Settled(Option<&'a [u8]>),
    /// With marks, as R, G and B of 8 bits: a pixel is magenta where a sample of it is missing, red
    /// where one is contested, and else its luma as grey, or its R, G and B.
    Marked,
}

/// What `picture` is asked for, beside its files.
#[derive(Clone, Copy)]
pub struct PictureAsked<'a> {
    /// The timestamp of the frame, in 90 kHz ticks: the receiver's window has to have it.
    pub timestamp: u32,
    pub view: View<'a>,
    /// The form of the picture that is written.
    pub form: Form,
}

/// Refuses a text that says no values. No file is looked at.
///
/// # Errors
///
/// `FrameFill` where it isn't three numbers of 16 bits with commas between.
pub fn check_view(view: View<'_>) -> Result<(), Fault>
    ensures says { OnOk result (SaysView view.entry) }
    ensures refusal { IfErr result (λ f. OfRefusal f
        (λ r. (r ≡ FrameFill) × SaysNoView view.entry)) }
    ensures failures { Accounts result [] }
{
    match view {
        View::Settled(text) => check_text(text),
        View::Marked => Ok(()),
    }
}

/// Refuses a text, where there is one, that says no values.
pub(crate) fn check_text(text: Option<&[u8]>) -> Result<(), Fault>
    ensures says { OnOk result (SaysFill text.entry) }
    ensures refused { IfErr result (λ f. (f ≡ Fault.Refused Refusal.FrameFill)
        × SaysNoFill text.entry) }
    ensures failures { Accounts result [] }
{
    match text {
        None => Ok(()),
        Some(text) => check_values(text),
    }
}

/// Refuses a text that says no values.
fn check_values(text: &[u8]) -> Result<(), Fault>
    ensures says { OnOk result ((fill : List ℕ) × IsFill fill text.now []) }
    ensures refused { IfErr result (λ f. (f ≡ Fault.Refused Refusal.FrameFill)
        × HasNoFill text.now []) }
    ensures failures { Accounts result [] }
{
    match read_fill(text) {
        Some(_) => Ok(()),
        None => Err(Fault::Refused(Refusal::FrameFill)),
    }
}
