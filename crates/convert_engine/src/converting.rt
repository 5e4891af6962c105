//! The engine of `convert`.
ghost use Rattle.std.specs.Prelude.{◌≡◌, ◌↔◌, ◌∷◌, [], IfErr, IfOk, IsTrue, OnErr, OnOk};
ghost use Rattle.st_format.specs.History.{IsRead};
ghost use Rattle.form_files.specs.Form.{HoldsSampling};
ghost use Rattle.run_outcome.specs.Fault.{Accounts, IfRefused, counts};
ghost use Rattle.run_outcome.specs.Refusing.{OfRefusal};
ghost use Rattle.convert_engine.specs.Converting.{Converts, ConvertsPart, IsConvertRefusal};
ghost use Rattle.convert_engine.specs.Converting.{IsInputRefusal, SaysInput};

use crate::pixmaps::read_pixmap;
use crate::streams::read_stream;
use form_files::{Form, write_form};
use run_outcome::{Fault, Refusal, read_unpacked};
use st_format::{ByteSink, ByteSource, Picture, Rate};
use std::alloc::Allocator;

/// The form of what is read, with what it doesn't say itself.
#[derive(Clone, Copy)]
pub enum InputForm {
    /// A picture's own file.
    Picture,
    /// A YUV4MPEG2 stream, of which the picture of this place counts: 0 is that of the first.
    Y4m(u64),
    /// A portable pixmap, at this rate, which it doesn't say.
    Pixmap(Rate),
}

/// What `convert` is asked for, beside its files.
#[derive(Clone, Copy)]
pub struct Conversion {
    /// The form of what is read, and which picture of it counts.
    pub input: InputForm,
    /// The form of what is written.
    pub form: Form,
}

/// Reads a picture, and writes it in another form. Of a stream and of a pixmap what is behind the
/// picture is not read; a picture's own file has to end.
///
/// # Errors
///
/// A refusal where what was read is no file of its form, or else where the form that is to be
/// written doesn't hold its sampling: nothing is written then. Else that a device failed or memory
/// was wanted.
pub fn convert<A, S, K>(
    alloc: A,
    asked: Conversion,
    source: &mut S,
    sink: &mut K,
) -> Result<(), Fault>
where
    A: Allocator + Copy,
    S: ByteSource,
    K: ByteSink,
    ensures converted { OnOk result (Converts asked
        (IsRead (S.gave source.old) (S.gave source.new) (S.ended source.new))
        (K.took sink.old) (K.took sink.new)) }
    // Where it fails, the file isn't all written.
    ensures part { OnErr result (ConvertsPart asked
        (IsRead (S.gave source.old) (S.gave source.new) (S.ended source.new))
        (K.took sink.old) (K.took sink.new)) }
    ensures refused { IfErr result (λ f. IfRefused f (sink.new ≡ sink.old)) }
    // Memory is wanted before anything is written.
    ensures memory { IfErr result (λ f. f ≡ Fault.Memory → sink.new ≡ sink.old) }
    ensures refusal { IfErr result (λ f. OfRefusal f (IsConvertRefusal asked
        (IsRead (S.gave source.old) (S.gave source.new) (S.ended source.new)))) }
    ensures failures { Accounts result (counts (S.failures source.old) (S.failures source.new)
        ∷ counts (K.failures sink.old) (K.failures sink.new) ∷ []) }
{
    let picture = read_input(alloc, asked.input, source)?;
    if !holds(asked.form, &picture) {
        return Err(Fault::Refused(Refusal::ConvertForm));
    }
    match write_form(sink, asked.form, &picture) {
        Ok(()) => Ok(()),
        Err(_) => Err(Fault::Device),
    }
}

/// Whether a form holds a picture's sampling.
fn holds<A: Allocator>(form: Form, picture: &Picture<A>) -> bool
    ensures { IsTrue result ↔ HoldsSampling form picture.now.format.sampling }
{
    form.holds(picture.format().sampling())
}

/// Reads the picture in this form. Only a picture's own file has to end behind it.
fn read_input<A: Allocator + Copy, S: ByteSource>(
    alloc: A,
    input: InputForm,
    source: &mut S,
) -> Result<Picture<A>, Fault>
    ensures says { IfOk result (λ p. SaysInput input
        (IsRead (S.gave source.old) (S.gave source.new) (S.ended source.new)) p) }
    ensures refusal { IfErr result (λ f. OfRefusal f (IsInputRefusal input
        (IsRead (S.gave source.old) (S.gave source.new) (S.ended source.new)))) }
    ensures failures { Accounts result (counts (S.failures source.old) (S.failures source.new)
        ∷ []) }
{
    match input {
        InputForm::Picture => read_unpacked(alloc, source),
        InputForm::Y4m(place) => read_stream(alloc, source, place),
        InputForm::Pixmap(rate) => read_pixmap(alloc, source, rate),
    }
}
