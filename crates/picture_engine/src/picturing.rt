//! The engine of `picture`.
ghost use Rattle.std.specs.Prelude.{◌≡◌, ◌∷◌, [], IfErr, OnErr, OnOk};
ghost use Rattle.picture_engine.specs.Refused.{IsMarkedRefusal, IsSettledRefusal, IsShowRefusal};
ghost use Rattle.picture_engine.specs.Shown.{OfFrame, ShowsFrame, ShowsPart, WritesForm};
ghost use Rattle.picture_engine.specs.Shown.{SettlesFiles, WritesFormPart};
ghost use Rattle.picture_engine.specs.Views.{IsMarkedView};
ghost use Rattle.run_outcome.specs.Fault.{Accounts, IfRefused, counts, failures_in};
ghost use Rattle.run_outcome.specs.Moments.{WasRead, pair};
ghost use Rattle.run_outcome.specs.Refusing.{OfRefusal};
ghost use Rattle.st_format.specs.History.{IsRead};

use crate::asked::{PictureAsked, View, check_text};
use crate::frames::frame_of;
use crate::showing::{show_marked, show_settled};
use form_files::Form;
use receiver_engines::{read_held, read_receiver};
use run_outcome::Fault;
use st_format::{ByteSink, ByteSource};
use std::alloc::Allocator;

/// Writes a frame of a receiver that was written as a file: the one of a timestamp, as a picture in
/// a form.
///
/// The receiver's file is read, and then the picture of `hold`, where there is one. A frame with
/// marks is of R, G and B, whatever its own sampling is; neither a fill nor `hold` is looked at
/// then.
///
/// # Errors
///
/// A refusal, in this order: the fill's text is none (before any file is read); a file is refused;
/// the receiver's window hasn't the timestamp; the fill has a value above the greatest of the
/// frame's depth; the held picture has another format than the frame; the form doesn't hold the
/// picture's sampling. `sink` is untouched then. Else that a device failed or memory was wanted.
pub fn picture<A, S, K>(
    alloc: A,
    asked: PictureAsked<'_>,
    state: &mut S,
    hold: &mut Option<S>,
    sink: &mut K,
) -> Result<(), Fault>
where
    A: Allocator + Copy,
    S: ByteSource,
    K: ByteSink,
    ensures shown { OnOk result (ShowsFrame
        (IsRead (S.gave state.old) (S.gave state.new) (S.ended state.new))
        (WasRead S.gave S.ended) (pair hold.old hold.new) asked.entry
        (K.took sink.old) (K.took sink.new)) }
    // Where it fails, what was written is a first part of such a picture, and not all.
    ensures part { OnErr result (ShowsPart
        (IsRead (S.gave state.old) (S.gave state.new) (S.ended state.new))
        (WasRead S.gave S.ended) (pair hold.old hold.new) asked.entry
        (K.took sink.old) (K.took sink.new)) }
    // All of the receiver's file was read, up to its end.
    ensures ended { OnOk result (S.ended state.new) }
    ensures refused { IfErr result (λ f. IfRefused f (sink.new ≡ sink.old)) }
    ensures refusal { IfErr result (λ f. OfRefusal f (IsShowRefusal
        (IsRead (S.gave state.old) (S.gave state.new) (S.ended state.new))
        (WasRead S.gave S.ended) (pair hold.old hold.new) asked.entry)) }
    ensures failures { Accounts result (counts (S.failures state.old) (S.failures state.new)
        ∷ counts (failures_in S.failures hold.old) (failures_in S.failures hold.new)
        ∷ counts (K.failures sink.old) (K.failures sink.new) ∷ []) }
{
    match asked.view {
        View::Settled(text) => {
            picture_settled(alloc, asked.timestamp, text, asked.form, state, hold, sink)
        }
        View::Marked => picture_marked(alloc, asked.timestamp, asked.form, state, sink),
    }
}

/// Writes a receiver's frame of a timestamp with its marks.
fn picture_marked<A: Allocator + Copy, S: ByteSource, K: ByteSink>(
    alloc: A,
    timestamp: u32,
    form: Form,
    state: &mut S,
    sink: &mut K,
) -> Result<(), Fault>
    ensures shown { OnOk result (WritesForm form (OfFrame
        (IsRead (S.gave state.old) (S.gave state.new) (S.ended state.new))
        timestamp IsMarkedView) (K.took sink.old) (K.took sink.new)) }
    ensures part { OnErr result (WritesFormPart form (OfFrame
        (IsRead (S.gave state.old) (S.gave state.new) (S.ended state.new))
        timestamp IsMarkedView) (K.took sink.old) (K.took sink.new)) }
    ensures ended { OnOk result (S.ended state.new) }
    ensures refused { IfErr result (λ f. IfRefused f (sink.new ≡ sink.old)) }
    ensures refusal { IfErr result (λ f. OfRefusal f (IsMarkedRefusal
        (IsRead (S.gave state.old) (S.gave state.new) (S.ended state.new))
        timestamp form)) }
    ensures failures { Accounts result (counts (S.failures state.old) (S.failures state.new)
        ∷ counts (K.failures sink.old) (K.failures sink.new) ∷ []) }
{
    let receiver = read_receiver(alloc, state)?;
    let frame = frame_of(&receiver, timestamp)?;
    show_marked(alloc, form, frame, sink)
}

/// Writes a receiver's frame of a timestamp, settled by a text's values, black or the picture of
/// `hold`.
fn picture_settled<A: Allocator + Copy, S: ByteSource, K: ByteSink>(
    alloc: A,
    timestamp: u32,
    text: Option<&[u8]>,
    form: Form,
    state: &mut S,
    hold: &mut Option<S>,
    sink: &mut K,
) -> Result<(), Fault>
    ensures shown { OnOk result (WritesForm form (OfFrame
        (IsRead (S.gave state.old) (S.gave state.new) (S.ended state.new)) timestamp
        (SettlesFiles (WasRead S.gave S.ended) (pair hold.old hold.new) text.entry))
        (K.took sink.old) (K.took sink.new)) }
    ensures part { OnErr result (WritesFormPart form (OfFrame
        (IsRead (S.gave state.old) (S.gave state.new) (S.ended state.new)) timestamp
        (SettlesFiles (WasRead S.gave S.ended) (pair hold.old hold.new) text.entry))
        (K.took sink.old) (K.took sink.new)) }
    ensures ended { OnOk result (S.ended state.new) }
    ensures refused { IfErr result (λ f. IfRefused f (sink.new ≡ sink.old)) }
    ensures refusal { IfErr result (λ f. OfRefusal f (IsSettledRefusal
        (IsRead (S.gave state.old) (S.gave state.new) (S.ended state.new))
        (WasRead S.gave S.ended) (pair hold.old hold.new) text.entry timestamp form)) }
    ensures failures { Accounts result (counts (S.failures state.old) (S.failures state.new)
        ∷ counts (failures_in S.failures hold.old) (failures_in S.failures hold.new)
        ∷ counts (K.failures sink.old) (K.failures sink.new) ∷ []) }
{
    check_text(text)?;
    let receiver = read_receiver(alloc, state)?;
    let held = read_held(alloc, hold)?;
    let frame = frame_of(&receiver, timestamp)?;
    show_settled(alloc, form, text, &held, frame, sink)
}
