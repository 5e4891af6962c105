//! Writing pictures of a stream.
ghost use Rattle.std.specs.Prelude.{◌≡◌, ◌++◌, ◌∷◌, [], IfErr, IsTrue, None, OnErr, OnOk};
ghost use Rattle.follow_engine.specs.Shown.{GrowsSome};
ghost use Rattle.frame_sinks.specs.Pictures.{form_head, head_for, is_of, picture_of};
ghost use Rattle.picture_forms.specs.Faults.{CountsDevice, IsDevice};
ghost use Rattle.picture_forms.specs.Layouts.{IsYcc, frame_text, y4m_head};
ghost use Rattle.run_outcome.specs.Fault.{Accounts, IfRefused, counts};
ghost use Rattle.settled_forms.specs.Settled.{form_text};
ghost use Rattle.st_format.specs.Device.{GrowsPart};
ghost use Rattle.st_format.specs.Fields.{fields_of, same_fields};

use crate::filling::fill_of;
use frame_assembly::{Base, Frame};
use picture_forms::{FormFault, write_pixmap, write_y4m_frame, write_y4m_head};
use run_outcome::Fault;
use settled_forms::write_planes;
use st_format::{ByteSink, Format, Picture, Sampling};
use std::alloc::{Allocator, Global};

/// Writes a picture, behind the head of a stream where one begins: that which was begun has this
/// format, if there is one.
pub(crate) fn write_next<A: Allocator, K: ByteSink>(
    sink: &mut K,
    begun: Option<Format>,
    picture: &Picture<A>,
) -> Result<(), Fault>
    ensures written { OnOk result (K.took sink.new ≡ K.took sink.old
        ++ (head_for begun picture.now.format ++ form_text picture.now)) }
    ensures part { OnErr result (GrowsSome (K.took sink.old) (K.took sink.new)
        (head_for begun picture.now.format ++ form_text picture.now)) }
    ensures unrefused { IfErr result (λ f. IfRefused f ⊥) }
    ensures failures { Accounts result (counts (K.failures sink.old) (K.failures sink.new) ∷ []) }
{
    let format = picture.format();
    write_head(sink, begun, &format)?;
    write_picture(sink, picture)
}

/// The same of a frame, which is YCbCr, settled by the fill: it is written by planes, and no
/// picture is made. No memory is taken.
pub(crate) fn write_next_planes<A: Allocator, K: ByteSink>(
    sink: &mut K,
    begun: Option<Format>,
    frame: &Frame<A>,
    fill: Option<[u16; 3]>,
) -> Result<(), Fault>
    requires { IsYcc frame.now.format.sampling }
    ensures written { OnOk result (K.took sink.new ≡ K.took sink.old
        ++ (head_for begun frame.now.format ++ frame_text (picture_of fill None frame.now))) }
    ensures part { OnErr result (GrowsSome (K.took sink.old) (K.took sink.new)
        (head_for begun frame.now.format ++ frame_text (picture_of fill None frame.now))) }
    ensures unrefused { IfErr result (λ f. IfRefused f ⊥) }
    ensures failures { Accounts result (counts (K.failures sink.old) (K.failures sink.new) ∷ []) }
{
    let format = frame.format();
    write_head(sink, begun, &format)?;
    write_filled(sink, frame, fill)
}

/// Writes a frame, which is YCbCr, settled by the fill, as a frame of a YUV4MPEG2 stream.
fn write_filled<A: Allocator, K: ByteSink>(
    sink: &mut K,
    frame: &Frame<A>,
    fill: Option<[u16; 3]>,
) -> Result<(), Fault>
    requires { IsYcc frame.now.format.sampling }
    ensures written { OnOk result (K.took sink.new
        ≡ K.took sink.old ++ frame_text (picture_of fill None frame.now)) }
    ensures part { OnErr result (GrowsPart (K.took sink.old) (K.took sink.new)
        (frame_text (picture_of fill None frame.now))) }
    ensures unrefused { IfErr result (λ f. IfRefused f ⊥) }
    ensures failures { Accounts result (counts (K.failures sink.old) (K.failures sink.new) ∷ []) }
{
    let fill = fill_of(fill, &frame.format());
    match write_planes(sink, frame, Base::<Global>::Fill(fill)) {
        Ok(()) => Ok(()),
        Err(_) => Err(Fault::Device),
    }
}

/// Writes what stands before a picture of this format in a stream of the format that was begun.
fn write_head<K: ByteSink>(
    sink: &mut K,
    begun: Option<Format>,
    format: &Format,
) -> Result<(), Fault>
    ensures written { OnOk result
        (K.took sink.new ≡ K.took sink.old ++ head_for begun format.now) }
    ensures part { OnErr result
        (GrowsSome (K.took sink.old) (K.took sink.new) (head_for begun format.now)) }
    ensures unrefused { IfErr result (λ f. IfRefused f ⊥) }
    ensures failures { Accounts result (counts (K.failures sink.old) (K.failures sink.new) ∷ []) }
{
    if is_of(begun, format) {
        Ok(())
    } else {
        write_form_head(sink, format)
    }
}

/// Whether a stream that was begun has this format.
fn is_of(begun: Option<Format>, format: &Format) -> bool
    ensures { result ≡ is_of begun format.now }
{
    match begun {
        Some(begun) => begun.same(format),
        None => false,
    }
}

/// Writes what a stream of this format begins with.
fn write_form_head<K: ByteSink>(sink: &mut K, format: &Format) -> Result<(), Fault>
    ensures written { OnOk result (K.took sink.new ≡ K.took sink.old ++ form_head format.now) }
    ensures part { OnErr result
        (GrowsPart (K.took sink.old) (K.took sink.new) (form_head format.now)) }
    ensures unrefused { IfErr result (λ f. IfRefused f ⊥) }
    ensures failures { Accounts result (counts (K.failures sink.old) (K.failures sink.new) ∷ []) }
{
    match format.sampling() {
        Sampling::Ycc422 | Sampling::Ycc444 => write_line(sink, format),
        Sampling::Rgb => Ok(()),
    }
}

/// Writes the line of a YUV4MPEG2 stream of this format, which is YCbCr.
fn write_line<K: ByteSink>(sink: &mut K, format: &Format) -> Result<(), Fault>
    requires { IsYcc format.now.sampling }
    ensures written { OnOk result (K.took sink.new ≡ K.took sink.old ++ y4m_head format.now) }
    ensures part { OnErr result
        (GrowsPart (K.took sink.old) (K.took sink.new) (y4m_head format.now)) }
    ensures unrefused { IfErr result (λ f. IfRefused f ⊥) }
    ensures failures { Accounts result (counts (K.failures sink.old) (K.failures sink.new) ∷ []) }
{
    match write_y4m_head(sink, format) {
        Ok(()) => Ok(()),
        Err(_) => Err(Fault::Device),
    }
}

/// Writes a picture in the form of its sampling.
fn write_picture<A: Allocator, K: ByteSink>(sink: &mut K, picture: &Picture<A>) -> Result<(), Fault>
    ensures written { OnOk result (K.took sink.new ≡ K.took sink.old ++ form_text picture.now) }
    ensures part { OnErr result
        (GrowsPart (K.took sink.old) (K.took sink.new) (form_text picture.now)) }
    ensures unrefused { IfErr result (λ f. IfRefused f ⊥) }
    ensures failures { Accounts result (counts (K.failures sink.old) (K.failures sink.new) ∷ []) }
{
    match write_form(sink, picture) {
        Ok(()) => Ok(()),
        Err(_) => Err(Fault::Device),
    }
}

/// The same, with the fault of the form.
#[tactic(auto, unfolding(settled_forms::specs::Settled::form_text))]
fn write_form<A: Allocator, K: ByteSink>(
    sink: &mut K,
    picture: &Picture<A>,
) -> Result<(), FormFault>
    ensures written { OnOk result (K.took sink.new ≡ K.took sink.old ++ form_text picture.now) }
    ensures part { OnErr result
        (GrowsPart (K.took sink.old) (K.took sink.new) (form_text picture.now)) }
    ensures device { IfErr result IsDevice }
    ensures counted { CountsDevice (K.failures sink.old) (K.failures sink.new) result }
{
    let format = picture.format();
    match format.sampling() {
        Sampling::Ycc422 | Sampling::Ycc444 => write_y4m_frame(sink, picture),
        Sampling::Rgb => write_pixmap(sink, picture),
    }
}

/// Whether a picture has a frame's format in all its fields: sampling, depth, size and rate.
pub(crate) fn has_format<A: Allocator, B: Allocator>(picture: &Picture<B>, frame: &Frame<A>) -> bool
    ensures is { result ≡ same_fields (fields_of picture.now.format) (fields_of frame.now.format) }
    ensures same { IsTrue result → picture.now.format ≡ frame.now.format }
{
    picture.format().same(&frame.format())
}
