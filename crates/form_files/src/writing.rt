//! Writing a picture's file in a form.
ghost use Rattle.std.specs.Prelude.{◌≡◌, ◌++◌, ◌∷◌, [], OnErr, OnOk};
ghost use Rattle.st_format.specs.Device.{CountsFaults, GrowsPart};
ghost use Rattle.media_file.specs.PictureFile.{picture_text};
ghost use Rattle.picture_forms.specs.Layouts.{IsRgb, IsYcc, frame_text, pixmap_text, y4m_head};
ghost use Rattle.picture_forms.specs.Layouts.{y4m_text};
ghost use Rattle.form_files.specs.Files.{form_file};
ghost use Rattle.form_files.specs.Form.{HoldsSampling};

use crate::form::Form;
use crate::raw_writing::write_raw;
use media_file::write_picture;
use picture_forms::{write_pixmap, write_y4m_frame, write_y4m_head};
use st_format::{ByteSink, DeviceFault, Format, Picture};
use std::alloc::Allocator;

/// Writes a picture as a file of a form that holds its sampling. No memory is taken.
///
/// # Errors
///
/// The sink's one failure in this call: it then has a first part of the file more than before, and
/// not all.
pub fn write_form<A: Allocator, K: ByteSink>(
    sink: &mut K,
    form: Form,
    picture: &Picture<A>,
) -> Result<(), DeviceFault>
    requires holds { HoldsSampling form picture.now.format.sampling }
    ensures took { OnOk result (K.took sink.new ≡ K.took sink.old ++ form_file form picture.now) }
    ensures part { OnErr result
        (GrowsPart (K.took sink.old) (K.took sink.new) (form_file form picture.now)) }
    ensures counted { CountsFaults (K.failures sink.old) (K.failures sink.new) result }
{
    match form {
        Form::Picture => write_own(sink, picture),
        Form::Y4m => write_stream(sink, picture),
        Form::Pixmap => write_pixels(sink, picture),
        Form::Raw => write_raw(sink, picture),
    }
}

/// Writes the project's own file.
#[tactic(auto, using(crate::proofs::Devices::file_counted))]
fn write_own<A: Allocator, K: ByteSink>(
    sink: &mut K,
    picture: &Picture<A>,
) -> Result<(), DeviceFault>
    ensures took { OnOk result (K.took sink.new ≡ K.took sink.old ++ picture_text picture.now) }
    ensures part { OnErr result
        (GrowsPart (K.took sink.old) (K.took sink.new) (picture_text picture.now)) }
    ensures counted { CountsFaults (K.failures sink.old) (K.failures sink.new) result }
{
    match write_picture(sink, picture) {
        Ok(()) => Ok(()),
        Err(_fault) => Err(DeviceFault),
    }
}

/// Writes a stream of one frame.
fn write_stream<A: Allocator, K: ByteSink>(
    sink: &mut K,
    picture: &Picture<A>,
) -> Result<(), DeviceFault>
    requires { IsYcc picture.now.format.sampling }
    ensures took { OnOk result (K.took sink.new
        ≡ K.took sink.old ++ y4m_text picture.now.format (picture.now ∷ [])) }
    ensures part { OnErr result (GrowsPart (K.took sink.old) (K.took sink.new)
        (y4m_text picture.now.format (picture.now ∷ []))) }
    ensures counted { CountsFaults (K.failures sink.old) (K.failures sink.new) result }
{
    let format = picture.format();
    write_head(sink, &format)?;
    write_frame(sink, picture)
}

/// Writes the line of a stream.
#[tactic(auto, using(crate::proofs::Devices::form_counted))]
fn write_head<K: ByteSink>(sink: &mut K, format: &Format) -> Result<(), DeviceFault>
    requires { IsYcc format.now.sampling }
    ensures took { OnOk result (K.took sink.new ≡ K.took sink.old ++ y4m_head format.now) }
    ensures part { OnErr result
        (GrowsPart (K.took sink.old) (K.took sink.new) (y4m_head format.now)) }
    ensures counted { CountsFaults (K.failures sink.old) (K.failures sink.new) result }
{
    match write_y4m_head(sink, format) {
        Ok(()) => Ok(()),
        Err(_fault) => Err(DeviceFault),
    }
}

/// Writes the frame of a stream.
#[tactic(auto, using(crate::proofs::Devices::form_counted))]
fn write_frame<A: Allocator, K: ByteSink>(
    sink: &mut K,
    picture: &Picture<A>,
) -> Result<(), DeviceFault>
    requires { IsYcc picture.now.format.sampling }
    ensures took { OnOk result (K.took sink.new ≡ K.took sink.old ++ frame_text picture.now) }
    ensures part { OnErr result
        (GrowsPart (K.took sink.old) (K.took sink.new) (frame_text picture.now)) }
    ensures counted { CountsFaults (K.failures sink.old) (K.failures sink.new) result }
{
    match write_y4m_frame(sink, picture) {
        Ok(()) => Ok(()),
        Err(_fault) => Err(DeviceFault),
    }
}

/// Writes a pixmap.
#[tactic(auto, using(crate::proofs::Devices::form_counted))]
fn write_pixels<A: Allocator, K: ByteSink>(
    sink: &mut K,
    picture: &Picture<A>,
) -> Result<(), DeviceFault>
    requires { IsRgb picture.now.format.sampling }
    ensures took { OnOk result (K.took sink.new ≡ K.took sink.old ++ pixmap_text picture.now) }
    ensures part { OnErr result
        (GrowsPart (K.took sink.old) (K.took sink.new) (pixmap_text picture.now)) }
    ensures counted { CountsFaults (K.failures sink.old) (K.failures sink.new) result }
{
    match write_pixmap(sink, picture) {
        Ok(()) => Ok(()),
        Err(_fault) => Err(DeviceFault),
    }
}
