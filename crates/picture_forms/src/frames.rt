//! Reading the frames of YUV4MPEG2 streams.
ghost use Rattle.std.specs.Prelude.{◌≡◌, ◌<◌, ◌↔◌, length, IfErr, IfOk, IsTrue, OnOk};
ghost use Rattle.std.specs.List.{AllByRecursion};
ghost use Rattle.st_format.specs.Picture.{FitsDepth, IsPicture};
ghost use Rattle.st_format.specs.Position.{sample_count};
ghost use Rattle.picture_forms.specs.Faults.{CountsDevice, IfContent, IsShown};
ghost use Rattle.picture_forms.specs.Frames.{ReadsFrame, ReadsLine, ReadsStart, frame_line_at};
ghost use Rattle.picture_forms.specs.Frames.{frame_mark, frame_walk, parameters_at, planes_at};
ghost use Rattle.picture_forms.specs.Layouts.{IsYcc, planes_text};
ghost use Rattle.picture_forms.specs.Walks.{IsCut, Reads, Refuses};

use crate::fault::FormFault;
use crate::lines::read_line;
use crate::y4m_reading::read_y4m_planes;
use st_format::{ByteSource, Format, read_whole};

/// How many octets of a frame's line are read behind `FRAME` and a space, with its end.
const LINE: usize = 256;

/// Reads the samples of the next frame of a stream of pictures of this format, which are YCbCr:
/// its line and its planes. False where the source is at its end. No memory is taken.
///
/// # Errors
///
/// The first fault in the order of the octets, or one of the device before it: `Truncated` where
/// there are fewer than six, `BadHeader` where these aren't `FRAME` and LF or a space, `BadHeader`
/// where 256 behind a space have no LF, `Truncated` where the source ends before it or within the
/// planes, and `ValueTooLarge` where a value of the planes, which are whole, has more bits than the
/// depth.
pub(crate) fn read_samples<S: ByteSource>(
    source: &mut S,
    format: &Format,
    samples: &mut [u16],
) -> Result<bool, FormFault>
    requires ycc { IsYcc format.now.sampling }
    requires room { length samples.old ≡ sample_count format.now }
    ensures long { length samples.new ≡ length samples.old }
    ensures read { IfOk result (λ b. ReadsFrame format.now
        (S.to_give source.old) (S.to_give source.new)
        (S.gave source.old) (S.gave source.new) (S.ended source.new) samples.new b) }
    ensures fault { IfErr result (λ f. Refuses (frame_walk format.now)
        (S.to_give source.old) (S.to_give source.new)
        (S.gave source.old) (S.gave source.new) (S.ended source.new) f) }
    ensures begun { IfErr result (λ f. IfContent f
        (length (S.gave source.old) < length (S.gave source.new))) }
    ensures counted { CountsDevice (S.failures source.old) (S.failures source.new) result }
    ensures names { S.names source.new ≡ S.names source.old }
{
    if !read_frame_line(source)? {
        return Ok(false);
    }
    read_planes(source, format, samples)?;
    Ok(true)
}

/// Reads the planes of a frame, and finds that each value fits the depth.
fn read_planes<S: ByteSource>(
    source: &mut S,
    format: &Format,
    samples: &mut [u16],
) -> Result<(), FormFault>
    requires ycc { IsYcc format.now.sampling }
    requires room { length samples.old ≡ sample_count format.now }
    ensures long { length samples.new ≡ length samples.old }
    ensures fit { OnOk result
        (IsPicture (record { format = format.now; samples = samples.new })) }
    ensures read { OnOk result (Reads (planes_at format.now)
        (S.to_give source.old) (S.to_give source.new) (S.gave source.old) (S.gave source.new)
        (planes_text (record { format = format.now; samples = samples.new }))) }
    ensures fault { IfErr result (λ f. Refuses (planes_at format.now)
        (S.to_give source.old) (S.to_give source.new)
        (S.gave source.old) (S.gave source.new) (S.ended source.new) f) }
    ensures counted { CountsDevice (S.failures source.old) (S.failures source.new) result }
    ensures names { S.names source.new ≡ S.names source.old }
{
    read_y4m_planes(source, format, samples)?;
    if !fit(samples, format) {
        return Err(FormFault::ValueTooLarge);
    }
    Ok(())
}

/// Whether each value fits the depth.
pub(crate) fn fit(samples: &[u16], format: &Format) -> bool
    ensures { IsTrue result ↔ AllByRecursion (FitsDepth format.now) samples.now }
{
    let most = format.max_value();
    samples.iter().all(|v| *v <= most)
}

/// Reads the line of a frame; false where the source is at its end.
fn read_frame_line<S: ByteSource>(source: &mut S) -> Result<bool, FormFault>
    ensures read { IfOk result (λ b. ReadsLine (S.to_give source.old) (S.to_give source.new)
        (S.gave source.old) (S.gave source.new) (S.ended source.new) b) }
    ensures fault { IfErr result (λ f. Refuses frame_line_at
        (S.to_give source.old) (S.to_give source.new)
        (S.gave source.old) (S.gave source.new) (S.ended source.new) f) }
    ensures begun { IfErr result (λ f. IfContent f
        (length (S.gave source.old) < length (S.gave source.new))) }
    ensures counted { CountsDevice (S.failures source.old) (S.failures source.new) result }
    ensures names { S.names source.new ≡ S.names source.old }
{
    let mut head = [0u8; 6];
    if !read_start(source, &mut head)? {
        return Ok(false);
    }
    let more = mark_in(&head)?;
    read_parameters(source, more)?;
    Ok(true)
}

/// Reads as many octets as `buf`, which isn't empty, has room for; false where the source is at its
/// end.
pub(crate) fn read_start<S: ByteSource>(source: &mut S, buf: &mut [u8]) -> Result<bool, FormFault>
    requires { 0 < length buf.old }
    ensures room { length buf.new ≡ length buf.old }
    ensures read { IfOk result (λ b. ReadsStart (S.to_give source.old) (S.to_give source.new)
        (S.gave source.old) (S.gave source.new) (S.ended source.new) buf.new b) }
    ensures fault { IfErr result (λ f. IsCut f (length buf.old)
        (S.to_give source.old) (S.to_give source.new)
        (S.gave source.old) (S.gave source.new) (S.ended source.new)) }
    ensures begun { IfErr result (λ f. IfContent f
        (length (S.gave source.old) < length (S.gave source.new))) }
    ensures counted { CountsDevice (S.failures source.old) (S.failures source.new) result }
    ensures names { S.names source.new ≡ S.names source.old }
{
    let n = read_whole(source, buf)?;
    if n == 0 {
        return Ok(false);
    }
    if n < buf.len() {
        return Err(FormFault::Truncated);
    }
    Ok(true)
}

/// Whether parameters stand in the line of a frame that begins with these octets.
#[tactic(auto, unfolding(crate::specs::Frames::frame_mark))]
fn mark_in(head: &[u8]) -> Result<bool, FormFault>
    ensures value { result ≡ frame_mark head.now }
    ensures named { IfErr result IsShown }
{
    if head == b"FRAME\n".as_slice() {
        Ok(false)
    } else if head == b"FRAME ".as_slice() {
        Ok(true)
    } else {
        Err(FormFault::BadHeader)
    }
}

/// Reads the parameters of a frame's line, where there are such. They say nothing.
fn read_parameters<S: ByteSource>(source: &mut S, more: bool) -> Result<(), FormFault>
    ensures read { OnOk result (Reads (parameters_at more)
        (S.to_give source.old) (S.to_give source.new)
        (S.gave source.old) (S.gave source.new) tt) }
    ensures fault { IfErr result (λ f. Refuses (parameters_at more)
        (S.to_give source.old) (S.to_give source.new)
        (S.gave source.old) (S.gave source.new) (S.ended source.new) f) }
    ensures counted { CountsDevice (S.failures source.old) (S.failures source.new) result }
    ensures names { S.names source.new ≡ S.names source.old }
{
    if !more {
        return Ok(());
    }
    let mut line = [0u8; LINE];
    let _parameters = read_line(source, &mut line)?;
    Ok(())
}
