//! Writing YUV4MPEG2 streams.
ghost use Rattle.std.specs.Prelude.{◌≡◌, ◌≤◌, ◌<◌, ◌++◌, ◌*◌, ◌/◌, length, IfErr, OnErr, OnOk};
ghost use Rattle.std.specs.Io.KnownBytes.{Appends};
ghost use Rattle.std.specs.List.{All};
ghost use Rattle.st_format.specs.Device.{AppendsPrefix, CountsFaults, GrowsPart};
ghost use Rattle.st_format.specs.Picture.{IsPicture};
ghost use Rattle.picture_forms.specs.Faults.{CountsDevice, IsDevice};
ghost use Rattle.picture_forms.specs.Layouts.{IsYcc, depth_word, frame_text};
ghost use Rattle.picture_forms.specs.Layouts.{plane_count, plane_first, plane_step};
ghost use Rattle.picture_forms.specs.Layouts.{plane_text};
ghost use Rattle.picture_forms.specs.Layouts.{planes_text, sampling_word, y4m_head};
ghost use Rattle.picture_forms.specs.Layouts.{y4m_spelling};
ghost use Rattle.picture_forms.specs.Writing.{Writes, WritesPart};

use crate::fault::FormFault;
use crate::line::Line;
use crate::planes::{Spelling, Stride, write_plane};
use crate::sinking::write_all;
use st_format::{ByteSink, Depth, DeviceFault, Format, Picture, Sampling};
use std::alloc::Allocator;

/// Writes the line of a stream of pictures of this format, which are YCbCr. Pictures follow by
/// [`write_y4m_frame`]. No memory is taken.
///
/// # Errors
///
/// `Device` where the sink failed: it then has a first part of the line more than before, and not
/// all.
pub fn write_y4m_head<K: ByteSink>(sink: &mut K, format: &Format) -> Result<(), FormFault>
    requires { IsYcc format.now.sampling }
    ensures ok { OnOk result
        (Appends (K.held sink.old) (K.held sink.new) (y4m_head format.now)) }
    ensures fault { IfErr result (λ f. IsDevice f
        × AppendsPrefix (K.held sink.old) (K.held sink.new) (y4m_head format.now)) }
    ensures counted { CountsDevice (K.failures sink.old) (K.failures sink.new) result }
    ensures names { K.names sink.new ≡ K.names sink.old }
    ensures took { OnOk result (K.took sink.new ≡ K.took sink.old ++ y4m_head format.now) }
    ensures part { OnErr result (GrowsPart (K.took sink.old) (K.took sink.new)
        (y4m_head format.now)) }
{
    let line = head_line(format);
    write_all(sink, line.text())?;
    Ok(())
}

/// The first line of a stream: progressive, of square pixels.
fn head_line(format: &Format) -> Line
    requires { IsYcc format.now.sampling }
    ensures { result ≡ y4m_head format.now }
{
    let mut line = Line::new();
    line.add_number(b"YUV4MPEG2 W", format.width());
    line.add_number(b" H", format.height());
    line.add_number(b" F", format.n());
    line.add_number(b":", format.d());
    line.add(b" Ip A1:1");
    line.add(sampling_word_of(format.sampling()));
    line.add(depth_word_of(format.depth()));
    line
}

/// The word for a sampling; none for RGB, which no stream has.
fn sampling_word_of(sampling: Sampling) -> &'static [u8]
    ensures text { result.now ≡ sampling_word sampling }
    ensures short { length result.now ≤ 5 }
{
    match sampling {
        Sampling::Ycc422 => b" C422",
        Sampling::Ycc444 => b" C444",
        Sampling::Rgb => b"",
    }
}

/// The word for a depth, and the line's end.
fn depth_word_of(depth: Depth) -> &'static [u8]
    ensures text { result.now ≡ depth_word depth }
    ensures short { length result.now ≤ 4 }
{
    match depth {
        Depth::D8 => b"\n",
        Depth::D10 => b"p10\n",
        Depth::D12 => b"p12\n",
        Depth::D16 => b"p16\n",
    }
}

/// Writes a picture, which is YCbCr, as a frame of a stream: its line and the planes of Y, Cb and
/// Cr. No memory is taken.
///
/// # Errors
///
/// `Device` where the sink failed: it then has a first part of the frame more than before, and not
/// all.
pub fn write_y4m_frame<A: Allocator, K: ByteSink>(
    sink: &mut K,
    picture: &Picture<A>,
) -> Result<(), FormFault>
    requires { IsYcc picture.now.format.sampling }
    ensures ok { OnOk result
        (Appends (K.held sink.old) (K.held sink.new) (frame_text picture.now)) }
    ensures fault { IfErr result (λ f. IsDevice f
        × AppendsPrefix (K.held sink.old) (K.held sink.new) (frame_text picture.now)) }
    ensures counted { CountsDevice (K.failures sink.old) (K.failures sink.new) result }
    ensures names { K.names sink.new ≡ K.names sink.old }
    ensures took { OnOk result (K.took sink.new ≡ K.took sink.old ++ frame_text picture.now) }
    ensures part { OnErr result (GrowsPart (K.took sink.old) (K.took sink.new)
        (frame_text picture.now)) }
{
    let format = picture.format();
    write_frame(sink, &format, picture.samples())?;
    Ok(())
}

/// Writes the samples of a picture, which is YCbCr, as a frame of a stream, as [`write_y4m_frame`]
/// does: those of a frame that was settled into a buffer, or of octets that were unpacked into it.
/// No memory is taken.
///
/// # Errors
///
/// `Device` where the sink failed: it then has a first part of the frame more than before, and not
/// all.
pub fn write_y4m_samples<K: ByteSink>(
    sink: &mut K,
    format: &Format,
    samples: &[u16],
) -> Result<(), FormFault>
    requires sampling { IsYcc format.now.sampling }
    requires whole { IsPicture (record { format = format.now; samples = samples.now }) }
    ensures ok { OnOk result (Appends (K.held sink.old) (K.held sink.new)
        (frame_text (record { format = format.now; samples = samples.now }))) }
    ensures fault { IfErr result (λ f. IsDevice f
        × AppendsPrefix (K.held sink.old) (K.held sink.new)
        (frame_text (record { format = format.now; samples = samples.now }))) }
    ensures counted { CountsDevice (K.failures sink.old) (K.failures sink.new) result }
    ensures names { K.names sink.new ≡ K.names sink.old }
    ensures took { OnOk result (K.took sink.new ≡ K.took sink.old
        ++ frame_text (record { format = format.now; samples = samples.now })) }
    ensures part { OnErr result (GrowsPart (K.took sink.old) (K.took sink.new)
        (frame_text (record { format = format.now; samples = samples.now }))) }
{
    write_frame(sink, format, samples)?;
    Ok(())
}

/// A frame's line and planes.
fn write_frame<K: ByteSink>(
    sink: &mut K,
    format: &Format,
    samples: &[u16],
) -> Result<(), DeviceFault>
    requires ycc { IsYcc format.now.sampling }
    requires whole { IsPicture (record { format = format.now; samples = samples.now }) }
    ensures ok { OnOk result (Writes (K.held sink.old) (K.held sink.new)
        (K.took sink.old) (K.took sink.new)
        (frame_text (record { format = format.now; samples = samples.now }))) }
    ensures fault { OnErr result (WritesPart (K.held sink.old) (K.held sink.new)
        (K.took sink.old) (K.took sink.new)
        (frame_text (record { format = format.now; samples = samples.now }))) }
    ensures counted { CountsFaults (K.failures sink.old) (K.failures sink.new) result }
    ensures names { K.names sink.new ≡ K.names sink.old }
{
    write_all(sink, b"FRAME\n")?;
    write_planes(sink, format, samples)
}

/// The planes of Y, Cb and Cr, one behind the other.
fn write_planes<K: ByteSink>(
    sink: &mut K,
    format: &Format,
    samples: &[u16],
) -> Result<(), DeviceFault>
    requires ycc { IsYcc format.now.sampling }
    requires whole { IsPicture (record { format = format.now; samples = samples.now }) }
    ensures ok { OnOk result (Writes (K.held sink.old) (K.held sink.new)
        (K.took sink.old) (K.took sink.new)
        (planes_text (record { format = format.now; samples = samples.now }))) }
    ensures fault { OnErr result (WritesPart (K.held sink.old) (K.held sink.new)
        (K.took sink.old) (K.took sink.new)
        (planes_text (record { format = format.now; samples = samples.now }))) }
    ensures counted { CountsFaults (K.failures sink.old) (K.failures sink.new) result }
    ensures names { K.names sink.new ≡ K.names sink.old }
{
    write_component(sink, format, samples, 0)?;
    write_chroma(sink, format, samples)
}

/// The planes of Cb and Cr.
fn write_chroma<K: ByteSink>(
    sink: &mut K,
    format: &Format,
    samples: &[u16],
) -> Result<(), DeviceFault>
    requires ycc { IsYcc format.now.sampling }
    requires whole { IsPicture (record { format = format.now; samples = samples.now }) }
    ensures ok { OnOk result (Writes (K.held sink.old) (K.held sink.new)
        (K.took sink.old) (K.took sink.new)
        (plane_text (record { format = format.now; samples = samples.now }) 1
        ++ plane_text (record { format = format.now; samples = samples.now }) 2)) }
    ensures fault { OnErr result (WritesPart (K.held sink.old) (K.held sink.new)
        (K.took sink.old) (K.took sink.new)
        (plane_text (record { format = format.now; samples = samples.now }) 1
        ++ plane_text (record { format = format.now; samples = samples.now }) 2)) }
    ensures counted { CountsFaults (K.failures sink.old) (K.failures sink.new) result }
    ensures names { K.names sink.new ≡ K.names sink.old }
{
    write_component(sink, format, samples, 1)?;
    write_component(sink, format, samples, 2)
}

/// The plane of a component: 0 for Y, 1 for Cb and 2 for Cr.
fn write_component<K: ByteSink>(
    sink: &mut K,
    format: &Format,
    samples: &[u16],
    component: u8,
) -> Result<(), DeviceFault>
    requires ycc { IsYcc format.now.sampling }
    requires component { component < 3 }
    requires whole { IsPicture (record { format = format.now; samples = samples.now }) }
    ensures ok { OnOk result (Writes (K.held sink.old) (K.held sink.new)
        (K.took sink.old) (K.took sink.new)
        (plane_text (record { format = format.now; samples = samples.now }) component)) }
    ensures fault { OnErr result (WritesPart (K.held sink.old) (K.held sink.new)
        (K.took sink.old) (K.took sink.new)
        (plane_text (record { format = format.now; samples = samples.now }) component)) }
    ensures counted { CountsFaults (K.failures sink.old) (K.failures sink.new) result }
    ensures names { K.names sink.new ≡ K.names sink.old }
{
    let stride = stride_of(format.sampling(), component);
    let count = plane_count_of(format, component);
    write_plane(sink, spelling_of(format.depth()), samples, stride, count)
}

/// How a sample of this depth stands in a stream.
pub fn spelling_of(depth: Depth) -> Spelling
    ensures { result ≡ y4m_spelling depth }
{
    match depth {
        Depth::D8 => Spelling::One,
        Depth::D10 | Depth::D12 | Depth::D16 => Spelling::Little,
    }
}

/// Where the samples of a component stand among a picture's.
pub fn stride_of(sampling: Sampling, component: u8) -> Stride
    requires { component < 3 }
    ensures first { result.first ≡ plane_first sampling component }
    ensures step { result.step ≡ plane_step sampling component }
{
    match (sampling, component) {
        (Sampling::Ycc422, 0) => Stride { first: 1, step: 2 },
        (Sampling::Ycc422, 1) => Stride { first: 0, step: 4 },
        (Sampling::Ycc422, _) => Stride { first: 2, step: 4 },
        (Sampling::Ycc444, 0) => Stride { first: 1, step: 3 },
        (Sampling::Ycc444, 1) => Stride { first: 0, step: 3 },
        (Sampling::Ycc444, _) => Stride { first: 2, step: 3 },
        (Sampling::Rgb, c) => Stride {
            first: c as usize,
            step: 3,
        },
    }
}

/// How many samples a component has: of Cb and Cr in 4:2:2 one for each two pixels.
pub fn plane_count_of(format: &Format, component: u8) -> usize
    requires { component < 3 }
    ensures value { result ≡ plane_count format.now component }
    ensures few { result ≤ 8192 * 8192 }
{
    let columns = match (format.sampling(), component) {
        (Sampling::Ycc422, 1 | 2) => format.width() / 2,
        _ => format.width(),
    };
    format.height() as usize * columns as usize
}
