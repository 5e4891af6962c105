//! Writing portable pixmaps.
ghost use Rattle.std.specs.Prelude.{◌≡◌, ◌++◌, IfErr, OnErr, OnOk};
ghost use Rattle.std.specs.Io.KnownBytes.{Appends};
ghost use Rattle.st_format.specs.Device.{AppendsPrefix, CountsFaults, GrowsPart};
ghost use Rattle.st_format.specs.Picture.{IsPicture};
ghost use Rattle.picture_forms.specs.Faults.{CountsDevice, IsDevice};
ghost use Rattle.picture_forms.specs.Layouts.{IsRgb, pixels_text, pixmap_head, pixmap_spelling};
ghost use Rattle.picture_forms.specs.Layouts.{pixmap_text};
ghost use Rattle.picture_forms.specs.Writing.{Writes, WritesPart};

use crate::fault::FormFault;
use crate::line::Line;
use crate::planes::{Spelling, Stride, write_plane};
use crate::sinking::write_all;
use st_format::{ByteSink, Depth, DeviceFault, Format, Picture};
use std::alloc::Allocator;

/// Writes a picture, which is RGB, as a portable pixmap. No memory is taken.
///
/// # Errors
///
/// `Device` where the sink failed: it then has a first part of the pixmap more than before, and
/// not all.
pub fn write_pixmap<A: Allocator, K: ByteSink>(
    sink: &mut K,
    picture: &Picture<A>,
) -> Result<(), FormFault>
    requires { IsRgb picture.now.format.sampling }
    ensures ok { OnOk result
        (Appends (K.held sink.old) (K.held sink.new) (pixmap_text picture.now)) }
    ensures fault { IfErr result (λ f. IsDevice f
        × AppendsPrefix (K.held sink.old) (K.held sink.new) (pixmap_text picture.now)) }
    ensures counted { CountsDevice (K.failures sink.old) (K.failures sink.new) result }
    ensures names { K.names sink.new ≡ K.names sink.old }
    ensures took { OnOk result (K.took sink.new ≡ K.took sink.old ++ pixmap_text picture.now) }
    ensures part { OnErr result (GrowsPart (K.took sink.old) (K.took sink.new)
        (pixmap_text picture.now)) }
{
    let format = picture.format();
    write_parts(sink, &format, picture.samples())?;
    Ok(())
}

/// Writes the samples of a picture, which is RGB, as a portable pixmap, as [`write_pixmap`] does:
/// those of a frame that was settled into a buffer, or of octets that were unpacked into it. No
/// memory is taken.
///
/// # Errors
///
/// `Device` where the sink failed: it then has a first part of the pixmap more than before, and
/// not all.
pub fn write_pixmap_samples<K: ByteSink>(
    sink: &mut K,
    format: &Format,
    samples: &[u16],
) -> Result<(), FormFault>
    requires sampling { IsRgb format.now.sampling }
    requires whole { IsPicture (record { format = format.now; samples = samples.now }) }
    ensures ok { OnOk result (Appends (K.held sink.old) (K.held sink.new)
        (pixmap_text (record { format = format.now; samples = samples.now }))) }
    ensures fault { IfErr result (λ f. IsDevice f
        × AppendsPrefix (K.held sink.old) (K.held sink.new)
        (pixmap_text (record { format = format.now; samples = samples.now }))) }
    ensures counted { CountsDevice (K.failures sink.old) (K.failures sink.new) result }
    ensures names { K.names sink.new ≡ K.names sink.old }
    ensures took { OnOk result (K.took sink.new ≡ K.took sink.old
        ++ pixmap_text (record { format = format.now; samples = samples.now })) }
    ensures part { OnErr result (GrowsPart (K.took sink.old) (K.took sink.new)
        (pixmap_text (record { format = format.now; samples = samples.now }))) }
{
    write_parts(sink, format, samples)?;
    Ok(())
}

/// The head, and the octets of the samples.
fn write_parts<K: ByteSink>(
    sink: &mut K,
    format: &Format,
    samples: &[u16],
) -> Result<(), DeviceFault>
    requires whole { IsPicture (record { format = format.now; samples = samples.now }) }
    ensures ok { OnOk result (Writes (K.held sink.old) (K.held sink.new)
        (K.took sink.old) (K.took sink.new)
        (pixmap_text (record { format = format.now; samples = samples.now }))) }
    ensures fault { OnErr result (WritesPart (K.held sink.old) (K.held sink.new)
        (K.took sink.old) (K.took sink.new)
        (pixmap_text (record { format = format.now; samples = samples.now }))) }
    ensures counted { CountsFaults (K.failures sink.old) (K.failures sink.new) result }
    ensures names { K.names sink.new ≡ K.names sink.old }
{
    let line = head_text(format);
    write_all(sink, line.text())?;
    write_pixels(sink, format, samples)
}

/// The head of a pixmap: `P6`, the size in pixels, and the greatest value of a sample.
fn head_text(format: &Format) -> Line
    ensures { result ≡ pixmap_head format.now }
{
    let mut line = Line::new();
    line.add_number(b"P6\n", format.width());
    line.add_number(b" ", format.height());
    line.add_number(b"\n", u32::from(format.max_value()));
    line.add(b"\n");
    line
}

/// All samples, in raster order.
fn write_pixels<K: ByteSink>(
    sink: &mut K,
    format: &Format,
    samples: &[u16],
) -> Result<(), DeviceFault>
    requires whole { IsPicture (record { format = format.now; samples = samples.now }) }
    ensures ok { OnOk result (Writes (K.held sink.old) (K.held sink.new)
        (K.took sink.old) (K.took sink.new)
        (pixels_text (record { format = format.now; samples = samples.now }))) }
    ensures fault { OnErr result (WritesPart (K.held sink.old) (K.held sink.new)
        (K.took sink.old) (K.took sink.new)
        (pixels_text (record { format = format.now; samples = samples.now }))) }
    ensures counted { CountsFaults (K.failures sink.old) (K.failures sink.new) result }
    ensures names { K.names sink.new ≡ K.names sink.old }
{
    let stride = Stride { first: 0, step: 1 };
    write_plane(
        sink,
        spelling_of(format.depth()),
        samples,
        stride,
        samples.len(),
    )
}

/// How a sample of this depth stands in a pixmap.
pub(crate) fn spelling_of(depth: Depth) -> Spelling
    ensures { result ≡ pixmap_spelling depth }
{
    match depth {
        Depth::D8 => Spelling::One,
        Depth::D10 | Depth::D12 | Depth::D16 => Spelling::Big,
    }
}
