//! Writing frames that are settled by their planes.
ghost use Rattle.std.specs.Prelude.{◌≡◌, ◌≤◌, ◌<◌, ◌++◌, length, IfErr, OnErr, OnOk};
ghost use Rattle.std.specs.Io.KnownBytes.{Appends};
ghost use Rattle.frame_assembly.specs.Settled.{IsBaseOf, settled_picture};
ghost use Rattle.picture_forms.specs.Faults.{CountsDevice, IsDevice};
ghost use Rattle.picture_forms.specs.Layouts.{IsYcc, frame_text, plane_text};
ghost use Rattle.picture_forms.specs.Writing.{Writes, WritesPart};
ghost use Rattle.st_format.specs.Device.{AppendsPrefix, CountsFaults, GrowsPart};
ghost use Rattle.st_format.specs.Position.{row_samples};

use crate::plane_source::PlaneSource;
use crate::planes::row_octets_of;
use frame_assembly::{Base, Frame};
use picture_forms::FormFault;
use st_format::{ByteSink, DeviceFault, write_whole};
use std::alloc::Allocator;

/// How many octets the longest row of a plane has.
const ROW_OCTETS: usize = 16384;

/// How many octets of a plane are written at once at most, where a row has no more: few enough that
/// they are in the processor's nearest cache when they are passed on.
const PIECE: usize = 8192;

/// How many samples a row has at most.
const ROW_SAMPLES: usize = 32768;

/// Writes a frame, which is YCbCr, as a frame of a YUV4MPEG2 stream: its line and the planes of the
/// picture that [`Frame::settle`](frame_assembly::Frame::settle) gives with this base. Each plane
/// is written as it is settled, in a pass of its own, and none is held. No memory is taken.
///
/// # Errors
///
/// `Device` where the sink failed: it then has a first part of the frame more than before, and not
/// all.
pub fn write_planes<A: Allocator, B: Allocator, K: ByteSink>(
    sink: &mut K,
    frame: &Frame<A>,
    base: Base<'_, B>,
) -> Result<(), FormFault>
    requires base { IsBaseOf base frame.now.format }
    requires ycc { IsYcc frame.now.format.sampling }
    ensures ok { OnOk result (Appends (K.held sink.old) (K.held sink.new)
        (frame_text (settled_picture frame.now base.entry))) }
    ensures fault { IfErr result (λ f. IsDevice f
        × AppendsPrefix (K.held sink.old) (K.held sink.new)
        (frame_text (settled_picture frame.now base.entry))) }
    ensures counted { CountsDevice (K.failures sink.old) (K.failures sink.new) result }
    ensures names { K.names sink.new ≡ K.names sink.old }
    ensures took { OnOk result (K.took sink.new ≡ K.took sink.old
        ++ frame_text (settled_picture frame.now base.entry)) }
    ensures part { OnErr result (GrowsPart (K.took sink.old) (K.took sink.new)
        (frame_text (settled_picture frame.now base.entry))) }
{
    write_frame(sink, &PlaneSource::new(frame, base))?;
    Ok(())
}

/// The same with the fault of the device. Its room on the stack is large: in a caller's own, each
/// call that has nothing to write would touch it too.
#[inline(never)]
fn write_frame<A: Allocator, B: Allocator, K: ByteSink>(
    sink: &mut K,
    source: &PlaneSource<A, B>,
) -> Result<(), DeviceFault>
    requires base { IsBaseOf source.now.base source.now.frame.now.format }
    requires ycc { IsYcc source.now.frame.now.format.sampling }
    ensures ok { OnOk result (Writes (K.held sink.old) (K.held sink.new)
        (K.took sink.old) (K.took sink.new)
        (frame_text (settled_picture source.now.frame.now source.now.base))) }
    ensures fault { OnErr result (WritesPart (K.held sink.old) (K.held sink.new)
        (K.took sink.old) (K.took sink.new)
        (frame_text (settled_picture source.now.frame.now source.now.base))) }
    ensures counted { CountsFaults (K.failures sink.old) (K.failures sink.new) result }
    ensures names { K.names sink.new ≡ K.names sink.old }
{
    let mut room = [0; ROW_SAMPLES];
    let samples = &mut room[..source.frame.format().row_samples()];
    let mut octets = [0; ROW_OCTETS];
    write_all(sink, b"FRAME\n")?;
    write_plane(sink, source, 0, samples, &mut octets)?;
    write_plane(sink, source, 1, samples, &mut octets)?;
    write_plane(sink, source, 2, samples, &mut octets)
}

/// Writes the plane of a component, 0 for Y, 1 for Cb and 2 for Cr, by pieces of whole rows.
/// `octets` has room for the longest row, and `samples` just that for the samples of a row.
fn write_plane<A: Allocator, B: Allocator, K: ByteSink>(
    sink: &mut K,
    source: &PlaneSource<A, B>,
    component: u8,
    samples: &mut [u16],
    octets: &mut [u8],
) -> Result<(), DeviceFault>
    requires base { IsBaseOf source.now.base source.now.frame.now.format }
    requires ycc { IsYcc source.now.frame.now.format.sampling }
    requires component { component < 3 }
    requires samples { length samples.old ≡ row_samples source.now.frame.now.format }
    requires octets { 16384 ≤ length octets.old }
    ensures ok { OnOk result (Writes (K.held sink.old) (K.held sink.new)
        (K.took sink.old) (K.took sink.new)
        (plane_text (settled_picture source.now.frame.now source.now.base) component)) }
    ensures fault { OnErr result (WritesPart (K.held sink.old) (K.held sink.new)
        (K.took sink.old) (K.took sink.new)
        (plane_text (settled_picture source.now.frame.now source.now.base) component)) }
    ensures counted { CountsFaults (K.failures sink.old) (K.failures sink.new) result }
    ensures names { K.names sink.new ≡ K.names sink.old }
{
    let format = source.frame.format();
    let size = row_octets_of(&format, component);
    let most = size.max(PIECE) / size;
    let height = format.height() as usize;
    let mut row = 0;
    while row < height {
        let some = (height - row).min(most);
        let piece = &mut octets[..size * some];
        source.spell_rows(component, row, some, samples, piece);
        write_all(sink, piece)?;
        row += some;
    }
    Ok(())
}

/// Writes all of `octets`, and less only where the device fails.
fn write_all<K: ByteSink>(sink: &mut K, octets: &[u8]) -> Result<(), DeviceFault>
    ensures ok { OnOk result (Writes (K.held sink.old) (K.held sink.new)
        (K.took sink.old) (K.took sink.new) octets.now) }
    ensures fault { OnErr result (WritesPart (K.held sink.old) (K.held sink.new)
        (K.took sink.old) (K.took sink.new) octets.now) }
    ensures counted { CountsFaults (K.failures sink.old) (K.failures sink.new) result }
    ensures names { K.names sink.new ≡ K.names sink.old }
{
    write_whole(sink, octets)
}
