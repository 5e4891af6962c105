//! Writing a frame that is settled.
ghost use Rattle.std.specs.Prelude.{◌≡◌, ◌++◌, length, IfErr, OnErr, OnOk};
ghost use Rattle.std.specs.Io.KnownBytes.{Appends};
ghost use Rattle.frame_assembly.specs.Settled.{IsBaseOf, settled_picture};
ghost use Rattle.picture_forms.specs.Faults.{CountsDevice, IsDevice};
ghost use Rattle.settled_forms.specs.Settled.{form_text};
ghost use Rattle.st_format.specs.Device.{AppendsPrefix, GrowsPart};
ghost use Rattle.st_format.specs.Picture.{IsPicture};
ghost use Rattle.st_format.specs.Position.{sample_count};

use frame_assembly::{Base, Frame};
use picture_forms::{FormFault, write_pixmap_samples, write_y4m_samples};
use st_format::{ByteSink, Format, Sampling};
use std::alloc::Allocator;

/// Writes a frame as the picture that [`Frame::settle`](frame_assembly::Frame::settle) gives with
/// this base: of YCbCr as a frame of a YUV4MPEG2 stream, of RGB as a portable pixmap. It is settled
/// into `samples`, which has just the room, and has the picture's samples then; no memory is taken.
///
/// # Errors
///
/// `Device` where the sink failed: it then has a first part of the text more than before, and not
/// all.
pub fn write_settled<A: Allocator, B: Allocator, K: ByteSink>(
    sink: &mut K,
    frame: &Frame<A>,
    base: Base<'_, B>,
    samples: &mut [u16],
) -> Result<(), FormFault>
    requires base { IsBaseOf base frame.now.format }
    requires room { length samples.old ≡ sample_count frame.now.format }
    ensures room { length samples.new ≡ length samples.old }
    ensures settled { samples.new ≡ (settled_picture frame.now base.entry).samples }
    ensures ok { OnOk result (Appends (K.held sink.old) (K.held sink.new)
        (form_text (settled_picture frame.now base.entry))) }
    ensures fault { IfErr result (λ f. IsDevice f
        × AppendsPrefix (K.held sink.old) (K.held sink.new)
        (form_text (settled_picture frame.now base.entry))) }
    ensures counted { CountsDevice (K.failures sink.old) (K.failures sink.new) result }
    ensures names { K.names sink.new ≡ K.names sink.old }
    ensures took { OnOk result (K.took sink.new ≡ K.took sink.old
        ++ form_text (settled_picture frame.now base.entry)) }
    ensures part { OnErr result (GrowsPart (K.took sink.old) (K.took sink.new)
        (form_text (settled_picture frame.now base.entry))) }
{
    let format = frame.format();
    settle_all(frame, base, samples);
    write_form(sink, &format, samples)
}

/// Settles all samples of a frame into `samples`, which has just the room. A base is one as for
/// [`Frame::settle`](frame_assembly::Frame::settle).
pub fn settle_all<A: Allocator, B: Allocator>(
    frame: &Frame<A>,
    base: Base<'_, B>,
    samples: &mut [u16],
)
    requires base { IsBaseOf base frame.now.format }
    requires room { length samples.old ≡ sample_count frame.now.format }
    ensures settled { samples.new ≡ (settled_picture frame.now base.entry).samples }
    ensures whole { IsPicture (settled_picture frame.now base.entry) }
{
    let format = frame.format();
    let count = format.height() as usize * format.row_groups() as usize;
    frame.settled_facts(base);
    frame.settle_groups(0, count, base, samples);
}

/// Writes the samples of a picture in the form of its sampling.
#[tactic(auto, unfolding(crate::specs::Settled::form_text))]
fn write_form<K: ByteSink>(sink: &mut K, format: &Format, samples: &[u16]) -> Result<(), FormFault>
    requires { IsPicture (record { format = format.now; samples = samples.now }) }
    ensures ok { OnOk result (Appends (K.held sink.old) (K.held sink.new)
        (form_text (record { format = format.now; samples = samples.now }))) }
    ensures fault { IfErr result (λ f. IsDevice f
        × AppendsPrefix (K.held sink.old) (K.held sink.new)
        (form_text (record { format = format.now; samples = samples.now }))) }
    ensures counted { CountsDevice (K.failures sink.old) (K.failures sink.new) result }
    ensures names { K.names sink.new ≡ K.names sink.old }
    ensures took { OnOk result (K.took sink.new ≡ K.took sink.old
        ++ form_text (record { format = format.now; samples = samples.now })) }
    ensures part { OnErr result (GrowsPart (K.took sink.old) (K.took sink.new)
        (form_text (record { format = format.now; samples = samples.now }))) }
{
    match format.sampling() {
        Sampling::Ycc422 | Sampling::Ycc444 => write_y4m_samples(sink, format, samples),
        Sampling::Rgb => write_pixmap_samples(sink, format, samples),
    }
}
