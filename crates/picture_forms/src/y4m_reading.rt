//! Reading the planes of YUV4MPEG2 streams.
ghost use Rattle.std.specs.Prelude.{◌≡◌, ◌<◌, ◌+◌, ◌*◌, ◌++◌, length, IfErr, OnOk};
ghost use Rattle.st_format.specs.Position.{sample_count};
ghost use Rattle.picture_forms.specs.Faults.{CountsDevice};
ghost use Rattle.picture_forms.specs.Frames.{planes_size};
ghost use Rattle.picture_forms.specs.Layouts.{IsYcc, plane_count, plane_first, plane_step};
ghost use Rattle.picture_forms.specs.Layouts.{plane_text, planes_text, y4m_spelling};
ghost use Rattle.picture_forms.specs.Planes.{KeepsOthers, sample_size};
ghost use Rattle.picture_forms.specs.Walks.{Gives, IsCut};

use crate::fault::FormFault;
use crate::plane_reading::read_plane;
use crate::y4m_writing::{plane_count_of, spelling_of, stride_of};
use st_format::{ByteSource, Format};

/// Reads the planes of Y, Cb and Cr of a picture, which is YCbCr, into its samples. Whether these
/// fit the depth is not looked at. No memory is taken.
///
/// # Errors
///
/// `Truncated` where the source has fewer octets, and `Device`.
pub(crate) fn read_y4m_planes<S: ByteSource>(
    source: &mut S,
    format: &Format,
    samples: &mut [u16],
) -> Result<(), FormFault>
    requires ycc { IsYcc format.now.sampling }
    requires room { length samples.old ≡ sample_count format.now }
    ensures long { length samples.new ≡ length samples.old }
    ensures given { OnOk result (Gives (S.to_give source.old) (S.to_give source.new)
        (S.gave source.old) (S.gave source.new)
        (planes_text (record { format = format.now; samples = samples.new }))) }
    ensures fault { IfErr result (λ f. IsCut f
        (planes_size format.now)
        (S.to_give source.old) (S.to_give source.new)
        (S.gave source.old) (S.gave source.new) (S.ended source.new)) }
    ensures counted { CountsDevice (S.failures source.old) (S.failures source.new) result }
    ensures names { S.names source.new ≡ S.names source.old }
{
    read_component(source, format, samples, 0)?;
    read_chroma(source, format, samples)
}

/// Reads the planes of Cb and Cr.
fn read_chroma<S: ByteSource>(
    source: &mut S,
    format: &Format,
    samples: &mut [u16],
) -> Result<(), FormFault>
    requires ycc { IsYcc format.now.sampling }
    requires room { length samples.old ≡ sample_count format.now }
    ensures long { length samples.new ≡ length samples.old }
    ensures given { OnOk result (Gives (S.to_give source.old) (S.to_give source.new)
        (S.gave source.old) (S.gave source.new)
        (plane_text (record { format = format.now; samples = samples.new }) 1
        ++ plane_text (record { format = format.now; samples = samples.new }) 2)) }
    ensures luma { OnOk result (plane_text (record { format = format.now; samples = samples.old }) 0
        ≡ plane_text (record { format = format.now; samples = samples.new }) 0) }
    ensures fault { IfErr result (λ f. IsCut f
        (sample_size (y4m_spelling format.now.depth) * plane_count format.now 1
        + sample_size (y4m_spelling format.now.depth) * plane_count format.now 2)
        (S.to_give source.old) (S.to_give source.new)
        (S.gave source.old) (S.gave source.new) (S.ended source.new)) }
    ensures counted { CountsDevice (S.failures source.old) (S.failures source.new) result }
    ensures names { S.names source.new ≡ S.names source.old }
{
    read_component(source, format, samples, 1)?;
    read_component(source, format, samples, 2)
}

/// Reads the plane of a component, 0 for Y, 1 for Cb and 2 for Cr, to its places in the raster.
fn read_component<S: ByteSource>(
    source: &mut S,
    format: &Format,
    samples: &mut [u16],
    component: u8,
) -> Result<(), FormFault>
    requires ycc { IsYcc format.now.sampling }
    requires component { component < 3 }
    requires room { length samples.old ≡ sample_count format.now }
    ensures long { length samples.new ≡ length samples.old }
    ensures given { OnOk result (Gives (S.to_give source.old) (S.to_give source.new)
        (S.gave source.old) (S.gave source.new)
        (plane_text (record { format = format.now; samples = samples.new }) component)) }
    ensures others { KeepsOthers samples.old samples.new
        (plane_first format.now.sampling component) (plane_step format.now.sampling component)
        0 (plane_count format.now component) }
    ensures fault { IfErr result (λ f. IsCut f
        (sample_size (y4m_spelling format.now.depth) * plane_count format.now component)
        (S.to_give source.old) (S.to_give source.new)
        (S.gave source.old) (S.gave source.new) (S.ended source.new)) }
    ensures counted { CountsDevice (S.failures source.old) (S.failures source.new) result }
    ensures names { S.names source.new ≡ S.names source.old }
{
    let stride = stride_of(format.sampling(), component);
    let count = plane_count_of(format, component);
    read_plane(source, spelling_of(format.depth()), samples, stride, count)
}
