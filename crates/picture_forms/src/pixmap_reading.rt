//! Reading the samples of portable pixmaps.
ghost use Rattle.std.specs.Prelude.{◌≡◌, ◌*◌, length, IfErr, OnOk};
ghost use Rattle.st_format.specs.Position.{sample_count};
ghost use Rattle.picture_forms.specs.Faults.{CountsDevice};
ghost use Rattle.picture_forms.specs.Layouts.{pixels_text, pixmap_spelling};
ghost use Rattle.picture_forms.specs.Planes.{sample_size};
ghost use Rattle.picture_forms.specs.Walks.{Gives, IsCut};

use crate::fault::FormFault;
use crate::pixmap_writing::spelling_of;
use crate::plane_reading::read_plane;
use crate::planes::Stride;
use st_format::{ByteSource, Format};

/// Reads the samples that stand behind a pixmap's head. Whether these fit the depth is not looked
/// at. No memory is taken.
///
/// # Errors
///
/// `Truncated` where the source has fewer octets, and `Device`.
pub(crate) fn read_pixmap_samples<S: ByteSource>(
    source: &mut S,
    format: &Format,
    samples: &mut [u16],
) -> Result<(), FormFault>
    requires { length samples.old ≡ sample_count format.now }
    ensures long { length samples.new ≡ length samples.old }
    ensures given { OnOk result (Gives (S.to_give source.old) (S.to_give source.new)
        (S.gave source.old) (S.gave source.new)
        (pixels_text (record { format = format.now; samples = samples.new }))) }
    ensures fault { IfErr result (λ f. IsCut f
        (sample_size (pixmap_spelling format.now.depth) * sample_count format.now)
        (S.to_give source.old) (S.to_give source.new)
        (S.gave source.old) (S.gave source.new) (S.ended source.new)) }
    ensures counted { CountsDevice (S.failures source.old) (S.failures source.new) result }
    ensures names { S.names source.new ≡ S.names source.old }
{
    let stride = Stride { first: 0, step: 1 };
    let count = format.sample_count();
    read_plane(source, spelling_of(format.depth()), samples, stride, count)
}
