//! Reading every step-th of a picture's samples.
ghost use Rattle.std.specs.Prelude.{◌≡◌, ◌<◌, ◌+◌, ◌*◌, length, IfErr, OnOk};
ghost use Rattle.picture_forms.specs.Faults.{CountsDevice};
ghost use Rattle.picture_forms.specs.Planes.{Inside, KeepsOthers, every_text, sample_size};
ghost use Rattle.picture_forms.specs.Walks.{Gives, IsCut};

use crate::fault::FormFault;
use crate::filling::put_piece;
use crate::planes::{PIECE, Spelling, Stride};
use st_format::{ByteSource, read_whole};

/// Reads the first `count` samples of a plane. No memory is taken.
pub(crate) fn read_plane<S: ByteSource>(
    source: &mut S,
    spelling: Spelling,
    samples: &mut [u16],
    stride: Stride,
    count: usize,
) -> Result<(), FormFault>
    requires inside { Inside samples.old stride.first stride.step count }
    ensures given { OnOk result (Gives (S.to_give source.old) (S.to_give source.new)
        (S.gave source.old) (S.gave source.new)
        (every_text spelling samples.new stride.first stride.step 0 count)) }
    ensures others { KeepsOthers samples.old samples.new stride.first stride.step 0 count }
    ensures fault { IfErr result (λ f. IsCut f
        (sample_size spelling * count)
        (S.to_give source.old) (S.to_give source.new)
        (S.gave source.old) (S.gave source.new) (S.ended source.new)) }
    ensures counted { CountsDevice (S.failures source.old) (S.failures source.new) result }
    ensures names { S.names source.new ≡ S.names source.old }
{
    let mut piece = [0u8; 2 * PIECE];
    read_pieces(source, spelling, samples, stride, count, &mut piece)
}

/// The same, in pieces that are read into `piece`.
fn read_pieces<S: ByteSource>(
    source: &mut S,
    spelling: Spelling,
    samples: &mut [u16],
    stride: Stride,
    count: usize,
    piece: &mut [u8],
) -> Result<(), FormFault>
    requires inside { Inside samples.old stride.first stride.step count }
    requires room { length piece.old ≡ 4096 }
    ensures given { OnOk result (Gives (S.to_give source.old) (S.to_give source.new)
        (S.gave source.old) (S.gave source.new)
        (every_text spelling samples.new stride.first stride.step 0 count)) }
    ensures others { KeepsOthers samples.old samples.new stride.first stride.step 0 count }
    ensures fault { IfErr result (λ f. IsCut f
        (sample_size spelling * count)
        (S.to_give source.old) (S.to_give source.new)
        (S.gave source.old) (S.gave source.new) (S.ended source.new)) }
    ensures counted { CountsDevice (S.failures source.old) (S.failures source.new) result }
    ensures names { S.names source.new ≡ S.names source.old }
{
    let mut done = 0;
    while done < count {
        let n = (count - done).min(PIECE);
        let size = spelling.size() * n;
        read_field(source, &mut piece[..size])?;
        put_piece(spelling, &piece[..size], stride, done, n, samples);
        done += n;
    }
    Ok(())
}

/// Reads as many octets as `buf` has room for.
pub(crate) fn read_field<S: ByteSource>(source: &mut S, buf: &mut [u8]) -> Result<(), FormFault>
    ensures room { length buf.new ≡ length buf.old }
    ensures given { OnOk result
        (Gives (S.to_give source.old) (S.to_give source.new)
        (S.gave source.old) (S.gave source.new) buf.new) }
    ensures fault { IfErr result (λ f. IsCut f
        (length buf.old)
        (S.to_give source.old) (S.to_give source.new)
        (S.gave source.old) (S.gave source.new) (S.ended source.new)) }
    ensures counted { CountsDevice (S.failures source.old) (S.failures source.new) result }
    ensures names { S.names source.new ≡ S.names source.old }
{
    if read_whole(source, buf)? < buf.len() {
        return Err(FormFault::Truncated);
    }
    Ok(())
}
