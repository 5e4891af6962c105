//! Lines of a header, read.
ghost use Rattle.std.specs.Prelude.{◌≡◌, ◌≤◌, ◌∷◌, [], length, take, IfErr, IfOk};
ghost use Rattle.picture_forms.specs.Faults.{CountsDevice};
ghost use Rattle.picture_forms.specs.Walks.{Gives, IsCut, Reads, Refuses, line_at};

use crate::fault::FormFault;
use crate::plane_reading::read_field;
use st_format::ByteSource;

/// Reads an octet; `Truncated` where the source is at its end, and `Device`.
pub(crate) fn read_octet<S: ByteSource>(source: &mut S) -> Result<u8, FormFault>
    ensures given { IfOk result (λ o. Gives (S.to_give source.old) (S.to_give source.new)
        (S.gave source.old) (S.gave source.new) (o ∷ [])) }
    ensures fault { IfErr result (λ f. IsCut f 1 (S.to_give source.old) (S.to_give source.new)
        (S.gave source.old) (S.gave source.new) (S.ended source.new)) }
    ensures counted { CountsDevice (S.failures source.old) (S.failures source.new) result }
    ensures names { S.names source.new ≡ S.names source.old }
{
    let mut one = [0u8; 1];
    read_field(source, &mut one)?;
    Ok(one[0])
}

/// Reads a line, which ends with LF, and answers how many octets stand before its end: fewer than
/// `line` has room for. They stand at its front.
///
/// # Errors
///
/// `BadHeader` where as many octets as `line` has room for have no LF, `Truncated` where the source
/// ends before, and `Device`.
pub(crate) fn read_line<S: ByteSource>(source: &mut S, line: &mut [u8]) -> Result<usize, FormFault>
    ensures room { length line.new ≡ length line.old }
    ensures within { IfOk result (λ n. n ≤ length line.new) }
    ensures read { IfOk result (λ n. Reads (line_at (length line.old))
        (S.to_give source.old) (S.to_give source.new)
        (S.gave source.old) (S.gave source.new) (take n line.new)) }
    ensures fault { IfErr result (λ f. Refuses (line_at (length line.old))
        (S.to_give source.old) (S.to_give source.new)
        (S.gave source.old) (S.gave source.new) (S.ended source.new) f) }
    ensures counted { CountsDevice (S.failures source.old) (S.failures source.new) result }
    ensures names { S.names source.new ≡ S.names source.old }
{
    let mut filled = 0;
    while filled < line.len() {
        let octet = read_octet(source)?;
        if octet == b'\n' {
            return Ok(filled);
        }
        line[filled] = octet;
        filled += 1;
    }
    Err(FormFault::BadHeader)
}
