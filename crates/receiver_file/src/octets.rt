//! Numbers that are read from a source.
ghost use Rattle.std.specs.Prelude.{◌≡◌, IfErr, IfOk};
ghost use Rattle.media_file.specs.Faults.{CountsDevice};
ghost use Rattle.media_file.specs.Fields.{Fails, GaveFault};
ghost use Rattle.st_format.specs.Given.{Takes};
ghost use Rattle.receiver_file.specs.Giving.{GaveOf};
ghost use Rattle.receiver_file.specs.Numbers.{number_at, octet_at};

use media_file::{FileFault, read_field};
use st_format::ByteSource;

pub(crate) fn read_octet<S: ByteSource>(source: &mut S) -> Result<u8, FileFault>
    ensures read { IfOk result
        (λ n. Takes octet_at (S.to_give source.old) (S.to_give source.new) n) }
    ensures fault { IfErr result (λ f. Fails octet_at (S.to_give source.old) f) }
    ensures gave { IfOk result
        (λ n. GaveOf octet_at (S.gave source.old) (S.gave source.new) n) }
    ensures gave_wrong { IfErr result
        (λ f. GaveFault octet_at
        (S.gave source.old) (S.gave source.new) (S.ended source.new) f) }
    ensures counted { CountsDevice (S.failures source.old) (S.failures source.new) result }
{
    let mut octet = [0u8; 1];
    read_field(source, &mut octet)?;
    Ok(octet[0])
}

/// Reads a number of four octets, the highest one first.
pub(crate) fn read_number<S: ByteSource>(source: &mut S) -> Result<u32, FileFault>
    ensures read { IfOk result
        (λ n. Takes number_at (S.to_give source.old) (S.to_give source.new) n) }
    ensures fault { IfErr result (λ f. Fails number_at (S.to_give source.old) f) }
    ensures gave { IfOk result
        (λ n. GaveOf number_at (S.gave source.old) (S.gave source.new) n) }
    ensures gave_wrong { IfErr result
        (λ f. GaveFault number_at
        (S.gave source.old) (S.gave source.new) (S.ended source.new) f) }
    ensures counted { CountsDevice (S.failures source.old) (S.failures source.new) result }
{
    let mut octets = [0u8; 4];
    read_field(source, &mut octets)?;
    Ok(u32::from_be_bytes(octets))
}
