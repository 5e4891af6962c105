//! Reading a record in two steps, which are lent the source and take no memory.
ghost use Rattle.std.specs.Prelude.{◌≡◌, ◌≤◌, ◌<◌, ◌++◌, length, take, option_to_list, None, IfOk};
ghost use Rattle.std.specs.Prelude.{IfErr, OnErr};
ghost use Rattle.std.specs.Io.KnownBytes.{Consumes, IsAtEnd, Keeps};
ghost use Rattle.media_file.specs.Faults.{CountsDevice, IsDevice};
ghost use Rattle.media_file.specs.Fields.{GivesPart};
ghost use Rattle.media_file.specs.Given.{GivesWrong};
ghost use Rattle.media_file.specs.Reading.{head_at, path_of, rest_at};
ghost use Rattle.media_file.specs.Records.{IsRecordHead, entry_of, path_octet, rest_text};
ghost use Rattle.media_file.specs.Source.{FailsRest, ReadsRest};

use crate::fault::FileFault;
use crate::record::RecordHead;
use st_format::{ByteSource, Path, read_whole};

/// The octets of a record's head but for the first, which is read by itself: it may be the end.
const REST: usize = 10;

/// Reads the first octet of a record, or answers `None` at the end.
///
/// # Errors
///
/// `Device` where the source failed. It then has what it had.
pub fn record_begins<S: ByteSource>(source: &mut S) -> Result<Option<u8>, FileFault>
    ensures given { IfOk result
        (λ first. Consumes (S.to_give source.old) (S.to_give source.new) (option_to_list first)) }
    ensures end { IfOk result (λ first. first ≡ None → IsAtEnd (S.to_give source.new)) }
    ensures fault { IfErr result
        (λ f. IsDevice f × Keeps (S.to_give source.old) (S.to_give source.new)) }
    ensures counted { CountsDevice (S.failures source.old) (S.failures source.new) result }
    ensures names { S.names source.new ≡ S.names source.old }
    ensures gave { IfOk result
        (λ first. S.gave source.new ≡ S.gave source.old ++ option_to_list first) }
    ensures ended { IfOk result (λ first. first ≡ None → S.ended source.new) }
    ensures kept { OnErr result (S.gave source.new ≡ S.gave source.old) }
{
    let mut first = [0u8; 1];
    let n = source.read(&mut first)?;
    if n == 0 {
        return Ok(None);
    }
    Ok(Some(first[0]))
}

fn path_in(first: u8) -> Result<Path, FileFault>
    ensures exact { result ≡ path_of first }
    ensures spelled { IfOk result (λ path. first ≡ path_octet path) }
    ensures fault { IfErr result (λ f. f ≡ FileFault.BadField) }
{
    match first {
        0 => Ok(Path::A),
        1 => Ok(Path::B),
        _ => Err(FileFault::BadField),
    }
}

/// The head that an octet and the ten behind it make; `BadField` where the octet is no path.
fn head_of(first: u8, rest: &[u8; REST]) -> Result<RecordHead, FileFault>
    ensures exact { result ≡ head_at first rest.now }
    ensures spelled { IfOk result (λ r. IsRecordHead first rest.now r) }
    ensures fault { IfErr result (λ f. f ≡ FileFault.BadField) }
{
    let path = match path_in(first) {
        Ok(path) => path,
        Err(fault) => return Err(fault),
    };
    let moment = u64::from_be_bytes([
        rest[0], rest[1], rest[2], rest[3], rest[4], rest[5], rest[6], rest[7],
    ]);
    let length = u16::from_be_bytes([rest[8], rest[9]]) as usize;
    Ok(RecordHead {
        path,
        moment,
        length,
    })
}

/// Reads the rest of the record that an octet begins: its octets stand at the front of `buf`, which
/// has room for any record, 65,535 octets. What `buf` holds behind them, or after a fault, is not
/// said.
///
/// # Errors
///
/// - `Device`: the source failed.
/// - `Truncated`: the head isn't whole, or it is and is no `BadField`, and the record's octets
///   aren't.
/// - `BadField`: the head is whole, and `first` is no path.
pub fn record_rest<S: ByteSource>(
    source: &mut S,
    first: u8,
    buf: &mut [u8],
) -> Result<RecordHead, FileFault>
    requires { 65535 ≤ length buf.old }
    ensures room { length buf.new ≡ length buf.old }
    ensures within { IfOk result (λ r. r.length < 65536) }
    ensures read { IfOk result
        (λ r. ReadsRest first (S.to_give source.old) (S.to_give source.new) (entry_of r buf.new)) }
    ensures fault { IfErr result (λ f. FailsRest f first (S.to_give source.old)) }
    ensures part { IfErr result
        (λ _. GivesPart (rest_at first) (S.to_give source.old) (S.to_give source.new)) }
    ensures counted { CountsDevice (S.failures source.old) (S.failures source.new) result }
    ensures names { S.names source.new ≡ S.names source.old }
    // What it gave is the rest of the record, or what is none.
    ensures gave { IfOk result
        (λ r. S.gave source.new ≡ S.gave source.old ++ rest_text (entry_of r buf.new)) }
    ensures wrong { IfErr result (λ f. GivesWrong (rest_at first) f (S.to_give source.old)
        (S.to_give source.new) (S.gave source.old) (S.gave source.new)) }
    ensures cut { IfErr result (λ f. f ≡ FileFault.Truncated → S.ended source.new) }
{
    let mut rest = [0u8; REST];
    if read_whole(source, &mut rest)? < REST {
        return Err(FileFault::Truncated);
    }
    let head = head_of(first, &rest)?;
    if read_whole(source, &mut buf[..head.length])? < head.length {
        return Err(FileFault::Truncated);
    }
    Ok(head)
}
