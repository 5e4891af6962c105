//! Reading a capture from one record to the next.
ghost use Rattle.std.specs.Prelude.{◌≡◌, ◌≤◌, ◌-◌, ◌++◌, length, IfErr, IfOk, IfSome, MatchOption};
ghost use Rattle.media_file.specs.Faults.{CountsDevice};
ghost use Rattle.recording_reader.specs.Capturing.{FailsRecord, ReadsRecord};
ghost use Rattle.recording_reader.specs.Found.{entry_at};

use crate::found::Found;
use media_file::{FileFault, RecordHead, record_begins, record_rest};
use st_format::ByteSource;

/// What a record's head says, whose octets stand at the front of a buffer.
fn found_of(head: RecordHead) -> Found
    ensures { result ≡ record {
      path = head.path;
      moment = head.moment;
      start = 0;
      end = head.length;
    } }
{
    Found {
        path: head.path,
        moment: head.moment,
        start: 0,
        end: head.length,
    }
}

/// Reads the next record, whose octets then stand at the front of `buf`, or answers `None` at the
/// end.
pub(crate) fn read_record<S: ByteSource>(
    source: &mut S,
    buf: &mut [u8],
) -> Result<Option<Found>, FileFault>
    requires { 65535 ≤ length buf.old }
    ensures room { length buf.new ≡ length buf.old }
    ensures forward { IfOk result (λ r. IfSome r (λ f. f.start ≤ f.end)) }
    ensures inside { IfOk result (λ r. IfSome r (λ f. f.end ≤ length buf.new)) }
    ensures few { IfOk result (λ r. IfSome r (λ f. f.end - f.start ≤ 65535)) }
    ensures front { IfOk result (λ r. IfSome r (λ f. f.start ≡ 0)) }
    ensures read { IfOk result (λ r. MatchOption r
        ((S.gave source.new ≡ S.gave source.old) × S.ended source.new)
        (λ f. ReadsRecord (S.gave source.old) (S.gave source.new) (entry_at f buf.new))) }
    ensures fault { IfErr result (λ f. FailsRecord f (S.gave source.old) (S.gave source.new)
        (S.ended source.new)) }
    ensures counted { CountsDevice (S.failures source.old) (S.failures source.new) result }
    ensures names { S.names source.new ≡ S.names source.old }
{
    let Some(first) = record_begins(source)? else {
        return Ok(None);
    };
    let head = record_rest(source, first, buf)?;
    Ok(Some(found_of(head)))
}
