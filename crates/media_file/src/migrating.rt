//! Writing a capture of version 01 as one of version 02.
ghost use Rattle.std.specs.Prelude.{◌≡◌, ◌≤◌, length, IfErr, IfOk, MatchResult};
ghost use Rattle.media_file.specs.Migrated.{CountsEither, IsOfCapture, Migrated, MigratedRead};
ghost use Rattle.media_file.specs.Migrated.{MovesAll, MovesRead, Stops, StopsRead, devices};
ghost use Rattle.media_file.specs.Migrated.{new_records, new_text, old_at};
ghost use Rattle.media_file.specs.Capture.{records_at};
ghost use Rattle.media_file.specs.Fields.{Fails, GaveFault};

use crate::fault::FileFault;
use crate::front::{CAPTURE, Version, read_kind};
use crate::steps::{record_begins, record_rest};
use crate::writing::{write_front, write_record};
use st_format::{ByteSink, ByteSource};

/// Reads a capture of version 01 and writes it as one of version 02 with this text: each record
/// with its path, its moment and its octets. Answers how many they are.
///
/// The text has at most 65,535 octets, and `buf` has room for as many. No memory is taken.
///
/// # Errors
///
/// The first fault of the source's octets, or one of a device: `BadName`, `BadVersion` (version 02
/// too), `Truncated`, `BadField`, or `TooManyRecords` where one octet was read behind the last
/// record that the limit allows.
///
/// Nothing is written before the version was read. After a later fault of the source the sink has
/// the front and the whole records before it, and after one of the sink a first part of that and
/// the record more that it was to take.
pub fn migrate_capture<S: ByteSource, K: ByteSink>(
    source: &mut S,
    sink: &mut K,
    text: &[u8],
    buf: &mut [u8],
    limit: u64,
) -> Result<u64, FileFault>
    requires text { length text.now ≤ 65535 }
    requires room { 65535 ≤ length buf.old }
    ensures migrated { IfOk result
        (λ n. Migrated limit n text.now (S.to_give source.old) (S.to_give source.new)
        (K.held sink.old) (K.held sink.new)) }
    ensures fault { IfErr result (λ f. Fails (old_at limit) (S.to_give source.old) f) }
    ensures named { IfErr result IsOfCapture }
    // What the sink took is what is written of the source's octets up to their fault, or up to
    // where the source failed; or a first part of it, where the sink failed.
    ensures stopped { IfErr result (λ f. Stops (new_text limit text.now) f
        (devices (S.to_give source.old) (S.failures source.old)
        (K.held sink.old) (K.failures sink.old))
        (devices (S.to_give source.new) (S.failures source.new)
        (K.held sink.new) (K.failures sink.new))) }
    // The same of what the source gave and the sink took, of every device.
    ensures migrated_read { IfOk result (λ n. MigratedRead limit n text.now
        (S.gave source.old) (S.gave source.new) (S.ended source.new)
        (K.took sink.old) (K.took sink.new)) }
    ensures gave_wrong { IfErr result (λ f. GaveFault (old_at limit)
        (S.gave source.old) (S.gave source.new) (S.ended source.new) f) }
    ensures stopped_read { IfErr result (λ f. StopsRead (new_text limit text.now) f
        (S.gave source.old) (S.gave source.new) (S.ended source.new)
        (S.failures source.old) (S.failures source.new) (K.took sink.old) (K.took sink.new)
        (K.failures sink.old) (K.failures sink.new)) }
    ensures counted { MatchResult result
        (λ _. (S.failures source.new ≡ S.failures source.old)
        × (K.failures sink.new ≡ K.failures sink.old))
        (λ f. CountsEither f (S.failures source.old) (S.failures source.new) (K.failures sink.old)
        (K.failures sink.new)) }
{
    match read_kind(source, CAPTURE)? {
        Version::One => {}
        Version::Two => return Err(FileFault::BadVersion),
    }
    write_front(sink, text)?;
    move_records(source, sink, buf, limit)
}

/// Moves records up to the end, at most so many.
fn move_records<S: ByteSource, K: ByteSink>(
    source: &mut S,
    sink: &mut K,
    buf: &mut [u8],
    limit: u64,
) -> Result<u64, FileFault>
    requires { 65535 ≤ length buf.old }
    ensures moved { IfOk result
        (λ n. MovesAll limit n (S.to_give source.old) (S.to_give source.new) (K.held sink.old)
        (K.held sink.new)) }
    ensures fault { IfErr result (λ f. Fails (records_at limit) (S.to_give source.old) f) }
    ensures named { IfErr result IsOfCapture }
    ensures stopped { IfErr result (λ f. Stops (new_records limit) f
        (devices (S.to_give source.old) (S.failures source.old)
        (K.held sink.old) (K.failures sink.old))
        (devices (S.to_give source.new) (S.failures source.new)
        (K.held sink.new) (K.failures sink.new))) }
    // The same of what the source gave and the sink took, of every device.
    ensures moved_read { IfOk result (λ n. MovesRead limit n
        (S.gave source.old) (S.gave source.new) (S.ended source.new)
        (K.took sink.old) (K.took sink.new)) }
    ensures gave_wrong { IfErr result (λ f. GaveFault (records_at limit)
        (S.gave source.old) (S.gave source.new) (S.ended source.new) f) }
    ensures stopped_read { IfErr result (λ f. StopsRead (new_records limit) f
        (S.gave source.old) (S.gave source.new) (S.ended source.new)
        (S.failures source.old) (S.failures source.new) (K.took sink.old) (K.took sink.new)
        (K.failures sink.old) (K.failures sink.new)) }
    ensures counted { MatchResult result
        (λ _. (S.failures source.new ≡ S.failures source.old)
        × (K.failures sink.new ≡ K.failures sink.old))
        (λ f. CountsEither f (S.failures source.old) (S.failures source.new) (K.failures sink.old)
        (K.failures sink.new)) }
{
    let mut left = limit;
    while let Some(first) = record_begins(source)? {
        if left == 0 {
            return Err(FileFault::TooManyRecords);
        }
        left -= 1;
        let head = record_rest(source, first, buf)?;
        write_record(sink, head.path, head.moment, &buf[..head.length])?;
    }
    Ok(limit - left)
}
