//! A capture as one value.
ghost use Rattle.std.specs.Prelude.{◌≡◌, ◌≤◌, ℕ, List, Some, length, map, vec_len, IfErr, IfOk};
ghost use Rattle.std.specs.Prelude.{OnOk, MatchResult};
ghost use Rattle.std.specs.List.{All};
ghost use Rattle.media_file.specs.Capture.{Content, IsCapture, capture_walk, capture_seen};
ghost use Rattle.media_file.specs.Capture.{entry_seen, records_at};
ghost use Rattle.media_file.specs.CaptureFaults.{IsCaptureFault};
ghost use Rattle.media_file.specs.Faults.{CountsDevice, IfContent, IsMachine};
ghost use Rattle.media_file.specs.Fields.{Fails, GaveFault};
ghost use Rattle.st_format.specs.Given.{GaveWhole, Takes};
ghost use Rattle.st_format.specs.Device.{AreOctets, TellsOctets};
ghost use Rattle.st_format.specs.History.{GrewFrom, IsRead};
ghost use Rattle.std.specs.Io.KnownBytes.{IsAtEnd};

use crate::fault::FileFault;
use crate::front::read_front;
use crate::record::Record;
use crate::steps::{record_begins, record_rest};
use st_format::{ByteSource, MOST_DATAGRAM};
use std::alloc::{Allocator, Global};

/// How many records of one file the engines read at most (own).
pub const MOST_RECORDS: u64 = 16_777_216;

/// What a capture says, of either version: a text and records.
#[derive(Drop)]
pub struct Capture<A: Allocator = Global> {
    /// At most 65,535 octets: an SDP text by convention.
    pub text: Vec<u8, A>,
    pub records: Vec<Record<A>, A>,
}

/// Reads a capture of at most `limit` records, of version 01 or 02; one of version 01 has an empty
/// text.
///
/// # Errors
///
/// The first fault in the order of the octets, or one of the memory or the device before it:
/// `NoMemory`, `Device`, `BadName`, `BadVersion`, `Truncated`, `BadField`, or `TooManyRecords`
/// where one octet was read behind the last record that the limit allows.
pub fn read_capture<A: Allocator + Copy, S: ByteSource>(
    alloc: A,
    source: &mut S,
    limit: u64,
) -> Result<Capture<A>, FileFault>
    ensures counted { CountsDevice (S.failures source.old) (S.failures source.new) result }
    // What is read is a capture, all of it, of at most so many records.
    ensures found { IfOk result (λ v. (octets : List ℕ) → S.to_give source.old ≡ Some octets
        → IsCapture octets (capture_seen v) × (length v.records.items ≤ limit)
        × IsAtEnd (S.to_give source.new)) }
    // A fault of the content is one whose condition holds of the octets.
    ensures wrong { IfErr result (λ f. (octets : List ℕ) → S.to_give source.old ≡ Some octets
        → AreOctets octets → IfContent f (IsCaptureFault f limit octets)) }
    // What is a capture is read as what it says, unless the memory or the device fails.
    ensures only { (c : Content) (octets : List ℕ) → S.to_give source.old ≡ Some octets
        → IsCapture octets c → length c.records ≤ limit
        → MatchResult result (λ v. capture_seen v ≡ c) IsMachine }
    // The same by the walk from the left, for the walks that go on from it.
    ensures read { IfOk result
        (λ c. Takes (capture_walk limit) (S.to_give source.old) (S.to_give source.new)
        (capture_seen c)) }
    ensures fault { IfErr result (λ f. Fails (capture_walk limit) (S.to_give source.old) f) }
    // The same of what was given, of every device: all of it was read, up to the source's end.
    ensures gave { IfOk result (λ v. (octets : List ℕ)
        → IsRead (S.gave source.old) (S.gave source.new) (S.ended source.new) octets
        → AreOctets octets
        → IsCapture octets (capture_seen v) × (length v.records.items ≤ limit)) }
    ensures ended { OnOk result (S.ended source.new) }
    ensures gave_wrong { IfErr result (λ f. (octets : List ℕ)
        → IsRead (S.gave source.old) (S.gave source.new) (S.ended source.new) octets
        → AreOctets octets → IfContent f (IsCaptureFault f limit octets)) }
    ensures gave_only { (c : Content) (octets : List ℕ)
        → IsRead (S.gave source.old) (S.gave source.new) (S.ended source.new) octets
        → IsCapture octets c → length c.records ≤ limit
        → MatchResult result (λ v. capture_seen v ≡ c) IsMachine }
    ensures grown { GrewFrom (S.gave source.old) (S.gave source.new) }
{
    read_whole_capture(alloc, source, limit)
}

/// Reads the front, and then records to the end, of which there may be so many.
fn read_whole_capture<A: Allocator + Copy, S: ByteSource>(
    alloc: A,
    source: &mut S,
    limit: u64,
) -> Result<Capture<A>, FileFault>
    ensures read { IfOk result
        (λ c. Takes (capture_walk limit) (S.to_give source.old) (S.to_give source.new)
        (capture_seen c)) }
    ensures fault { IfErr result (λ f. Fails (capture_walk limit) (S.to_give source.old) f) }
    ensures gave { IfOk result (λ c. GaveWhole (capture_walk limit)
        (S.gave source.old) (S.gave source.new) (S.ended source.new) (capture_seen c)) }
    ensures gave_wrong { IfErr result (λ f. GaveFault (capture_walk limit)
        (S.gave source.old) (S.gave source.new) (S.ended source.new) f) }
    ensures octets { OnOk result (TellsOctets (S.to_give source.old)) }
    ensures counted { CountsDevice (S.failures source.old) (S.failures source.new) result }
{
    let mut buf = buffer(alloc)?;
    let text_len = read_front(source, &mut buf)?;
    let text = Vec::from_slice(alloc, &buf[..text_len])?;
    let records = read_records(alloc, source, limit, &mut buf)?;
    Ok(Capture { text, records })
}

/// Room for the longest text and the longest datagram, which are of one length.
fn buffer<A: Allocator>(alloc: A) -> Result<Vec<u8, A>, FileFault>
    ensures room { IfOk result (λ v. vec_len v ≡ 65535) }
    ensures memory { IfErr result (λ f. f ≡ FileFault.NoMemory) }
{
    Ok(vec![in alloc; 0u8; MOST_DATAGRAM]?)
}

/// Reads records up to the end: the octet that begins one is read before it is counted.
fn read_records<A: Allocator + Copy, S: ByteSource>(
    alloc: A,
    source: &mut S,
    limit: u64,
    buf: &mut [u8],
) -> Result<Vec<Record<A>, A>, FileFault>
    requires { 65535 ≤ length buf.old }
    ensures read { IfOk result
        (λ v. Takes (records_at limit) (S.to_give source.old) (S.to_give source.new)
        (map entry_seen v.items)) }
    ensures fault { IfErr result (λ f. Fails (records_at limit) (S.to_give source.old) f) }
    ensures gave { IfOk result (λ v. GaveWhole (records_at limit)
        (S.gave source.old) (S.gave source.new) (S.ended source.new) (map entry_seen v.items)) }
    ensures gave_wrong { IfErr result (λ f. GaveFault (records_at limit)
        (S.gave source.old) (S.gave source.new) (S.ended source.new) f) }
    ensures counted { CountsDevice (S.failures source.old) (S.failures source.new) result }
{
    let mut records = Vec::new(alloc);
    let mut left = limit;
    while let Some(first) = record_begins(source)? {
        if left == 0 {
            return Err(FileFault::TooManyRecords);
        }
        left -= 1;
        let head = record_rest(source, first, buf)?;
        let octets = Vec::from_slice(alloc, &buf[..head.length])?;
        records.push(Record {
            path: head.path,
            moment: head.moment,
            octets,
        })?;
    }
    Ok(records)
}
