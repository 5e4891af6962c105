//! Reading a payload, with the first fault (RFC 4175, 4.2 and 4.3; SMPTE ST 2110-20, packets and
//! pgroups).
ghost use Rattle.std.specs.Prelude.{◌≡◌, ◌≤◌, ◌↔◌, ℕ, List, length, map, IfOk, Ok, Err};
ghost use Rattle.payload_header.specs.declared.payload.PayloadFault.{PayloadFault};
ghost use Rattle.payload_header.specs.Faults.{IsRefusedPayload};
ghost use Rattle.payload_header.specs.View.{said_payload, segments_of};
ghost use Rattle.payload_header.specs.Payload.{IsPayload, seen_segment};
ghost use Rattle.st_format.specs.Raster.{Segment as SegmentText};
ghost use Rattle.payload_header.specs.Reading.{fields, header_fault, header_of, headers_at};
ghost use Rattle.st_format.specs.Reading.{Gives};
ghost use Rattle.payload_header.specs.Reading.{headers_fault, counted_octets, payload_walk};
ghost use Rattle.payload_header.specs.Reading.{segments_at};

use crate::payload::{PayloadFault, PayloadView, Segment};
use arrayvec::ArrayVec;
use st_format::Format;

/// A segment's header (RFC 4175, 4.2): Length, F, the row, C and Offset.
#[derive(Clone, Copy, Default)]
pub struct Header {
    octets: u16,
    second_field: bool,
    row: u16,
    more: bool,
    offset: u16,
}

/// The header in six octets: F and C are the highest bits of the second and the third field.
#[tactic(auto, unfolding(crate::specs::Reading::header_of))]
fn header_at(octets: &[u8]) -> Header
    requires { length octets.now ≡ 6 }
    ensures { fields result ≡ header_of octets.now }
{
    let row = u16::from_be_bytes([octets[2], octets[3]]);
    let offset = u16::from_be_bytes([octets[4], octets[5]]);
    Header {
        octets: u16::from_be_bytes([octets[0], octets[1]]),
        second_field: row >= 0x8000,
        row: row % 0x8000,
        more: offset >= 0x8000,
        offset: offset % 0x8000,
    }
}

/// What is wrong with a header, in the order of the faults. Nothing is with one without octets,
/// whatever it says beside (own).
fn fault_of(format: &Format, header: &Header) -> Option<PayloadFault>
    ensures { result ≡ header_fault format.now (fields header.now) }
{
    if header.octets == 0 {
        return None;
    }
    let group = format.pgroup();
    let groups = header.octets as usize / group.octets;
    if header.second_field {
        return Some(PayloadFault::SecondField);
    }
    if header.octets as usize % group.octets != 0 {
        return Some(PayloadFault::BadLength);
    }
    if header.offset as u32 % group.pixels != 0 {
        return Some(PayloadFault::BadOffset);
    }
    if header.row as u32 >= format.height {
        return Some(PayloadFault::RowOutside);
    }
    if header.offset as u32 + groups as u32 * group.pixels > format.width {
        return Some(PayloadFault::ColumnsOutside);
    }
    None
}

/// One to three headers, each but the last with C set, and what follows them.
#[tactic(auto, unfolding(crate::specs::Reading::headers_at))]
fn headers_of(octets: &[u8]) -> Result<(ArrayVec<Header, 3>, &[u8]), PayloadFault>
    ensures { Gives (λ x. (map fields x.0.items, x.1.now)) result (headers_at 3 octets.now) }
{
    let mut headers = ArrayVec::new();
    let mut rest = octets;
    for _ in 0..3u32 {
        if rest.len() < 6 {
            return Err(PayloadFault::ShortPayloadHeader);
        }
        let (six, after) = rest.split_at(6);
        let header = header_at(six);
        rest = after;
        headers.push(header);
        if !header.more {
            return Ok((headers, rest));
        }
    }
    Err(PayloadFault::TooManySegments)
}

fn first_fault(format: &Format, headers: &[Header]) -> Option<PayloadFault>
    ensures { result ≡ headers_fault format.now (map fields headers.now) }
{
    for header in headers {
        if let Some(fault) = fault_of(format, header) {
            return Some(fault);
        }
    }
    None
}

/// How many octets the headers announce, which are to follow them.
fn total(headers: &[Header]) -> usize
    requires { length headers.now ≤ 3 }
    ensures { result ≡ counted_octets (map fields headers.now) }
{
    let mut sum = 0;
    for header in headers {
        sum += header.octets as usize;
    }
    sum
}

/// Each header's octets, taken from the data in order.
fn segments_in<'a>(headers: &[Header], rest_of: &'a [u8]) -> ArrayVec<Segment<'a>, 3>
    requires few { length headers.now ≤ 3 }
    requires whole { counted_octets (map fields headers.now) ≤ length rest_of.now }
    ensures { map seen_segment result.items ≡ segments_at (map fields headers.now) rest_of.now }
{
    let mut segments = ArrayVec::new();
    let mut rest = rest_of;
    for header in headers {
        let (octets, after) = rest.split_at(header.octets as usize);
        segments.push(Segment {
            row: header.row as u32,
            offset: header.offset as u32,
            octets,
        });
        rest = after;
    }
    segments
}

/// What reading from the left gives.
#[tactic(auto, unfolding(crate::specs::Reading::payload_walk))]
fn read<'a>(format: &Format, octets: &'a [u8]) -> Result<PayloadView<'a>, PayloadFault>
    ensures exact { Gives said_payload result (payload_walk format.now octets.now) }
    ensures format { IfOk result (λ v. v.format ≡ format.now) }
{
    if octets.len() < 2 {
        return Err(PayloadFault::ShortPayloadHeader);
    }
    let extended = u16::from_be_bytes([octets[0], octets[1]]);
    let (headers, data) = headers_of(&octets[2..])?;
    let list = headers.as_slice();
    if let Some(fault) = first_fault(format, list) {
        return Err(fault);
    }
    if data.len() < total(list) {
        return Err(PayloadFault::ShortData);
    }
    let segments = segments_in(list, data);
    Ok(PayloadView {
        format: *format,
        extended,
        segments,
    })
}

/// Reads the payload of an RTP packet as video of a format: `octets` are all that stands behind the
/// RTP header, without padding.
///
/// The view has the extended number and one to three segments, each with its octets where they lie
/// in `octets`. A segment of Length 0 stands in the view with no octets, whatever its header says
/// beside, and octets behind the last segment are ignored (both are the project's own).
///
/// # Errors
///
/// The first fault, in this order. While the headers are read one after another:
/// `ShortPayloadHeader` where the two octets of extended number or a header aren't whole,
/// `TooManySegments` where the third header says that another follows; a sender of plain RFC 4175,
/// which knows no such limit, is refused so. Then for each header in turn that has octets:
/// `SecondField` where F is set, `BadLength` where Length is no whole number of pgroups,
/// `BadOffset` where Offset isn't at a pgroup, `RowOutside` where the row isn't below the height,
/// `ColumnsOutside` where the pixels reach beyond the width. Last `ShortData`, where there are
/// fewer octets than the sum of the Lengths.
pub fn read_payload<'a>(format: &Format, octets: &'a [u8]) -> Result<PayloadView<'a>, PayloadFault>
    // What is read is in the grammar.
    ensures found { IfOk result (λ v. IsPayload octets.now format.now v.extended (segments_of v)) }
    // What is in the grammar is read, in its one reading.
    ensures only { (extended : ℕ) (segments : List SegmentText)
        → IsPayload octets.now format.now extended segments
        → Gives said_payload result (Ok (extended, segments)) }
    // Each fault comes exactly where its condition holds.
    ensures refused { (fault : PayloadFault)
        → (result ≡ Err fault) ↔ IsRefusedPayload octets.now format.now fault }
    // The answer as a walk over the octets, for the walks that go on from it.
    ensures exact { Gives said_payload result (payload_walk format.now octets.now) }
    ensures format { IfOk result (λ v. v.format ≡ format.now) }
{
    read(format, octets)
}
