//! Writing the front of a payload: its extended number and headers (RFC 4175, 4.2).
ghost use Rattle.std.specs.Prelude.{◌≡◌, ◌<◌, ◌≤◌, ◌+◌, ◌*◌, ◌^◌, ◌++◌, ◌↔◌, List, length, take};
ghost use Rattle.std.specs.Prelude.{drop};
ghost use Rattle.std.specs.List.{flat_map, AllByRecursion, AllZip};
ghost use Rattle.st_format.specs.declared.format.Format.{Format};
ghost use Rattle.st_format.specs.Raster.{Segment};
ghost use Rattle.payload_header.specs.Payload.{header_text, most_segments};
ghost use Rattle.payload_header.specs.Writing.{Announces, AreInside, HeadFits, IsWholePayload};
ghost use Rattle.payload_header.specs.Writing.{data_text, payload_front, header_of_head};
ghost use Rattle.payload_header.specs.Writing.{headers_of_heads};

use byteorder::{BigEndian, ByteOrder};

/// C and F stand in the highest bit of their 16 bits.
const FLAG: u16 = 0x8000;

/// A segment that is to be sent: where it begins, and how many octets it has.
#[derive(Clone, Copy, Debug, PartialEq, Eq)]
pub struct SegmentHead {
    /// The row, from 0 at the top: 15 bits.
    pub row: u16,
    /// The column of the first pixel, from 0 at the left: 15 bits.
    pub offset: u16,
    /// How many octets the segment has: its Length.
    pub octets: u16,
}

/// Writes a header of six octets (RFC 4175, 4.2), with C where another follows. F isn't set.
fn write_header(buf: &mut [u8], head: &SegmentHead, more: bool)
    requires room { 6 ≤ length buf.old }
    requires fields { HeadFits head.now }
    ensures { buf.new ≡ header_text (header_of_head more head.now) ++ drop 6 buf.old }
{
    let flag = if more { FLAG } else { 0 };
    BigEndian::write_u16(buf, head.octets);
    BigEndian::write_u16(&mut buf[2..], head.row);
    BigEndian::write_u16(&mut buf[4..], flag + head.offset);
}

/// Writes a header behind the first `at` octets, and answers where it ends.
fn write_header_at(buf: &mut [u8], at: usize, head: &SegmentHead, more: bool) -> usize
    requires room { at + 6 ≤ length buf.old }
    requires fields { HeadFits head.now }
    ensures length { length buf.new ≡ length buf.old }
    ensures value { result ≡ at + 6 }
    ensures written { take (at + 6) buf.new
        ≡ take at buf.old ++ header_text (header_of_head more head.now) }
{
    write_header(&mut buf[at..], head, more);
    at + 6
}

/// Fills a slice with the headers of segments, one after another; the last has no C.
fn write_headers(buf: &mut [u8], heads: &[SegmentHead])
    requires room { length buf.old ≡ 6 * length heads.now }
    requires fields { AllByRecursion HeadFits heads.now }
    ensures { buf.new ≡ flat_map header_text (headers_of_heads heads.now) }
{
    let mut at = 0;
    let mut rest = heads;
    while let [head, more @ ..] = rest {
        at = write_header_at(buf, at, head, !more.is_empty());
        rest = more;
    }
}

/// Writes the extended number in two octets, and the headers behind it.
fn write_payload_front(buf: &mut [u8], extended: u16, heads: &[SegmentHead])
    requires room { 2 + 6 * length heads.now ≤ length buf.old }
    requires fields { AllByRecursion HeadFits heads.now }
    ensures length { length buf.new ≡ length buf.old }
    ensures written { buf.new
        ≡ payload_front extended heads.now ++ drop (2 + 6 * length heads.now) buf.old }
{
    BigEndian::write_u16(buf, extended);
    write_headers(&mut buf[2..2 + 6 * heads.len()], heads);
}

/// Writes the front of a payload, the extended number and a header for each of one to three
/// segments, and answers how many octets that are: `2 + 6 * heads`. What follows them in `buf`
/// stays.
///
/// The segments' octets then belong behind the front, in the order of the heads. That each is whole
/// pgroups, begins at one and lies in the raster is the caller's to see to.
pub fn write_payload_header(buf: &mut [u8], extended: u16, heads: &[SegmentHead]) -> usize
    requires some { 0 < length heads.now }
    requires few { length heads.now ≤ most_segments }
    requires room { 2 + 6 * length heads.now ≤ length buf.old }
    requires fields { AllByRecursion HeadFits heads.now }
    ensures length { length buf.new ≡ length buf.old }
    ensures value { result ≡ 2 + 6 * length heads.now }
    ensures written { buf.new
        ≡ payload_front extended heads.now ++ drop (2 + 6 * length heads.now) buf.old }
    // With the segments' octets behind it this is a payload with their fields, just where they lie
    // in the format's raster as the grammar asks.
    ensures payload { (f : Format) (segments : List Segment) → AllZip Announces heads.now segments
        → AreInside segments f
        ↔ IsWholePayload (take result buf.new ++ data_text segments) f extended segments }
{
    write_payload_front(buf, extended, heads);
    2 + 6 * heads.len()
}
