//! What a payload says: an extended number and segments of rows, or the fault of its octets.
ghost use Rattle.std.specs.Prelude.{◌<◌, length, All};
ghost use Rattle.payload_header.specs.Payload.{IsInside, seen_segment};

use arrayvec::ArrayVec;
use st_format::Format;
use thiserror::Error;

/// What is wrong with a payload: the first fault.
///
/// The headers are read first, one after another. Then each header in turn is tested, in the order
/// of the faults below; a header of Length 0 passes. Last comes the data (this order is the
/// project's own).
#[derive(Clone, Copy, Debug, PartialEq, Eq, Error)]
pub enum PayloadFault {
    /// There aren't two octets of extended number, or a header isn't whole (RFC 4175, 4.2).
    #[error("the payload header's extended number or the header of a segment isn't whole")]
    ShortPayloadHeader = 1,

    /// The third header says that another follows. RFC 4175 allows more headers; SMPTE ST 2110-20
    /// allows three, and so does this reader: a sender of plain RFC 4175 is refused here.
    #[error("the third segment's header says that another follows")]
    TooManySegments = 2,

    /// F is set: the segment is of the second field of an interlaced frame.
    #[error("a segment is of the second field of an interlaced frame")]
    SecondField = 3,

    /// Length is no whole number of pgroups.
    #[error("a segment's length is no whole number of pgroups")]
    BadLength = 4,

    /// Offset isn't at the first pixel of a pgroup.
    #[error("a segment's offset isn't at the first pixel of a pgroup")]
    BadOffset = 5,

    /// The row isn't below the height.
    #[error("a segment's row isn't below the height")]
    RowOutside = 6,

    /// The pixels reach beyond the width.
    #[error("a segment's pixels reach beyond the width")]
    ColumnsOutside = 7,

    /// Behind the headers there are fewer octets than the sum of their Lengths.
    #[error("there are fewer octets behind the payload header than the segments' lengths in sum")]
    ShortData = 8,
}

impl PayloadFault {
    ghost use Rattle.std.specs.Prelude.{◌≡◌};
    ghost use Rattle.payload_header.specs.Faults.{payload_fault_name, payload_fault_number};

    /// The number of the fault: its place in the order of tests, from 1.
    pub fn number(self) -> u8
        ensures { result ≡ payload_fault_number self }
    {
        self as u8
    }

    /// Its bare name, as the texts of the program have it.
    pub fn name(self) -> &'static str
        ensures { result.now ≡ payload_fault_name self }
    {
        match self {
            PayloadFault::ShortPayloadHeader => "ShortPayloadHeader",
            PayloadFault::TooManySegments => "TooManySegments",
            PayloadFault::SecondField => "SecondField",
            PayloadFault::BadLength => "BadLength",
            PayloadFault::BadOffset => "BadOffset",
            PayloadFault::RowOutside => "RowOutside",
            PayloadFault::ColumnsOutside => "ColumnsOutside",
            PayloadFault::ShortData => "ShortData",
        }
    }
}

/// Whole pgroups of a row, from a column on (SMPTE ST 2110-20, pixel groups).
///
/// A segment of Length 0 has no octets, and its row and offset may be any.
#[derive(Clone, Copy)]
pub struct Segment<'a> {
    /// The row, from 0 at the top.
    pub row: u32,
    /// The column of the first pixel, from 0 at the left.
    pub offset: u32,
    /// The pgroups' octets, where they lie in the payload.
    pub octets: &'a [u8],
}

impl<'a> Default for Segment<'a> {
    ghost use Rattle.std.specs.Prelude.{◌≡◌, []};

    ghost is_default = { λ s. (s.row ≡ 0) × (s.offset ≡ 0) × (s.octets.now ≡ []) };

    /// A segment without octets at row 0 and column 0.
    fn default() -> Segment<'a> {
        Segment {
            row: 0,
            offset: 0,
            octets: &[],
        }
    }
}

/// A payload that was read: every segment that has octets lies inside the format's raster.
#[derive(Drop)]
pub struct PayloadView<'a> {
    /// The format that the payload was read as.
    pub format: Format,
    /// The high 16 bits of the packet number (RFC 4175, 4.2, Extended Sequence Number).
    pub extended: u16,
    /// One to three segments, in the order of their headers.
    pub segments: ArrayVec<Segment<'a>, 3>,
    pub ghost inside: { All
        (λ s. 0 < length s.octets.now → IsInside (seen_segment s) format) segments.items },
}
