//! Joining what segments offer to the groups of a frame.
ghost use Rattle.std.specs.Prelude.{◌≡◌, ◌<◌, ◌≤◌, ◌+◌, ◌*◌, ◌/◌, ℕ, length, All, map};
ghost use Rattle.frame_assembly.specs.Packed.{AreJoined, ArePacked, cells_in};
ghost use Rattle.st_format.specs.Position.{group_count};
ghost use Rattle.frame_assembly.specs.Packed.{whole_marks};
ghost use Rattle.payload_header.specs.Payload.{IsInside, seen_segment};
ghost use Rattle.st_format.specs.Pgroup.{pixel_group};
ghost use Rattle.st_format.specs.Raster.{cells_of, joined_cells, offers_in, offers_in_all};

use crate::groups::join_run;
use crate::state::PRESENT;
use payload_header::Segment;
use st_format::Format;

/// The most groups of a row: as many as the widest row has columns.
const MOST_GROUPS: usize = 8192;

/// The mark words of groups of which each sample is present, for as many as a row may have.
static WHOLE: [u16; MOST_GROUPS] = [PRESENT; MOST_GROUPS];

/// How many groups a raster has: at most 2^26.
pub fn group_total(format: &Format) -> usize
    ensures value { result ≡ group_count format.now }
    ensures limit { result ≤ 8192 * 8192 }
{
    format.height() as usize * format.row_groups() as usize
}

/// How many groups stand before the one of a column of a row, in raster order.
fn groups_before(format: &Format, row: u32, column: u32) -> usize
    requires row { row < format.now.height }
    requires column { column < format.now.width }
    ensures value { result
        ≡ row *
        (format.now.width / (pixel_group format.now.sampling format.now.depth).pixels) + column /
        (pixel_group format.now.sampling format.now.depth).pixels }
    ensures limit { result ≤ 8192 * 8192 + 8192 }
{
    row as usize * format.row_groups() as usize + (column / format.pgroup().pixels) as usize
}

/// Joins the offers of each segment to the groups that it lies in.
pub fn join_segments(
    format: &Format,
    marks: &mut [u16],
    octets: &mut [u8],
    segments: &[Segment<'_>],
)
    requires whole { length marks.old ≡ group_count format.now }
    requires packed { ArePacked format.now marks.old octets.old }
    requires inside { All
        (λ s. 0 < length s.octets.now → IsInside (seen_segment s) format.now) segments.now }
    ensures packed { ArePacked format.now marks.new octets.new }
    ensures cells { (ts : ℕ)
        → cells_in format.now marks.new octets.new
        ≡ joined_cells (cells_in format.now marks.old octets.old)
        (cells_of format.now (offers_in_all format.now ts (map seen_segment segments.now)) ts) }
{
    for segment in segments {
        join_segment(format, marks, octets, segment);
    }
}

/// Joins what one segment offers: groups that lie one after another in a row, or nothing.
fn join_segment(format: &Format, marks: &mut [u16], octets: &mut [u8], segment: &Segment<'_>)
    requires whole { length marks.old ≡ group_count format.now }
    requires packed { ArePacked format.now marks.old octets.old }
    requires inside { 0 < length segment.now.octets.now
        → IsInside (seen_segment segment.now) format.now }
    ensures packed { ArePacked format.now marks.new octets.new }
    ensures cells { (ts : ℕ)
        → cells_in format.now marks.new octets.new
        ≡ joined_cells (cells_in format.now marks.old octets.old)
        (cells_of format.now (offers_in format.now ts (seen_segment segment.now)) ts) }
{
    if segment.octets.is_empty() {
        return;
    }
    let first = groups_before(format, segment.row, segment.offset);
    let size = format.pgroup().octets;
    let end = first + segment.octets.len() / size;
    join_whole(
        format,
        &mut marks[first..end],
        &mut octets[size * first..size * end],
        segment.octets,
    );
}

/// Joins groups of which each sample is offered, as if they were another frame's.
fn join_whole(format: &Format, marks: &mut [u16], octets: &mut [u8], others: &[u8])
    requires few { length marks.old ≤ MOST_GROUPS }
    requires packed { ArePacked format.now marks.old octets.old }
    requires alike { length others.now ≡ length octets.old }
    ensures { AreJoined format.now marks.old octets.old
        (whole_marks (length marks.old)) others.now marks.new octets.new }
{
    let count = marks.len();
    join_run(format, marks, octets, &WHOLE[..count], others);
}
