//! The pgroups of a frame, to a sink.
ghost use Rattle.std.specs.Prelude.{◌≡◌, ◌<◌, ◌≤◌, ◌+◌, ◌*◌, ◌++◌, Some, IfOk, OnErr, OnOk, length};
ghost use Rattle.std.specs.Prelude.{take};
ghost use Rattle.std.specs.Io.KnownBytes.{Appends};
ghost use Rattle.st_format.specs.Device.{AppendsPrefix, CountsFaults, GrowsPart};
ghost use Rattle.media_file.specs.Groups.{groups_text};
ghost use Rattle.receiver_file.specs.Known.{row_cut, rows_cut, shape_in};
ghost use Rattle.receiver_file.specs.Marked.{Passes, marked_text};

use crate::groups::{MOST_TEXT, put_groups};
use frame_assembly::{Frame, MOST_GROUP_OCTETS};
use st_format::{ByteSink, DeviceFault, are_octets, write_whole};
use std::alloc::Allocator;

/// How many octets are gathered before a sink is asked to take them: a group has 18 at most.
const GATHERED: usize = 4096;

/// Writes the groups of a frame, in raster order, row after row.
pub(crate) fn write_rows<A: Allocator, K: ByteSink>(
    sink: &mut K,
    frame: &Frame<A>,
) -> Result<(), DeviceFault>
    ensures ok { OnOk result
        (Appends (K.held sink.old) (K.held sink.new)
        (groups_text (shape_in frame.now.format) (rows_cut frame.now frame.now.format.height))) }
    ensures fault { OnErr result
        (AppendsPrefix (K.held sink.old) (K.held sink.new)
        (groups_text (shape_in frame.now.format) (rows_cut frame.now frame.now.format.height))) }
    ensures counted { CountsFaults (K.failures sink.old) (K.failures sink.new) result }
    ensures took { OnOk result
        (K.took sink.new
        ≡ K.took sink.old
        ++ groups_text (shape_in frame.now.format) (rows_cut frame.now frame.now.format.height)) }
    ensures took_part { OnErr result
        (GrowsPart (K.took sink.old) (K.took sink.new)
        (groups_text (shape_in frame.now.format) (rows_cut frame.now frame.now.format.height))) }
{
    let mut room = [0u8; GATHERED];
    for row in 0..frame.format().height() {
        write_row(sink, frame, row, &mut room)?;
    }
    Ok(())
}

/// Writes the groups of a row by way of a room, of which nothing is left for the next row.
fn write_row<A: Allocator, K: ByteSink>(
    sink: &mut K,
    frame: &Frame<A>,
    row: u32,
    room: &mut [u8],
) -> Result<(), DeviceFault>
    requires row { row < frame.now.format.height }
    requires room { length room.old ≡ GATHERED }
    ensures ok { OnOk result
        (Appends (K.held sink.old) (K.held sink.new)
        (groups_text (shape_in frame.now.format) (row_cut frame.now row))) }
    ensures fault { OnErr result
        (AppendsPrefix (K.held sink.old) (K.held sink.new)
        (groups_text (shape_in frame.now.format) (row_cut frame.now row))) }
    ensures counted { CountsFaults (K.failures sink.old) (K.failures sink.new) result }
    ensures took { OnOk result
        (K.took sink.new
        ≡ K.took sink.old
        ++ groups_text (shape_in frame.now.format) (row_cut frame.now row)) }
    ensures took_part { OnErr result
        (GrowsPart (K.took sink.old) (K.took sink.new)
        (groups_text (shape_in frame.now.format) (row_cut frame.now row))) }
{
    let marks = frame.marks(row);
    let octets = frame.packed_row(row);
    are_octets(octets);
    write_marked(sink, frame.format().pgroup().octets, marks, octets, room)
}

/// Writes groups of so many octets each, as many at once as a room has place for.
fn write_marked<K: ByteSink>(
    sink: &mut K,
    size: usize,
    marks: &[u16],
    octets: &[u8],
    room: &mut [u8],
) -> Result<(), DeviceFault>
    requires few { size ≤ MOST_GROUP_OCTETS }
    requires octets { length octets.now ≡ size * length marks.now }
    requires room { length room.old ≡ GATHERED }
    ensures ok { OnOk result (Appends (K.held sink.old) (K.held sink.new)
        (marked_text size marks.now octets.now)) }
    ensures fault { OnErr result (AppendsPrefix (K.held sink.old) (K.held sink.new)
        (marked_text size marks.now octets.now)) }
    ensures counted { CountsFaults (K.failures sink.old) (K.failures sink.new) result }
    ensures took { OnOk result
        (K.took sink.new ≡ K.took sink.old ++ marked_text size marks.now octets.now) }
    ensures took_part { OnErr result
        (GrowsPart (K.took sink.old) (K.took sink.new) (marked_text size marks.now octets.now)) }
{
    let mut filled = 0;
    let mut group = 0;
    while group < marks.len() {
        let at = make_room(sink, room, filled)?;
        let octets = &octets[size * group..];
        let (count, end) = put_groups(room, at, size, &marks[group..], octets);
        group += count;
        filled = end;
    }
    write_whole(sink, &room[..filled])
}

/// Writes what a room is filled with where a group has no place behind it, and answers how far it
/// is then filled.
fn make_room<K: ByteSink>(sink: &mut K, room: &[u8], filled: usize) -> Result<usize, DeviceFault>
    requires filled { filled ≤ length room.now }
    requires room { length room.now ≡ GATHERED }
    ensures place { IfOk result (λ n. n + MOST_TEXT ≤ length room.now) }
    ensures passed { IfOk result (λ n. Passes (K.held sink.old) (K.held sink.new)
        (take filled room.now) (take n room.now)) }
    ensures fault { OnErr result (AppendsPrefix (K.held sink.old) (K.held sink.new)
        (take filled room.now)) }
    ensures counted { CountsFaults (K.failures sink.old) (K.failures sink.new) result }
    ensures took_first { IfOk result (λ n. Passes (Some (K.took sink.old)) (Some (K.took sink.new))
        (take filled room.now) (take n room.now)) }
    ensures took_part { OnErr result
        (GrowsPart (K.took sink.old) (K.took sink.new) (take filled room.now)) }
{
    if filled + MOST_TEXT <= room.len() {
        return Ok(filled);
    }
    write_whole(sink, &room[..filled])?;
    Ok(0)
}
