//! The pgroups of a frame, from a source.
//!
//! A run of groups of one state is taken from what the source holds, where it lends it. Any other
//! group is read by itself, its state first. So a source is asked for no octet behind what shows a
//! fault.
ghost use Rattle.std.specs.Prelude.{◌≡◌, ◌<◌, ◌≤◌, ◌+◌, ◌*◌, IfErr, IfOk, OnOk, length};
ghost use Rattle.st_format.specs.Position.{group_count, row_groups};
ghost use Rattle.st_format.specs.Raster.{blank};
ghost use Rattle.media_file.specs.Faults.{CountsDevice};
ghost use Rattle.media_file.specs.Fields.{Fails, GaveFault};
ghost use Rattle.st_format.specs.Given.{Takes};
ghost use Rattle.media_file.specs.Groups.{group_at, groups_at};
ghost use Rattle.media_file.specs.StateFile.{cut_cells};
ghost use Rattle.receiver_file.specs.Giving.{GaveOf};
ghost use Rattle.receiver_file.specs.Known.{rows_cut, shape_in};
ghost use Rattle.receiver_file.specs.Taking.{AreBlank, Gained};

use crate::known::read_group;
use crate::taking::{ROOM, take_run};
use frame_assembly::Frame;
use media_file::FileFault;
use st_format::{ByteSource, Format};
use std::alloc::Allocator;

/// Reads the groups of a frame of which nothing is known, in raster order, by way of a room.
pub(crate) fn read_rows<A: Allocator, S: ByteSource>(
    source: &mut S,
    frame: &mut Frame<A>,
    packed: &mut [u8],
) -> Result<(), FileFault>
    requires blank { frame.old ≡ blank frame.old.format }
    requires room { length packed.old ≡ ROOM }
    ensures format { frame.new.format ≡ frame.old.format }
    ensures room { length packed.new ≡ length packed.old }
    ensures read { OnOk result
        (Takes (groups_at (shape_in frame.old.format)
        (frame.old.format.height * row_groups frame.old.format)) (S.to_give source.old)
        (S.to_give source.new) (rows_cut frame.new frame.old.format.height)) }
    ensures fault { IfErr result
        (λ f. Fails
        (groups_at (shape_in frame.old.format)
        (frame.old.format.height * row_groups frame.old.format)) (S.to_give source.old) f) }
    ensures gave { OnOk result
        (GaveOf (groups_at (shape_in frame.old.format)
        (frame.old.format.height * row_groups frame.old.format)) (S.gave source.old)
        (S.gave source.new) (rows_cut frame.new frame.old.format.height)) }
    ensures gave_wrong { IfErr result
        (λ f. GaveFault
        (groups_at (shape_in frame.old.format)
        (frame.old.format.height * row_groups frame.old.format))
        (S.gave source.old) (S.gave source.new) (S.ended source.new) f) }
    ensures counted { CountsDevice (S.failures source.old) (S.failures source.new) result }
{
    let format = frame.format();
    let groups = format.height() as usize * format.row_groups() as usize;
    fill(source, frame, &format, groups, packed)
}

/// Reads all groups of a frame, each run or group behind the one before.
fn fill<A: Allocator, S: ByteSource>(
    source: &mut S,
    frame: &mut Frame<A>,
    format: &Format,
    groups: usize,
    packed: &mut [u8],
) -> Result<(), FileFault>
    requires format { frame.old.format ≡ format.now }
    requires groups { groups ≡ group_count format.now }
    requires blank { AreBlank (shape_in format.now) 0 groups frame.old.cells }
    requires room { length packed.old ≡ ROOM }
    ensures format { frame.new.format ≡ format.now }
    ensures room { length packed.new ≡ length packed.old }
    ensures read { OnOk result
        (Takes (groups_at (shape_in format.now) groups) (S.to_give source.old)
        (S.to_give source.new)
        (cut_cells (shape_in format.now).samples groups frame.new.cells)) }
    ensures fault { IfErr result
        (λ f. Fails (groups_at (shape_in format.now) groups) (S.to_give source.old) f) }
    ensures gave { OnOk result
        (GaveOf (groups_at (shape_in format.now) groups) (S.gave source.old)
        (S.gave source.new)
        (cut_cells (shape_in format.now).samples groups frame.new.cells)) }
    ensures gave_wrong { IfErr result
        (λ f. GaveFault (groups_at (shape_in format.now) groups)
        (S.gave source.old) (S.gave source.new) (S.ended source.new) f) }
    ensures counted { CountsDevice (S.failures source.old) (S.failures source.new) result }
{
    let mut done = 0;
    while done < groups {
        done += next_groups(source, frame, format, done, groups, packed)?;
    }
    Ok(())
}

/// Reads groups from the one of a number on, at least one, and answers how many: a run that the
/// source lends, or else one group.
fn next_groups<A: Allocator, S: ByteSource>(
    source: &mut S,
    frame: &mut Frame<A>,
    format: &Format,
    first: usize,
    groups: usize,
    packed: &mut [u8],
) -> Result<usize, FileFault>
    requires format { frame.old.format ≡ format.now }
    requires groups { groups ≡ group_count format.now }
    requires first { first < groups }
    requires blank { AreBlank (shape_in format.now) first groups frame.old.cells }
    requires room { length packed.old ≡ ROOM }
    ensures format { frame.new.format ≡ format.now }
    ensures room { length packed.new ≡ length packed.old }
    ensures some { IfOk result (λ n. 0 < n) }
    ensures within { IfOk result (λ n. first + n ≤ groups) }
    ensures gained { IfOk result (λ n. Gained (shape_in format.now) first n (S.gave source.old)
        (S.gave source.new) (S.to_give source.old) (S.to_give source.new) frame.old.cells
        frame.new.cells) }
    ensures fault { IfErr result
        (λ f. Fails (group_at (shape_in format.now)) (S.to_give source.old) f) }
    ensures gave_wrong { IfErr result
        (λ f. GaveFault (group_at (shape_in format.now))
        (S.gave source.old) (S.gave source.new) (S.ended source.new) f) }
    ensures counted { CountsDevice (S.failures source.old) (S.failures source.new) result }
{
    let taken = take_run(source, frame, format, first, groups, packed);
    if taken > 0 {
        return Ok(taken);
    }
    read_group(source, frame, format, first, groups)?;
    Ok(1)
}
