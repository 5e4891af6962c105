//! The frames of a receiver, from a source.
ghost use Rattle.std.specs.Prelude.{◌≡◌, ◌≤◌, [], All, IfErr, IfOk, length};
ghost use Rattle.st_format.specs.Fields.{fields_of};
ghost use Rattle.path_receiver.specs.Opening.{AreDifferent};
ghost use Rattle.st_format.specs.Member.{IsMember};
ghost use Rattle.media_file.specs.Faults.{CountsDevice};
ghost use Rattle.media_file.specs.Fields.{Fails, GaveFault};
ghost use Rattle.st_format.specs.Given.{Takes};
ghost use Rattle.media_file.specs.StateFile.{raster_groups};
ghost use Rattle.media_file.specs.Groups.{groups_at};
ghost use Rattle.receiver_file.specs.Giving.{GaveOf};
ghost use Rattle.receiver_file.specs.Known.{shape_in};
ghost use Rattle.receiver_file.specs.Saved.{cell_groups, kept_frames};
ghost use Rattle.receiver_file.specs.StateReading.{all_held_at, new_of, timestamp_at};

use crate::filling::read_rows;
use crate::octets::read_number;
use crate::taking::ROOM;
use arrayvec::ArrayVec;
use frame_assembly::Frame;
use media_file::FileFault;
use path_receiver::MOST_TIMESTAMPS;
use st_format::{ByteSource, Format};
use std::alloc::Allocator;

/// What a file says of a window: timestamps, and a frame for each.
#[derive(Drop)]
pub(crate) struct Frames<A: Allocator> {
    pub window: ArrayVec<u32, MOST_TIMESTAMPS>,
    pub frames: Vec<Frame<A>, A>,
}

/// Reads so many timestamps, which differ, each with its frame.
pub(crate) fn read_frames<A: Allocator + Copy, S: ByteSource>(
    alloc: A,
    source: &mut S,
    format: Format,
    count: u8,
) -> Result<Frames<A>, FileFault>
    requires { count ≤ 16 }
    ensures count { IfOk result (λ it. length it.window.items ≡ count) }
    ensures different { IfOk result (λ it. AreDifferent it.window.items) }
    ensures one_each { IfOk result (λ it. length it.frames.items ≡ count) }
    ensures of_format { IfOk result (λ it. All (λ r. r.format ≡ format) it.frames.items) }
    ensures read { IfOk result
        (λ it. Takes (all_held_at (fields_of format) count []) (S.to_give source.old)
        (S.to_give source.new) (kept_frames (fields_of format) it.window.items it.frames.items)) }
    ensures fault { IfErr result
        (λ f. Fails (all_held_at (fields_of format) count []) (S.to_give source.old) f) }
    ensures gave { IfOk result
        (λ it. GaveOf (all_held_at (fields_of format) count []) (S.gave source.old)
        (S.gave source.new) (kept_frames (fields_of format) it.window.items it.frames.items)) }
    ensures gave_wrong { IfErr result
        (λ f. GaveFault (all_held_at (fields_of format) count [])
        (S.gave source.old) (S.gave source.new) (S.ended source.new) f) }
    ensures counted { CountsDevice (S.failures source.old) (S.failures source.new) result }
{
    let mut window = ArrayVec::new();
    let mut frames = Vec::new(alloc);
    let mut packed = [0u8; ROOM];
    for _ in 0..count {
        let timestamp = read_timestamp(source, window.as_slice())?;
        let frame = read_frame(alloc, source, format, &mut packed)?;
        window.push(timestamp);
        frames.push(frame)?;
    }
    Ok(Frames { window, frames })
}

/// Reads a timestamp; `BadField` where it is one of those before.
fn read_timestamp<S: ByteSource>(source: &mut S, before: &[u32]) -> Result<u32, FileFault>
    ensures new { IfOk result (λ t. IsMember t before.now → ⊥) }
    ensures read { IfOk result
        (λ t. Takes (timestamp_at before.now) (S.to_give source.old) (S.to_give source.new) t) }
    ensures fault { IfErr result (λ f. Fails (timestamp_at before.now) (S.to_give source.old) f) }
    ensures gave { IfOk result
        (λ t. GaveOf (timestamp_at before.now) (S.gave source.old) (S.gave source.new) t) }
    ensures gave_wrong { IfErr result
        (λ f. GaveFault (timestamp_at before.now)
        (S.gave source.old) (S.gave source.new) (S.ended source.new) f) }
    ensures counted { CountsDevice (S.failures source.old) (S.failures source.new) result }
{
    let timestamp = read_number(source)?;
    new_in(before, timestamp)
}

fn new_in(before: &[u32], timestamp: u32) -> Result<u32, FileFault>
    ensures { result ≡ new_of before.now timestamp }
{
    if before.contains(&timestamp) {
        return Err(FileFault::BadField);
    }
    Ok(timestamp)
}

/// Reads a frame by way of a room: at first nothing is known of it.
fn read_frame<A: Allocator + Copy, S: ByteSource>(
    alloc: A,
    source: &mut S,
    format: Format,
    packed: &mut [u8],
) -> Result<Frame<A>, FileFault>
    requires { length packed.old ≡ ROOM }
    ensures room { length packed.new ≡ length packed.old }
    ensures format { IfOk result (λ r. r.format ≡ format) }
    ensures read { IfOk result
        (λ r. Takes (groups_at (shape_in format) (raster_groups (fields_of format)))
        (S.to_give source.old) (S.to_give source.new) (cell_groups (fields_of format) r.cells)) }
    ensures fault { IfErr result
        (λ f. Fails (groups_at (shape_in format) (raster_groups (fields_of format)))
        (S.to_give source.old) f) }
    ensures gave { IfOk result
        (λ r. GaveOf (groups_at (shape_in format) (raster_groups (fields_of format)))
        (S.gave source.old) (S.gave source.new) (cell_groups (fields_of format) r.cells)) }
    ensures gave_wrong { IfErr result
        (λ f. GaveFault (groups_at (shape_in format) (raster_groups (fields_of format)))
        (S.gave source.old) (S.gave source.new) (S.ended source.new) f) }
    ensures counted { CountsDevice (S.failures source.old) (S.failures source.new) result }
{
    let mut frame = Frame::new(alloc, format)?;
    read_rows(source, &mut frame, packed)?;
    Ok(frame)
}
