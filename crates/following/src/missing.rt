//! Where a frame lacks a sample.
ghost use Rattle.std.specs.Prelude.{◌≡◌, ◌↔◌, IsNone, true, false};
ghost use Rattle.following.specs.Turned.{is_complete};

use frame_assembly::Frame;
use std::alloc::Allocator;

/// A row and a column of which nothing is known, if there are such: those last told again, where
/// nothing is known of them still; else the last row that lacks something is looked for.
///
/// So a caller who asks after each datagram goes through the frame only where what it was told last
/// has come. Which of several is told is not said.
pub fn missing_place<A: Allocator>(frame: &Frame<A>, last: (u32, u32)) -> Option<(u32, u32)>
    ensures { IsNone result ↔ (is_complete frame.now ≡ true) }
{
    if is_missing_at(frame, last.0, last.1) {
        return Some(last);
    }
    if frame.counts().missing == 0 {
        return None;
    }
    Some(last_missing(frame))
}

/// Whether nothing is known of the first component there.
fn is_missing_at<A: Allocator>(frame: &Frame<A>, row: u32, column: u32) -> bool
    ensures { result ≡ true → is_complete frame.now ≡ false }
{
    if !frame.format().has_position(row, column, 0) {
        return false;
    }
    frame.cell(row, column, 0).is_missing()
}

/// The first unknown column of the last row that has one.
fn last_missing<A: Allocator>(frame: &Frame<A>) -> (u32, u32) {
    let height = frame.format().height();
    for back in 0..height {
        let row = height - 1 - back;
        if let Some(columns) = frame.missing_runs(row).next() {
            return (row, columns.start);
        }
    }
    (0, 0)
}
