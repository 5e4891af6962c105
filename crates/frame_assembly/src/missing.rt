//! The runs of a row's columns of which nothing is known.
ghost use Rattle.std.specs.Prelude.{◌≡◌, ◌≤◌, ◌<◌, length};
ghost use Rattle.std.specs.Iterator.{item_count};
ghost use Rattle.frame_assembly.specs.Missing.{GivesRun, IsStretch, is_known_mark, runs_of_marks};

use crate::state::GroupState;
use std::marker::Model;
use std::ops::Range;

/// The maximal runs of a row's columns of which nothing is known, from the left, each from its
/// first column to the one behind its last. [`Frame::missing_runs`](crate::Frame::missing_runs)
/// makes it.
#[derive(Drop)]
pub struct MissingRuns<'a> {
    marks: &'a [u16],
    group: u32,
    columns: u32,
}

impl<'a> Model for MissingRuns<'a> {
    ghost use Rattle.std.specs.Prelude.{◌+◌, ◌<◌, ◌≤◌, ℕ, List, length};
    ghost use Rattle.std.specs.declared.ops.Range.{Range};
    ghost use Rattle.frame_assembly.specs.Missing.{runs_of_marks};

    // The runs that are still to come
    ghost Value = { List (Range ℕ) };

    ghost view = { λ a. runs_of_marks a.columns a.group a.marks.now };

    ghost invariant = { λ a. (0 < a.columns) × (a.columns ≤ 4)
        × (a.group + length a.marks.now ≤ 8192) };
}

impl<'a> MissingRuns<'a> {
    /// Those of a row of these mark words, of so many columns a group.
    pub(crate) fn of_marks(marks: &'a [u16], columns: u32) -> MissingRuns<'a>
        requires columns { (0 < columns) × (columns ≤ 4) }
        requires groups { length marks.now ≤ 8192 }
        ensures { result ≡ runs_of_marks columns 0 marks.entry.now }
    {
        MissingRuns {
            marks,
            group: 0,
            columns,
        }
    }
}

impl<'a> Iterator for MissingRuns<'a> {
    type Item = Range<u32>;

    ghost next_gives = { GivesRun };

    ghost remaining = { item_count (λ runs. runs) };

    fn next(&mut self) -> Option<Range<u32>> {
        let marks = self.marks;
        let known = stretch(marks, true);
        let marks = &marks[known..];
        let missing = stretch(marks, false);
        let start = self.group + known as u32;
        let end = start + missing as u32;
        self.marks = &marks[missing..];
        self.group = end;
        if missing == 0 {
            return None;
        }
        Some(self.columns * start..self.columns * end)
    }
}

/// How many first groups are known, or how many are not.
fn stretch(marks: &[u16], known: bool) -> usize
    ensures { IsStretch known result marks.now }
{
    for (group, mark) in marks.iter().enumerate() {
        if is_known(*mark) != known {
            return group;
        }
    }
    marks.len()
}

/// Whether something is known of the group of a mark word.
#[inline(always)]
fn is_known(mark: u16) -> bool
    ensures { result ≡ is_known_mark mark }
{
    GroupState::of_mark(mark).is_present()
}
