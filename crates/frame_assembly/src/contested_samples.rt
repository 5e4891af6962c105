//! The contested samples of a row.
ghost use Rattle.std.specs.Prelude.{◌≡◌, ◌==◌, ◌↔◌, ◌≤◌, ◌<◌, IsTrue, length};
ghost use Rattle.std.specs.Prelude.{slice_index_or};
ghost use Rattle.std.specs.Int.{bit_at};
ghost use Rattle.std.specs.Iterator.{item_count};
ghost use Rattle.st_format.specs.declared.sampling.Sampling.TheVariants.{Ycc422};
ghost use Rattle.st_format.specs.Position.{place_in_row, run};
ghost use Rattle.frame_assembly.specs.ContestedSamples.{AreEven, GivesSample, HasContested};
ghost use Rattle.frame_assembly.specs.ContestedSamples.{IsNextSet};
ghost use Rattle.frame_assembly.specs.ContestedSamples.{spots_of_marks};

use crate::state::PRESENT;
use st_format::Sampling;
use std::marker::Model;

/// The contested samples of a row, each by its column and its component, in the order in which they
/// are sent. [`Frame::contested`](crate::Frame::contested) makes it.
#[derive(Drop)]
pub struct ContestedSamples<'a> {
    sampling: Sampling,
    // How many samples a group has.
    size: usize,
    // The group that is looked at: the number of its first sample in the row, its mark word, and
    // how many of its samples were looked at.
    first: usize,
    mark: u16,
    at: usize,
    // Those behind it: how many groups stand before them, and their mark words.
    group: usize,
    marks: &'a [u16],
}

impl<'a> Model for ContestedSamples<'a> {
    ghost use Rattle.std.specs.Prelude.{◌+◌, ◌<◌, ◌≤◌, ◌++◌, ℕ, List, length};
    ghost use Rattle.frame_assembly.specs.ContestedSamples.{spots_of_mark, spots_of_marks};

    // The samples that are still to come
    ghost Value = { List (ℕ × ℕ) };

    ghost view = { λ a. spots_of_mark a.sampling a.first a.size a.mark a.at
        ++ spots_of_marks a.sampling a.size a.group a.marks.now };

    ghost invariant = { λ a. (a.size ≤ 12) × (a.at ≤ a.size) × (a.first ≤ 98304)
        × (a.group + length a.marks.now ≤ 8192) };
}

impl<'a> ContestedSamples<'a> {
    /// Those of a row of these mark words, of so many samples a group.
    pub(crate) fn of_marks(
        sampling: Sampling,
        size: usize,
        marks: &'a [u16],
    ) -> ContestedSamples<'a>
        requires size { size ≤ 12 }
        requires groups { length marks.now ≤ 8192 }
        ensures { result ≡ spots_of_marks sampling size 0 marks.entry.now }
    {
        ContestedSamples {
            sampling,
            size,
            first: 0,
            mark: 0,
            at: size,
            group: 0,
            marks,
        }
    }
}

impl<'a> Iterator for ContestedSamples<'a> {
    type Item = (u32, u8);

    ghost next_gives = { GivesSample };

    ghost remaining = { item_count (λ samples. samples) };

    fn next(&mut self) -> Option<(u32, u8)> {
        let at = next_set(self.mark, self.at, self.size);
        if at < self.size {
            self.at = at + 1;
            return Some(spot(self.sampling, self.first + at));
        }
        let marks = self.marks;
        let even = even_groups(marks, self.size);
        if even == marks.len() {
            return None;
        }
        let mark = marks[even];
        let found = next_set(mark, 0, self.size);
        self.first = self.size * (self.group + even);
        self.mark = mark;
        self.at = found + 1;
        self.group += even + 1;
        self.marks = &marks[even + 1..];
        Some(spot(self.sampling, self.first + found))
    }
}

/// How many first groups have no contested sample.
fn even_groups(marks: &[u16], size: usize) -> usize
    requires { size ≤ 12 }
    ensures { AreEven size result marks.now }
{
    for (group, mark) in marks.iter().enumerate() {
        if has_contested(*mark, size) {
            return group;
        }
    }
    marks.len()
}

/// Whether a group of this mark word has a contested sample: most words are one of two, and have
/// none.
#[inline(always)]
fn has_contested(mark: u16, size: usize) -> bool
    requires { size ≤ 12 }
    ensures { IsTrue result ↔ HasContested size mark }
{
    if mark == 0 || mark == PRESENT {
        return false;
    }
    next_set(mark, 0, size) < size
}

/// The first contested sample of a group at or behind one; or how many samples there are, where
/// none is.
fn next_set(mark: u16, at: usize, size: usize) -> usize
    requires at { at ≤ size }
    requires size { size ≤ 12 }
    ensures { IsNextSet mark at size result }
{
    for i in at..size {
        if is_set(mark, i) {
            return i;
        }
    }
    size
}

/// Whether bit `i` of a mark word is set: of the first `size` bits, that sample `i` is contested.
#[inline(always)]
#[tactic(auto, using(std::proofs::lemmas::Nat::Bits::shr_and_one))]
fn is_set(mark: u16, i: usize) -> bool
    requires { i < 16 }
    ensures { result ≡ (bit_at mark i == 1) }
{
    mark >> i & 1 == 1
}

/// The column and the component of a row's sample, counted from the row's first.
fn spot(sampling: Sampling, sample: usize) -> (u32, u8)
    requires { sample ≤ 98320 }
    ensures place { result ≡ place_in_row sampling sample }
    ensures component { result.1 < 3 }
{
    let component = sampling.component_in_row(sample) as u8;
    (column_of(sampling, sample), component)
}

/// The column of a row's sample: of 4:2:2 four samples have two columns.
#[tactic(auto, unfolding(st_format::specs::Position::place_in_row))]
fn column_of(sampling: Sampling, sample: usize) -> u32
    requires { sample ≤ 98320 }
    ensures { result ≡ (place_in_row sampling sample).0 }
{
    match sampling {
        Sampling::Ycc422 => sample as u32 / 4 * 2 + second_of(sample % 4),
        Sampling::Ycc444 | Sampling::Rgb => sample as u32 / 3,
    }
}

/// How many columns of a run of 4:2:2 stand before that of its sample: its fourth has the second.
fn second_of(sample: usize) -> u32
    requires { sample < 4 }
    ensures { result ≡ (slice_index_or (run Ycc422) sample (0, 0)).0 }
{
    match sample {
        3 => 1,
        _ => 0,
    }
}
