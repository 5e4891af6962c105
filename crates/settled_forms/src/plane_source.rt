//! A frame whose planes are settled by rows.
ghost use Rattle.std.specs.Prelude.{◌≡◌, ◌<◌, ◌≤◌, ◌*◌, ℕ, IsTrue, length, slice_index};
ghost use Rattle.frame_assembly.specs.Patterns.{IsPatternOf};
ghost use Rattle.picture_forms.specs.Layouts.{IsYcc};
ghost use Rattle.settled_forms.specs.Settled.{HasAllValues, IsWholeAsTen, RowHasValues};
ghost use Rattle.st_format.specs.Position.{row_samples};

use crate::packed::spell_packed;
use crate::planes::{row_octets_of, spell_groups};
use frame_assembly::{Base, Frame};
use st_format::{Depth, Format, Sampling};
use std::alloc::{Allocator, Global};

/// How many samples the pattern of a base has.
const PATTERN: usize = 768;

/// The mark word of a pgroup of which each sample has a value.
const WHOLE: u16 = 0x8000;

/// A frame and the base that it is settled with, whose pattern is made once.
#[derive(Drop)]
pub(crate) struct PlaneSource<'a, A: Allocator = Global, B: Allocator = Global> {
    pub frame: &'a Frame<A>,
    pub base: Base<'a, B>,
    pub pattern: [u16; PATTERN],
    /// Whether it is 4:2:2 at 10 bits and each sample has a value. Then its marks are read once,
    /// and not again for each plane.
    pub is_whole: bool,
    ghost is_pattern: { IsPatternOf base frame.now.format.sampling pattern },
    ghost whole: { IsTrue is_whole → IsWholeAsTen frame.now },
}

impl<'a, A: Allocator, B: Allocator> PlaneSource<'a, A, B> {
    ghost use Rattle.std.specs.Prelude.{◌+◌};
    ghost use Rattle.frame_assembly.specs.Settled.{IsBaseOf, settled_picture};
    ghost use Rattle.settled_forms.specs.Pieces.{group_share, groups_text, octets_for, row_size};
    ghost use Rattle.settled_forms.specs.Pieces.{rows_text};
    ghost use Rattle.st_format.specs.Pgroup.{pixel_group};
    ghost use Rattle.st_format.specs.Position.{group_count, row_groups};

    /// Makes the pattern, and reads the marks.
    pub(crate) fn new(frame: &'a Frame<A>, base: Base<'a, B>) -> PlaneSource<'a, A, B>
        ensures frame { result.frame.now ≡ frame.now }
        ensures base { result.base ≡ base.entry }
    {
        let mut pattern = [0; PATTERN];
        frame.base_pattern(base, &mut pattern);
        let is_whole = is_packed_as_ten(&frame.format()) && has_all_values(frame);
        PlaneSource {
            frame,
            base,
            pattern,
            is_whole,
        }
    }

    /// Spells `count` rows of a component of a frame, which is YCbCr, from row `first` on, into
    /// `octets`. It has just the room, and `samples` that for the samples of a row.
    pub(crate) fn spell_rows(
        &self,
        component: u8,
        first: usize,
        count: usize,
        samples: &mut [u16],
        octets: &mut [u8],
    )
        requires base { IsBaseOf self.now.base self.now.frame.now.format }
        requires ycc { IsYcc self.now.frame.now.format.sampling }
        requires component { component < 3 }
        requires inside { first + count ≤ self.now.frame.now.format.height }
        requires samples { length samples.old ≡ row_samples self.now.frame.now.format }
        requires octets { length octets.old
            ≡ row_size self.now.frame.now.format component * count }
        ensures { octets.new
            ≡ rows_text (settled_picture self.now.frame.now self.now.base) component first count }
    {
        let size = row_octets_of(&self.frame.format(), component);
        for i in 0..count {
            let row = (first + i) as u32;
            self.spell_row(
                component,
                row,
                samples,
                &mut octets[size * i..size * (i + 1)],
            );
        }
    }

    /// Spells a row: straight from its octets where each sample has a value, and else settled.
    fn spell_row(&self, component: u8, row: u32, samples: &mut [u16], octets: &mut [u8])
        requires base { IsBaseOf self.now.base self.now.frame.now.format }
        requires ycc { IsYcc self.now.frame.now.format.sampling }
        requires component { component < 3 }
        requires row { row < self.now.frame.now.format.height }
        requires samples { length samples.old ≡ row_samples self.now.frame.now.format }
        requires octets { length octets.old ≡ row_size self.now.frame.now.format component }
        ensures { octets.new
            ≡ groups_text (settled_picture self.now.frame.now self.now.base) component
            (row_groups self.now.frame.now.format * row) (row_groups self.now.frame.now.format) }
    {
        let format = self.frame.format();
        if self.is_whole || is_packed_as_ten(&format) && has_values(self.frame, row) {
            self.spell_packed_row(component, row, octets);
        } else {
            let count = format.row_groups() as usize;
            self.spell_groups_from(component, count * row as usize, count, samples, octets);
        }
    }

    /// Spells a row of 4:2:2 at 10 bits of which each sample has a value.
    fn spell_packed_row(&self, component: u8, row: u32, octets: &mut [u8])
        requires base { IsBaseOf self.now.base self.now.frame.now.format }
        requires sampling { self.now.frame.now.format.sampling ≡ Sampling.Ycc422 }
        requires depth { self.now.frame.now.format.depth ≡ Depth.D10 }
        requires component { component < 3 }
        requires row { row < self.now.frame.now.format.height }
        requires values { RowHasValues self.now.frame.now row }
        requires octets { length octets.old ≡ row_size self.now.frame.now.format component }
        ensures { octets.new
            ≡ groups_text (settled_picture self.now.frame.now self.now.base) component
            (row_groups self.now.frame.now.format * row) (row_groups self.now.frame.now.format) }
    {
        self.frame.facts();
        let count = octets.len() / 2;
        spell_packed(component, self.frame.packed_row(row), count, octets);
    }

    /// Settles `count` pgroups of a frame, which is YCbCr, into `samples`, from the one of number
    /// `first` in raster order, and spells those of a component into `octets`. Both have just the
    /// room.
    fn spell_groups_from(
        &self,
        component: u8,
        first: usize,
        count: usize,
        samples: &mut [u16],
        octets: &mut [u8],
    )
        requires base { IsBaseOf self.now.base self.now.frame.now.format }
        requires ycc { IsYcc self.now.frame.now.format.sampling }
        requires component { component < 3 }
        requires inside { first + count ≤ group_count self.now.frame.now.format }
        requires samples { length samples.old
            ≡ (pixel_group self.now.frame.now.format.sampling
            self.now.frame.now.format.depth).samples * count }
        requires octets { length octets.old
            ≡ octets_for self.now.frame.now.format
            (group_share self.now.frame.now.format component * count) }
        ensures { octets.new
            ≡ groups_text (settled_picture self.now.frame.now self.now.base) component first
            count }
    {
        let format = self.frame.format();
        self.frame.settled_facts(self.base);
        self.frame
            .settle_groups_over(first, count, self.base, &self.pattern, samples);
        spell_groups(&format, component, count, samples, octets);
    }
}

/// Whether pgroups are those of 4:2:2 at 10 bits.
fn is_packed_as_ten(format: &Format) -> bool
    ensures sampling { IsTrue result → format.now.sampling ≡ Sampling.Ycc422 }
    ensures depth { IsTrue result → format.now.depth ≡ Depth.D10 }
{
    matches!(
        (format.sampling(), format.depth()),
        (Sampling::Ycc422, Depth::D10)
    )
}

/// Whether each sample of a frame has a value.
fn has_all_values<A: Allocator>(frame: &Frame<A>) -> bool
    ensures { IsTrue result → HasAllValues frame.now }
{
    for row in 0..frame.format().height() {
        if !has_values(frame, row) {
            return false;
        }
    }
    true
}

/// Whether each sample of a row has a value.
fn has_values<A: Allocator>(frame: &Frame<A>, row: u32) -> bool
    requires { row < frame.now.format.height }
    ensures { IsTrue result → RowHasValues frame.now row }
{
    frame.facts();
    are_whole(frame.marks(row))
}

/// Whether each mark word is that of a pgroup of which each sample has a value.
fn are_whole(marks: &[u16]) -> bool
    ensures { IsTrue result → (k : ℕ) → k < length marks.now → slice_index marks.now k ≡ 32768 }
{
    let mut least = WHOLE;
    let mut most = WHOLE;
    for mark in marks {
        least = least.min(*mark);
        most = most.max(*mark);
    }
    least == WHOLE && most == WHOLE
}
