//! A frame: what is known of each sample of a raster.
ghost use Rattle.std.specs.Prelude.{◌≡◌, ◌<◌, ◌≤◌, ◌↔◌, ◌+◌, ◌*◌, ℕ, IfOk, IsTrue, count_by};
ghost use Rattle.std.specs.Prelude.{drop, length, map, slice_index, take};
ghost use Rattle.std.specs.Int.{bit_at};
ghost use Rattle.frame_assembly.specs.ContestedSamples.{IsContestedSample};
ghost use Rattle.frame_assembly.specs.ContestedSamples.{contested_spots};
ghost use Rattle.frame_assembly.specs.Kinds.{AreCounts};
ghost use Rattle.frame_assembly.specs.Marks.{state_of_mark};
ghost use Rattle.frame_assembly.specs.Missing.{AreUnknownRuns, unknown_runs};
ghost use Rattle.st_format.specs.declared.cell.Cell.TheVariants.{Value};
ghost use Rattle.st_format.specs.Cell.{known_value, is_contested, is_missing, is_present, join};
ghost use Rattle.frame_assembly.specs.Rows.{GroupsAreWhole, IsMarkOf, IsStateOf, given_cells};
ghost use Rattle.frame_assembly.specs.Rows.{group_cells, replaced_cells, row_cells};
ghost use Rattle.frame_assembly.specs.Patterns.{IsPatternOf};
ghost use Rattle.frame_assembly.specs.Settled.{IsBaseOf, settled_picture};
ghost use Rattle.pgroup_pack.specs.Groups.{blanked_samples};
ghost use Rattle.payload_header.specs.View.{segments_of};
ghost use Rattle.st_format.specs.Fit.{ValuesFit};
ghost use Rattle.st_format.specs.Member.{IsMember};
ghost use Rattle.st_format.specs.Offer.{cell_of};
ghost use Rattle.st_format.specs.Picture.{IsPicture};
ghost use Rattle.st_format.specs.Pgroup.{bits_of, pixel_group};
ghost use Rattle.st_format.specs.Position.{IsPosition, Position, group_count, group_start};
ghost use Rattle.st_format.specs.Position.{row_groups, row_octets};
ghost use Rattle.st_format.specs.Samples.{Spells, values_in};
ghost use Rattle.st_format.specs.Raster.{IsWhole, blank, cell_at, cells_of, joined_cells};
ghost use Rattle.st_format.specs.Raster.{joined_rasters};
ghost use Rattle.st_format.specs.Raster.{offers_in_all};

use crate::base::Base;
use crate::cells::cell_in;
use crate::contested_samples::ContestedSamples;
use crate::counts::{Counts, count_cells};
use crate::groups::{join_run, same_groups};
use crate::joining::{group_total, join_segments};
use crate::missing::MissingRuns;
use crate::rows::{group_of, marks_of_row, octets_of_row, set_group_of, set_groups_of};
use crate::settling::{base_facts, base_pattern, settle_run, settle_run_over, settled_samples};
use crate::state::GroupState;
use payload_header::PayloadView;
use st_format::{Cell, Format, Picture};
use std::alloc::{AllocError, Allocator, Global};
use std::marker::Model;

/// What is known of each sample of a raster: one cell for each position of the format.
///
/// Datagrams are joined to it in any order and with any repeats (SMPTE ST 2022-7); the frame
/// depends on which values were offered for each sample, and on nothing else.
#[derive(Drop)]
pub struct Frame<A: Allocator = Global> {
    format: Format,
    marks: Vec<u16, A>,
    octets: Vec<u8, A>,
}

impl<A: Allocator> Model for Frame<A> {
    ghost use Rattle.frame_assembly.specs.Packed.{HasAllGroups, cells_in};
    ghost use Rattle.st_format.specs.Raster.{Raster};

    // The format, and the cells in raster order
    ghost Value = { Raster };

    ghost view = { λ a. record {
      format = a.format;
      cells =
          cells_in a.format a.marks.items a.octets.items;
    } };

    ghost invariant = { λ a. HasAllGroups a.format a.marks.items a.octets.items };
}

impl<A: Allocator + Copy> Frame<A> {
    /// A frame of which nothing is known: every cell is missing.
    ///
    /// `AllocError` comes only where the allocator refused the memory for the cells.
    pub fn new(alloc: A, format: Format) -> Result<Frame<A>, AllocError>
        ensures blank { IfOk result (λ f. f ≡ blank format) }
        ensures whole { IfOk result (λ f. IsWhole f) }
        ensures fit { IfOk result (λ f. ValuesFit f) }
        ensures groups { IfOk result (λ f. GroupsAreWhole f) }
    {
        let groups = group_total(&format);
        let marks = Vec::from_elem(alloc, 0, groups)?;
        let octets = Vec::from_elem(alloc, 0, format.pgroup().octets * groups)?;
        Ok(Frame {
            format,
            marks,
            octets,
        })
    }
}

impl<A: Allocator> Frame<A> {
    /// The format that the frame was made with, which stays.
    pub fn format(&self) -> Format
        ensures format { result ≡ self.now.format }
        ensures whole { IsWhole self.now }
        ensures fit { ValuesFit self.now }
        ensures groups { GroupsAreWhole self.now }
    {
        self.format
    }

    /// What is so of every frame: it has a cell for each position, values that fit the depth, and
    /// pgroups that are missing as wholes. A caller's proof learns it from here; nothing is done.
    #[doc(hidden)]
    #[inline(always)]
    pub fn facts(&self)
        ensures whole { IsWhole self.now }
        ensures fit { ValuesFit self.now }
        ensures groups { GroupsAreWhole self.now }
    {
        let _format = &self.format;
    }

    /// What is known of the sample at a row, a column and a component: 0, 1, 2 are Y, Cb, Cr or R,
    /// G, B.
    ///
    /// The three are a position of the format: in 4:2:2 Cb and Cr stand at the even columns alone
    /// (RFC 4175, 4.3).
    pub fn cell(&self, row: u32, column: u32, component: u8) -> Cell
        requires { IsPosition (record { row = row; column = column; component = component })
            self.now.format }
        ensures cell { result
            ≡ cell_at self.now (record { row = row; column = column; component = component }) }
        ensures whole { IsWhole self.now }
    {
        let number = self.format.sample_number(row, column, component);
        cell_in(
            &self.format,
            self.marks.as_slice(),
            self.octets.as_slice(),
            number,
        )
    }

    /// Joins what a payload offers: for each sample of its segments the value that their octets
    /// spell.
    ///
    /// The payload was read for the frame's format. No memory is taken.
    pub fn put(&mut self, view: &PayloadView<'_>)
        requires { view.now.format ≡ self.old.format }
        ensures format { self.new.format ≡ self.old.format }
        // A payload has no timestamp: its offers join alike at whichever it is given.
        ensures cells { (ts : ℕ)
            → self.new.cells
            ≡ joined_cells self.old.cells
            (cells_of self.old.format
            (offers_in_all self.old.format ts (segments_of view.now)) ts) }
        ensures each { (ts : ℕ) (p : Position) → IsPosition p self.old.format
            → cell_at self.new p ≡ join (cell_at self.old p)
            (cell_of (offers_in_all self.old.format ts (segments_of view.now)) ts p) }
        ensures whole { IsWhole self.new }
        ensures fit { ValuesFit self.new }
        ensures groups { GroupsAreWhole self.new }
    {
        let segments = view.segments.as_slice();
        join_segments(
            &self.format,
            self.marks.as_mut_slice(),
            self.octets.as_mut_slice(),
            segments,
        );
    }

    /// Joins another frame of the same format, which may be over another allocator: each cell
    /// becomes the join of the two. No memory is taken.
    pub fn absorb<B: Allocator>(&mut self, other: &Frame<B>)
        requires { other.now.format ≡ self.old.format }
        ensures format { self.new.format ≡ self.old.format }
        ensures rasters { self.new ≡ joined_rasters self.old other.now }
        ensures cells { self.new.cells ≡ joined_cells self.old.cells other.now.cells }
        ensures each { (p : Position) → IsPosition p self.old.format
            → cell_at self.new p ≡ join (cell_at self.old p) (cell_at other.now p) }
        ensures whole { IsWhole self.new }
        ensures fit { ValuesFit self.new }
        ensures groups { GroupsAreWhole self.new }
    {
        join_run(
            &self.format,
            self.marks.as_mut_slice(),
            self.octets.as_mut_slice(),
            other.marks.as_slice(),
            other.octets.as_slice(),
        );
    }

    /// How many samples are present, missing and contested: together all of the raster.
    pub fn counts(&self) -> Counts
        ensures present { result.present ≡ count_by is_present self.now.cells }
        ensures missing { result.missing ≡ count_by is_missing self.now.cells }
        ensures contested { result.contested ≡ count_by is_contested self.now.cells }
        ensures positions { AreCounts self.now result }
        ensures whole { IsWhole self.now }
    {
        count_cells(&self.format, self.marks.as_slice(), self.octets.as_slice())
    }

    /// Makes every cell missing. No memory is taken.
    pub fn clear(&mut self)
        ensures blank { self.new ≡ blank self.old.format }
        ensures whole { IsWhole self.new }
        ensures fit { ValuesFit self.new }
        ensures groups { GroupsAreWhole self.new }
    {
        self.marks.fill(0);
        self.octets.fill(0);
    }

    /// A picture of the frame: the value of each sample that has one, and the base's value for a
    /// missing or a contested sample.
    ///
    /// A fill fits the depth, and a held picture has the frame's format; it may be over another
    /// allocator. `AllocError` comes only where the allocator refused the memory for the values.
    pub fn settle<B: Allocator, C: Allocator>(
        &self,
        alloc: B,
        base: Base<'_, C>,
    ) -> Result<Picture<B>, AllocError>
        requires { IsBaseOf base self.now.format }
        ensures settled { IfOk result (λ p. p ≡ settled_picture self.now base.entry) }
        ensures picture { IfOk result (λ p. IsPicture p) }
    {
        let samples = settled_samples(
            alloc,
            &self.format,
            self.marks.as_slice(),
            self.octets.as_slice(),
            base,
        )?;
        Ok(Picture::from_samples(self.format, samples))
    }

    /// The samples of consecutive pgroups of the settled picture, from the one of number `first` in
    /// raster order, in the order in which they are sent: as [`settle`](Frame::settle) gives them
    /// with this base. No memory is taken.
    ///
    /// `samples` has just as many as `count` pgroups; a base is one as for `settle`.
    pub fn settle_groups<C: Allocator>(
        &self,
        first: usize,
        count: usize,
        base: Base<'_, C>,
        samples: &mut [u16],
    )
        requires base { IsBaseOf base self.now.format }
        requires inside { first + count ≤ group_count self.now.format }
        requires room { length samples.old
            ≡ (pixel_group self.now.format.sampling self.now.format.depth).samples * count }
        ensures settled { samples.new
            ≡ take ((pixel_group self.now.format.sampling self.now.format.depth).samples * count)
            (drop ((pixel_group self.now.format.sampling self.now.format.depth).samples * first)
            (settled_picture self.now base.entry).samples) }
    {
        settle_run(
            &self.format,
            self.marks.as_slice(),
            self.octets.as_slice(),
            first,
            count,
            base,
            samples,
        );
    }

    /// Makes the pattern of a base for [`settle_groups_over`](Frame::settle_groups_over): it is
    /// made once for any number of calls. `pattern` has 768 samples; it stays where the base is a
    /// picture that is held.
    pub fn base_pattern<C: Allocator>(&self, base: Base<'_, C>, pattern: &mut [u16])
        requires { length pattern.old ≡ 768 }
        ensures { IsPatternOf base.entry self.now.format.sampling pattern.new }
    {
        base_pattern(self.format.sampling, base, pattern);
    }

    /// The same as [`settle_groups`](Frame::settle_groups), over a base whose pattern was made.
    pub fn settle_groups_over<C: Allocator>(
        &self,
        first: usize,
        count: usize,
        base: Base<'_, C>,
        pattern: &[u16],
        samples: &mut [u16],
    )
        requires base { IsBaseOf base self.now.format }
        requires pattern { IsPatternOf base self.now.format.sampling pattern.now }
        requires long { length pattern.now ≡ 768 }
        requires inside { first + count ≤ group_count self.now.format }
        requires room { length samples.old
            ≡ (pixel_group self.now.format.sampling self.now.format.depth).samples * count }
        ensures settled { samples.new
            ≡ take ((pixel_group self.now.format.sampling self.now.format.depth).samples * count)
            (drop ((pixel_group self.now.format.sampling self.now.format.depth).samples * first)
            (settled_picture self.now base.entry).samples) }
    {
        settle_run_over(
            &self.format,
            self.marks.as_slice(),
            self.octets.as_slice(),
            first,
            count,
            base,
            pattern,
            samples,
        );
    }

    /// What is so of every settled frame: it is a picture. A caller's proof learns it from here;
    /// nothing is done.
    #[doc(hidden)]
    #[inline(always)]
    pub fn settled_facts<C: Allocator>(&self, base: Base<'_, C>)
        requires { IsBaseOf base self.now.format }
        ensures { IsPicture (settled_picture self.now base.entry) }
    {
        let _format = &self.format;
        base_facts(base);
    }

    /// A copy of its own, over another allocator.
    ///
    /// `AllocError` comes only where the allocator refused the memory for the cells.
    pub fn try_copy<B: Allocator + Copy>(&self, alloc: B) -> Result<Frame<B>, AllocError>
        ensures same { IfOk result (λ f. f ≡ self.now) }
        ensures whole { IsWhole self.now }
        ensures fit { ValuesFit self.now }
        ensures groups { GroupsAreWhole self.now }
    {
        let marks = Vec::from_slice(alloc, self.marks.as_slice())?;
        let octets = Vec::from_slice(alloc, self.octets.as_slice())?;
        Ok(Frame {
            format: self.format,
            marks,
            octets,
        })
    }

    /// The octets of a row, as they are sent, with 0 for each sample that is missing or contested.
    pub fn packed_row(&self, row: u32) -> &[u8]
        requires { row < self.now.format.height }
        ensures long { length result.now ≡ row_octets self.now.format }
        ensures spelled { Spells (bits_of self.now.format.depth) result.now
            (map known_value (row_cells self.now row)) }
    {
        octets_of_row(
            &self.format,
            self.marks.as_slice(),
            self.octets.as_slice(),
            row,
        )
    }

    /// A mark word for each pgroup of a row: bit 15 is set where it has no missing sample, bit `i`
    /// where its sample `i` is contested; the word of a missing pgroup is 0. `GroupState::of_mark`
    /// reads it.
    pub fn marks(&self, row: u32) -> &[u16]
        requires { row < self.now.format.height }
        ensures long { length result.now ≡ row_groups self.now.format }
        ensures marks { (group : ℕ) → group < row_groups self.now.format
            → IsMarkOf (slice_index result.now group) (group_cells self.now row group) }
        ensures states { (group : ℕ) → group < row_groups self.now.format
            → IsStateOf (state_of_mark (slice_index result.now group))
            (group_cells self.now row group) }
    {
        marks_of_row(
            &self.format,
            self.marks.as_slice(),
            self.octets.as_slice(),
            row,
        )
    }

    /// The runs of a row's columns of which nothing is known, from the left, each from its first
    /// column to the one behind its last: `for columns in frame.missing_runs(row)`.
    ///
    /// They are maximal, and all of them. The samples of a pgroup come together (RFC 4175, 4.3), so
    /// of each column all samples are missing or none is. No memory is taken.
    pub fn missing_runs(&self, row: u32) -> MissingRuns<'_>
        requires { row < self.now.format.height }
        ensures maximal { AreUnknownRuns self.now row result }
        ensures runs { result ≡ unknown_runs self.now row }
        ensures whole { IsWhole self.now }
    {
        MissingRuns::of_marks(self.marks(row), self.format().pgroup().pixels)
    }

    /// The contested samples of a row, each by its column and its component, in the order in which
    /// they are sent (RFC 4175, 4.3): `for (column, component) in frame.contested(row)`. No memory
    /// is taken.
    pub fn contested(&self, row: u32) -> ContestedSamples<'_>
        requires { row < self.now.format.height }
        ensures each { (column component : ℕ) → IsMember (column, component) result
            ↔ IsContestedSample self.now row column component }
        ensures samples { result ≡ contested_spots self.now row }
        ensures whole { IsWhole self.now }
    {
        let format = self.format();
        ContestedSamples::of_marks(format.sampling(), format.pgroup().samples, self.marks(row))
    }

    /// Copies the octets of a pgroup, with 0 for each sample that is missing or contested, and
    /// tells what is known of its samples.
    pub fn group(&self, row: u32, group: u32, out: &mut [u8]) -> GroupState
        requires row { row < self.now.format.height }
        requires group { group < row_groups self.now.format }
        requires room { length out.old
            ≡ (pixel_group self.now.format.sampling self.now.format.depth).octets }
        ensures spelled { Spells (bits_of self.now.format.depth) out.new
            (map known_value (group_cells self.now row group)) }
        ensures state { IsStateOf result (group_cells self.now row group) }
    {
        group_of(
            &self.format,
            self.marks.as_slice(),
            self.octets.as_slice(),
            row,
            group,
            out,
        )
    }

    /// Makes a pgroup's samples those that the octets spell, contested where the bit of the mask is
    /// set; or missing, if it isn't present. No other sample changes.
    ///
    /// The mask has no bit beyond the pgroup's samples, and contested samples are 0.
    pub fn set_group(&mut self, row: u32, group: u32, octets: &[u8], contested: u16, present: bool)
        requires row { row < self.old.format.height }
        requires group { group < row_groups self.old.format }
        requires octets { length octets.now
            ≡ (pixel_group self.old.format.sampling self.old.format.depth).octets }
        requires bits { (i : ℕ)
            → (pixel_group self.old.format.sampling self.old.format.depth).samples ≤ i
            → bit_at contested i ≡ 0 }
        requires zero { values_in (bits_of self.old.format.depth) octets.now
            ≡ blanked_samples contested (values_in (bits_of self.old.format.depth) octets.now) }
        ensures format { self.new.format ≡ self.old.format }
        ensures cells { self.new.cells
            ≡ replaced_cells (group_start self.old.format row group)
            (given_cells present contested
            (values_in (bits_of self.old.format.depth) octets.now)) self.old.cells }
        ensures whole { IsWhole self.new }
        ensures fit { ValuesFit self.new }
        ensures groups { GroupsAreWhole self.new }
    {
        set_group_of(
            &self.format,
            self.marks.as_mut_slice(),
            self.octets.as_mut_slice(),
            row,
            group,
            octets,
            contested,
            present,
        );
    }

    /// Makes consecutive pgroups, from the one of number `first` in raster order, those that the
    /// octets spell: each sample has its value, none is missing or contested. No other sample
    /// changes. No memory is taken.
    pub fn set_groups(&mut self, first: usize, count: usize, octets: &[u8])
        requires inside { first + count ≤ group_count self.old.format }
        requires octets { length octets.now
            ≡ (pixel_group self.old.format.sampling self.old.format.depth).octets * count }
        ensures format { self.new.format ≡ self.old.format }
        ensures cells { self.new.cells
            ≡ replaced_cells
            ((pixel_group self.old.format.sampling self.old.format.depth).samples * first)
            (map Value (values_in (bits_of self.old.format.depth) octets.now)) self.old.cells }
        ensures whole { IsWhole self.new }
        ensures fit { ValuesFit self.new }
        ensures groups { GroupsAreWhole self.new }
    {
        set_groups_of(
            &self.format,
            self.marks.as_mut_slice(),
            self.octets.as_mut_slice(),
            first,
            count,
            octets,
        );
    }

    /// Whether two frames have one format and the same cells. A sample without a value is kept as
    /// 0, so two comparisons tell.
    pub fn same<B: Allocator>(&self, other: &Frame<B>) -> bool
        ensures { IsTrue result ↔ (self.now ≡ other.now) }
    {
        self.format.same(&other.format)
            && same_groups(
                &self.format,
                self.marks.as_slice(),
                self.octets.as_slice(),
                other.marks.as_slice(),
                other.octets.as_slice(),
            )
    }
}
