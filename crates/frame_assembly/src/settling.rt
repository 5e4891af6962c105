//! Settling cells: a value for each sample.
ghost use Rattle.std.specs.Prelude.{◌≡◌, ◌<◌, ◌≤◌, ◌+◌, ◌-◌, ◌*◌, ◌%◌, ◌↔◌, ℕ, List, IfOk, IsTrue};
ghost use Rattle.std.specs.Prelude.{drop, length, map, slice_index, take};
ghost use Rattle.std.specs.List.{range_with_len};
ghost use Rattle.frame_assembly.specs.Packed.{ArePacked, cells_in, marked};
ghost use Rattle.frame_assembly.specs.Patterns.{IsPatternOf};
ghost use Rattle.frame_assembly.specs.Settled.{HoldsPicture, IsBaseOf, IsSettledTo, base_number};
ghost use Rattle.frame_assembly.specs.Settled.{settled_cell, settled_numbers};
ghost use Rattle.st_format.specs.Pgroup.{pixel_group};
ghost use Rattle.st_format.specs.Position.{component_in_row, group_count};

use crate::base::Base;
use crate::groups::{BLOCK, are_missing, marked_cell};
use crate::state::PRESENT;
use pgroup_pack::unpack;
use st_format::{Cell, Format, Sampling, fill_samples};
use std::alloc::{AllocError, Allocator};

/// How many samples a block of groups has at most, and a pattern: a group has 12 or fewer.
const BLOCK_SAMPLES: usize = 768;

/// Samples after which the components of each sampling come again.
const TURN: usize = 12;

/// The value of each cell, or the base's value where it has none. An `Err` comes only where the
/// allocator refused the memory.
pub fn settled_samples<B: Allocator, C: Allocator>(
    alloc: B,
    format: &Format,
    marks: &[u16],
    octets: &[u8],
    base: Base<'_, C>,
) -> Result<Vec<u16, B>, AllocError>
    requires packed { ArePacked format.now marks.now octets.now }
    requires few { length marks.now ≤ 8192 * 8192 }
    requires groups { length marks.now ≡ group_count format.now }
    requires base { IsBaseOf base format.now }
    ensures settled { IfOk result
        (λ v. v.items
        ≡ settled_numbers (cells_in format.now marks.now octets.now)
        (base_number format.now.sampling base.entry)) }
    ensures held { IfOk result (λ v. HoldsPicture base.entry) }
{
    let count = format.pgroup().samples * marks.len();
    let mut samples = Vec::from_elem(alloc, 0, count)?;
    read_settled(format, marks, octets, base, samples.as_mut_slice());
    Ok(samples)
}

/// Reads all samples, and then gives each the base's value where its cell has none.
fn read_settled<C: Allocator>(
    format: &Format,
    marks: &[u16],
    octets: &[u8],
    base: Base<'_, C>,
    samples: &mut [u16],
)
    requires packed { ArePacked format.now marks.now octets.now }
    requires few { length marks.now ≤ 8192 * 8192 }
    requires groups { length marks.now ≡ group_count format.now }
    requires base { IsBaseOf base format.now }
    requires samples { length samples.old
        ≡ (pixel_group format.now.sampling format.now.depth).samples * length marks.now }
    ensures settled { samples.new
        ≡ settled_numbers (cells_in format.now marks.now octets.now)
        (base_number format.now.sampling base.entry) }
    ensures held { HoldsPicture base.entry }
{
    unpack(format, octets, samples);
    let mut pattern = [0; BLOCK_SAMPLES];
    base_pattern(format.sampling, base, &mut pattern);
    settle_over(format, marks, 0, base, &pattern, samples);
}

/// The same of the cells of `count` groups, from the one of number `first` on.
pub fn settle_run<C: Allocator>(
    format: &Format,
    marks: &[u16],
    octets: &[u8],
    first: usize,
    count: usize,
    base: Base<'_, C>,
    samples: &mut [u16],
)
    requires packed { ArePacked format.now marks.now octets.now }
    requires few { length marks.now ≤ 8192 * 8192 }
    requires groups { length marks.now ≡ group_count format.now }
    requires base { IsBaseOf base format.now }
    requires inside { first + count ≤ length marks.now }
    requires samples { length samples.old
        ≡ (pixel_group format.now.sampling format.now.depth).samples * count }
    ensures settled { samples.new
        ≡ take ((pixel_group format.now.sampling format.now.depth).samples * count)
        (drop ((pixel_group format.now.sampling format.now.depth).samples * first)
        (settled_numbers (cells_in format.now marks.now octets.now)
        (base_number format.now.sampling base.entry))) }
{
    let mut pattern = [0; BLOCK_SAMPLES];
    base_pattern(format.sampling, base, &mut pattern);
    settle_run_over(format, marks, octets, first, count, base, &pattern, samples);
}

/// The same over a base whose pattern was made: once, for all runs that a caller settles.
pub fn settle_run_over<C: Allocator>(
    format: &Format,
    marks: &[u16],
    octets: &[u8],
    first: usize,
    count: usize,
    base: Base<'_, C>,
    pattern: &[u16],
    samples: &mut [u16],
)
    requires packed { ArePacked format.now marks.now octets.now }
    requires few { length marks.now ≤ 8192 * 8192 }
    requires groups { length marks.now ≡ group_count format.now }
    requires base { IsBaseOf base format.now }
    requires pattern { IsPatternOf base format.now.sampling pattern.now }
    requires long { length pattern.now ≡ 768 }
    requires inside { first + count ≤ length marks.now }
    requires samples { length samples.old
        ≡ (pixel_group format.now.sampling format.now.depth).samples * count }
    ensures settled { samples.new
        ≡ take ((pixel_group format.now.sampling format.now.depth).samples * count)
        (drop ((pixel_group format.now.sampling format.now.depth).samples * first)
        (settled_numbers (cells_in format.now marks.now octets.now)
        (base_number format.now.sampling base.entry))) }
{
    let size = format.pgroup().octets;
    unpack(
        format,
        &octets[size * first..size * (first + count)],
        samples,
    );
    let of_run = &marks[first..first + count];
    settle_over(format, of_run, first, base, pattern, samples);
}

/// What a base holds is a picture. A caller's proof learns it from here; nothing is done.
#[inline(always)]
pub fn base_facts<C: Allocator>(base: Base<'_, C>)
    ensures { HoldsPicture base.entry }
{
    match base {
        Base::Fill(_) => {}
        Base::Hold(picture) => {
            let _format = picture.format();
        }
    }
}

/// Gives each sample the base's value where its cell has none. The groups are those from the one of
/// number `first` on.
fn settle_over<C: Allocator>(
    format: &Format,
    marks: &[u16],
    first: usize,
    base: Base<'_, C>,
    pattern: &[u16],
    samples: &mut [u16],
)
    requires few { length marks.now ≤ 8192 * 8192 }
    requires groups { first + length marks.now ≤ group_count format.now }
    requires base { IsBaseOf base format.now }
    requires pattern { IsPatternOf base format.now.sampling pattern.now }
    requires long { length pattern.now ≡ 768 }
    requires samples { length samples.old
        ≡ (pixel_group format.now.sampling format.now.depth).samples * length marks.now }
    ensures settled { IsSettledTo (pixel_group format.now.sampling format.now.depth).samples
        (length marks.now) marks.now
        (λ k. base_number format.now.sampling base.entry
        ((pixel_group format.now.sampling format.now.depth).samples * first + k))
        samples.old samples.new }
    ensures held { HoldsPicture base.entry }
{
    let of_group = format.pgroup().samples;
    match base {
        Base::Fill(_fill) => settle_over_pattern(of_group, marks, pattern, samples),
        Base::Hold(picture) => {
            let held = &picture.samples()[of_group * first..];
            settle_over_held(of_group, marks, held, samples);
        }
    }
}

/// Makes the pattern of a base: a fill's value for each sample of a block. A picture that is held
/// has its own, and `pattern` stays.
pub fn base_pattern<C: Allocator>(sampling: Sampling, base: Base<'_, C>, pattern: &mut [u16])
    requires { length pattern.old ≡ 768 }
    ensures { IsPatternOf base.entry sampling pattern.new }
{
    match base {
        Base::Fill(fill) => fill_pattern(sampling, fill, pattern),
        Base::Hold(_) => {}
    }
}

/// Gives each sample of a block the value of its component. Those of the first pixels come again,
/// so all that were made are copied behind them.
fn fill_pattern(sampling: Sampling, fill: [u16; 3], pattern: &mut [u16])
    requires { length pattern.old ≡ 768 }
    ensures { pattern.new
        ≡ map (λ k. slice_index fill (component_in_row sampling k)) (range_with_len 0 768) }
{
    fill_samples(sampling, fill, &mut pattern[..TURN]);
    let mut made = TURN;
    while made < pattern.len() {
        let more = made.min(pattern.len() - made);
        pattern.copy_within(..more, made);
        made += more;
    }
}

/// Settles over values that come again with each block, a block after the other.
fn settle_over_pattern(of_group: usize, marks: &[u16], pattern: &[u16], samples: &mut [u16])
    requires few { of_group ≤ 12 }
    requires pattern { length pattern.now ≡ 768 }
    requires samples { length samples.old ≡ of_group * length marks.now }
    ensures { IsSettledTo of_group (length marks.now) marks.now
        (λ k. slice_index pattern.now (k % (of_group * 64))) samples.old samples.new }
{
    let blocks = marks.len() / BLOCK;
    for i in 0..blocks {
        settle_part(
            of_group,
            BLOCK * i,
            BLOCK * (i + 1),
            marks,
            pattern,
            0,
            samples,
        );
    }
    settle_part(
        of_group,
        BLOCK * blocks,
        marks.len(),
        marks,
        pattern,
        0,
        samples,
    );
}

/// Settles over the values of a picture, a block after the other.
fn settle_over_held(of_group: usize, marks: &[u16], held: &[u16], samples: &mut [u16])
    requires few { of_group ≤ 12 }
    requires held { of_group * length marks.now ≤ length held.now }
    requires samples { length samples.old ≡ of_group * length marks.now }
    ensures { IsSettledTo of_group (length marks.now) marks.now
        (λ k. slice_index held.now k) samples.old samples.new }
{
    let blocks = marks.len() / BLOCK;
    for i in 0..blocks {
        settle_part(
            of_group,
            BLOCK * i,
            BLOCK * (i + 1),
            marks,
            held,
            BLOCK * i,
            samples,
        );
    }
    settle_part(
        of_group,
        BLOCK * blocks,
        marks.len(),
        marks,
        held,
        BLOCK * blocks,
        samples,
    );
}

/// Settles the groups numbered `from` to `to`, over the values of the base for as many groups, from
/// its group `base_from` on. Where those before were settled over values that the base has here,
/// all up to `to` are.
#[inline(always)]
fn settle_part(
    of_group: usize,
    from: usize,
    to: usize,
    marks: &[u16],
    base: &[u16],
    base_from: usize,
    samples: &mut [u16],
)
    requires few { of_group ≤ 12 }
    requires order { from ≤ to }
    requires inside { to ≤ length marks.now }
    requires base { of_group * base_from + of_group * (to - from) ≤ length base.now }
    requires samples { length samples.old ≡ of_group * length marks.now }
    ensures { (values : ℕ → ℕ) (first : List ℕ)
        → ((j : ℕ) → j < of_group * (to - from)
        → slice_index base.now (of_group * base_from + j) ≡ values (of_group * from + j))
        → IsSettledTo of_group from marks.now values first samples.old
        → IsSettledTo of_group to marks.now values first samples.new }
{
    settle_block(
        of_group,
        &marks[from..to],
        &base[of_group * base_from..],
        &mut samples[of_group * from..of_group * to],
    );
}

/// Settles a block over its values of the base: where each cell has a value, the samples stay as
/// they were read, and where none has, they are the base's.
#[inline(always)]
fn settle_block(of_group: usize, marks: &[u16], base: &[u16], samples: &mut [u16])
    requires few { of_group ≤ 12 }
    requires base { of_group * length marks.now ≤ length base.now }
    requires samples { length samples.old ≡ of_group * length marks.now }
    ensures { IsSettledTo of_group (length marks.now) marks.now
        (λ k. slice_index base.now k) samples.old samples.new }
{
    if are_whole(marks) {
        return;
    }
    if are_missing(marks) {
        let count = samples.len();
        samples.copy_from_slice(&base[..count]);
        return;
    }
    settle_each(of_group, marks, base, samples);
}

/// Whether each group has all its values: no sample is missing, and none contested.
fn are_whole(marks: &[u16]) -> bool
    ensures { IsTrue result ↔ ((k : ℕ) → k < length marks.now → slice_index marks.now k ≡ 32768) }
{
    let mut least = PRESENT;
    let mut most = PRESENT;
    for mark in marks {
        least = least.min(*mark);
        most = most.max(*mark);
    }
    least == PRESENT && most == PRESENT
}

/// Settles groups one by one, as some samples have a value and some have none.
#[inline(always)]
fn settle_each(of_group: usize, marks: &[u16], base: &[u16], samples: &mut [u16])
    requires few { of_group ≤ 12 }
    requires base { of_group * length marks.now ≤ length base.now }
    requires samples { length samples.old ≡ of_group * length marks.now }
    ensures { IsSettledTo of_group (length marks.now) marks.now
        (λ k. slice_index base.now k) samples.old samples.new }
{
    for i in 0..marks.len() {
        settle_group(
            marks[i],
            &base[of_group * i..of_group * (i + 1)],
            &mut samples[of_group * i..of_group * (i + 1)],
        );
    }
}

/// Gives each sample of a group the base's value where its cell has none.
#[inline(always)]
fn settle_group(mark: u16, base: &[u16], samples: &mut [u16])
    requires few { length samples.old ≤ 12 }
    requires base { length base.now ≡ length samples.old }
    ensures { (i : ℕ) → i < length samples.old
        → slice_index samples.new i
        ≡ settled_cell (marked mark i (slice_index samples.old i)) (slice_index base.now i) }
{
    if mark == PRESENT {
        return;
    }
    for i in 0..samples.len() {
        let cell = marked_cell(mark, i, samples[i]);
        samples[i] = settled_value(cell, base[i]);
    }
}

/// The value of the cell, or `fill` where it is missing or contested.
fn settled_value(cell: Cell, fill: u16) -> u16
    ensures { result ≡ settled_cell cell fill }
{
    match cell {
        Cell::Value(value) => value,
        Cell::Missing | Cell::Contested => fill,
    }
}
