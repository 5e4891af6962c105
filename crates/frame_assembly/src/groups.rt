//! Joining pgroups as a frame keeps them: packed octets, and a mark word for each group.
ghost use Rattle.std.specs.Prelude.{◌≡◌, ◌<◌, ◌≤◌, ◌*◌, ◌↔◌, ℕ, [], ◌∷◌, IsTrue, length};
ghost use Rattle.std.specs.Prelude.{EachIndex, bit_or, slice_index};
ghost use Rattle.frame_assembly.specs.Packed.{AreJoined, ArePacked, cells_in, marked};
ghost use Rattle.st_format.specs.Pgroup.{pixel_group};

use crate::state::PRESENT;
use pgroup_pack::{blank, contest, differing};
use st_format::{Cell, Format};
use std::simd::prelude::*;

/// How many groups are compared or copied at once.
pub const BLOCK: usize = 64;

/// How many groups are first compared or copied together: two blocks.
const SPAN: usize = 128;

/// How many groups of a block that is neither the same nor missing are looked at together.
const CHUNK: usize = 8;

/// Joins other groups, a span after the other: those of another frame, or of a segment.
pub fn join_run(
    format: &Format,
    marks: &mut [u16],
    octets: &mut [u8],
    other_marks: &[u16],
    others: &[u8],
)
    requires packed { ArePacked format.now marks.old octets.old }
    requires other { ArePacked format.now other_marks.now others.now }
    requires alike { length other_marks.now ≡ length marks.old }
    ensures { AreJoined format.now marks.old octets.old other_marks.now others.now marks.new
        octets.new }
{
    let size = format.pgroup().octets;
    let spans = marks.len() / SPAN;
    for i in 0..spans {
        let from = SPAN * i;
        let to = SPAN * (i + 1);
        let start = size * from;
        let end = size * to;
        join_span(
            format,
            &mut marks[from..to],
            &mut octets[start..end],
            &other_marks[from..to],
            &others[start..end],
        );
    }
    let from = SPAN * spans;
    let start = size * from;
    join_span(
        format,
        &mut marks[from..],
        &mut octets[start..],
        &other_marks[from..],
        &others[start..],
    );
}

/// Joins other groups of a span: at once where they are the same or all of these are missing, else
/// a block after the other. So what stands before a difference is compared once more within its
/// span alone.
fn join_span(
    format: &Format,
    marks: &mut [u16],
    octets: &mut [u8],
    other_marks: &[u16],
    others: &[u8],
)
    requires packed { ArePacked format.now marks.old octets.old }
    requires other { ArePacked format.now other_marks.now others.now }
    requires alike { length other_marks.now ≡ length marks.old }
    ensures { AreJoined format.now marks.old octets.old other_marks.now others.now marks.new
        octets.new }
{
    let has_marks = same_words(marks, other_marks);
    if has_marks && same_octets(octets, others) {
        return;
    }
    if are_missing(marks) {
        marks.copy_from_slice(other_marks);
        octets.copy_from_slice(others);
        return;
    }
    let middle = marks.len().min(BLOCK);
    let start = format.pgroup().octets * middle;
    join_block(
        format,
        &mut marks[..middle],
        &mut octets[..start],
        &other_marks[..middle],
        &others[..start],
        has_marks,
    );
    join_block(
        format,
        &mut marks[middle..],
        &mut octets[start..],
        &other_marks[middle..],
        &others[start..],
        has_marks,
    );
}

/// Joins other groups, of which the marks may be known to be the same: at once where the groups are
/// the same or all of these are missing, else a few at a time.
fn join_block(
    format: &Format,
    marks: &mut [u16],
    octets: &mut [u8],
    other_marks: &[u16],
    others: &[u8],
    has_marks: bool,
)
    requires packed { ArePacked format.now marks.old octets.old }
    requires other { ArePacked format.now other_marks.now others.now }
    requires alike { length other_marks.now ≡ length marks.old }
    requires marks { IsTrue has_marks → other_marks.now ≡ marks.old }
    ensures { AreJoined format.now marks.old octets.old other_marks.now others.now marks.new
        octets.new }
{
    if are_same(has_marks, marks, octets, other_marks, others) {
        return;
    }
    if are_missing(marks) {
        marks.copy_from_slice(other_marks);
        octets.copy_from_slice(others);
        return;
    }
    // The sizes of each format as literals: the compiler then unrolls what is compared.
    match format.pgroup().octets {
        3 => join_chunks(format, 3, marks, octets, other_marks, others),
        4 => join_chunks(format, 4, marks, octets, other_marks, others),
        5 => join_chunks(format, 5, marks, octets, other_marks, others),
        6 => join_chunks(format, 6, marks, octets, other_marks, others),
        8 => join_chunks(format, 8, marks, octets, other_marks, others),
        9 => join_chunks(format, 9, marks, octets, other_marks, others),
        15 => join_chunks(format, 15, marks, octets, other_marks, others),
        size => join_chunks(format, size, marks, octets, other_marks, others),
    }
}

/// Whether groups have the same marks, which may be known, and the same octets.
#[inline(always)]
fn are_same(
    has_marks: bool,
    marks: &[u16],
    octets: &[u8],
    other_marks: &[u16],
    others: &[u8],
) -> bool
    requires { IsTrue has_marks → other_marks.now ≡ marks.now }
    ensures marks { IsTrue result → marks.now ≡ other_marks.now }
    ensures octets { IsTrue result → octets.now ≡ others.now }
{
    (has_marks || same_words(marks, other_marks)) && same_octets(octets, others)
}

/// Joins other groups, of `size` octets each, a chunk after the other.
#[inline(always)]
fn join_chunks(
    format: &Format,
    size: usize,
    marks: &mut [u16],
    octets: &mut [u8],
    other_marks: &[u16],
    others: &[u8],
)
    requires size { size ≡ (pixel_group format.now.sampling format.now.depth).octets }
    requires packed { ArePacked format.now marks.old octets.old }
    requires other { ArePacked format.now other_marks.now others.now }
    requires alike { length other_marks.now ≡ length marks.old }
    ensures { AreJoined format.now marks.old octets.old other_marks.now others.now marks.new
        octets.new }
{
    let chunks = marks.len() / CHUNK;
    for i in 0..chunks {
        let from = CHUNK * i;
        let to = CHUNK * (i + 1);
        let start = size * from;
        let end = size * to;
        join_chunk(
            format,
            &mut marks[from..to],
            &mut octets[start..end],
            &other_marks[from..to],
            &others[start..end],
        );
    }
    let from = CHUNK * chunks;
    let start = size * from;
    join_chunk(
        format,
        &mut marks[from..],
        &mut octets[start..],
        &other_marks[from..],
        &others[start..],
    );
}

/// Joins a few other groups: at once where they are the same, all of one side are missing, or none
/// is missing.
#[inline(always)]
fn join_chunk(
    format: &Format,
    marks: &mut [u16],
    octets: &mut [u8],
    other_marks: &[u16],
    others: &[u8],
)
    requires few { length marks.old ≤ CHUNK }
    requires packed { ArePacked format.now marks.old octets.old }
    requires other { ArePacked format.now other_marks.now others.now }
    requires alike { length other_marks.now ≡ length marks.old }
    ensures { AreJoined format.now marks.old octets.old other_marks.now others.now marks.new
        octets.new }
{
    if equal_words(marks, other_marks) && equal_octets(octets, others) {
        return;
    }
    join_unlike(format, marks, octets, other_marks, others);
}

/// Joins a few other groups that are not the same: one by one only where some of a side are missing
/// and some aren't.
#[inline(always)]
fn join_unlike(
    format: &Format,
    marks: &mut [u16],
    octets: &mut [u8],
    other_marks: &[u16],
    others: &[u8],
)
    requires few { length marks.old ≤ CHUNK }
    requires packed { ArePacked format.now marks.old octets.old }
    requires other { ArePacked format.now other_marks.now others.now }
    requires alike { length other_marks.now ≡ length marks.old }
    ensures { AreJoined format.now marks.old octets.old other_marks.now others.now marks.new
        octets.new }
{
    if are_present(marks) && are_present(other_marks) {
        join_present(format, marks, octets, other_marks, others);
        return;
    }
    if are_missing(marks) {
        marks.copy_from_slice(other_marks);
        octets.copy_from_slice(others);
        return;
    }
    if are_missing(other_marks) {
        return;
    }
    join_groups(format, marks, octets, other_marks, others);
}

/// Joins a few other groups where no sample is missing on either side: all are compared together.
#[inline(always)]
fn join_present(
    format: &Format,
    marks: &mut [u16],
    octets: &mut [u8],
    other_marks: &[u16],
    others: &[u8],
)
    requires few { length marks.old ≤ CHUNK }
    requires packed { ArePacked format.now marks.old octets.old }
    requires other { ArePacked format.now other_marks.now others.now }
    requires alike { length other_marks.now ≡ length marks.old }
    requires present { (k : ℕ) → k < length marks.old → 32768 ≤ slice_index marks.old k }
    requires other_present { (k : ℕ) → k < length marks.old
        → 32768 ≤ slice_index other_marks.now k }
    ensures { AreJoined format.now marks.old octets.old other_marks.now others.now marks.new
        octets.new }
{
    or_marks(marks, other_marks);
    contest(format, octets, others, marks);
}

/// Sets in each of a few words the bits that are set in the other.
///
/// Eight words are stored at once: what is read back in parts of another size waits for the stores.
#[inline(always)]
fn or_marks(into: &mut [u16], from: &[u16])
    requires { length from.now ≡ length into.old }
    ensures { EachIndex into.new (λ k.
        slice_index into.new k ≡ bit_or (slice_index into.old k) (slice_index from.now k)) }
{
    if into.len() != CHUNK {
        lane_kernels::or_marks(into, from);
        return;
    }
    let both = u16x8::from_slice(into) | u16x8::from_slice(from);
    both.copy_to_slice(into);
}

/// Joins other groups one by one, as some on either side are missing and some are not.
fn join_groups(
    format: &Format,
    marks: &mut [u16],
    octets: &mut [u8],
    other_marks: &[u16],
    others: &[u8],
)
    requires packed { ArePacked format.now marks.old octets.old }
    requires other { ArePacked format.now other_marks.now others.now }
    requires alike { length other_marks.now ≡ length marks.old }
    ensures { AreJoined format.now marks.old octets.old other_marks.now others.now marks.new
        octets.new }
{
    let size = format.pgroup().octets;
    for i in 0..marks.len() {
        let start = size * i;
        let end = size * (i + 1);
        marks[i] = join_group(
            format,
            marks[i],
            &mut octets[start..end],
            other_marks[i],
            &others[start..end],
        );
    }
}

/// Joins another group, and answers the mark word of both.
fn join_group(format: &Format, mark: u16, octets: &mut [u8], other_mark: u16, others: &[u8]) -> u16
    requires packed { ArePacked format.now (mark ∷ []) octets.old }
    requires other { ArePacked format.now (other_mark ∷ []) others.now }
    ensures { AreJoined format.now (mark ∷ []) octets.old (other_mark ∷ []) others.now
        (result ∷ []) octets.new }
{
    if mark == other_mark && same_octets(octets, others) {
        return mark;
    }
    if other_mark < PRESENT {
        return mark;
    }
    if mark < PRESENT {
        octets.copy_from_slice(others);
        return other_mark;
    }
    let joined = mark | other_mark | differing(format, octets, others);
    blank(format, octets, joined);
    joined
}

/// Whether all groups are missing: the first mostly tells that they aren't.
pub fn are_missing(marks: &[u16]) -> bool
    ensures { IsTrue result → (k : ℕ) → k < length marks.now → slice_index marks.now k < 32768 }
{
    if !marks.is_empty() && marks[0] >= PRESENT {
        return false;
    }
    let mut most = 0;
    for mark in marks {
        most = most.max(*mark);
    }
    most < PRESENT
}

/// Whether no group is missing.
#[inline(always)]
fn are_present(marks: &[u16]) -> bool
    ensures { IsTrue result → (k : ℕ) → k < length marks.now → 32768 ≤ slice_index marks.now k }
{
    let mut least = u16::MAX;
    for mark in marks {
        least = least.min(*mark);
    }
    least >= PRESENT
}

/// Whether a few mark words are the same, without a branch for each.
#[inline(always)]
fn equal_words(left: &[u16], right: &[u16]) -> bool
    requires { length left.now ≡ length right.now }
    ensures { IsTrue result → left.now ≡ right.now }
{
    let mut unlike = 0;
    for i in 0..left.len() {
        unlike |= left[i] ^ right[i];
    }
    unlike == 0
}

/// Whether a few octets are the same, without a branch for each.
#[inline(always)]
fn equal_octets(left: &[u8], right: &[u8]) -> bool
    requires { length left.now ≡ length right.now }
    ensures { IsTrue result → left.now ≡ right.now }
{
    let mut unlike = 0;
    for i in 0..left.len() {
        unlike |= left[i] ^ right[i];
    }
    unlike == 0
}

/// Whether groups have the same cells: then they have the same marks and the same octets.
pub fn same_groups(
    format: &Format,
    marks: &[u16],
    octets: &[u8],
    other_marks: &[u16],
    others: &[u8],
) -> bool
    requires packed { ArePacked format.now marks.now octets.now }
    requires other { ArePacked format.now other_marks.now others.now }
    requires alike { length marks.now ≡ length other_marks.now }
    ensures { IsTrue result
        ↔ (cells_in format.now marks.now octets.now
        ≡ cells_in format.now other_marks.now others.now) }
{
    same_words(marks, other_marks) && same_octets(octets, others)
}

fn same_words(left: &[u16], right: &[u16]) -> bool
    ensures { IsTrue result ↔ (left.now ≡ right.now) }
{
    left == right
}

fn same_octets(left: &[u8], right: &[u8]) -> bool
    ensures { IsTrue result ↔ (left.now ≡ right.now) }
{
    left == right
}

/// The cell of sample `i` of a group, by its mark word and the value that its octets spell for it.
pub fn marked_cell(mark: u16, i: usize, value: u16) -> Cell
    requires { i < 15 }
    ensures { result ≡ marked mark i value }
{
    if mark < PRESENT {
        Cell::Missing
    } else if (mark >> i) & 1 == 1 {
        Cell::Contested
    } else {
        Cell::Value(value)
    }
}
