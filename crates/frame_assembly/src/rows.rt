//! The octets and mark words of a row and of a group.
ghost use Rattle.std.specs.Prelude.{◌≡◌, ◌<◌, ◌≤◌, ◌+◌, ◌*◌, ℕ, [], ◌∷◌, length, map};
ghost use Rattle.std.specs.Prelude.{slice_index};
ghost use Rattle.std.specs.Int.{bit_at};
ghost use Rattle.frame_assembly.specs.Marks.{state_of_mark};
ghost use Rattle.frame_assembly.specs.Packed.{ArePacked, cells_in};
ghost use Rattle.st_format.specs.Cell.{known_value};
ghost use Rattle.frame_assembly.specs.Rows.{IsMarkOf, IsStateOf, given_cells, group_cells};
ghost use Rattle.frame_assembly.specs.Rows.{replaced_cells, row_cells};
ghost use Rattle.st_format.specs.declared.cell.Cell.TheVariants.{Value};
ghost use Rattle.pgroup_pack.specs.Groups.{blanked_samples};
ghost use Rattle.st_format.specs.Pgroup.{bits_of, pixel_group};
ghost use Rattle.st_format.specs.Position.{group_start, row_groups, row_octets, group_count};
ghost use Rattle.st_format.specs.Samples.{Spells, values_in};

use crate::state::{GroupState, PRESENT};
use st_format::Format;

/// The most octets that a pgroup has: four pixels of 4:4:4 or RGB at 10 bits (RFC 4175, 4.3).
pub const MOST_GROUP_OCTETS: usize = 15;

/// The octets of a row, as they are sent, with 0 for each sample that is missing or contested.
pub fn octets_of_row<'a>(format: &Format, marks: &[u16], octets: &'a [u8], row: u32) -> &'a [u8]
    requires whole { length marks.now ≡ group_count format.now }
    requires packed { ArePacked format.now marks.now octets.now }
    requires row { row < format.now.height }
    ensures long { length result.now ≡ row_octets format.now }
    ensures spelled { Spells (bits_of format.now.depth) result.now
        (map known_value
        (row_cells (record {
          format = format.now;
          cells =
              cells_in format.now marks.now octets.now;
        }) row)) }
{
    let size = format.pgroup().octets;
    let count = format.row_groups() as usize;
    let first = row as usize * count;
    &octets[size * first..size * (first + count)]
}

/// The mark words of a row, one for each of its groups from the left.
pub fn marks_of_row<'a>(format: &Format, marks: &'a [u16], octets: &[u8], row: u32) -> &'a [u16]
    requires whole { length marks.now ≡ group_count format.now }
    requires packed { ArePacked format.now marks.now octets.now }
    requires row { row < format.now.height }
    ensures long { length result.now ≡ row_groups format.now }
    ensures marks { (group : ℕ) → group < row_groups format.now
        → IsMarkOf (slice_index result.now group)
        (group_cells (record {
          format = format.now;
          cells =
              cells_in format.now marks.now octets.now;
        }) row group) }
    ensures states { (group : ℕ) → group < row_groups format.now
        → IsStateOf (state_of_mark (slice_index result.now group))
        (group_cells (record {
          format = format.now;
          cells =
              cells_in format.now marks.now octets.now;
        }) row group) }
{
    let count = format.row_groups() as usize;
    let first = row as usize * count;
    &marks[first..first + count]
}

/// How many groups stand before a row's group, in raster order.
fn group_place(format: &Format, row: u32, group: u32) -> usize
    requires row { row < format.now.height }
    requires group { group < row_groups format.now }
    ensures place { result ≡ row * row_groups format.now + group }
    ensures limit { result < group_count format.now }
{
    row as usize * format.row_groups() as usize + group as usize
}

/// Copies the octets of a group, and tells what is known of it.
pub fn group_of(
    format: &Format,
    marks: &[u16],
    octets: &[u8],
    row: u32,
    group: u32,
    out: &mut [u8],
) -> GroupState
    requires whole { length marks.now ≡ group_count format.now }
    requires packed { ArePacked format.now marks.now octets.now }
    requires row { row < format.now.height }
    requires group { group < row_groups format.now }
    requires room { length out.old ≡ (pixel_group format.now.sampling format.now.depth).octets }
    ensures spelled { Spells (bits_of format.now.depth) out.new
        (map known_value
        (group_cells (record {
          format = format.now;
          cells =
              cells_in format.now marks.now octets.now;
        }) row group)) }
    ensures state { IsStateOf result
        (group_cells (record {
          format = format.now;
          cells =
              cells_in format.now marks.now octets.now;
        }) row group) }
{
    let size = format.pgroup().octets;
    let at = group_place(format, row, group);
    out.copy_from_slice(&octets[size * at..size * (at + 1)]);
    GroupState::of_mark(marks[at])
}

/// Gives a group other octets and contested samples, or makes it missing.
pub fn set_group_of(
    format: &Format,
    marks: &mut [u16],
    octets: &mut [u8],
    row: u32,
    group: u32,
    from: &[u8],
    contested: u16,
    present: bool,
)
    requires whole { length marks.old ≡ group_count format.now }
    requires packed { ArePacked format.now marks.old octets.old }
    requires row { row < format.now.height }
    requires group { group < row_groups format.now }
    requires octets { length from.now ≡ (pixel_group format.now.sampling format.now.depth).octets }
    requires bits { (i : ℕ) → (pixel_group format.now.sampling format.now.depth).samples ≤ i
        → bit_at contested i ≡ 0 }
    requires zero { values_in (bits_of format.now.depth) from.now
        ≡ blanked_samples contested (values_in (bits_of format.now.depth) from.now) }
    ensures packed { ArePacked format.now marks.new octets.new }
    ensures cells { cells_in format.now marks.new octets.new
        ≡ replaced_cells (group_start format.now row group)
        (given_cells present contested (values_in (bits_of format.now.depth) from.now))
        (cells_in format.now marks.old octets.old) }
{
    let at = group_place(format, row, group);
    if present {
        // Where no sample is contested, this is the mark of a whole group.
        let mark = GroupState::Mixed(contested).mark();
        put_group(format, marks, octets, at, mark, from);
    } else {
        let none = [0; MOST_GROUP_OCTETS];
        put_group(
            format,
            marks,
            octets,
            at,
            GroupState::Gone.mark(),
            &none[..format.pgroup().octets],
        );
    }
}

/// Replaces the mark word and the octets of one group.
fn put_group(
    format: &Format,
    marks: &mut [u16],
    octets: &mut [u8],
    at: usize,
    mark: u16,
    from: &[u8],
)
    requires packed { ArePacked format.now marks.old octets.old }
    requires inside { at < length marks.old }
    requires group { ArePacked format.now (mark ∷ []) from.now }
    ensures packed { ArePacked format.now marks.new octets.new }
    ensures cells { cells_in format.now marks.new octets.new
        ≡ replaced_cells ((pixel_group format.now.sampling format.now.depth).samples * at)
        (cells_in format.now (mark ∷ []) from.now) (cells_in format.now marks.old octets.old) }
{
    let size = format.pgroup().octets;
    marks[at] = mark;
    octets[size * at..size * (at + 1)].copy_from_slice(from);
}

/// Makes consecutive groups, from the one of this number on, those that the octets spell.
pub fn set_groups_of(
    format: &Format,
    marks: &mut [u16],
    octets: &mut [u8],
    first: usize,
    count: usize,
    from: &[u8],
)
    requires packed { ArePacked format.now marks.old octets.old }
    requires inside { first + count ≤ length marks.old }
    requires octets { length from.now
        ≡ (pixel_group format.now.sampling format.now.depth).octets * count }
    ensures packed { ArePacked format.now marks.new octets.new }
    ensures cells { cells_in format.now marks.new octets.new
        ≡ replaced_cells ((pixel_group format.now.sampling format.now.depth).samples * first)
        (map Value (values_in (bits_of format.now.depth) from.now))
        (cells_in format.now marks.old octets.old) }
{
    let size = format.pgroup().octets;
    let end = first + count;
    marks[first..end].fill(PRESENT);
    octets[size * first..size * end].copy_from_slice(from);
}
