//! What is known of a pgroup, from a source into a frame.
ghost use Rattle.std.specs.Prelude.{◌≡◌, ◌<◌, ◌*◌, ◌^◌, ◌==◌, ◌||◌, IfErr, IfOk, OnOk, length};
ghost use Rattle.std.specs.Prelude.{nat_lt, not};
ghost use Rattle.st_format.specs.Pgroup.{bits_of, pixel_group};
ghost use Rattle.st_format.specs.Position.{group_count};
ghost use Rattle.st_format.specs.Samples.{values_in};
ghost use Rattle.frame_assembly.specs.Rows.{replaced_cells};
ghost use Rattle.frame_assembly.specs.declared.state.GroupState.TheVariants.{Mixed};
ghost use Rattle.media_file.specs.Faults.{CountsDevice};
ghost use Rattle.media_file.specs.Fields.{Fails, GaveFault};
ghost use Rattle.st_format.specs.Given.{Takes};
ghost use Rattle.media_file.specs.Groups.{are_zeroed, cells_by, group_at};
ghost use Rattle.receiver_file.specs.Giving.{GaveOf};
ghost use Rattle.receiver_file.specs.Known.{IsKnownGroup, cells_known, mixed_at, shape_in};
ghost use Rattle.receiver_file.specs.Taking.{AreBlank, Gained, IsGivenGroup};

use crate::octets::read_octet;
use frame_assembly::{Frame, GroupState, MOST_GROUP_OCTETS};
use media_file::{FileFault, read_field};
use pgroup_pack::{blank, differing};
use st_format::{ByteSource, Format};
use std::alloc::Allocator;

/// Reads the group of a number, and gives it to a frame of which nothing is known from it on.
pub(crate) fn read_group<A: Allocator, S: ByteSource>(
    source: &mut S,
    frame: &mut Frame<A>,
    format: &Format,
    number: usize,
    groups: usize,
) -> Result<(), FileFault>
    requires format { frame.old.format ≡ format.now }
    requires groups { groups ≡ group_count format.now }
    requires number { number < groups }
    requires blank { AreBlank (shape_in format.now) number groups frame.old.cells }
    ensures format { frame.new.format ≡ format.now }
    ensures gained { OnOk result (Gained (shape_in format.now) number 1 (S.gave source.old)
        (S.gave source.new) (S.to_give source.old) (S.to_give source.new) frame.old.cells
        frame.new.cells) }
    ensures fault { IfErr result
        (λ f. Fails (group_at (shape_in format.now)) (S.to_give source.old) f) }
    ensures gave_wrong { IfErr result
        (λ f. GaveFault (group_at (shape_in format.now))
        (S.gave source.old) (S.gave source.new) (S.ended source.new) f) }
    ensures counted { CountsDevice (S.failures source.old) (S.failures source.new) result }
{
    let mut room = [0u8; MOST_GROUP_OCTETS];
    let octets = &mut room[..format.pgroup().octets];
    let state = read_known(source, format, octets)?;
    give_known(frame, format, number, groups, octets, state);
    Ok(())
}

/// Gives a frame the group of a number, of which nothing is known yet: a missing one is so already.
fn give_known<A: Allocator>(
    frame: &mut Frame<A>,
    format: &Format,
    number: usize,
    groups: usize,
    octets: &[u8],
    state: GroupState,
)
    requires format { frame.old.format ≡ format.now }
    requires groups { groups ≡ group_count format.now }
    requires number { number < groups }
    requires blank { AreBlank (shape_in format.now) number groups frame.old.cells }
    requires octets { length octets.now ≡ (shape_in format.now).octets }
    requires known { IsKnownGroup (shape_in format.now) state octets.now }
    ensures format { frame.new.format ≡ format.now }
    ensures given { IsGivenGroup (shape_in format.now) number
        (cells_known (shape_in format.now) state octets.now) frame.old.cells frame.new.cells }
{
    frame.facts();
    match state {
        GroupState::Gone => {}
        GroupState::Whole => frame.set_groups(number, 1, octets),
        GroupState::Mixed(mask) => give_mixed(frame, format, number, octets, mask),
    }
}

/// Gives a frame the group of a number, some of whose samples are contested, by its row and column.
fn give_mixed<A: Allocator>(
    frame: &mut Frame<A>,
    format: &Format,
    number: usize,
    octets: &[u8],
    mask: u16,
)
    requires format { frame.old.format ≡ format.now }
    requires number { number < group_count format.now }
    requires octets { length octets.now ≡ (shape_in format.now).octets }
    requires known { IsKnownGroup (shape_in format.now) (Mixed mask) octets.now }
    ensures format { frame.new.format ≡ format.now }
    ensures cells { frame.new.cells
        ≡ replaced_cells ((shape_in format.now).samples * number)
        (cells_by mask (values_in (shape_in format.now).bits octets.now)) frame.old.cells }
{
    let per_row = format.row_groups() as usize;
    let row = (number / per_row) as u32;
    let group = (number % per_row) as u32;
    frame.set_group(row, group, octets, mask, true);
}

/// Reads what is known of a group: its state, and its octets where it isn't missing.
fn read_known<S: ByteSource>(
    source: &mut S,
    format: &Format,
    octets: &mut [u8],
) -> Result<GroupState, FileFault>
    requires { length octets.old ≡ (pixel_group format.now.sampling format.now.depth).octets }
    ensures room { length octets.new ≡ length octets.old }
    ensures known { IfOk result (λ state. IsKnownGroup (shape_in format.now) state octets.new) }
    ensures read { IfOk result
        (λ state. Takes (group_at (shape_in format.now)) (S.to_give source.old)
        (S.to_give source.new) (cells_known (shape_in format.now) state octets.new)) }
    ensures fault { IfErr result
        (λ f. Fails (group_at (shape_in format.now)) (S.to_give source.old) f) }
    ensures gave { IfOk result
        (λ state. GaveOf (group_at (shape_in format.now)) (S.gave source.old)
        (S.gave source.new) (cells_known (shape_in format.now) state octets.new)) }
    ensures gave_wrong { IfErr result
        (λ f. GaveFault (group_at (shape_in format.now))
        (S.gave source.old) (S.gave source.new) (S.ended source.new) f) }
    ensures counted { CountsDevice (S.failures source.old) (S.failures source.new) result }
{
    match read_octet(source)? {
        0 => Ok(GroupState::Gone),
        1 => {
            read_field(source, octets)?;
            Ok(GroupState::Whole)
        }
        2 => read_mixed(source, format, octets),
        _ => Err(FileFault::BadField),
    }
}

/// Reads the mask and the octets of a group some of whose samples are contested; `MixedGroup` where
/// it isn't spelled as one.
fn read_mixed<S: ByteSource>(
    source: &mut S,
    format: &Format,
    octets: &mut [u8],
) -> Result<GroupState, FileFault>
    requires { length octets.old ≡ (pixel_group format.now.sampling format.now.depth).octets }
    ensures room { length octets.new ≡ length octets.old }
    ensures known { IfOk result (λ state. IsKnownGroup (shape_in format.now) state octets.new) }
    ensures read { IfOk result
        (λ state. Takes (mixed_at (shape_in format.now)) (S.to_give source.old)
        (S.to_give source.new) (cells_known (shape_in format.now) state octets.new)) }
    ensures fault { IfErr result
        (λ f. Fails (mixed_at (shape_in format.now)) (S.to_give source.old) f) }
    ensures gave { IfOk result
        (λ state. GaveOf (mixed_at (shape_in format.now)) (S.gave source.old)
        (S.gave source.new) (cells_known (shape_in format.now) state octets.new)) }
    ensures gave_wrong { IfErr result
        (λ f. GaveFault (mixed_at (shape_in format.now))
        (S.gave source.old) (S.gave source.new) (S.ended source.new) f) }
    ensures counted { CountsDevice (S.failures source.old) (S.failures source.new) result }
{
    let mut mask = [0u8; 2];
    read_field(source, &mut mask)?;
    read_field(source, octets)?;
    let mask = u16::from_be_bytes(mask);
    if !is_mixed(format, octets, mask) {
        return Err(FileFault::MixedGroup);
    }
    Ok(GroupState::Mixed(mask))
}

/// Whether a mask names some of a group's samples and no others, and those are 0: so a group has
/// one spelling.
fn is_mixed(format: &Format, octets: &[u8], mask: u16) -> bool
    requires { length octets.now ≡ (pixel_group format.now.sampling format.now.depth).octets }
    ensures { result
        ≡ not
        (mask == 0 || not (nat_lt mask (2 ^ (shape_in format.now).samples))
        || not (are_zeroed mask (values_in (bits_of format.now.depth) octets.now))) }
{
    mask != 0 && mask >> format.pgroup().samples == 0 && is_blanked(format, octets, mask)
}

/// Whether each sample is 0 whose bit of the mask is set: blanking these then changes none.
fn is_blanked(format: &Format, octets: &[u8], mask: u16) -> bool
    requires { length octets.now ≡ (pixel_group format.now.sampling format.now.depth).octets }
    ensures { result ≡ are_zeroed mask (values_in (bits_of format.now.depth) octets.now) }
{
    let mut room = [0u8; MOST_GROUP_OCTETS];
    let blanked = &mut room[..octets.len()];
    blanked.copy_from_slice(octets);
    blank(format, blanked, mask);
    differing(format, octets, blanked) == 0
}
