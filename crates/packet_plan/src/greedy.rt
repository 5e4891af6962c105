//! Packets filled one after another. A packet is known by its first pgroup, and pgroups are
//! numbered in raster order.
ghost use Rattle.std.specs.Prelude.{◌≡◌, ◌<◌, ◌≤◌, ◌+◌, ◌*◌, IfOk};
ghost use Rattle.packet_plan.specs.Plan.{IsSize, group_octets};
ghost use Rattle.st_format.specs.Position.{row_groups, group_count};
ghost use Rattle.packet_plan.specs.Greedy.{IsWalk, next, packet_from, room};

use crate::run::PacketRun;
use arrayvec::ArrayVec;
use st_format::Format;
use std::alloc::{AllocError, Allocator};

/// How many octets a pgroup has, at most 15, as `u32`, in which plans reckon.
#[tactic(auto, unfolding(crate::specs::Plan::group_octets))]
pub(crate) fn group_octets_of(format: &Format) -> u32
    ensures value { result ≡ group_octets format.now }
    ensures some { 0 < group_octets format.now }
    ensures most { group_octets format.now ≤ 15 }
{
    format.pgroup().octets as u32
}

/// How many pgroups a raster has: at most 2^26, so 32 bits hold the number of each.
fn group_count_of(format: &Format) -> u32
    ensures value { result ≡ group_count format.now }
    ensures most { group_count format.now ≤ 8192 * 8192 }
{
    format.height * format.row_groups()
}

/// How many pgroups fit behind this many headers of segments: 12 octets are RTP's, 2 the extended
/// number's, and 6 each header's.
#[tactic(auto, unfolding(crate::specs::Greedy::room))]
fn room_for(format: &Format, max_octets: u32, count: u32) -> u32
    requires few { count ≤ 3 }
    requires size { max_octets ≤ 9000 }
    ensures value { result ≡ room format.now max_octets count }
    ensures most { room format.now max_octets count ≤ 9000 }
{
    max_octets.saturating_sub(14 + 6 * count) / group_octets_of(format)
}

/// The first pgroup behind the packet that begins with this one.
#[tactic(auto, using(crate::proofs::Packets::next_bounds), unfolding(crate::specs::Greedy::next))]
fn next_of(format: &Format, max_octets: u32, group: u32) -> u32
    requires size { IsSize max_octets format.now }
    requires group { group < group_count format.now }
    ensures value { result ≡ next format.now max_octets group }
    ensures after { group < result }
    ensures within { result ≤ group_count format.now }
{
    // With one, two or three segments: no further than there is room, and not beyond the last row.
    let width = format.row_groups();
    let one = (group + room_for(format, max_octets, 1)).min((group / width + 1) * width);
    let two = (group + room_for(format, max_octets, 2)).min((group / width + 2) * width);
    let three = (group + room_for(format, max_octets, 3)).min((group / width + 3) * width);
    group_count_of(format).min(one.max(two.max(three)))
}

/// The runs of the packet that begins with this pgroup: one for each row that it has pgroups of.
#[tactic(auto, unfolding(crate::specs::Greedy::packet_from))]
pub(crate) fn runs_from(format: &Format, max_octets: u32, group: u32) -> ArrayVec<PacketRun, 3>
    requires size { IsSize max_octets format.now }
    requires group { group < group_count format.now }
    ensures { result.items ≡ packet_from format.now max_octets group }
{
    let width = format.row_groups();
    let mut row = group / width;
    let mut first = group % width;
    let mut left = next_of(format, max_octets, group) - group;
    let mut runs = ArrayVec::new();
    while left > 0 && runs.len() < 3 {
        let groups = left.min(width - first);
        runs.push(PacketRun { row, first, groups });
        row += 1;
        first = 0;
        left -= groups;
    }
    runs
}

/// The first pgroup of each packet. An `Err` comes only where the allocator refused the memory.
pub(crate) fn starts_of<A: Allocator>(
    alloc: A,
    format: &Format,
    max_octets: u32,
) -> Result<Vec<u32, A>, AllocError>
    requires { IsSize max_octets format.now }
    ensures { IfOk result
        (λ starts. IsWalk format.now max_octets 0 starts.items (group_count format.now)) }
{
    let count = group_count_of(format);
    let mut starts = Vec::new(alloc);
    let mut group = 0;
    while group < count {
        starts.push(group)?;
        group = next_of(format, max_octets, group);
    }
    Ok(starts)
}
