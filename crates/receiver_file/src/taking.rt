//! Runs of pgroups of one state, from what a source holds.
ghost use Rattle.std.specs.Prelude.{◌≡◌, ◌<◌, ◌≤◌, ◌+◌, ◌++◌, length, replicate, take};
ghost use Rattle.std.specs.Io.KnownBytes.{Consumes};
ghost use Rattle.st_format.specs.Device.{AreOctets};
ghost use Rattle.st_format.specs.Position.{group_count};
ghost use Rattle.receiver_file.specs.Known.{shape_in};
ghost use Rattle.receiver_file.specs.Taking.{AreBlank, Gained};

use crate::packing::pack_run;
use frame_assembly::Frame;
use st_format::{ByteSource, Format, are_octets};
use std::alloc::Allocator;

/// How many octets of what a source holds are looked at at once.
pub(crate) const ROOM: usize = 4096;

/// Takes groups of one state, from the one of a number on, into a frame of which nothing is known
/// from it on, and answers how many: those that the source lends whole, which are then given. None
/// where it lends no whole one, where the first has contested samples, and where its state is none.
pub(crate) fn take_run<A: Allocator, S: ByteSource>(
    source: &mut S,
    frame: &mut Frame<A>,
    format: &Format,
    first: usize,
    groups: usize,
    packed: &mut [u8],
) -> usize
    requires format { frame.old.format ≡ format.now }
    requires groups { groups ≡ group_count format.now }
    requires first { first < groups }
    requires blank { AreBlank (shape_in format.now) first groups frame.old.cells }
    requires room { length packed.old ≡ ROOM }
    ensures format { frame.new.format ≡ format.now }
    ensures room { length packed.new ≡ length packed.old }
    ensures within { first + result ≤ groups }
    ensures gained { Gained (shape_in format.now) first result (S.gave source.old)
        (S.gave source.new) (S.to_give source.old) (S.to_give source.new) frame.old.cells
        frame.new.cells }
    ensures gave { result ≡ 0 → S.gave source.new ≡ S.gave source.old }
    ensures told { result ≡ 0 → S.to_give source.new ≡ S.to_give source.old }
    ensures kept { result ≡ 0 → frame.new ≡ frame.old }
    ensures failures { S.failures source.new ≡ S.failures source.old }
{
    match next_state(source) {
        Some(0) => take_missing(source, groups - first),
        Some(1) => take_whole(source, frame, format, first, groups, packed),
        _ => 0,
    }
}

/// The state of the next group, where the source lends it.
#[inline(always)]
fn next_state<S: ByteSource>(source: &S) -> Option<u8> {
    source.peek().first().copied()
}

/// Takes the missing groups that a source lends, at most so many, and answers how many.
fn take_missing<S: ByteSource>(source: &mut S, most: usize) -> usize
    ensures most { result ≤ most }
    ensures gave { S.gave source.new ≡ S.gave source.old ++ replicate result 0 }
    ensures told { Consumes (S.to_give source.old) (S.to_give source.new) (replicate result 0) }
    ensures none { result ≡ 0 → S.gave source.new ≡ S.gave source.old }
    ensures still { result ≡ 0 → S.to_give source.new ≡ S.to_give source.old }
    ensures failures { S.failures source.new ≡ S.failures source.old }
{
    let count = count_missing(lent(source), most);
    if count == 0 {
        return 0;
    }
    if !source.pass(count) {
        return 0;
    }
    count
}

/// Takes the groups that a source lends and that have all their values, as many as are there
/// whole, and answers how many.
fn take_whole<A: Allocator, S: ByteSource>(
    source: &mut S,
    frame: &mut Frame<A>,
    format: &Format,
    first: usize,
    groups: usize,
    packed: &mut [u8],
) -> usize
    requires format { frame.old.format ≡ format.now }
    requires groups { groups ≡ group_count format.now }
    requires first { first < groups }
    requires room { length packed.old ≡ ROOM }
    ensures format { frame.new.format ≡ format.now }
    ensures room { length packed.new ≡ length packed.old }
    ensures within { first + result ≤ groups }
    ensures gained { Gained (shape_in format.now) first result (S.gave source.old)
        (S.gave source.new) (S.to_give source.old) (S.to_give source.new) frame.old.cells
        frame.new.cells }
    ensures gave { result ≡ 0 → S.gave source.new ≡ S.gave source.old }
    ensures told { result ≡ 0 → S.to_give source.new ≡ S.to_give source.old }
    ensures kept { result ≡ 0 → frame.new ≡ frame.old }
    ensures failures { S.failures source.new ≡ S.failures source.old }
{
    let size = format.pgroup().octets;
    let octets = lent(source);
    if octets.len() <= size {
        return 0;
    }
    let count = pack_run(format, octets, groups - first, packed);
    if count == 0 {
        return 0;
    }
    if !source.pass((1 + size) * count) {
        return 0;
    }
    frame.facts();
    frame.set_groups(first, count, &packed[..size * count]);
    count
}

/// What a source lends, but no more than a room has into which groups are packed.
fn lent<S: ByteSource>(source: &S) -> &[u8]
    ensures held { result.now ≡ take (length result.now) (S.at_hand source.now) }
    ensures few { length result.now ≤ ROOM }
    ensures octets { AreOctets result.now }
{
    let octets = source.peek();
    let octets = &octets[..octets.len().min(ROOM)];
    are_octets(octets);
    octets
}

/// How many missing groups octets begin with, at most so many.
fn count_missing(octets: &[u8], most: usize) -> usize
    ensures most { result ≤ most }
    ensures within { result ≤ length octets.now }
    ensures zeros { take result octets.now ≡ replicate result 0 }
{
    let mut count = 0;
    while count < most && count < octets.len() && octets[count] == 0 {
        count += 1;
    }
    count
}
