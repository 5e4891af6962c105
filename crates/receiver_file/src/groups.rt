//! A pgroup as octets, in a room.
ghost use Rattle.std.specs.Prelude.{◌≡◌, ◌<◌, ◌≤◌, ◌+◌, ◌*◌, ◌∷◌, ◌++◌, length, replicate, take};
ghost use Rattle.std.specs.Prelude.{true};
ghost use Rattle.std.specs.Int.{w16, to_be_bytes};
ghost use Rattle.frame_assembly.specs.Marks.{state_of_mark};
ghost use Rattle.receiver_file.specs.Known.{known_text};
ghost use Rattle.receiver_file.specs.Marked.{marked_text};

use byteorder::{BigEndian, ByteOrder};
use frame_assembly::{GroupState, MOST_GROUP_OCTETS};
use std::simd::{u8x16, u16x8};

/// The most octets that a group takes in a file: its state, its mask and its own.
pub(crate) const MOST_TEXT: usize = 3 + MOST_GROUP_OCTETS;

/// The mark word of a group each of whose samples has a value.
const WHOLE: u16 = 0x8000;

/// How many octets are copied at once, of which a group has the first: a copy of a length that is
/// known here is no call.
pub(crate) const WIDE: usize = 16;

/// How many groups are put without a look at each where all of them are whole, as most are.
const BLOCK: usize = 8;

/// Puts groups of so many octets each behind the first `at` octets of a room: one at least, and
/// no more than it has a place for. Answers how many, and where they end.
pub(crate) fn put_groups(
    room: &mut [u8],
    at: usize,
    size: usize,
    marks: &[u16],
    octets: &[u8],
) -> (usize, usize)
    requires few { size ≤ MOST_GROUP_OCTETS }
    requires some { 0 < length marks.now }
    requires octets { length octets.now ≡ size * length marks.now }
    requires room { at + MOST_TEXT ≤ length room.old }
    ensures length { length room.new ≡ length room.old }
    ensures some { 0 < result.0 }
    ensures count { result.0 ≤ length marks.now }
    ensures within { result.1 ≤ length room.old }
    ensures put { take result.1 room.new
        ≡ take at room.old ++ marked_text size (take result.0 marks.now) octets.now }
{
    let first = put_group(room, at, marks[0], &octets[..size]);
    let (count, end) = put_more(room, first, size, &marks[1..], &octets[size..]);
    (count + 1, end)
}

/// Puts as many groups behind the first `at` octets of a room as may be copied wide, there and
/// here. Answers how many, and where they end.
fn put_more(room: &mut [u8], at: usize, size: usize, marks: &[u16], octets: &[u8]) -> (usize, usize)
    requires few { size ≤ MOST_GROUP_OCTETS }
    requires octets { length octets.now ≡ size * length marks.now }
    requires room { at ≤ length room.old }
    ensures length { length room.new ≡ length room.old }
    ensures count { result.0 ≤ length marks.now }
    ensures within { result.1 ≤ length room.old }
    ensures put { take result.1 room.new
        ≡ take at room.old ++ marked_text size (take result.0 marks.now) octets.now }
{
    let mut count = 0;
    let mut end = at;
    let mut from = 0;
    'groups: while end + (3 + WIDE) <= room.len() && from + WIDE <= octets.len() {
        let (more, next) = put_next(room, end, size, &marks[count..], &octets[from..]);
        end = next;
        from += size * more;
        count += more;
    }
    (count, end)
}

/// Puts a block of whole groups, where the next ones are such a block and there is a place for it,
/// else one group. Answers how many, and where they end.
#[inline(always)]
fn put_next(room: &mut [u8], at: usize, size: usize, marks: &[u16], octets: &[u8]) -> (usize, usize)
    requires few { size ≤ MOST_GROUP_OCTETS }
    requires wide { WIDE ≤ length octets.now }
    requires octets { length octets.now ≡ size * length marks.now }
    requires room { at + (3 + WIDE) ≤ length room.old }
    ensures length { length room.new ≡ length room.old }
    ensures some { 0 < result.0 }
    ensures count { result.0 ≤ length marks.now }
    ensures within { result.1 ≤ length room.old }
    ensures put { take result.1 room.new
        ≡ take at room.old ++ marked_text size (take result.0 marks.now) octets.now }
{
    if marks[0] == WHOLE
        && at + BLOCK * (1 + size) + (2 + WIDE) <= room.len()
        && BLOCK * size + WIDE <= octets.len()
        && are_whole(marks)
    {
        return (BLOCK, put_block(room, at, size, octets));
    }
    (1, put_wide_group(room, at, size, marks[0], octets))
}

/// Whether the groups of a block are whole, all mark words at once.
#[inline(always)]
fn are_whole(marks: &[u16]) -> bool
    requires { BLOCK ≤ length marks.now }
    ensures { result ≡ true → take BLOCK marks.now ≡ replicate BLOCK WHOLE }
{
    u16x8::from_slice(marks)
        .simd_ne(u16x8::splat(WHOLE))
        .to_bitmask()
        == 0
}

/// Puts a block of whole groups, and answers where they end.
#[inline(always)]
fn put_block(room: &mut [u8], at: usize, size: usize, octets: &[u8]) -> usize
    requires few { size ≤ MOST_GROUP_OCTETS }
    requires octets { BLOCK * size + WIDE ≤ length octets.now }
    requires room { at + BLOCK * (1 + size) + (2 + WIDE) ≤ length room.old }
    ensures length { length room.new ≡ length room.old }
    ensures value { result ≡ at + BLOCK * (1 + size) }
    ensures put { take result room.new
        ≡ take at room.old ++ marked_text size (replicate BLOCK WHOLE) octets.now }
{
    let mut end = at;
    let mut from = 0;
    for _group in 0..BLOCK {
        end = put_wide_behind(room, end, &[1], size, &octets[from..]);
        from += size;
    }
    end
}

/// Puts a group of the first `size` octets, as `put_group` does, and others behind its end, which
/// the next group is written over.
#[inline(always)]
fn put_wide_group(room: &mut [u8], at: usize, size: usize, mark: u16, octets: &[u8]) -> usize
    requires few { size ≤ MOST_GROUP_OCTETS }
    requires octets { WIDE ≤ length octets.now }
    requires room { at + (3 + WIDE) ≤ length room.old }
    ensures length { length room.new ≡ length room.old }
    ensures within { result ≤ length room.old }
    ensures put { take result room.new
        ≡ take at room.old ++ known_text (state_of_mark mark) (take size octets.now) }
{
    if mark == WHOLE {
        put_wide_behind(room, at, &[1], size, octets)
    } else if mark < WHOLE {
        put_octets(room, at, &[0])
    } else {
        put_wide_behind(room, at, &mixed_head(mark - WHOLE), size, octets)
    }
}

/// Puts octets and the first `size` of others behind them.
#[inline(always)]
fn put_wide_behind(room: &mut [u8], at: usize, head: &[u8], size: usize, octets: &[u8]) -> usize
    requires few { size ≤ WIDE }
    requires octets { WIDE ≤ length octets.now }
    requires room { at + (length head.now + WIDE) ≤ length room.old }
    ensures length { length room.new ≡ length room.old }
    ensures value { result ≡ at + (length head.now + size) }
    ensures put { take result room.new ≡ take at room.old ++ (head.now ++ take size octets.now) }
{
    let behind = put_octets(room, at, head);
    put_wide(room, behind, size, octets)
}

/// Puts the first `size` octets behind the first `at`, and others behind their end. Answers where
/// they end.
#[inline(always)]
pub(crate) fn put_wide(room: &mut [u8], at: usize, size: usize, octets: &[u8]) -> usize
    requires few { size ≤ WIDE }
    requires octets { WIDE ≤ length octets.now }
    requires room { at + WIDE ≤ length room.old }
    ensures length { length room.new ≡ length room.old }
    ensures value { result ≡ at + size }
    ensures put { take result room.new ≡ take at room.old ++ take size octets.now }
{
    u8x16::from_slice(octets).copy_to_slice(&mut room[at..]);
    at + size
}

/// Puts a group behind the first `at` octets of a room, and answers where it ends.
#[inline(always)]
fn put_group(room: &mut [u8], at: usize, mark: u16, octets: &[u8]) -> usize
    requires few { length octets.now ≤ MOST_GROUP_OCTETS }
    requires room { at + MOST_TEXT ≤ length room.old }
    ensures length { length room.new ≡ length room.old }
    ensures within { result ≤ length room.old }
    ensures put { take result room.new
        ≡ take at room.old ++ known_text (state_of_mark mark) octets.now }
{
    match GroupState::of_mark(mark) {
        GroupState::Gone => put_octets(room, at, &[0]),
        GroupState::Whole => put_behind(room, at, &[1], octets),
        GroupState::Mixed(mask) => put_behind(room, at, &mixed_head(mask), octets),
    }
}

#[inline(always)]
fn put_behind(room: &mut [u8], at: usize, head: &[u8], octets: &[u8]) -> usize
    requires { at + (length head.now + length octets.now) ≤ length room.old }
    ensures length { length room.new ≡ length room.old }
    ensures value { result ≡ at + (length head.now + length octets.now) }
    ensures put { take result room.new ≡ take at room.old ++ (head.now ++ octets.now) }
{
    let behind = put_octets(room, at, head);
    put_octets(room, behind, octets)
}

/// Puts octets behind the first `at`, and answers where they end.
#[inline(always)]
pub(crate) fn put_octets(room: &mut [u8], at: usize, octets: &[u8]) -> usize
    requires { at + length octets.now ≤ length room.old }
    ensures length { length room.new ≡ length room.old }
    ensures value { result ≡ at + length octets.now }
    ensures put { take result room.new ≡ take at room.old ++ octets.now }
{
    let end = at + octets.len();
    copy_few(&mut room[at..end], octets);
    end
}

/// Copies the octets of a group. The usual five (4:2:2, 10 bits) are copied by a length that is
/// known here, without a call.
#[inline(always)]
fn copy_few(to: &mut [u8], octets: &[u8])
    requires { length to.old ≡ length octets.now }
    ensures { to.new ≡ octets.now }
{
    if octets.len() == 5 {
        to[..5].copy_from_slice(&octets[..5]);
    } else {
        to.copy_from_slice(octets);
    }
}

/// The state and the mask of a group some of whose samples are contested: 2, and two octets.
fn mixed_head(mask: u16) -> [u8; 3]
    ensures { result ≡ 2 ∷ to_be_bytes w16 mask }
{
    let mut head = [2u8; 3];
    BigEndian::write_u16(&mut head[1..], mask);
    head
}
