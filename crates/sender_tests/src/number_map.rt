//! *number-map* and *numbers-of-two-paths*, where memory is wanted, and where it isn't.
use crate::checks::met;
use path_receiver::{Noted, SeqMap, SeqMapFault};
use refusing::Refusing;
use std::alloc::{Allocator, Global};
use std::process::Abort;
use std::test::Fail;

/// Whether the missing runs of a map are these, or `None` where memory is wanted for them.
fn misses<A: Allocator, B: Allocator>(
    alloc: A,
    map: &SeqMap<B>,
    runs: &[(u32, u32)],
) -> Option<bool> {
    match map.missing_runs(alloc) {
        Ok(missing) => Some(missing.as_slice() == runs),
        Err(_) => None,
    }
}

/// Whether a map that notes these numbers answers so.
fn notes<A: Allocator>(map: &mut SeqMap<A>, numbers: &[(u32, Noted)]) -> bool {
    let mut agree = true;
    for (number, noted) in numbers {
        agree &= map.note(*number) == *noted;
    }
    agree
}

/// The numbers of *number-map*, which run on past 2^32.
const NUMBERS: [(u32, Noted); 4] = [
    (4_294_967_294, Noted::New),
    (0, Noted::New),
    (0, Noted::Again),
    (2, Noted::Beyond),
];

/// Whether *number-map* is answered over an allocator, or `None` where it wants memory.
pub fn is_mapped<A: Allocator + Copy>(alloc: A) -> Option<bool> {
    match SeqMap::open(alloc, 4_294_967_294, 4) {
        Ok(mut map) => {
            let is_noted = notes(&mut map, &NUMBERS);
            let is_missing = misses(alloc, &map, &[(4_294_967_295, 1), (1, 1)])?;
            Some(is_noted && is_missing)
        }
        Err(SeqMapFault::NoMemory) => None,
        Err(SeqMapFault::BadCount) => Some(false),
    }
}

/// The numbers of two paths: first ones that have none in common, and then some that have.
const LOWER: [(u32, Noted); 3] = [(1, Noted::New), (3, Noted::New), (5, Noted::New)];

const UPPER: [(u32, Noted); 4] = [
    (7, Noted::New),
    (9, Noted::New),
    (11, Noted::New),
    (3, Noted::New),
];

const GAPS: [(u32, u32); 6] = [(0, 1), (2, 1), (4, 1), (6, 1), (8, 1), (10, 1)];

/// Whether maps of two paths are joined so without any memory, and their missing runs, of which
/// there are more than the first memory for them holds, are told; `None` where memory is wanted for
/// those.
pub fn is_joined(global: Global, refusing: &Refusing<Global>) -> Result<Option<bool>, Fail> {
    let mut map = SeqMap::open(global, 0, 12)?;
    let mut other = SeqMap::open(global, 0, 12)?;
    let are_noted = notes(&mut map, &LOWER) && notes(&mut other, &UPPER);
    let is_absorbed = map.absorb(&other) == Ok(());
    Ok(match misses(refusing, &map, &GAPS) {
        Some(are_missing) => Some(are_noted && is_absorbed && are_missing),
        None => None,
    })
}

/// Noting and absorbing ask for no memory.
#[test]
fn growths(rt: HostRuntime) -> Result<(), Fail> {
    let refusing = Refusing::new(rt.alloc(), 0);
    let mut map = SeqMap::open(&refusing, 0, 12)?;
    let mut other = SeqMap::open(&refusing, 0, 12)?;
    refusing.refuse(1);
    met(&rt, notes(&mut map, &LOWER) && notes(&mut other, &UPPER));
    met(&rt, map.absorb(&other) == Ok(()) && !refusing.was_met());
    Ok(())
}
