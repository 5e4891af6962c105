//! A set of numbers, as runs.
ghost use Rattle.std.specs.Prelude.{◌≡◌, ◌+◌, ◌^◌, ◌<◌, ℕ, false, not};
ghost use Rattle.std.specs.Prelude.{IfOk, OnErr, OnOk, Some};
ghost use Rattle.std.specs.FinSet as set;
ghost use Rattle.recording_counts.specs.Runs.{Apart, AreRunsApart, BeginsRun, HasOneMore};
ghost use Rattle.recording_counts.specs.Runs.{IsLastFrom};
ghost use Rattle.recording_counts.specs.Runs.{IsPut};
ghost use Rattle.recording_counts.specs.Runs.{begin_of, reaches};

use std::alloc::{AllocError, Allocator};
use std::collections::BTreeMap;
use std::marker::Model;

/// Numbers that follow on one another, the first and the last of them.
#[derive(Clone, Copy, Debug, PartialEq, Eq)]
pub struct Run {
    pub first: u64,
    pub last: u64,
}

/// A set of numbers. Its memory grows with the gaps between them, and not with how many they are.
#[derive(Drop)]
pub struct NumberSet<A: Allocator> {
    /// The run of the highest numbers, which most of those that come lengthen.
    top: Option<Run>,
    /// The runs below it: the last number of each, at its first. Whoever sends the numbers chooses
    /// how many gaps there are, so they lie in a tree, which no choice makes slow.
    below: BTreeMap<u64, u64, A>,
}

impl<A: Allocator> Model for NumberSet<A> {
    ghost use Rattle.std.specs.Ordering.{nat_cmp};
    ghost use Rattle.std.specs.FinSet as set;
    ghost use Rattle.std.specs.Coded.{coded_ℕ};
    ghost use Rattle.recording_counts.specs.Runs.{AreRunsApart, all_runs, numbers_of};

    // The numbers
    ghost Value = { set.FinSet nat_cmp };

    ghost coded = { set.code coded_ℕ };

    ghost view = { λ s. numbers_of (all_runs s.top s.below) };

    ghost invariant = { λ s. AreRunsApart s.top s.below };
}

impl<A: Allocator> NumberSet<A> {
    /// A set of no numbers, which takes no memory.
    pub fn new(alloc: A) -> NumberSet<A>
        ensures { result ≡ set.empty }
    {
        NumberSet {
            top: None,
            below: BTreeMap::new(alloc),
        }
    }

    /// Whether a number is in the set.
    pub fn contains(&self, number: u64) -> bool
        ensures { result ≡ set.contains self.now number }
    {
        match self.top {
            None => false,
            Some(top) => {
                if number < top.first {
                    reaches(last_from(&self.below, number), number)
                } else {
                    number <= top.last
                }
            }
        }
    }
}

impl<A: Allocator + Clone> NumberSet<A> {
    /// Puts a number into the set, and answers whether it is new there.
    ///
    /// # Errors
    ///
    /// That memory was wanted. The set is then what it was.
    pub fn insert(&mut self, number: u64) -> Result<bool, AllocError>
        ensures new { IfOk result (λ new. new ≡ not (set.contains self.old number)) }
        ensures inserted { OnOk result (self.new ≡ set.insert self.old number) }
        ensures kept { OnErr result (self.new ≡ self.old) }
    {
        match put(self.top, &mut self.below, number)? {
            Some(top) => {
                self.top = Some(top);
                Ok(true)
            }
            None => Ok(false),
        }
    }
}

/// Puts a number to the runs, and answers the top one then; or nothing, where it is there.
fn put<A: Allocator + Clone>(
    top: Option<Run>,
    below: &mut BTreeMap<u64, u64, A>,
    number: u64,
) -> Result<Option<Run>, AllocError>
    requires { AreRunsApart top below.old }
    ensures put { IfOk result (λ next. IsPut top below.old number next below.new) }
    ensures kept { OnErr result (below.new.entries ≡ below.old.entries) }
{
    let Some(top) = top else {
        return Ok(Some(Run {
            first: number,
            last: number,
        }));
    };
    if number > top.last {
        return Ok(Some(put_above(top, below, number)?));
    }
    if number >= top.first {
        return Ok(None);
    }
    put_below(top, below, number)
}

/// Puts a number above the top run, and answers the top one then.
fn put_above<A: Allocator + Clone>(
    top: Run,
    below: &mut BTreeMap<u64, u64, A>,
    number: u64,
) -> Result<Run, AllocError>
    requires runs { AreRunsApart (Some top) below.old }
    requires above { top.last < number }
    ensures put { IfOk result (λ next. IsPut (Some top) below.old number (Some next) below.new) }
    ensures kept { OnErr result (below.new.entries ≡ below.old.entries) }
{
    if number - top.last == 1 {
        return Ok(Run {
            first: top.first,
            last: number,
        });
    }
    below.insert(top.first, top.last)?;
    Ok(Run {
        first: number,
        last: number,
    })
}

/// Puts a number below the top run, and answers the top one then; or nothing, where it is there.
fn put_below<A: Allocator + Clone>(
    top: Run,
    below: &mut BTreeMap<u64, u64, A>,
    number: u64,
) -> Result<Option<Run>, AllocError>
    requires runs { AreRunsApart (Some top) below.old }
    requires below { number < top.first }
    ensures put { IfOk result (λ next. IsPut (Some top) below.old number next below.new) }
    ensures kept { OnErr result (below.new.entries ≡ below.old.entries) }
{
    let before = last_from(below, number);
    if reaches(before, number) {
        return Ok(None);
    }
    let first = begin_of(before, number);
    if top.first - number > 1 {
        put_between(below, first, number)?;
        return Ok(Some(top));
    }
    if first < number {
        below.remove(&first);
    }
    Ok(Some(Run {
        first,
        last: top.last,
    }))
}

/// Puts a number that is in no run to those right before it, from the first of these on, and to
/// those right behind it.
fn put_between<A: Allocator + Clone>(
    runs: &mut BTreeMap<u64, u64, A>,
    first: u64,
    number: u64,
) -> Result<(), AllocError>
    requires begins { BeginsRun first number runs.old }
    requires fits { number + 1 < 2 ^ 64 }
    ensures put { OnOk result ((limit : ℕ) → number + 1 < limit → Apart limit runs.old
        → Apart limit runs.new × HasOneMore runs.old number runs.new) }
    ensures kept { OnErr result (runs.new.entries ≡ runs.old.entries) }
{
    match runs.get(&(number + 1)).copied() {
        Some(last) => {
            runs.insert(first, last)?;
            runs.remove(&(number + 1));
        }
        None => {
            runs.insert(first, number)?;
        }
    }
    Ok(())
}

/// The last run that begins at a number or before it.
fn last_from<A: Allocator>(runs: &BTreeMap<u64, u64, A>, number: u64) -> Option<Run>
    ensures { IsLastFrom number runs.now result }
{
    match runs.range(..=number).next_back() {
        Some((first, last)) => Some(Run {
            first: *first,
            last: *last,
        }),
        None => None,
    }
}

/// Whether the last run that begins at a number or before it has the number.
fn reaches(run: Option<Run>, number: u64) -> bool
    ensures { result ≡ reaches run number }
{
    match run {
        Some(run) => number <= run.last,
        None => false,
    }
}

/// Where the run begins that a number is put to, behind this one.
fn begin_of(run: Option<Run>, number: u64) -> u64
    requires { reaches run number ≡ false }
    ensures { result ≡ begin_of run number }
{
    match run {
        Some(run) => {
            if number - run.last == 1 {
                run.first
            } else {
                number
            }
        }
        None => number,
    }
}
