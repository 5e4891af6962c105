//! What is counted of a stream on one path.
ghost use Rattle.std.specs.Prelude.{◌≡◌, ◌++◌, ◌∷◌, ℕ, List, [], IfOk, OnErr, OnOk};
ghost use Rattle.std.specs.Prelude.{max, min};
ghost use Rattle.std.specs.Option.{option_map_or};
ghost use Rattle.recording_counts.specs.PathCounts.{came, came_after, count_of, is_late, one_more};

use crate::number_set::NumberSet;
use std::alloc::{AllocError, Allocator};

/// How a packet came, by the numbers of those before it.
#[derive(Clone, Copy, Debug, PartialEq, Eq)]
pub enum Came {
    /// For the first time, and it is higher than the others so far.
    New,
    /// For the first time, behind a higher one.
    Late,
    /// Its number had come before.
    Repeated,
}

/// What is counted of the packets of a stream that came by one path. A count stays at 2^64 - 1 once
/// it is there.
#[derive(Drop)]
pub struct PathCount<A: Allocator> {
    /// How many packets came.
    pub datagrams: u64,
    /// How many came for the first time.
    pub different: u64,
    /// How many came for the first time, but behind a higher one.
    pub late: u64,
    /// The lowest of their numbers; `None` where no packet came.
    pub lowest: Option<u64>,
    /// The highest of their numbers; `None` where no packet came.
    pub highest: Option<u64>,
    /// The numbers that came, each once.
    pub numbers: NumberSet<A>,
}

impl<A: Allocator + Clone> PathCount<A> {
    /// Of no packets.
    pub(crate) fn new(alloc: A) -> PathCount<A>
        ensures { result ≡ count_of [] }
    {
        PathCount {
            datagrams: 0,
            different: 0,
            late: 0,
            lowest: None,
            highest: None,
            numbers: NumberSet::new(alloc),
        }
    }

    /// Notes the number of one more packet, and answers how it came.
    ///
    /// # Errors
    ///
    /// That memory was wanted. The counts are then what they were.
    pub(crate) fn note(&mut self, number: u64) -> Result<Came, AllocError>
        ensures came { IfOk result (λ r. (ns : List ℕ) → self.old ≡ count_of ns
            → r ≡ came ns number) }
        ensures counted { OnOk result ((ns : List ℕ) → self.old ≡ count_of ns
            → self.new ≡ count_of (ns ++ number ∷ [])) }
        ensures kept { OnErr result (self.new ≡ self.old) }
    {
        let new = self.numbers.insert(number)?;
        let came = how(new, self.highest, number);
        self.datagrams = one_more(self.datagrams, true);
        self.different = one_more(self.different, new);
        self.late = one_more(self.late, came.is_late());
        self.lowest = Some(least(self.lowest, number));
        self.highest = Some(greatest(self.highest, number));
        Ok(came)
    }
}

impl Came {
    /// Whether it came late. One that came once more didn't, whatever its number.
    pub fn is_late(self) -> bool
        ensures { result ≡ is_late self }
    {
        match self {
            Came::Late => true,
            Came::New | Came::Repeated => false,
        }
    }
}

/// How a packet came that is new or not, where this is the highest number before it.
fn how(new: bool, highest: Option<u64>, number: u64) -> Came
    ensures { result ≡ came_after new highest number }
{
    if !new {
        return Came::Repeated;
    }
    match highest {
        Some(highest) => {
            if number < highest {
                Came::Late
            } else {
                Came::New
            }
        }
        None => Came::New,
    }
}

/// A count, or one more of it, up to 2^64 - 1.
pub(crate) fn one_more(count: u64, more: bool) -> u64
    ensures { result ≡ one_more count more }
{
    if more { count.saturating_add(1) } else { count }
}

/// The lower one of a number and the lowest before it, if there is one.
fn least(lowest: Option<u64>, number: u64) -> u64
    ensures { result ≡ option_map_or (λ l. min l number) lowest number }
{
    match lowest {
        Some(lowest) => lowest.min(number),
        None => number,
    }
}

/// The higher one of a number and the highest before it, if there is one.
pub fn greatest(highest: Option<u64>, number: u64) -> u64
    ensures { result ≡ option_map_or (λ h. max h number) highest number }
{
    match highest {
        Some(highest) => highest.max(number),
        None => number,
    }
}
