//! Which packet numbers came.
ghost use Rattle.std.specs.Prelude.{◌≡◌, ◌↔◌, ◌⊎◌, ◌<◌, ◌≤◌, ◌^◌, ◌++◌, ℕ, IfOk, IsErr, IsErrOf};
ghost use Rattle.std.specs.Prelude.{OnErr, OnOk, length, map, replicate, false};
ghost use Rattle.packet_numbers.specs.Numbers.{AreAlike, AreMissingRuns, IsCount, IsNoted};
ghost use Rattle.packet_numbers.specs.Numbers.{IsNumbers, closed_run, number_count};
ghost use Rattle.packet_numbers.specs.Numbers.{missing_runs_of};
ghost use Rattle.packet_numbers.specs.Numbers.{numbered_run, number_place, runs_from, union};
ghost use Rattle.packet_numbers.specs.Numbers.{with_place};
ghost use Rattle.packet_numbers.specs.declared.seq_map.SeqMapFault.TheVariants.{NoMemory};

use crate::bit_list::BitList;
use crate::unlike::OpenedUnlike;
use std::alloc::{AllocError, Allocator, Global};
use std::marker::Model;
use thiserror::Error;

/// Why a map was not opened.
#[derive(Clone, Copy, Debug, PartialEq, Eq, Error)]
pub enum SeqMapFault {
    /// The allocator refused the memory for the bits. Tested last.
    #[error("the memory for the bits was refused")]
    NoMemory = 1,
    /// The count is 0 or above [`MAX_COUNT`].
    #[error("the count is 0 or above 1048576")]
    BadCount,
}

impl SeqMapFault {
    ghost use Rattle.packet_numbers.specs.Numbers.{seq_map_fault_name, seq_map_fault_number};

    /// The fault's number, 1 or 2, which isn't the order of the tests: `BadCount` is tested first.
    pub fn number(self) -> u8
        ensures { result ≡ seq_map_fault_number self }
    {
        self as u8
    }

    /// Its bare name, as the texts of the program have it.
    pub fn name(self) -> &'static str
        ensures { result.now ≡ seq_map_fault_name self }
    {
        match self {
            SeqMapFault::NoMemory => "NoMemory",
            SeqMapFault::BadCount => "BadCount",
        }
    }

    /// What was wanted where this fault comes, in words for a person.
    pub fn wanted(self) -> &'static str {
        match self {
            SeqMapFault::NoMemory => "more memory than there is",
            SeqMapFault::BadCount => "a COUNT from 1 to 1048576",
        }
    }
}

impl From<AllocError> for SeqMapFault {
    ghost from_gives = { λ _ e. e ≡ NoMemory };

    fn from(_error: AllocError) -> SeqMapFault {
        SeqMapFault::NoMemory
    }
}

/// What noting a packet number did.
#[derive(Clone, Copy, Debug, PartialEq, Eq)]
pub enum Noted {
    /// It is noted now, and wasn't before.
    New,
    /// It was noted before, and nothing changed.
    Again,
    /// Its place isn't below the count, and nothing changed.
    Beyond,
}

/// The greatest count of packet numbers (own): their bits take 128 KiB.
pub const MAX_COUNT: u32 = 1_048_576;

/// Which packet numbers came, of a run of numbers modulo 2^32 (RFC 4175, 4.1), with a bit for each.
#[derive(Drop)]
pub struct SeqMap<A: Allocator = Global> {
    first: u32,
    noted: BitList<A>,
}

impl<A: Allocator> Model for SeqMap<A> {
    ghost use Rattle.packet_numbers.specs.Numbers.{Numbers, IsNumbers};

    ghost Value = { Numbers };

    ghost view = { λ a. record { first = a.first; noted = a.noted } };

    ghost invariant = { λ a. IsNumbers (record { first = a.first; noted = a.noted }) };
}

impl<A: Allocator> SeqMap<A> {
    /// A map of `count` packet numbers from `first` on, none of which is noted.
    ///
    /// `BadCount` comes where the count is 0 or above [`MAX_COUNT`], and else `NoMemory` only where
    /// the allocator refused the memory.
    pub fn open(alloc: A, first: u32, count: u32) -> Result<SeqMap<A>, SeqMapFault>
        ensures count { IsErrOf result SeqMapFault.BadCount ↔ (IsCount count → ⊥) }
        ensures opened { IfOk result
            (λ m. m ≡ record { first = first; noted = replicate count false }) }
        ensures numbers { IfOk result (λ m. IsNumbers m) }
    {
        if count == 0 || count > MAX_COUNT {
            return Err(SeqMapFault::BadCount);
        }
        let noted = BitList::new(alloc, count as usize)?;
        Ok(SeqMap { first, noted })
    }

    /// The first packet number, which has place 0.
    pub fn first(&self) -> u32
        ensures value { result ≡ self.now.first }
        ensures numbers { IsNumbers self.now }
    {
        self.first
    }

    /// How many packet numbers there are from the first on, noted or not: 1 to [`MAX_COUNT`].
    pub fn count(&self) -> u32
        ensures value { result ≡ number_count self.now }
        ensures numbers { IsNumbers self.now }
    {
        self.noted.len() as u32
    }

    /// Notes a packet number. No memory is taken.
    pub fn note(&mut self, number: u32) -> Noted
        // Which answer.
        ensures beyond { (result ≡ Noted.Beyond)
            ↔ (number_count self.old ≤ number_place self.old number) }
        ensures again { (result ≡ Noted.Again) ↔ IsNoted self.old (number_place self.old number) }
        ensures fresh { (result ≡ Noted.New)
            ↔ ((number_place self.old number < number_count self.old)
            × (IsNoted self.old (number_place self.old number) → ⊥)) }

        // What is noted afterwards: its place too, where that is below the count.
        ensures value { self.new ≡ with_place self.old (number_place self.old number) }
        ensures places { (place : ℕ)
            → IsNoted self.new place
            ↔ (IsNoted self.old place
            ⊎ ((place ≡ number_place self.old number) × (place < number_count self.old))) }
        ensures unchanged { result ≡ Noted.Beyond → self.new ≡ self.old }
        ensures numbers { IsNumbers self.new }
    {
        let place = number.wrapping_sub(self.first) as usize;
        if place >= self.noted.len() {
            return Noted::Beyond;
        }
        if self.noted.get(place) {
            return Noted::Again;
        }
        self.noted.set(place);
        Noted::New
    }

    /// Notes all that the other map noted. No memory is taken.
    ///
    /// `OpenedUnlike` comes where the first numbers or the counts differ, and nothing changes then.
    pub fn absorb<B: Allocator>(&mut self, other: &SeqMap<B>) -> Result<(), OpenedUnlike>
        ensures unlike { IsErr result ↔ (AreAlike self.old other.now → ⊥) }
        ensures unchanged { OnErr result (self.new ≡ self.old) }
        ensures value { OnOk result (self.new ≡ union self.old other.now) }
        ensures places { OnOk result
            ((place : ℕ)
            → IsNoted self.new place ↔ (IsNoted self.old place ⊎ IsNoted other.now place)) }
        ensures numbers { IsNumbers self.new }
    {
        if self.first != other.first || self.noted.len() != other.noted.len() {
            return Err(OpenedUnlike);
        }
        self.noted.absorb(&other.noted);
        Ok(())
    }

    /// The maximal runs of packet numbers that were not noted, from the first number on: the first
    /// number of each, and how many there are.
    ///
    /// An `Err` comes only where the allocator refused the memory for the runs.
    pub fn missing_runs<B: Allocator>(&self, alloc: B) -> Result<Vec<(u32, u32), B>, AllocError>
        ensures runs { IfOk result (λ runs. AreMissingRuns self.now runs.items) }
        ensures value { IfOk result (λ runs. runs.items ≡ missing_runs_of self.now) }
    {
        runs_of(alloc, self.first, &self.noted)
    }
}

/// The runs of flags that are not set, by packet numbers: each by its first and its length.
fn runs_of<A: Allocator, B: Allocator>(
    alloc: B,
    first: u32,
    noted: &BitList<A>,
) -> Result<Vec<(u32, u32), B>, AllocError>
    requires { length noted.now < 2 ^ 32 }
    ensures { IfOk result (λ runs. runs.items
        ≡ map (numbered_run first) (runs_from 0 0 noted.now)) }
{
    let mut runs = Vec::new(alloc);
    let mut start = 0;
    for place in 0..noted.len() {
        if noted.get(place) {
            push_run(&mut runs, first, start, place)?;
            start = place + 1;
        }
    }
    push_run(&mut runs, first, start, noted.len())?;
    Ok(runs)
}

/// Adds the run of the places from `start` up to `end`, unless there are none.
fn push_run<A: Allocator>(
    runs: &mut Vec<(u32, u32), A>,
    first: u32,
    start: usize,
    end: usize,
) -> Result<(), AllocError>
    requires { end < 2 ^ 32 }
    ensures { OnOk result
        (runs.new.items ≡ runs.old.items ++ map (numbered_run first) (closed_run start end)) }
{
    if start < end {
        let number = first.wrapping_add(start as u32);
        runs.push((number, (end - start) as u32))?;
    }
    Ok(())
}
