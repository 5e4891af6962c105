//! A source of datagrams over a vector of turns.
ghost use Rattle.std.specs.Prelude.{◌≡◌, ◌≤◌, ◌+◌, ◌-◌, ◌^◌, ◌↔◌, ◌⊎◌, ◌++◌, [], true, false};
ghost use Rattle.std.specs.Prelude.{Some, None, Err, length};
ghost use Rattle.std.specs.Prelude.{map, min, IfOk, IfErr, OnOk, OnErr, IsErr, IsTrue, MatchResult};
ghost use Rattle.st_format.specs.Device.{CountsFaults};
ghost use Rattle.st_format.specs.Memory.{IsTooLong, due_of};
ghost use Rattle.st_format.specs.Turns.{CountsTurn, IsEnd, IsWithin, TakesTurn, arrived};

use crate::{DatagramSource, MOST_DATAGRAM, Path, SourceFault, Turn};
use std::alloc::{Allocator, Global};
use std::marker::Model;

/// One turn of a source in memory: a datagram that comes by a path, or none.
#[derive(Drop)]
pub enum MemoryTurn<A: Allocator = Global> {
    Datagram(Path, Vec<u8, A>),
    Quiet,
}

/// Gives the turns of a vector, and fails at one call if it is told to. A datagram of more than
/// 65,535 octets fails too when its turn comes, and stays the next: so any vector is one of turns.
#[derive(Drop)]
pub struct MemoryTurns<A: Allocator = Global> {
    turns: Vec<MemoryTurn<A>, A>,
    at: usize,
    is_ended: bool,
    fails_in: u64,
    delivered: u64,
    failures: u64,
    last_fault: Option<SourceFault>,
}

impl<A: Allocator> Model for MemoryTurns<A> {
    ghost use Rattle.std.specs.Prelude.{◌≤◌, vec_len, take, drop, map};
    ghost use Rattle.st_format.specs.Memory.{Turns, due_of};
    ghost use Rattle.st_format.specs.Turns.{came_of};

    ghost Value = { Turns };

    ghost view = { λ s. record {
      turns = map due_of (drop s.at s.turns.items);
      came = came_of (map due_of (take s.at s.turns.items));
      is_ended = s.is_ended;
      fails_in = s.fails_in;
      delivered = s.delivered;
      failures = s.failures;
      last_fault = s.last_fault;
    } };

    ghost invariant = { λ s. s.at ≤ vec_len s.turns };
}

impl<A: Allocator> MemoryTurns<A> {
    /// A source of these turns. The call `fails_in` fails, counted from 1; 0 means that none does.
    pub fn new(turns: Vec<MemoryTurn<A>, A>, fails_in: u64) -> Self
        ensures tells { ⟦<MemoryTurns<A> as DatagramSource>⟧.turns result
            ≡ Some (map due_of turns.items) }
        ensures undelivered { ⟦<MemoryTurns<A> as DatagramSource>⟧.delivered result ≡ 0 }
        ensures unfailed { ⟦<MemoryTurns<A> as DatagramSource>⟧.failures result ≡ 0 }
        ensures value { result ≡ record {
          turns = map due_of turns.items;
          came = [];
          is_ended = false;
          fails_in = fails_in;
          delivered = 0;
          failures = 0;
          last_fault = None;
        } }
    {
        MemoryTurns {
            turns,
            at: 0,
            is_ended: false,
            fails_in,
            delivered: 0,
            failures: 0,
            last_fault: None,
        }
    }

    /// The turns to come, first one first.
    pub fn turns(&self) -> &[MemoryTurn<A>]
        ensures tells { ⟦<MemoryTurns<A> as DatagramSource>⟧.turns self.now
            ≡ Some (map due_of result.now) }
    {
        &self.turns[self.at..]
    }

    /// How many datagrams it has delivered, from its making on.
    pub fn delivered(&self) -> u64
        ensures tells { result ≡ ⟦<MemoryTurns<A> as DatagramSource>⟧.delivered self.now }
    {
        self.delivered
    }

    /// How many calls failed: the one that was named, and each at a datagram of too many octets.
    pub fn failures(&self) -> u64
        ensures tells { result ≡ ⟦<MemoryTurns<A> as DatagramSource>⟧.failures self.now }
    {
        self.failures
    }

    /// Its last fault, if it has failed: `Device`, which is its only one.
    pub fn last_fault(&self) -> Option<SourceFault>
        ensures tells { result ≡ ⟦<MemoryTurns<A> as DatagramSource>⟧.last_fault self.now }
    {
        self.last_fault
    }

    // Whether the next turn is a datagram of more octets than a datagram can have.
    fn is_too_long(&self) -> bool
        ensures { IsTrue result ↔ IsTooLong self.now.turns }
    {
        match self.turns.get(self.at) {
            Some(MemoryTurn::Datagram(_, octets)) => octets.len() > MOST_DATAGRAM,
            _ => false,
        }
    }

    // The next turn, whose octets go to the front of the buffer.
    fn advance(&mut self, buf: &mut [u8]) -> Turn
        requires room { 65535 ≤ length buf.old }
        requires fits { IsTooLong self.old.turns → ⊥ }
        ensures room { length buf.new ≡ length buf.old }
        ensures within { IsWithin result }
        ensures turn { TakesTurn (Some self.old.turns) (Some self.new.turns) result buf.new }
        ensures delivered { CountsTurn result self.old.delivered self.new.delivered }
        ensures failures { self.new.failures ≡ self.old.failures }
        ensures last { self.new.last_fault ≡ self.old.last_fault }
        ensures fails_in { self.new.fails_in ≡ self.old.fails_in }
        ensures came { self.new.came ≡ self.old.came ++ arrived result buf.new }
        ensures ended { (self.new.is_ended ≡ true) ↔ IsEnd result }
    {
        if self.at == self.turns.len() {
            self.is_ended = true;
            return Turn::End;
        }
        self.is_ended = false;
        let at = self.at;
        self.at += 1;
        match &self.turns[at] {
            MemoryTurn::Quiet => Turn::Quiet,
            MemoryTurn::Datagram(path, octets) => {
                let count = octets.len();
                buf[..count].copy_from_slice(octets);
                self.delivered = self.delivered.saturating_add(1);
                Turn::Datagram(*path, count)
            }
        }
    }

    // One failure more, which leaves the turns to come.
    fn fail(&mut self) -> Result<Turn, SourceFault>
        ensures fault { result ≡ Err SourceFault.Device }
        ensures counted { self.new.failures ≡ min (self.old.failures + 1) (2 ^ 64 - 1) }
        ensures last { self.new.last_fault ≡ Some SourceFault.Device }
        ensures turns { self.new.turns ≡ self.old.turns }
        ensures delivered { self.new.delivered ≡ self.old.delivered }
        ensures fails_in { self.new.fails_in ≡ self.old.fails_in }
        ensures came { self.new.came ≡ self.old.came }
    {
        self.failures = self.failures.saturating_add(1);
        self.last_fault = Some(SourceFault::Device);
        Err(SourceFault::Device)
    }
}

impl<A: Allocator> DatagramSource for MemoryTurns<A> {
    ghost turns = { λ s. Some s.turns };

    ghost delivered = { λ s. s.delivered };

    ghost failures = { λ s. s.failures };

    ghost last_fault = { λ s. s.last_fault };

    ghost came = { λ s. s.came };

    ghost ended = { λ s. s.is_ended ≡ true };

    /// Tells the next turn, or the end. One that fails leaves the turns.
    fn next(&mut self, buf: &mut [u8]) -> Result<Turn, SourceFault>
        requires { 65535 ≤ length buf.old }
        ensures room { length buf.new ≡ length buf.old }
        ensures within { IfOk result (λ t. IsWithin t) }
        ensures turn { IfOk result
            (λ t. TakesTurn (Some self.old.turns) (Some self.new.turns) t buf.new) }
        ensures delivered { MatchResult result
            (λ t. CountsTurn t self.old.delivered self.new.delivered)
            (λ _. self.new.delivered ≡ self.old.delivered) }
        ensures counted { CountsFaults self.old.failures self.new.failures result }
        ensures last { IfErr result (λ e. self.new.last_fault ≡ Some e) }
        ensures blameless { OnOk result (self.new.last_fault ≡ self.old.last_fault) }
        ensures came { IfOk result (λ t. self.new.came ≡ self.old.came ++ arrived t buf.new) }
        ensures kept { OnErr result (self.new.came ≡ self.old.came) }
        ensures ended { IfOk result (λ t. (self.new.is_ended ≡ true) ↔ IsEnd t) }

        // It fails at the call named and where a datagram is too long, for the device's sake, and
        // keeps the turns then.
        ensures when { IsErr result ↔ ((self.old.fails_in ≡ 1) ⊎ IsTooLong self.old.turns) }
        ensures device { IfErr result (λ e. e ≡ SourceFault.Device) }
        ensures fault { OnErr result (self.new.turns ≡ self.old.turns) }
        ensures next { self.new.fails_in ≡ self.old.fails_in - 1 }
    {
        let fails = self.fails_in == 1;
        self.fails_in = self.fails_in.saturating_sub(1);
        if fails || self.is_too_long() {
            return self.fail();
        }
        Ok(self.advance(buf))
    }
}
