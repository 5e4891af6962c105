//! A sink of datagrams over vectors that never grow.
ghost use Rattle.std.specs.Prelude.{◌≡◌, ◌≤◌, ◌<◌, ◌+◌, ◌-◌, ◌↔◌, ◌⊎◌, ◌++◌, ◌∷◌, [], Some, is_ok};
ghost use Rattle.std.specs.Prelude.{if◌then◌else◌, length, drop, map, vec_capacity};
ghost use Rattle.std.specs.Prelude.{OnOk, OnErr, IsErr};
ghost use Rattle.st_format.specs.Device.{CountsFaults, TakesOne, KeepsAll};
ghost use Rattle.st_format.specs.Memory.{octets_of, capacity_of, HasNoRoom};

use crate::{DatagramSink, SinkFault};
use std::alloc::{Allocator, Global};
use std::marker::Model;

/// Takes each datagram into the next one of some vectors, its slots, and fails at one call if it is
/// told to. No slot grows: a datagram for which there is no slot, or no room in it, fails.
#[derive(Drop)]
pub struct MemoryDatagrams<A: Allocator = Global> {
    slots: Vec<Vec<u8, A>, A>,
    used: usize,
    fails_in: u64,
    failures: u64,
}

impl<A: Allocator> Model for MemoryDatagrams<A> {
    ghost use Rattle.std.specs.Prelude.{◌≤◌, vec_len, take, drop, map};
    ghost use Rattle.st_format.specs.Memory.{Datagrams, octets_of, capacity_of};

    ghost Value = { Datagrams };

    ghost view = { λ s. record {
      taken = map octets_of (take s.used s.slots.items);
      capacities = map capacity_of s.slots.items;
      rooms = map capacity_of (drop s.used s.slots.items);
      fails_in = s.fails_in;
      failures = s.failures;
    } };

    ghost invariant = { λ s. s.used ≤ vec_len s.slots };
}

impl<A: Allocator> MemoryDatagrams<A> {
    /// A sink with these slots, of which each takes a datagram of up to its capacity; what they
    /// hold is lost. The call `fails_in` fails, counted from 1; 0 means that none does.
    pub fn new(slots: Vec<Vec<u8, A>, A>, fails_in: u64) -> Self
        ensures tells { ⟦<MemoryDatagrams<A> as DatagramSink>⟧.taken result ≡ Some [] }
        ensures unfailed { ⟦<MemoryDatagrams<A> as DatagramSink>⟧.failures result ≡ 0 }
        ensures value { result ≡ record {
          taken = [];
          capacities = map capacity_of slots.items;
          rooms = map capacity_of slots.items;
          fails_in = fails_in;
          failures = 0;
        } }
    {
        MemoryDatagrams {
            slots,
            used: 0,
            fails_in,
            failures: 0,
        }
    }

    /// The datagrams that it took, in order: the slots that are used.
    pub fn taken(&self) -> &[Vec<u8, A>]
        ensures tells { ⟦<MemoryDatagrams<A> as DatagramSink>⟧.taken self.now
            ≡ Some (map octets_of result.now) }
    {
        &self.slots[..self.used]
    }

    /// How many calls failed: the one that was named, and each for whose datagram there was no
    /// room.
    pub fn failures(&self) -> u64
        ensures tells { result ≡ ⟦<MemoryDatagrams<A> as DatagramSink>⟧.failures self.now }
    {
        self.failures
    }
}

/// Puts octets into a slot in place of what it holds; one by one, so that no slot grows.
fn refill<A: Allocator>(slot: &mut Vec<u8, A>, octets: &[u8])
    requires { length octets.now ≤ vec_capacity slot.old }
    ensures octets { octets_of slot.new ≡ octets.now }
    ensures room { capacity_of slot.new ≡ capacity_of slot.old }
{
    slot.clear();
    for octet in octets {
        slot.push_reserved(*octet);
    }
}

impl<A: Allocator> DatagramSink for MemoryDatagrams<A> {
    ghost taken = { λ s. Some s.taken };

    ghost failures = { λ s. s.failures };

    ghost took = { λ s. s.taken };

    /// Takes the datagram into the next slot. One that fails leaves the slot for the next.
    fn put(&mut self, octets: &[u8]) -> Result<(), SinkFault>
        ensures taken { OnOk result
            (TakesOne (Some self.old.taken) (Some self.new.taken) octets.now) }
        ensures fault { OnErr result (KeepsAll (Some self.old.taken) (Some self.new.taken)) }
        ensures counted { CountsFaults self.old.failures self.new.failures result }
        ensures took { OnOk result (self.new.taken ≡ self.old.taken ++ octets.now ∷ []) }
        ensures kept { OnErr result (self.new.taken ≡ self.old.taken) }

        // It fails at the call named and where no room is, and takes one slot for each datagram.
        ensures when { IsErr result
            ↔ ((self.old.fails_in ≡ 1) ⊎ HasNoRoom self.old.rooms (length octets.now)) }
        ensures slot { self.new.rooms
            ≡ (if is_ok result then drop 1 self.old.rooms else self.old.rooms) }
        // No slot grows.
        ensures capacities { self.new.capacities ≡ self.old.capacities }
        ensures next { self.new.fails_in ≡ self.old.fails_in - 1 }
    {
        let fails = self.fails_in == 1;
        self.fails_in = self.fails_in.saturating_sub(1);
        let fits = self.used < self.slots.len() && octets.len() <= self.slots[self.used].capacity();
        if fails || !fits {
            self.failures = self.failures.saturating_add(1);
            return Err(SinkFault);
        }
        refill(&mut self.slots[self.used], octets);
        self.used += 1;
        Ok(())
    }
}
