//! A sink of octets over a vector that never grows.
ghost use Rattle.std.specs.Prelude.{◌≡◌, ◌≤◌, ◌<◌, ◌+◌, ◌-◌, ◌↔◌, ◌⊎◌, ◌++◌, [], Some, length};
ghost use Rattle.std.specs.Prelude.{take, min, vec_len, vec_capacity, IfOk, OnErr, IsErr};
ghost use Rattle.std.specs.Io.KnownBytes.{Appends, Keeps};
ghost use Rattle.st_format.specs.Device.{CountsFaults, StaysUntold};

use crate::{ByteSink, DeviceFault};
use std::alloc::{Allocator, Global};
use std::marker::Model;

/// Takes octets behind those of a vector, as far as it has room, in pieces, and fails at one call
/// if it is told to. The vector never grows: a full sink fails.
#[derive(Drop)]
pub struct MemorySink<A: Allocator = Global> {
    octets: Vec<u8, A>,
    // How many it held at first: these no call of it took.
    begun: usize,
    room: usize,
    piece: usize,
    fails_in: u64,
    failures: u64,
}

impl<A: Allocator> Model for MemorySink<A> {
    ghost use Rattle.std.specs.Prelude.{◌≤◌, ◌<◌, ◌+◌, drop, vec_len, vec_capacity};
    ghost use Rattle.st_format.specs.Memory.{Sink};

    ghost Value = { Sink };

    ghost view = { λ s. record {
      held = s.octets.items;
      took = drop s.begun s.octets.items;
      room = s.room;
      piece = s.piece;
      fails_in = s.fails_in;
      failures = s.failures;
    } };

    ghost invariant = { λ s. (vec_len s.octets + s.room ≤ vec_capacity s.octets)
        × (0 < s.piece)
        × (s.begun ≤ vec_len s.octets) };
}

impl<A: Allocator> MemorySink<A> {
    /// A sink that holds these octets, and has the room that their vector has left. A call takes at
    /// most `piece` octets, and the call `fails_in` fails, counted from 1; 0 means that none does.
    pub fn new(octets: Vec<u8, A>, piece: usize, fails_in: u64) -> Self
        requires { 0 < piece }
        ensures tells { ⟦<MemorySink<A> as ByteSink>⟧.held result ≡ Some octets.items }
        ensures unfailed { ⟦<MemorySink<A> as ByteSink>⟧.failures result ≡ 0 }
        ensures value { result ≡ record {
          held = octets.items;
          took = [];
          room = vec_capacity octets - vec_len octets;
          piece = piece;
          fails_in = fails_in;
          failures = 0;
        } }
    {
        let room = octets.capacity() - octets.len();
        let begun = octets.len();
        MemorySink {
            octets,
            begun,
            room,
            piece,
            fails_in,
            failures: 0,
        }
    }

    /// The octets that it holds: those it began with, and behind them those that its calls took.
    pub fn held(&self) -> &[u8]
        ensures tells { ⟦<MemorySink<A> as ByteSink>⟧.held self.now ≡ Some result.now }
    {
        &self.octets
    }

    /// How many calls failed: the one that was named, and each that had octets for a full sink.
    pub fn failures(&self) -> u64
        ensures tells { result ≡ ⟦<MemorySink<A> as ByteSink>⟧.failures self.now }
    {
        self.failures
    }
}

impl<A: Allocator> ByteSink for MemorySink<A> {
    ghost held = { λ s. Some s.held };

    ghost failures = { λ s. s.failures };

    ghost took = { λ s. s.took };

    /// Takes as many octets as the piece and the room allow; an `Err` where it is full.
    fn write(&mut self, octets: &[u8]) -> Result<usize, DeviceFault>
        ensures within { IfOk result (λ n. n ≤ length octets.now) }
        ensures some { IfOk result (λ n. 0 < length octets.now → 0 < n) }
        ensures taken { IfOk result
            (λ n. Appends (Some self.old.held) (Some self.new.held) (take n octets.now)) }
        ensures fault { OnErr result (Keeps (Some self.old.held) (Some self.new.held)) }
        ensures untold { StaysUntold (Some self.old.held) (Some self.new.held) }
        ensures counted { CountsFaults self.old.failures self.new.failures result }
        ensures took { IfOk result (λ n. self.new.took ≡ self.old.took ++ take n octets.now) }
        ensures kept { OnErr result (self.new.took ≡ self.old.took) }

        // It fails at the call named and where it is full, and takes no less than it can.
        ensures when { IsErr result
            ↔ ((self.old.fails_in ≡ 1) ⊎ ((self.old.room ≡ 0) × (0 < length octets.now))) }
        ensures most { IfOk result
            (λ n. n ≡ min (length octets.now) (min self.old.piece self.old.room)) }
        ensures left { self.old.room + length self.old.held ≡ self.new.room + length self.new.held }
        ensures next { (self.new.fails_in ≡ self.old.fails_in - 1)
            × (self.new.piece ≡ self.old.piece) }
    {
        let fails = self.fails_in == 1;
        self.fails_in = self.fails_in.saturating_sub(1);
        let n = octets.len().min(self.piece).min(self.room);
        if fails || (n == 0 && !octets.is_empty()) {
            self.failures = self.failures.saturating_add(1);
            return Err(DeviceFault);
        }
        self.octets.extend_from_slice(&octets[..n]).unwrap();
        self.room -= n;
        Ok(n)
    }
}
