//! A source of octets over a vector.
ghost use Rattle.std.specs.Prelude.{◌≡◌, ◌≤◌, ◌<◌, ◌+◌, ◌-◌, ◌↔◌, ◌++◌, [], true, false, Some};
ghost use Rattle.std.specs.Prelude.{length, take, drop, min, vec_len, IfOk, OnErr, IsErr};
ghost use Rattle.std.specs.Io.KnownBytes.{Consumes, Keeps, IsAtEnd};
ghost use Rattle.st_format.specs.Device.{BeginsWith, CountsFaults, TellsOctets};
ghost use Rattle.std.specs.Prelude.{◌==◌, if◌then◌else◌, IsTrue, IsFalse};

use crate::{ByteSource, DeviceFault, are_octets};
use std::alloc::{Allocator, Global};
use std::marker::Model;

/// Gives the octets of a vector, in pieces, and fails at one call if it is told to.
#[derive(Drop)]
pub struct MemorySource<A: Allocator = Global> {
    octets: Vec<u8, A>,
    at: usize,
    is_ended: bool,
    piece: usize,
    fails_in: u64,
    failures: u64,
}

impl<A: Allocator> Model for MemorySource<A> {
    ghost use Rattle.std.specs.Prelude.{◌≤◌, ◌<◌, take, drop, vec_len};
    ghost use Rattle.st_format.specs.Memory.{Source};

    ghost Value = { Source };

    ghost view = { λ s. record {
      to_give = drop s.at s.octets.items;
      gave = take s.at s.octets.items;
      is_ended = s.is_ended;
      piece = s.piece;
      fails_in = s.fails_in;
      failures = s.failures;
    } };

    ghost invariant = { λ s. (s.at ≤ vec_len s.octets) × (0 < s.piece) };
}

impl<A: Allocator> MemorySource<A> {
    /// A source of these octets. A call gives at most `piece` of them, and the call `fails_in`
    /// fails, counted from 1; 0 means that none does.
    pub fn new(octets: Vec<u8, A>, piece: usize, fails_in: u64) -> Self
        requires { 0 < piece }
        ensures tells { ⟦<MemorySource<A> as ByteSource>⟧.to_give result ≡ Some octets.items }
        ensures unfailed { ⟦<MemorySource<A> as ByteSource>⟧.failures result ≡ 0 }
        ensures value { result ≡ record {
          to_give = octets.items;
          gave = [];
          is_ended = false;
          piece = piece;
          fails_in = fails_in;
          failures = 0;
        } }
    {
        MemorySource {
            octets,
            at: 0,
            is_ended: false,
            piece,
            fails_in,
            failures: 0,
        }
    }

    /// The octets still to give, first one first.
    pub fn to_give(&self) -> &[u8]
        ensures tells { ⟦<MemorySource<A> as ByteSource>⟧.to_give self.now ≡ Some result.now }
    {
        &self.octets[self.at..]
    }

    /// What a call would give, where no call is to fail.
    fn at_hand(&self) -> &[u8]
        ensures { result.now
            ≡ (if self.now.fails_in == 0 then take self.now.piece self.now.to_give else []) }
    {
        if self.fails_in > 0 {
            return &[];
        }
        let rest = &self.octets[self.at..];
        &rest[..self.piece.min(rest.len())]
    }

    /// How many calls failed: the one that was named, once it came.
    pub fn failures(&self) -> u64
        ensures tells { result ≡ ⟦<MemorySource<A> as ByteSource>⟧.failures self.now }
    {
        self.failures
    }
}

impl<A: Allocator> ByteSource for MemorySource<A> {
    ghost to_give = { λ s. Some s.to_give };

    ghost failures = { λ s. s.failures };

    ghost gave = { λ s. s.gave };

    ghost ended = { λ s. s.is_ended ≡ true };

    // What a call would give, where no call is to fail.
    ghost at_hand = { λ s. if s.fails_in == 0 then take s.piece s.to_give else [] };

    /// Gives as many octets as `buf`, the piece and the rest of them allow.
    fn read(&mut self, buf: &mut [u8]) -> Result<usize, DeviceFault>
        ensures room { length buf.new ≡ length buf.old }
        ensures within { IfOk result (λ n. n ≤ length buf.new) }
        ensures given { IfOk result
            (λ n. Consumes (Some self.old.to_give) (Some self.new.to_give) (take n buf.new)) }
        ensures end { IfOk result
            (λ n. n ≡ 0 → 0 < length buf.old → IsAtEnd (Some self.new.to_give)) }
        ensures fault { OnErr result (Keeps (Some self.old.to_give) (Some self.new.to_give)) }
        ensures octets { TellsOctets (Some self.old.to_give) }
        ensures counted { CountsFaults self.old.failures self.new.failures result }
        ensures gave { IfOk result (λ n. self.new.gave ≡ self.old.gave ++ take n buf.new) }
        ensures ended { IfOk result (λ n. 0 < length buf.old
            → ((self.new.is_ended ≡ true) ↔ (n ≡ 0))) }
        ensures kept { OnErr result (self.new.gave ≡ self.old.gave) }

        // It fails at the call named and at no other, and gives no less than it can.
        ensures when { IsErr result ↔ (self.old.fails_in ≡ 1) }
        ensures most { IfOk result
            (λ n. n ≡ min (length buf.old) (min self.old.piece (length self.old.to_give))) }
        ensures next { (self.new.fails_in ≡ self.old.fails_in - 1)
            × (self.new.piece ≡ self.old.piece) }
    {
        are_octets(&self.octets);
        let fails = self.fails_in == 1;
        self.fails_in = self.fails_in.saturating_sub(1);
        if fails {
            self.failures = self.failures.saturating_add(1);
            return Err(DeviceFault);
        }
        let n = buf.len().min(self.piece).min(self.octets.len() - self.at);
        let from = self.at;
        buf[..n].copy_from_slice(&self.octets[from..from + n]);
        self.at += n;
        self.is_ended = n == 0;
        Ok(n)
    }

    /// Lends what a call would give. Nothing, if one is to fail: then its calls count.
    fn peek(&self) -> &[u8]
        ensures held { result.now
            ≡ take (length result.now)
            (if self.now.fails_in == 0 then take self.now.piece self.now.to_give else []) }
        ensures next { BeginsWith (Some self.now.to_give) result.now }

        // It lends all that is at hand.
        ensures all { result.now
            ≡ (if self.now.fails_in == 0 then take self.now.piece self.now.to_give else []) }
    {
        self.at_hand()
    }

    fn pass(&mut self, count: usize) -> bool
        ensures within { IsTrue result → count
            ≤ length
            (if self.old.fails_in == 0 then take self.old.piece self.old.to_give else []) }
        ensures given { IsTrue result
            → Consumes (Some self.old.to_give) (Some self.new.to_give)
            (take count
            (if self.old.fails_in == 0 then take self.old.piece self.old.to_give else [])) }
        ensures gave { IsTrue result
            → self.new.gave
            ≡ self.old.gave
            ++ take count
            (if self.old.fails_in == 0 then take self.old.piece self.old.to_give else []) }
        ensures ended { IsTrue result
            → ((self.new.is_ended ≡ true) ↔ ((count ≡ 0) × (self.old.is_ended ≡ true))) }
        ensures kept { IsFalse result → Some self.new.to_give ≡ Some self.old.to_give }
        ensures none { IsFalse result → self.new.gave ≡ self.old.gave }
        ensures still { IsFalse result
            → ((self.new.is_ended ≡ true) ↔ (self.old.is_ended ≡ true)) }
        ensures failures { self.new.failures ≡ self.old.failures }

        // It passes all that it lends.
        ensures when { IsTrue result
            ↔ (count
            ≤ length
            (if self.old.fails_in == 0 then take self.old.piece self.old.to_give else [])) }
    {
        if count > self.at_hand().len() {
            return false;
        }
        self.at += count;
        self.is_ended = self.is_ended && count == 0;
        true
    }
}
