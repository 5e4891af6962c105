//! A sink of frames in memory.
ghost use Rattle.std.specs.Prelude.{◌≡◌, ◌-◌, ◌++◌, ◌∷◌, [], map, IsErr, OnErr, OnOk};
ghost use Rattle.st_format.specs.Device.{CountsFaults};
ghost use Rattle.following.specs.Memory.{shown_of};

use crate::sink::{FrameSink, FrameSinkFault};
use frame_assembly::Frame;
use std::alloc::{Allocator, Global};

/// A frame that was shown, with its timestamp in 90 kHz ticks.
#[derive(Drop)]
pub struct Shown<A: Allocator = Global> {
    pub timestamp: u32,
    pub frame: Frame<A>,
}

/// Keeps a copy of each frame that it is shown, and fails at one call if it is told to, or where
/// memory is refused.
#[derive(Drop)]
pub struct MemoryFrames<A: Allocator + Copy = Global> {
    alloc: A,
    frames: Vec<Shown<A>, A>,
    fails_in: u64,
    failures: u64,
}

impl<A: Allocator + Copy> MemoryFrames<A> {
    /// A sink that was shown nothing. The call `fails_in` fails, counted from 1; 0 means that none
    /// does.
    pub fn new(alloc: A, fails_in: u64) -> MemoryFrames<A>
        ensures none { ⟦<MemoryFrames<A> as FrameSink>⟧.shown result ≡ [] }
        ensures unfailed { ⟦<MemoryFrames<A> as FrameSink>⟧.failures result ≡ 0 }
        ensures fails { result.fails_in ≡ fails_in }
    {
        MemoryFrames {
            alloc,
            frames: Vec::new(alloc),
            fails_in,
            failures: 0,
        }
    }

    /// The frames that it was shown, in order.
    pub fn shown(&self) -> &[Shown<A>]
        ensures { map shown_of result.now ≡ ⟦<MemoryFrames<A> as FrameSink>⟧.shown self.now }
    {
        self.frames.as_slice()
    }

    /// Keeps a copy of a frame; an `Err` where there is no memory for it.
    fn keep<B: Allocator>(&mut self, timestamp: u32, frame: &Frame<B>) -> Result<(), FrameSinkFault>
        ensures kept { OnOk result (map shown_of self.new.frames.items
            ≡ map shown_of self.old.frames.items
            ++ record { timestamp = timestamp; frame = frame.now } ∷ []) }
        ensures left { OnErr result
            (map shown_of self.new.frames.items ≡ map shown_of self.old.frames.items) }
        ensures failures { self.new.failures ≡ self.old.failures }
        ensures call { self.new.fails_in ≡ self.old.fails_in }
    {
        let Ok(frame) = frame.try_copy(self.alloc) else {
            return Err(FrameSinkFault);
        };
        match self.frames.push(Shown { timestamp, frame }) {
            Ok(()) => Ok(()),
            Err(_) => Err(FrameSinkFault),
        }
    }
}

impl<A: Allocator + Copy> FrameSink for MemoryFrames<A> {
    ghost shown = { λ k. map shown_of k.frames.items };

    ghost failures = { λ k. k.failures };

    fn show<B: Allocator>(&mut self, timestamp: u32, frame: &Frame<B>) -> Result<(), FrameSinkFault>
        ensures shown { OnOk result (map shown_of self.new.frames.items
            ≡ map shown_of self.old.frames.items
            ++ record { timestamp = timestamp; frame = frame.now } ∷ []) }
        ensures kept { OnErr result
            (map shown_of self.new.frames.items ≡ map shown_of self.old.frames.items) }
        ensures counted { CountsFaults self.old.failures self.new.failures result }
        // The call that was told fails, and else one where memory is refused.
        ensures when { self.old.fails_in ≡ 1 → IsErr result }
        ensures next { self.new.fails_in ≡ self.old.fails_in - 1 }
    {
        let fails = self.fails_in == 1;
        self.fails_in = self.fails_in.saturating_sub(1);
        if !fails && self.keep(timestamp, frame).is_ok() {
            return Ok(());
        }
        self.failures = self.failures.saturating_add(1);
        Err(FrameSinkFault)
    }
}
