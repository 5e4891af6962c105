//! A sink of pictures that counts what it was shown.
ghost use Rattle.std.specs.Prelude.{⊤};

use follow_engine::PictureSink;
use frame_assembly::Frame;
use run_outcome::Fault;
use std::alloc::Allocator;

/// Counts the frames that it takes. It fails at one call if it is told to.
#[derive(Drop)]
pub struct ShownFrames {
    pub shown: u64,
    fails_in: u64,
    failures: u64,
}

impl ShownFrames {
    /// A sink that was shown nothing. The call `fails_in` fails, counted from 1; 0 means that none
    /// does.
    pub fn new(fails_in: u64) -> ShownFrames {
        ShownFrames {
            shown: 0,
            fails_in,
            failures: 0,
        }
    }
}

impl PictureSink for ShownFrames {
    ghost takes = { λ _ _ _. ⊤ };

    ghost failures = { λ s. s.failures };

    fn show<A: Allocator>(&mut self, _timestamp: u32, _frame: &Frame<A>) -> Result<(), Fault> {
        let fails = self.fails_in == 1;
        self.fails_in = self.fails_in.saturating_sub(1);
        if fails {
            self.failures = self.failures.saturating_add(1);
            return Err(Fault::Device);
        }
        self.shown = self.shown.saturating_add(1);
        Ok(())
    }
}
