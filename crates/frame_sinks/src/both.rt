//! Two sinks of frames as one.
ghost use Rattle.std.specs.Prelude.{◌+◌};

use follow_engine::PictureSink;
use frame_assembly::Frame;
use run_outcome::Fault;
use std::alloc::Allocator;

/// Shows each frame to a first sink, and then to a second one. Where the first one fails, the
/// second one isn't shown the frame.
#[derive(Drop)]
pub struct BothSinks<P: PictureSink + Drop, Q: PictureSink + Drop> {
    pub first: P,
    pub second: Q,
}

impl<P: PictureSink + Drop, Q: PictureSink + Drop> PictureSink for BothSinks<P, Q> {
    ghost use Rattle.frame_sinks.specs.Sinks.{FailsBoth, TakesBoth};

    ghost takes = { λ k h l. TakesBoth P.takes Q.takes k h l };

    ghost fails = { λ k h l. FailsBoth P.fails P.takes Q.fails k h l };

    ghost failures = { λ k. P.failures k.first + Q.failures k.second };

    fn show<A: Allocator>(&mut self, timestamp: u32, frame: &Frame<A>) -> Result<(), Fault> {
        self.first.show(timestamp, frame)?;
        self.second.show(timestamp, frame)
    }
}
