//! What frames are shown to.
ghost use Rattle.std.specs.Prelude.{◌≡◌, ◌∷◌, [], ℕ, IfErr, OnErr, OnOk, ⊤};
ghost use Rattle.following.specs.Following.{Handed};
ghost use Rattle.follow_engine.specs.Shown.{FailsIn, TakesIn};
ghost use Rattle.run_outcome.specs.Fault.{Accounts, IfRefused, counts, failures_in};

use frame_assembly::Frame;
use run_outcome::Fault;
use std::alloc::Allocator;

/// Takes frames that leave a stream, each whole or not at all, to make pictures of them. What it
/// makes of them, as a file, it says by relations.
pub trait PictureSink {
    /// What becomes of the sink by a call that takes a frame. Where a sink of octets lies below it,
    /// this says what that is then written.
    ghost takes: { Self → Handed → Self → Type 0 };

    /// What becomes of it by a call that fails, at such a frame.
    ghost fails: { Self → Handed → Self → Type 0 } = { λ _ _ _. ⊤ };

    /// How many of its calls failed so far.
    ghost failures: { Self → ℕ };

    /// Takes the frame of a timestamp, in 90 kHz ticks. An `Err` is that a device failed or memory
    /// was wanted; no frame is refused.
    fn show<A: Allocator>(&mut self, timestamp: u32, frame: &Frame<A>) -> Result<(), Fault>
        ensures taken { OnOk result (takes self.old
            (record { timestamp = timestamp; frame = frame.now }) self.new) }
        ensures failed { OnErr result (fails self.old
            (record { timestamp = timestamp; frame = frame.now }) self.new) }
        ensures unrefused { IfErr result (λ f. IfRefused f ⊥) }
        ensures failures { Accounts result (counts (failures self.old) (failures self.new) ∷ []) };
}

/// Takes frames, and keeps nothing of them.
#[derive(Drop)]
pub struct NoPictures;

impl PictureSink for NoPictures {
    ghost takes = { λ k _ l. l ≡ k };

    ghost fails = { λ _ _ _. ⊥ };

    ghost failures = { λ _. 0 };

    fn show<A: Allocator>(&mut self, _: u32, _: &Frame<A>) -> Result<(), Fault> {
        Ok(())
    }
}

impl<P: PictureSink> PictureSink for &mut P {
    ghost takes = { λ k h l. P.takes k.now h l.now };

    ghost fails = { λ k h l. P.fails k.now h l.now };

    ghost failures = { λ k. P.failures k.now };

    fn show<A: Allocator>(&mut self, timestamp: u32, frame: &Frame<A>) -> Result<(), Fault> {
        PictureSink::show(&mut **self, timestamp, frame)
    }
}

/// A sink that may be none: then frames go nowhere, and nothing fails.
impl<P: PictureSink> PictureSink for Option<P> {
    ghost takes = { λ k h l. TakesIn P.takes k h l };

    ghost fails = { λ k h l. FailsIn P.fails k h l };

    ghost failures = { λ k. failures_in P.failures k };

    fn show<A: Allocator>(&mut self, timestamp: u32, frame: &Frame<A>) -> Result<(), Fault> {
        match self {
            Some(pictures) => pictures.show(timestamp, frame),
            None => Ok(()),
        }
    }
}
