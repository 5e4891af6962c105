//! What takes frames that are handed out, and who are told the answers.
ghost use Rattle.std.specs.Prelude.{◌≡◌, ◌++◌, ◌∷◌, ℕ, [], List, OnErr, OnOk, Result};
ghost use Rattle.st_format.specs.Device.{CountsFaults};
ghost use Rattle.path_receiver.specs.declared.answer.Refusal.{Refusal};
ghost use Rattle.following.specs.declared.answer.Followed.{Followed};

use crate::answer::Followed;
use frame_assembly::Frame;
use path_receiver::Refusal;
use std::alloc::Allocator;
use thiserror::Error;

/// A sink of frames failed, and did not take the frame.
#[derive(Clone, Copy, Debug, PartialEq, Eq, Error)]
#[error("a sink of frames failed, and did not take the frame")]
pub struct FrameSinkFault;

impl FrameSinkFault {
    ghost use Rattle.following.specs.Names.{frame_sink_fault_name};

    /// Its bare name.
    pub fn name(self) -> &'static str
        ensures { result.now ≡ frame_sink_fault_name }
    {
        "FrameSinkFault"
    }
}

/// Takes frames, each whole or not at all.
pub trait FrameSink {
    ghost use Rattle.following.specs.Following.{Handed};

    /// All frames that its calls took so far, in order, each with its timestamp.
    ghost shown: { Self → List Handed };

    /// How often it has failed.
    ghost failures: { Self → ℕ };

    /// Takes a frame, of this timestamp in 90 kHz ticks; it comes behind those taken before.
    ///
    /// An `Err` is one failure more. It takes nothing: the frames taken stay.
    fn show<A: Allocator>(&mut self, timestamp: u32, frame: &Frame<A>) -> Result<(), FrameSinkFault>
        ensures shown { OnOk result (shown self.new
            ≡ shown self.old ++ record { timestamp = timestamp; frame = frame.now } ∷ []) }
        ensures kept { OnErr result (shown self.new ≡ shown self.old) }
        ensures counted { CountsFaults (failures self.old) (failures self.new) result };
}

/// Is told what a follower answers, one datagram after the other.
pub trait FollowObserver {
    /// What it is after an answer, by what it was before.
    ghost after: { Self → Result Followed Refusal → Self };

    /// Takes note of the answer to the next datagram, also of a refusal.
    fn note(&mut self, answer: Result<Followed, Refusal>)
        ensures { self.new ≡ after self.old answer };
}

/// Takes note of nothing.
#[derive(Drop)]
pub struct Unobserved;

impl FollowObserver for Unobserved {
    ghost after = { λ observer _. observer };

    fn note(&mut self, _: Result<Followed, Refusal>) {}
}

impl<K: FrameSink> FrameSink for &mut K {
    ghost shown = { λ k. K.shown k.now };

    ghost failures = { λ k. K.failures k.now };

    fn show<A: Allocator>(
        &mut self,
        timestamp: u32,
        frame: &Frame<A>,
    ) -> Result<(), FrameSinkFault> {
        FrameSink::show(&mut **self, timestamp, frame)
    }
}
