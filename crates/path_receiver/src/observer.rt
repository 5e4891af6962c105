//! Those who are told what a receiver answers.
ghost use Rattle.std.specs.Prelude.{◌≡◌, Result};
ghost use Rattle.path_receiver.specs.declared.answer.Refusal.{Refusal};
ghost use Rattle.path_receiver.specs.declared.answer.Taken.{Taken};

use crate::answer::{Refusal, Taken};

/// Is told the answers of a receiver, one after the other.
pub trait Observer {
    /// What it is after an answer, by what it was before.
    ghost after: { Self → Result Taken Refusal → Self };

    /// Takes note of an answer, once for each datagram that came.
    fn note(&mut self, answer: Result<Taken, Refusal>)
        ensures { self.new ≡ after self.old answer };
}

/// Takes note of nothing, where nobody wants the answers.
#[derive(Drop)]
pub struct Unobserved;

impl Observer for Unobserved {
    ghost after = { λ observer _. observer };

    fn note(&mut self, _: Result<Taken, Refusal>) {}
}
