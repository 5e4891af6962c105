//! Counts of what a receiver answered.
ghost use Rattle.std.specs.Prelude.{◌≡◌, ◌+◌, ◌<◌, [], Err};
ghost use Rattle.path_receiver.specs.Answers.{refusal_number};
ghost use Rattle.path_receiver.specs.Tallied.{Tallies, TalliesMore, tally_after};

use crate::answer::{REFUSAL_COUNT, Refusal, Taken};
use crate::observer::Observer;

/// The refusal whose count stands at this place of a tally: that of the next number.
pub fn refusal_at(place: usize) -> Refusal
    requires { place < 14 }
    ensures { refusal_number result ≡ place + 1 }
{
    Refusal::ALL[place]
}

/// How many datagrams were refused, for which reason, how many had timestamps outside the window,
/// and how many were kept. A count stays at 2^64 - 1 once it is there.
#[derive(Drop)]
pub struct Tally {
    /// The count of the refusal of number n stands at n - 1.
    pub refused: [u64; REFUSAL_COUNT],
    pub outside: u64,
    pub kept: u64,
}

impl Tally {
    /// Nothing was counted.
    pub fn new() -> Tally
        ensures { Tallies result [] }
    {
        Tally {
            refused: [0; REFUSAL_COUNT],
            outside: 0,
            kept: 0,
        }
    }

    fn count(&mut self, answer: Result<Taken, Refusal>)
        ensures { self.new ≡ tally_after answer self.old }
    {
        match answer {
            Ok(Taken::Kept(_)) => self.kept = self.kept.saturating_add(1),
            Ok(Taken::Outside) => self.outside = self.outside.saturating_add(1),
            Err(refusal) => self.note_refusal(refusal),
        }
    }

    fn note_refusal(&mut self, refusal: Refusal)
        ensures { self.new ≡ tally_after (Err refusal) self.old }
    {
        let place = usize::from(refusal.number()) - 1;
        self.refused[place] = self.refused[place].saturating_add(1);
    }
}

impl Observer for Tally {
    ghost use Rattle.path_receiver.specs.Tallied.{tally_after};

    ghost after = { λ tally answer. tally_after answer tally };

    /// Counts an answer: of the count that is its own one more, as long as that fits.
    fn note(&mut self, answer: Result<Taken, Refusal>)
        ensures after { self.new ≡ tally_after answer self.old }
        // Of all answers that it counted, and this one, its counts are what they are to be.
        ensures counted { TalliesMore self.old self.new answer }
    {
        self.count(answer)
    }
}
