//! How many datagrams were answered how.
use crate::answer::Followed;
use crate::sink::FollowObserver;
use path_receiver::Refusal;

/// Counts of answers, each at most 2^64 - 1.
#[derive(Clone, Copy, Debug, PartialEq, Eq)]
pub struct FollowTally {
    /// Those whose samples were joined to a frame.
    pub kept: u64,
    /// Those that were late.
    pub late: u64,
    /// Those that were too far ahead.
    pub far: u64,
    /// Those that were refused.
    pub refused: u64,
}

impl FollowTally {
    /// The counts of no answer.
    pub const NONE: FollowTally = FollowTally {
        kept: 0,
        late: 0,
        far: 0,
        refused: 0,
    };
}

impl FollowObserver for FollowTally {
    ghost use Rattle.following.specs.Tally.{tally_after};

    ghost after = { tally_after };

    fn note(&mut self, answer: Result<Followed, Refusal>) {
        match answer {
            Ok(Followed::Kept(_)) => self.kept = self.kept.saturating_add(1),
            Ok(Followed::Due) => {}
            Ok(Followed::Late) => self.late = self.late.saturating_add(1),
            Ok(Followed::Far) => self.far = self.far.saturating_add(1),
            Err(_) => self.refused = self.refused.saturating_add(1),
        }
    }
}
