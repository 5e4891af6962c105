//! What a receiver was given.
use path_receiver::Tally;

/// What a receiver was given.
#[derive(Drop)]
pub struct Reception {
    /// How many datagrams were delivered.
    pub delivered: u64,
    /// What it answered to them.
    pub tally: Tally,
}
