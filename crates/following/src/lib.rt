//! A receiver whose window follows the stream, for recordings and live streams whose timestamps
//! aren't known beforehand: it begins with no frame, brings one in where a new timestamp comes, and
//! hands them out oldest first.
#![tactic(auto)]

mod answer;
mod fault;
mod follower;
pub mod laws;
mod memory;
mod missing;
mod need;
mod places;
mod restarts;
mod sink;
mod standing;
mod stream;
mod tally;
mod turn;

pub use answer::Followed;
pub use fault::{FollowFault, FrameFault, StreamFault};
pub use follower::{Follower, TEN_SECONDS};
pub use memory::{MemoryFrames, Shown};
pub use need::WindowNeed;
pub use restarts::Restarts;
pub use sink::{FollowObserver, FrameSink, FrameSinkFault, Unobserved};
pub use standing::newer;
pub use stream::{finish, follow, follow_eagerly};
pub use tally::FollowTally;
pub use turn::{TurnTaken, goes_early, hand_out, take_turn};
