//! The merge of two redundant paths (SMPTE ST 2022-7): receivers, passed on from below, and
//! schedules of receivers, played before they happen.
#![tactic(auto)]

pub mod laws;
mod schedule;

pub use packet_numbers::{MAX_COUNT, Noted, OpenedUnlike, SeqMap, SeqMapFault, number_laws};
pub use path_receiver::{
    MOST_TIMESTAMPS, Observer, OpenFault, Opening, PlayFault, REFUSAL_COUNT, ReceiveFault,
    Received, Receiver, Refusal, Refusals, SlideFault, Taken, Tally, WindowFrames, receive,
    receive_each, refusal_at,
};
pub use schedule::check::MOST_PICTURES;
pub use schedule::event::Event;
pub use schedule::played::{Handed, Played};
pub use schedule::playing::play;
