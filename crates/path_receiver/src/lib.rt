//! A receiver of one stream of datagrams by two redundant paths (SMPTE ST 2022-7): it holds the
//! cells of all offers that it took, whatever their order, their paths and their repeats. The map
//! of the packet numbers that came is passed on from below.
#![tactic(auto)]

mod admitting;
mod answer;
mod fault;
mod joining;
pub mod laws;
mod listing;
mod observer;
mod opening;
mod play_fault;
mod receiver;
mod receiving;
mod tally;
mod window;

pub use admitting::{Admitted, admit, packet_number};
pub use answer::{REFUSAL_COUNT, Refusal, Taken};
pub use fault::{OpenFault, SlideFault};
pub use listing::{Refusals, WindowFrames};
pub use observer::Observer;
pub use opening::Opening;
pub use packet_numbers::{MAX_COUNT, Noted, OpenedUnlike, SeqMap, SeqMapFault, number_laws};
pub use play_fault::PlayFault;
pub use receiver::Receiver;
pub use receiving::{ReceiveFault, Received, receive, receive_each};
pub use tally::{Tally, refusal_at};
pub use window::{MOST_TIMESTAMPS, check_window};
