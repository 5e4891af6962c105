//! The engine of `export --paced`: a capture as a recording of pcap, in which each packet has the
//! moment that a sender at the frame rate of the capture's SDP text has for it.
#![tactic(auto)]

mod counting;
pub mod laws;
mod moments;
mod pace;
mod paced;
mod packets;
mod tally;

pub use moments::active_time;
pub use pace::Pace;
pub use paced::{Pacing, export_paced};
