//! A receiver as a file (own): what it was opened with, and what is known of each sample of its
//! frames.
//!
//! What a file says is told by `state_text`, and what is kept of a receiver by `kept_of`.
#![tactic(auto)]

mod filling;
mod frames;
mod front;
mod groups;
mod known;
pub mod laws;
mod loading;
mod octets;
mod packing;
mod rows;
mod saving;
mod taking;
mod telling;

pub use loading::load_receiver;
pub use saving::save_receiver;
