//! SDP of studio video (RFC 8866; SMPTE ST 2110-20, SDP): what a text announces is read exactly, or
//! refused by the first of its faults, and written as one canonical fmtp line.
#![tactic(auto)]

mod canonical;
mod fault;
mod flows;
mod flows_fault;
mod item_at_fault;
mod items;
pub mod laws;
mod leg;
mod lines;
mod parameters;
mod place;
mod read;
mod sdp;
mod source;
mod text;

pub use canonical::fmtp_text;
pub use fault::SdpFault;
pub use flows::read_flows;
pub use flows_fault::FlowsFault;
pub use place::{Located, Place};
pub use read::{read_located, read_sdp};
pub use sdp::{Range, Sdp};
