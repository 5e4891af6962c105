//! SDP texts of studio video as they are written (RFC 8866; RFC 7104; SMPTE ST 2110-20, SDP): one
//! stream by one or two legs, which read back as what they were written of.
#![tactic(auto)]

mod text;
mod usual;
mod write;

pub use usual::usual_sdp;
pub use write::write_sdp;
