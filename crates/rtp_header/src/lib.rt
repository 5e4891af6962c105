//! RTP headers (RFC 3550, 5.1 and 5.3.1): reading what a datagram says and where its payload lies,
//! and writing the fixed header of a datagram. Nothing here allocates.
#![tactic(auto)]

mod header;
pub mod laws;
mod reading;
mod writing;

pub use header::{RtpFault, RtpHead, RtpView};
pub use reading::read_rtp;
pub use writing::write_rtp;
