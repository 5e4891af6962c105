//! The payload header of uncompressed video over RTP, and the segments behind it.
//!
//! Sources: RFC 4175, 4.2 and 4.3, and SMPTE ST 2110-20, packets and pixel groups. A payload is two
//! octets of extended number, one to three headers of six octets, the segments' octets in the order
//! of the headers, and any rest.
#![tactic(auto)]

pub mod laws;
mod payload;
mod reading;
mod writing;

pub use payload::{PayloadFault, PayloadView, Segment};
pub use reading::read_payload;
pub use writing::{SegmentHead, write_payload_header};
