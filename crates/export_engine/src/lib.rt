//! The engine of the program that writes a capture as a recording of pcap, for other tools.
#![tactic(auto)]

mod exporting;
pub mod laws;
mod packets;
mod places;

pub use exporting::{Exporting, check_flows, export};
pub use packets::{ExportCounts, PACKET, write_head, write_packet};
pub use places::{Envelopes, IpEnvelope};
