//! Recordings of other tools: what their packets say, and how they lie in files of pcap and pcapng.
//! Nothing here allocates.
//!
//! Sources: the registry of link-layer header types (draft-ietf-opsawg-pcaplinktype), IEEE 802.3,
//! IEEE 802.1Q, RFC 791, RFC 8200, RFC 768, RFC 1071, RFC 1112, RFC 1952, and the drafts of pcap
//! (draft-ietf-opsawg-pcap) and pcapng (draft-ietf-opsawg-pcapng).
#![tactic(auto)]

mod blocks;
mod blocks_reading;
mod datagram;
mod fault;
mod fields;
mod ip;
pub mod laws;
mod link;
mod numbers;
mod order;
mod pcap;
mod pcap_reading;
mod recording;
mod section;
mod udp;
mod writing;
mod writing6;

pub use blocks::{
    ENHANCED, INTERFACE, Interface, OBSOLETE, SECTION, SIMPLE, body_of_total, order_of,
    read_enhanced, read_interface, read_obsolete, read_section, read_simple,
};
pub use datagram::{DatagramView, NoDatagram, packet_datagram, read_datagram};
pub use fault::RecordingFault;
pub use ip::{PacketView, read_packet};
pub use link::{IpVersion, Link, LinkView, read_link};
pub use numbers::number_16;
pub use order::ByteOrder;
pub use pcap::{PCAP_HEAD, PacketHead, PcapHead, RECORD_HEAD, read_pcap_head, read_record_head};
pub use pcap_reading::{next_record, read_pcap, record_begins, record_rest};
pub use recording::{Layout, MOST_PACKET, Packet, next_packet, open_behind, open_recording};
pub use section::{INTERFACES, Section, Step, next_block, read_first_section};
pub use udp::read_udp;
pub use writing::{Envelope, HEADS, write_pcap_head, write_record};
pub use writing6::{Envelope6, HEADS6, write_record6};
