//! Readers of files of datagrams: captures, and recordings of other tools (pcap, pcapng), of whose
//! packets those are taken that are datagrams of the flows of two paths.
#![tactic(auto)]

mod came;
mod fault;
mod found;
mod kinds;
mod opening;
mod place;
mod reader;
mod reading;
mod record;
mod room;
mod way;

pub use fault::{FileOpeningFault, ReadingFault};
pub use reader::DatagramReader;
pub use room::RecordView;
pub use way::Standing;
