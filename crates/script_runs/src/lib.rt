//! The commands of scripts and SDP texts, over the devices of this machine.
#![tactic(auto)]

mod announced;
mod describing;
mod rehearsing;
mod running;
mod stream_words;
mod streams;
mod telling;
mod text_reader;
mod tracing;
mod writing;

pub use announced::AnnouncedStream;
pub use describing::SdpCommand;
pub use rehearsing::RehearseCommand;
pub use running::{rehearse, sdp, trace};
pub use stream_words::{read_format_word, read_stream};
pub use streams::Streams;
pub use text_reader::TextReader;
pub use tracing::TraceCommand;
pub use writing::SdpWriteCommand;
