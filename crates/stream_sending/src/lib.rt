//! The engine of `send` of a stream: the pictures of a YUV4MPEG2 stream are read one after the
//! other, each in the memory of the one before, and sent into a capture.
#![tactic(auto)]

mod frames;
mod laws;
mod sending;

pub use laws::{sent_as_files, stream_history, written_stream};
pub use sending::send_stream;
