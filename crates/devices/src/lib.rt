//! Devices of this machine: files, standard input, output and error, and two sockets. Each is alone
//! in its file, and none is changed but by its own calls. What a device gave and took is noted
//! here, and nowhere else. Each device also says where it stands, for who wants to know why it
//! failed, and a meter how far the reading of files is.
#![tactic(auto)]

mod directory_output;
mod discard;
mod draft;
mod file_output;
mod file_sink;
mod file_source;
mod filed;
mod files;
mod history;
mod identity;
mod input;
mod link;
mod meter;
mod noted;
mod output;
mod pace;
mod place;
mod standing;
mod stream;

pub use directory_output::{DirectoryOutput, NextFile};
pub use discard::Discard;
pub use draft::{Draft, Unplaced};
pub use file_output::{FileOutput, Rest};
pub use file_sink::FileSink;
pub use file_source::FileSource;
pub use filed::Filed;
pub use files::{
    any_is, given_files, last_begun, metered_files, named_file, named_files, one_is, reading_begun,
    reading_of,
};
pub use history::{Arrivals, History, Sendings};
pub use identity::Identity;
pub use input::InputSource;
pub use link::{UdpLink, unbound};
pub use meter::Meter;
pub use output::OutputSink;
pub use pace::Pace;
pub use place::{Place, find_place};
pub use standing::{Reading, Writing};
pub use stream::Stream;
