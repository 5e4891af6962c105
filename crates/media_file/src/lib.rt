//! Captures and pictures as files, and what a receiver's file says (own).
#![tactic(auto)]

mod block;
mod capture;
mod fault;
mod front;
pub mod laws;
mod migrating;
mod packed_reading;
mod paths;
mod picture_reading;
mod picture_writing;
mod pieces;
mod reader;
mod record;
mod steps;
mod writer;
mod writing;

pub use block::{format_block, read_format};
pub use capture::{Capture, MOST_RECORDS, read_capture};
pub use fault::FileFault;
pub use front::{Version, read_end, read_field, read_front, read_front_behind, read_kind};
pub use migrating::migrate_capture;
pub use packed_reading::read_packed_picture;
pub use paths::Paths;
pub use picture_reading::read_picture;
pub use picture_writing::write_picture;
pub use reader::{CaptureReader, Standing};
pub use record::{Record, RecordHead};
pub use steps::{record_begins, record_rest};
pub use writer::CaptureWriter;
pub use writing::{write_capture, write_front, write_record};
