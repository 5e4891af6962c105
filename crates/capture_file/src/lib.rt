//! The door to the project's files: captures, pictures and receivers, read and written.
#![tactic(auto)]

pub use media_file::{
    Capture, CaptureReader, CaptureWriter, FileFault, Paths, Record, RecordHead, Standing, Version,
    format_block, laws, migrate_capture, read_capture, read_end, read_field, read_format,
    read_kind, read_packed_picture, read_picture, record_begins, record_rest, write_capture,
    write_front, write_picture, write_record,
};
pub use receiver_file::{load_receiver, save_receiver};
