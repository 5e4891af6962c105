//! Frames that leave a stream, written as a stream of pictures that other tools read: of YCbCr
//! YUV4MPEG2, of RGB portable pixmaps one behind the other. And each as a file of its own,
//! and what each lacks, as text.
#![tactic(auto)]

mod both;
mod files_sink;
mod filling;
mod form_sink;
pub mod laws;
mod report_sink;
mod settling;
mod writing;

pub use both::BothSinks;
pub use files_sink::{FilesSink, PictureFiles};
pub use filling::Filling;
pub use form_sink::FormSink;
pub use report_sink::ReportSink;
pub use settling::Settling;
