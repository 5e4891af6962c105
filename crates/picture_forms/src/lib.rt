//! Pictures in forms that other tools read and write: YUV4MPEG2 streams and portable pixmaps.
#![tactic(auto)]

mod fault;
mod filling;
mod frames;
pub mod laws;
mod line;
mod lines;
mod number_part;
mod pictures;
mod pixmap_head_reading;
mod pixmap_pictures;
mod pixmap_reading;
mod pixmap_writing;
mod plane_reading;
mod planes;
mod sinking;
mod streams;
mod y4m_head_reading;
mod y4m_header;
mod y4m_reading;
mod y4m_writing;

pub use fault::FormFault;
pub use pictures::read_y4m_frame;
pub use pixmap_head_reading::read_pixmap_head;
pub use pixmap_pictures::read_pixmap_raster;
pub use pixmap_writing::{write_pixmap, write_pixmap_samples};
pub use planes::{Spelling, Stride, spell};
pub use streams::{Standing, StreamReader};
pub use y4m_head_reading::read_y4m_head;
pub use y4m_header::format_of_head;
pub use y4m_writing::{
    plane_count_of, spelling_of, stride_of, write_y4m_frame, write_y4m_head, write_y4m_samples,
};
