//! The door to the engines of the program: devices in and out, and an exit status.
#![tactic(auto)]

mod captures;
mod pictures;
mod receivers;
mod recordings;
mod scripts;
mod streams;

pub use capture_engines::{Looping, MemoryLink, Seen, Sending, Wanted};
pub use captures::{run_loop, run_migrate, run_receive, run_send};
pub use convert_engine::{Conversion, InputForm};
pub use export_engine::Exporting;
pub use flow::Flows;
pub use follow_engine::{FollowAsked, NoPictures, PictureSink};
pub use form_files::Form;
pub use media_file::Paths;
pub use paced_export::Pacing;
pub use packet_plan::Stamp;
pub use picture_engine::{PictureAsked, View};
pub use pictures::{run_convert, run_picture};
pub use receiver_engines::Processing;
pub use receivers::{run_merge, run_process, run_report};
pub use recording_engines::{FlowWords, ImportFile};
pub use recordings::{run_export, run_export_paced, run_import, run_inspect, run_inspect_streams};
pub use run_outcome::{Refusal, Status};
pub use scripts::{run_rehearse, run_sdp, run_trace};
pub use side_by_side::Side;
pub use st_format::DatagramLink;
pub use streams::{FollowWanted, run_follow, run_send_stream};
