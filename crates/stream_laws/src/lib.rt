//! Laws on whole runs of `follow`: which frames leave a stream, and that what is written of what
//! `send` sent is the pictures' file, octet for octet.
#![tactic(auto)]

mod laws;
mod told_once;

pub use laws::{
    all_of_files, follow_unrefused, frames_of_format, none_late, one_y4m_stream, plain_by_events,
    plain_by_times, plain_by_totals, sender_stream, sent_and_followed, sent_and_followed_file,
    sent_and_followed_pictures, whole_pictures,
};
pub use told_once::one_follow_refusal;
