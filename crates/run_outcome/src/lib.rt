//! How a run of the program ends, and what it says: statuses, faults, the refusals of all commands,
//! lines of output, and what the engines read alike.
#![tactic(auto)]

mod ending;
mod fault;
mod line;
mod pictures;
mod pieces;
mod printing;
mod refusal;
mod refusal_text;
mod script_line;
mod sources;
mod states;
mod status;
mod telling;
mod text;
mod timestamps;
mod wanted;
mod words;

pub use ending::end;
pub use fault::{Fault, of_capture, of_picture, of_reading, of_state};
pub use line::Line;
pub use pictures::{read_packed, read_unpacked};
pub use printing::{print, print_frames};
pub use refusal::{Refusal, Writer};
pub use script_line::{Form, LineFault};
pub use sources::read_source;
pub use states::save_state;
pub use status::Status;
pub use text::{MOST_TEXT, read_checked, read_if_given, read_past, read_text, room};
pub use timestamps::read_timestamps;
pub use words::after_word;
