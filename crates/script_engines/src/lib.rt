//! The engines of the program that read texts: scripts that are followed or rehearsed, and SDP.
#![tactic(auto)]

mod digits;
mod first_lines;
mod line;
mod line_end;
mod picture_text;
mod rehearsal;
mod rehearsal_line;
mod rehearsing;
mod script;
mod sdp;
mod session;
mod tracing;
mod wanted_form;

pub use rehearsing::rehearse;
pub use sdp::describe;
pub use tracing::trace;
