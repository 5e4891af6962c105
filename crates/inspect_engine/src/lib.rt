//! Which flows recordings of other tools have: their packets noted, and what was noted printed.
#![tactic(auto)]

mod destination;
mod form;
mod inspecting;
mod inspection;
mod printing;
mod recording;
mod recordings;

pub use form::Form;
pub use inspecting::inspect;
pub use inspection::Inspection;
pub use printing::print_inspection;
pub use recording::note_recording;
pub use recordings::note_recordings;
