//! The first timestamps that come of captures.
#![tactic(auto)]

mod finder;
mod finding;
mod words;

pub use finder::Sought;
pub use finding::find_window;
pub use words::{read_first, spell_timestamps};
