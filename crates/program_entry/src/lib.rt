//! What each program of the project does before its command and beside it: it holds the three
//! streams, reads its words, and says why they aren't followed.
#![tactic(auto)]

mod entering;
mod unfollowed;

pub use entering::enter;
pub use unfollowed::{refuse, refuse_value};
