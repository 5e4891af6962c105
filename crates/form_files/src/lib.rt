//! A picture as a file of one of several forms: the project's own, those of other tools, and packed
//! pgroups alone.
#![tactic(auto)]

mod form;
mod raw_writing;
mod writing;

pub use form::Form;
pub use writing::write_form;
