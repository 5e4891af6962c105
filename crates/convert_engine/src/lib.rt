//! The engine of `convert`: a picture is read as a file of one form, and written as one of another.
#![tactic(auto)]

mod converting;
mod faults;
mod pixmaps;
mod streams;

pub use converting::{Conversion, InputForm, convert};
pub use faults::of_form;
