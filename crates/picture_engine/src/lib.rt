//! The engine of `picture`: a frame of a receiver's file as a picture's file.
#![tactic(auto)]

mod asked;
mod filling;
mod frames;
mod picturing;
mod showing;

pub use asked::{PictureAsked, View, check_view};
pub use filling::black;
pub use picturing::picture;
