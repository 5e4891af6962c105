//! The commands that write a picture as a file, over the devices of this machine.
#![tactic(auto)]

mod asked;
mod converting;
mod picturing;

pub use converting::ConvertCommand;
pub use picturing::PictureCommand;
