//! How a command ends over the devices of this machine: its status, the line of its fault, and,
//! where that is asked for, one more line that says where the fault is and what was wanted there.
#![tactic(auto)]

mod command;
mod ending;
mod fmtp;
mod hints;
mod lines;
mod output;
mod places;

pub use command::{Command, Ended, Ran, end_without_memory, run_command};
pub use fmtp::is_of_2022;
pub use hints::{Hints, Room};
pub use output::find_output;
pub use places::Devices;
