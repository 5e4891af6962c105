//! The command that tells what captures and recordings hold, over the devices of this machine.
#![tactic(auto)]

mod aim;
mod inspecting;

pub use aim::{Aim, Inspected};
pub use inspecting::{InspectAsked, InspectCommand};
