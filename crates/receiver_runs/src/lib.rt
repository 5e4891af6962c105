//! The commands that read receivers' files, over the devices of this machine.
#![tactic(auto)]

mod merging;
mod processing;
mod reporting;

pub use merging::MergeCommand;
pub use processing::ProcessCommand;
pub use reporting::ReportCommand;
