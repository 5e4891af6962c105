//! The commands that read or write recordings of other tools, over the devices of this machine.
#![tactic(auto)]

mod exporting;
mod importing;
mod pacing;
mod telling;

pub use exporting::ExportCommand;
pub use importing::ImportCommand;
pub use pacing::PacedCommand;
pub use telling::FlowsCommand;
