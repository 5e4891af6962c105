//! Plans that cut a picture into packets, and the sender (SMPTE ST 2110-20, packets; RFC 4175, 4).
#![tactic(auto)]

mod greedy;
pub mod laws;
mod plan;
mod raster;
mod run;
mod sending;
mod stamp;
mod writing;

pub use plan::{Plan, PlanFault};
pub use raster::Raster;
pub use run::PacketRun;
pub use sending::{SendFault, send_frame};
pub use stamp::Stamp;
