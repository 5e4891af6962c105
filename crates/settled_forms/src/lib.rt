//! Frames that are settled, in forms that other tools read.
#![tactic(auto)]

mod packed;
mod plane_source;
mod plane_writing;
mod planes;
mod settled;

pub use plane_writing::write_planes;
pub use settled::{settle_all, write_settled};
