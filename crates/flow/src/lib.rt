//! Flows: where the datagrams of a path are sent to, come from and are taken, as texts spell it,
//! and which path a datagram comes by.
#![tactic(auto)]

mod flows;
pub mod laws;
mod text;

pub use flows::{Flow, Flows};
pub use text::read_flow;
