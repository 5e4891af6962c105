//! Names of interfaces, as recordings and words of commands have them.
#![tactic(auto)]

pub mod laws;
mod name;

pub use name::{InterfaceName, MOST};
