//! What the crates of worked examples share: formats, datagrams and texts of docs/EXAMPLES.md,
//! calls whose growths are refused, and what a fault says. What a test asserts stands in each of
//! those crates, since only tests may end a process.
#![tactic(auto)]

pub mod camera;
pub mod datagrams;
pub mod picture_values;
pub mod sending;
pub mod small_format;
pub mod wanting;
pub mod words;
