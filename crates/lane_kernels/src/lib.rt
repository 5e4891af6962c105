//! Kernels over full lanes, with a plain loop for the rest. Each is its plain definition at every
//! index, for every length.
#![tactic(auto)]

mod gains;
mod keying;
pub mod laws;
mod marks;
mod matrix;
mod mixes;
mod narrowing;
mod octets;
mod pixels;
mod range;

pub use gains::{gain, gain_about};
pub use keying::pair_keys;
pub use marks::{count_marks, or_marks};
pub use matrix::{cb709, cr709, luma709};
pub use mixes::{key_mix, mix256};
pub use octets::{differs, select};
pub use pixels::ycc709;
pub use range::{clip, clip_below};
