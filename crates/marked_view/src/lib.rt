//! A frame to look at: what is present, missing and contested, as a picture.
#![tactic(auto)]

mod seeing;

pub use seeing::marked_picture;
