//! Range and gain of a picture, and the matrix of ITU-R BT.709 in fixed point.
#![tactic(auto)]

mod changes;
mod faults;
mod matrix;
mod thinning;

pub use changes::{RangeKind, gain, gained_copy, limit, limited_copy, scale_of};
pub use faults::ColourFault;
pub use matrix::{as_ycc444, to_ycc444};
pub use thinning::{as_ycc422, to_ycc422};
