//! Wipe, key and the jobs of the processor.
#![tactic(auto)]

mod faults;
mod formats;
mod jobs;
mod keys;
mod making;
mod preparing;
mod rows;
mod sending;
mod source;
mod wipes;

use bt709_fixed::RangeKind;
pub use faults::{JobFault, SendJobFault};
pub use jobs::run_job;
pub use keys::key;
pub use preparing::PreparedJob;
pub use sending::{JobInput, send_job};
pub use wipes::wipe;

/// What a wipe runs along.
#[derive(Clone, Copy, Debug, PartialEq, Eq)]
pub enum Axis {
    /// From the left to the right.
    Columns,
    /// From the top to the bottom; a row has one weight.
    Rows,
}

/// Where a wipe stands: all before `position` is the first picture, all from `soft` places after it
/// on the second.
#[derive(Clone, Copy, Debug, PartialEq, Eq)]
pub struct WipeShape {
    /// What it runs along.
    pub axis: Axis,
    /// How many columns or rows stand before it, all of the first picture: at most as many as there
    /// are.
    pub position: u32,
    /// Over how many columns or rows the one goes into the other, at most as many as there are.
    pub soft: u32,
}

/// What is made of pictures, by formulas over whole numbers (ITU-R BT.709; the rest is own).
#[derive(Clone, Copy, Debug, PartialEq, Eq)]
pub enum Job {
    /// One picture, each value brought to the nearest one of a range.
    Limit(RangeKind),
    /// A picture with each value so many 4096ths as far from black, or from the centre for Cb and
    /// Cr: at most 16384.
    Gain(u32),
    /// A picture of R, G and B in Y, Cb and Cr (ITU-R BT.709).
    ToYcc444,
    /// A picture of Y, Cb and Cr at each column, with those of the even columns alone.
    ToYcc422,
    /// A wipe from a first picture to a second of its format.
    Wipe(WipeShape),
    /// A first picture and a second, mixed by the luma of a third.
    Key,
}
