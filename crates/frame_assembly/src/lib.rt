//! Frames that are put together from datagrams: what is known of each sample of a raster.
#![tactic(auto)]

mod base;
mod cells;
mod contested_samples;
mod counts;
mod frame;
mod groups;
mod joining;
mod missing;
mod rows;
mod settling;
mod state;

pub use base::Base;
pub use contested_samples::ContestedSamples;
pub use counts::Counts;
pub use frame::Frame;
pub use missing::MissingRuns;
pub use rows::MOST_GROUP_OCTETS;
pub use st_format::Cell;
pub use state::GroupState;
