//! The engines of the program that read receivers' files: some are merged, one is reported, and
//! frames of some are processed.
#![tactic(auto)]

mod fill_text;
mod inputs;
mod job_offers;
mod job_text;
mod merging;
mod merging_all;
mod processing;
mod reading;
mod reporting;
mod states;
mod untold;

pub use fill_text::read_fill;
pub use job_offers::offered_by_job;
pub use merging::merge;
pub use merging_all::merge_all;
pub use processing::{Processing, check_job, process, process_said};
pub use reading::read_held;
pub use reporting::report;
pub use states::read_receiver;
