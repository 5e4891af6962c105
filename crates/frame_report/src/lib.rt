//! What a receiver lacks, as text (own): the counts of each frame, its missing runs of pgroups
//! and its contested samples.
//!
//! What a report says is told by `report_text`, and of a frame by `frame_text`.
#![tactic(auto)]

mod contested;
mod fault;
pub mod laws;
mod missing;
mod opening;
mod page;
mod report;
mod rows;

pub use fault::ReportFault;
pub use report::{write_frame, write_report};
