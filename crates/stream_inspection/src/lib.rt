//! What came of the streams of captures: packets counted by path, payload type and source, by
//! timestamp and by the refusals that a receiver of a format has for them, and what was counted as
//! text.
#![tactic(auto)]

mod columns;
mod files;
mod headings;
mod inspecting;
mod inspection;
mod json;
mod looking;
mod numbering;
mod numbers;
mod probe;
mod probes;
mod records;
mod rows;
mod skews;
mod stream_tables;
mod streams;
mod target;
mod telling;
mod text;
mod timestamps;
mod values;

pub use inspecting::inspect_streams;
pub use inspection::Inspection;
pub use numbering::Numbering;
pub use probe::{Probe, Probes};
pub use probes::ProbeTable;
pub use rows::{PathRow, Row, SkewRow, TimestampRow, TogetherRow};
pub use stream_tables::StreamTables;
pub use target::{Target, Wanted};
pub use text::Form;
