//! The engine of `import`: captures and recordings of other tools become one capture. What it is
//! made of is public where others read recordings too: the flows by which they are taken.
#![tactic(auto)]

mod faults;
mod file;
mod files;
mod importing;
mod joining;
mod opening;
mod ways;

pub use file::ImportFile;
pub use files::know;
pub use importing::{FlowWords, ImportCounts, flows_each, flows_of, import};
pub use ways::ways_each;
