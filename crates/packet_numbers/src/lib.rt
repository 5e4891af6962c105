//! Which packet numbers came, of a run of numbers modulo 2^32 (RFC 4175, 4.1): a map with a bit for
//! each, and its maximal missing runs.
#![tactic(auto)]

mod bit_list;
pub mod number_laws;
mod seq_map;
mod unlike;

pub use seq_map::{MAX_COUNT, Noted, SeqMap, SeqMapFault};
pub use unlike::OpenedUnlike;
