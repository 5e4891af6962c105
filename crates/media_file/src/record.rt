//! Records of a capture.
use st_format::Path;
use std::alloc::{Allocator, Global};

/// What a record says before its octets: eleven octets of a capture (own).
#[derive(Clone, Copy)]
pub struct RecordHead {
    pub path: Path,
    /// What the writer handed in; it has no meaning to a reader.
    pub moment: u64,
    /// How many octets it has: at most 65,535.
    pub length: usize,
}

/// A record of a capture: when and by which path a datagram came, and its octets.
#[derive(Drop)]
pub struct Record<A: Allocator = Global> {
    pub path: Path,
    /// What the writer handed in; it has no meaning to a reader.
    pub moment: u64,
    /// The datagram's: at most 65,535.
    pub octets: Vec<u8, A>,
}
