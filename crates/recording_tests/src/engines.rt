//! Devices in memory for the engines of recordings, and how a run of one ended.
use run_outcome::Fault;
use st_format::memory::{MemorySink, MemorySource};
use std::alloc::{AllocError, Global};

/// A source of these octets, seven a call.
pub fn source(global: Global, octets: &[u8]) -> Result<MemorySource, AllocError> {
    Ok(MemorySource::new(Vec::from_slice(global, octets)?, 7, 0))
}

/// A sink that holds nothing yet.
pub fn sink(global: Global) -> Result<MemorySink, AllocError> {
    Ok(MemorySink::new(Vec::with_capacity(global, 8192)?, 7, 0))
}

/// How a run ended, what it wrote, and what it printed.
#[derive(Drop)]
pub struct Run {
    pub outcome: Result<(), Fault>,
    pub written: MemorySink,
    pub printed: MemorySink,
}

impl Run {
    /// Whether it ended well and wrote and printed this, or `None` where it wanted memory: it
    /// neither wrote nor printed anything then.
    pub fn answered(&self, written: &[u8], printed: &[u8]) -> Option<bool> {
        let (is_written, is_printed) = (self.written.held(), self.printed.held());
        match self.outcome {
            Ok(()) => Some(is_written == written && is_printed == printed),
            Err(Fault::Memory) if is_written.is_empty() && is_printed.is_empty() => None,
            Err(_) => Some(false),
        }
    }
}
