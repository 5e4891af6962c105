//! Devices in memory, and what becomes of a run over them.
ghost use Rattle.std.specs.Prelude.{◌≡◌, [], vec_len, IfOk, Some};
ghost use Rattle.std.specs.Io.KnownBytes.{IsAtEnd};

use crate::fault::Fault;
use crate::numbers::Digest;
use st_format::ByteSink;
use st_format::memory::{MemorySink, MemorySource};
use std::alloc::Global;

/// A source of these octets, which gives at most `piece` a call, and no fewer than one.
pub fn source(octets: Vec<u8>, piece: usize) -> MemorySource {
    MemorySource::new(octets, piece.max(1), 0)
}

/// A sink with room for so many octets, which holds none.
pub fn sink(alloc: Global, room: usize) -> Result<MemorySink, Fault>
    ensures { IfOk result (λ s. IsAtEnd (⟦<MemorySink as ByteSink>⟧.held s)) }
{
    Ok(MemorySink::new(Vec::with_capacity(alloc, room)?, usize::MAX, 0))
}

/// Takes a run's status and what it wrote. A run that ended otherwise than well is a fault.
pub fn note(digest: &mut Digest, status: u8, written: [&MemorySink; 2]) -> Result<(), Fault> {
    if status != 0 {
        return Err(Fault);
    }
    for sink in written.iter() {
        digest.take(sink.held());
    }
    Ok(())
}
