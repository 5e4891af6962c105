//! What a test asserts: an assertion is proved with all that is known where it stands, so that here
//! are the few.
use st_format::memory::{MemorySink, MemorySource};
use std::alloc::{AllocError, Global};
use std::process::Abort;

/// The test is met.
pub fn met(rt: &impl Abort, is_met: bool) {
    assert!(rt; is_met);
}

/// A sink with room for any text of the tests, of at most seven octets a call.
pub fn sink(alloc: Global) -> Result<MemorySink, AllocError> {
    let room = Vec::with_capacity(alloc, 256)?;
    Ok(MemorySink::new(room, 7, 0))
}

/// A source of these octets, of at most seven a call. The call of number `fails_in` fails; none
/// where it is 0.
pub fn source(alloc: Global, octets: &[u8], fails_in: u64) -> Result<MemorySource, AllocError> {
    let octets = Vec::from_slice(alloc, octets)?;
    Ok(MemorySource::new(octets, 7, fails_in))
}
