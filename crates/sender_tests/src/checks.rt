//! What a test asserts: an assertion is proved with all that is known where it stands, so that here
//! is the one.
use std::process::Abort;

/// Ends the test as failed unless it is met.
pub fn met(rt: &impl Abort, is_met: bool) {
    assert!(rt; is_met);
}
