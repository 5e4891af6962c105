//! What a test asserts.
use std::process::Abort;

/// Ends the test as failed unless it is met.
pub fn met(rt: &impl Abort, is_met: bool) {
    assert!(rt; is_met);
}
