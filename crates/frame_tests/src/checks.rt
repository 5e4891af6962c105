//! What a test asserts: an assertion is proved with all that is known where it stands, so that here
//! is the only one.
use std::process::Abort;

/// The test is met.
pub fn met(rt: &impl Abort, is_met: bool) {
    assert!(rt; is_met);
}
