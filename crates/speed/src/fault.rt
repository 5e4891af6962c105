//! Why nothing was measured.
use std::alloc::AllocError;
use std::io;

/// Memory is wanted, or the clock or the output failed, or a call did.
#[derive(Clone, Copy, Debug, PartialEq, Eq)]
pub struct Fault;

impl From<AllocError> for Fault {
    fn from(_: AllocError) -> Fault {
        Fault
    }
}

impl From<io::Error> for Fault {
    fn from(_: io::Error) -> Fault {
        Fault
    }
}
