//! Why a workload wasn't run.
use std::alloc::AllocError;
use std::io;

/// Memory is wanted, the output failed, or a call answered otherwise than it has to.
#[derive(Clone, Copy, Debug, PartialEq, Eq)]
pub struct Fault;

impl From<AllocError> for Fault {
    fn from(_: AllocError) -> Fault {
        Fault
    }
}

impl From<io::Error> for Fault {
    fn from(_: io::Error) -> Fault {
        Fault
    }
}
