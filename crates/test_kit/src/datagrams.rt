//! A receiver that datagrams are given to.
use path_receiver::{OpenFault, Receiver};
use st_format::Format;
use std::alloc::Global;

/// A receiver of payload type 96, of any source, and of the frame of timestamp 900.
pub fn opened(alloc: Global, format: Format) -> Result<Receiver, OpenFault> {
    Receiver::open(alloc, format, 96, None, &[900])
}
