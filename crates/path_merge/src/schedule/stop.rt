//! Why an event was not followed.
ghost use Rattle.std.specs.Prelude.{◌≡◌};
ghost use Rattle.path_merge.specs.declared.schedule.stop.Stop.TheVariants.{NoMemory};

use std::alloc::{AllocError, AllocFailed};

/// Why an event was not followed.
#[derive(Drop)]
pub enum Stop {
    /// The allocator refused memory: for a datagram, a frame, or the list of either.
    NoMemory,
    /// It is not admitted after the events before it.
    Unfit,
}

impl From<AllocError> for Stop {
    ghost from_gives = { λ _ stop. stop ≡ NoMemory };

    fn from(_: AllocError) -> Stop {
        Stop::NoMemory
    }
}

impl<T: Drop> From<AllocFailed<T>> for Stop {
    ghost from_gives = { λ _ stop. stop ≡ NoMemory };

    fn from(_: AllocFailed<T>) -> Stop {
        Stop::NoMemory
    }
}
