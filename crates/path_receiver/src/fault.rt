//! Why a receiver was not opened, not merged, or did not slide.
ghost use Rattle.std.specs.Prelude.{◌≡◌};
ghost use Rattle.path_receiver.specs.declared.fault.OpenFault.TheVariants.{NoMemory};

use std::alloc::{AllocError, AllocFailed};
use thiserror::Error;

/// Why a receiver was not opened: the first reason, but `NoMemory` comes last.
#[derive(Clone, Copy, Debug, PartialEq, Eq, Error)]
pub enum OpenFault {
    /// The allocator refused the memory for the frames or for the list of refusals. Tested last.
    #[error("the memory for the frames or for the list of refusals was refused")]
    NoMemory = 1,
    /// The window has no timestamp, or more than 16.
    #[error("the window has no timestamp, or more than 16")]
    BadWindow = 2,
    /// A timestamp stands twice in the window.
    #[error("a timestamp stands twice in the window")]
    DoubleTimestamp = 3,
}

impl OpenFault {
    ghost use Rattle.path_receiver.specs.Answers.{open_fault_name, open_fault_number};

    /// The fault's number, 1 to 3.
    pub fn number(self) -> u8
        ensures { result ≡ open_fault_number self }
    {
        self as u8
    }

    /// Its bare name, as the texts of the program have it.
    pub fn name(self) -> &'static str
        ensures { result.now ≡ open_fault_name self }
    {
        match self {
            OpenFault::NoMemory => "NoMemory",
            OpenFault::BadWindow => "BadWindow",
            OpenFault::DoubleTimestamp => "DoubleTimestamp",
        }
    }

    /// What was wanted where this fault comes, in words for a person.
    pub fn wanted(self) -> &'static str {
        match self {
            OpenFault::NoMemory => "more memory than there is",
            OpenFault::BadWindow => "1 to 16 timestamps",
            OpenFault::DoubleTimestamp => "each timestamp once",
        }
    }
}

impl From<AllocError> for OpenFault {
    ghost from_gives = { λ _ fault. fault ≡ NoMemory };

    fn from(_: AllocError) -> OpenFault {
        OpenFault::NoMemory
    }
}

impl<T: Drop> From<AllocFailed<T>> for OpenFault {
    ghost from_gives = { λ _ fault. fault ≡ NoMemory };

    fn from(_: AllocFailed<T>) -> OpenFault {
        OpenFault::NoMemory
    }
}

/// Why a window did not slide: the first reason, in this order.
#[derive(Clone, Copy, Debug, PartialEq, Eq, Error)]
pub enum SlideFault {
    /// The window has the timestamp already.
    #[error("the window has the timestamp already")]
    InWindow = 1,
    /// The frame that is handed in has another format than the receiver.
    #[error("the frame that is handed in has another format than the receiver")]
    OtherFormat = 2,
}

impl SlideFault {
    ghost use Rattle.path_receiver.specs.Answers.{slide_fault_name, slide_fault_number};

    /// The fault's number, 1 or 2.
    pub fn number(self) -> u8
        ensures { result ≡ slide_fault_number self }
    {
        self as u8
    }

    /// Its bare name, as the texts of the program have it.
    pub fn name(self) -> &'static str
        ensures { result.now ≡ slide_fault_name self }
    {
        match self {
            SlideFault::InWindow => "InWindow",
            SlideFault::OtherFormat => "OtherFormat",
        }
    }
}
