//! Why a follower was not opened, and why following a source ended.
ghost use Rattle.std.specs.Prelude.{◌≡◌};
ghost use Rattle.following.specs.declared.fault.FollowFault.TheVariants.{NoMemory};

use path_receiver::ReceiveFault;
use std::alloc::{AllocError, AllocFailed};
use thiserror::Error;

/// Why a follower was not opened: the first reason, but `NoMemory` comes last.
#[derive(Clone, Copy, Debug, PartialEq, Eq, Error)]
pub enum FollowFault {
    /// The allocator refused the memory for the frames. Tested last.
    #[error("the memory for the frames was refused")]
    NoMemory = 1,
    /// It is to have no frame, or more than 16.
    #[error("it is to have no frame, or more than 16")]
    BadSize = 2,
}

impl FollowFault {
    ghost use Rattle.following.specs.Names.{follow_fault_name, follow_fault_number};

    /// The fault's number, 1 or 2.
    pub fn number(self) -> u8
        ensures { result ≡ follow_fault_number self }
    {
        self as u8
    }

    /// Its bare name: that of the variant.
    pub fn name(self) -> &'static str
        ensures { result.now ≡ follow_fault_name self }
    {
        match self {
            FollowFault::NoMemory => "NoMemory",
            FollowFault::BadSize => "BadSize",
        }
    }

    /// What was wanted where this fault comes, in words for a person.
    pub fn wanted(self) -> &'static str {
        match self {
            FollowFault::NoMemory => "more memory than there is",
            FollowFault::BadSize => "1 to 16 frames",
        }
    }
}

impl From<AllocError> for FollowFault {
    ghost from_gives = { λ _ fault. fault ≡ NoMemory };

    fn from(_: AllocError) -> FollowFault {
        FollowFault::NoMemory
    }
}

impl<T: Drop> From<AllocFailed<T>> for FollowFault {
    ghost from_gives = { λ _ fault. fault ≡ NoMemory };

    fn from(_: AllocFailed<T>) -> FollowFault {
        FollowFault::NoMemory
    }
}

/// A sink of frames failed, and did not take a frame.
#[derive(Clone, Copy, Debug, PartialEq, Eq, Error)]
#[error("a sink of frames did not take the frame {timestamp}, after {delivered} datagrams")]
pub struct FrameFault {
    /// How many datagrams the source had delivered in this call. They are taken.
    pub delivered: u64,
    /// The timestamp of the frame, in 90 kHz ticks.
    pub timestamp: u32,
}

impl FrameFault {
    ghost use Rattle.following.specs.Names.{frame_fault_name};

    /// Its bare name.
    pub fn name(self) -> &'static str
        ensures { result.now ≡ frame_fault_name }
    {
        "FrameFault"
    }
}

/// Why following a source ended.
#[derive(Clone, Copy, Debug, PartialEq, Eq, Error)]
pub enum StreamFault {
    /// The source failed, after so many datagrams, which are taken.
    #[error("{0}")]
    Source(ReceiveFault),
    /// The sink failed. The frame that it did not take is in the caller's frame.
    #[error("{0}")]
    Sink(FrameFault),
}

impl StreamFault {
    ghost use Rattle.following.specs.Names.{stream_fault_name};

    /// Its bare name, without what the source's or the sink's fault says.
    pub fn name(self) -> &'static str
        ensures { result.now ≡ stream_fault_name self }
    {
        match self {
            StreamFault::Source(_) => "Source",
            StreamFault::Sink(_) => "Sink",
        }
    }
}
