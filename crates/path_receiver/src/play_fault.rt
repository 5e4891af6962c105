//! Why a schedule was not played. The fault stands here, below the schedules, since whatever ends a
//! run names it.
ghost use Rattle.std.specs.Prelude.{◌≡◌};

use crate::fault::OpenFault;
use thiserror::Error;

/// Why a schedule was not played: the first reason. The window, the pictures and the number of
/// receivers are tested first, then the events one by one; `NoMemory` may stand in place of what an
/// event would say.
#[derive(Clone, Copy, Debug, PartialEq, Eq, Error)]
pub enum PlayFault {
    /// 1: the memory was refused.
    #[error("the memory was refused")]
    NoMemory,
    /// 2: the event at this place, counted from 0, is not admitted after those before it.
    #[error("the event at place {0}, counted from 0, is not admitted after those before it")]
    BadEvent(usize),
    /// 3: the window has no timestamp, or more than 16.
    #[error("the window has no timestamp, or more than 16")]
    BadWindow,
    /// 4: a timestamp stands twice in the window.
    #[error("a timestamp stands twice in the window")]
    DoubleTimestamp,
    /// 5: there are more than 10,000 pictures, or one of another format than the plan's.
    #[error("there are more than 10000 pictures, or one of another format than the plan's")]
    BadPictures,
    /// 6: there is no receiver, or there are more than 8.
    #[error("there is no receiver, or there are more than 8")]
    BadReceivers,
}

impl PlayFault {
    ghost use Rattle.path_receiver.specs.PlayFault.{play_fault_name, play_fault_number};

    /// The fault's number, 1 to 6.
    pub fn number(self) -> u8
        ensures { result ≡ play_fault_number self }
    {
        match self {
            PlayFault::NoMemory => 1,
            PlayFault::BadEvent(_) => 2,
            PlayFault::BadWindow => 3,
            PlayFault::DoubleTimestamp => 4,
            PlayFault::BadPictures => 5,
            PlayFault::BadReceivers => 6,
        }
    }

    /// Its bare name, of an event without its place.
    pub fn name(self) -> &'static str
        ensures { result.now ≡ play_fault_name self }
    {
        match self {
            PlayFault::NoMemory => "NoMemory",
            PlayFault::BadEvent(_) => "BadEvent",
            PlayFault::BadWindow => "BadWindow",
            PlayFault::DoubleTimestamp => "DoubleTimestamp",
            PlayFault::BadPictures => "BadPictures",
            PlayFault::BadReceivers => "BadReceivers",
        }
    }

    /// What was wanted where this fault comes, in words for a person.
    pub fn wanted(self) -> &'static str {
        match self {
            PlayFault::NoMemory => OpenFault::NoMemory.wanted(),
            PlayFault::BadEvent(_) => "an event that can happen after those before it",
            PlayFault::BadWindow => OpenFault::BadWindow.wanted(),
            PlayFault::DoubleTimestamp => OpenFault::DoubleTimestamp.wanted(),
            PlayFault::BadPictures => "at most 10000 pictures",
            PlayFault::BadReceivers => "1 to 8 receivers",
        }
    }
}
