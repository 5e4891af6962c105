//! Why a file was not read or not written.
ghost use Rattle.std.specs.Prelude.{◌≡◌, Some, IfSome};
ghost use Rattle.media_file.specs.declared.fault.FileFault.{FileFault};
ghost use Rattle.media_file.specs.declared.fault.FileFault.TheVariants.{NoMemory, Device};
ghost use Rattle.media_file.specs.Faults.{file_fault_name, file_fault_number};

use st_format::DeviceFault;
use std::alloc::{AllocError, AllocFailed};
use thiserror::Error;

/// The first fault in the order of a file's octets, or a fault of the machine that came before it.
#[derive(Clone, Copy, Debug, PartialEq, Eq, Error)]
pub enum FileFault {
    /// The allocator refused memory.
    #[error("the memory was refused")]
    NoMemory = 1,
    /// The device failed. Why is its own matter.
    #[error("the device failed")]
    Device = 2,
    /// The first six octets aren't the name of such a file.
    #[error("the first six octets aren't the name of such a file")]
    BadName = 3,
    /// The two octets behind the name are no version that is read.
    #[error("the two octets behind the name are no version that is read")]
    BadVersion = 4,
    /// The octets end within the name, a field or what a field counts.
    #[error("the octets end within the name, a field or what a field counts")]
    Truncated = 5,
    /// A field says what no such file says.
    #[error("a field says what no such file says")]
    BadField = 6,
    /// An octet stands behind the file's last field.
    #[error("an octet stands behind the file's last field")]
    TrailingBytes = 7,
    /// A contested group of samples is not spelled as one.
    #[error("a contested group of samples is not spelled as one")]
    MixedGroup = 8,
    /// A record more than the limit begins.
    #[error("there are more than 16777216 records")]
    TooManyRecords = 9,
}

impl FileFault {
    /// The fault's number, 1 to 9.
    pub fn number(self) -> u8
        ensures { result ≡ file_fault_number self }
    {
        self as u8
    }

    /// Its bare name, as the texts of the program have it.
    pub fn name(self) -> &'static str
        ensures { result.now ≡ file_fault_name self }
    {
        match self {
            FileFault::NoMemory => "NoMemory",
            FileFault::Device => "Device",
            FileFault::BadName => "BadName",
            FileFault::BadVersion => "BadVersion",
            FileFault::Truncated => "Truncated",
            FileFault::BadField => "BadField",
            FileFault::TrailingBytes => "TrailingBytes",
            FileFault::MixedGroup => "MixedGroup",
            FileFault::TooManyRecords => "TooManyRecords",
        }
    }

    /// The fault of a number, as a source of datagrams tells it; `None` where no fault has it.
    pub fn of_number(number: u8) -> Option<FileFault>
        ensures known { (f : FileFault) → file_fault_number f ≡ number → result ≡ Some f }
        ensures number { IfSome result (λ f. file_fault_number f ≡ number) }
    {
        match number {
            1 => Some(FileFault::NoMemory),
            2 => Some(FileFault::Device),
            3 => Some(FileFault::BadName),
            4 => Some(FileFault::BadVersion),
            5 => Some(FileFault::Truncated),
            6 => Some(FileFault::BadField),
            7 => Some(FileFault::TrailingBytes),
            8 => Some(FileFault::MixedGroup),
            9 => Some(FileFault::TooManyRecords),
            _ => None,
        }
    }
}

impl From<DeviceFault> for FileFault {
    ghost from_gives = { λ _ fault. fault ≡ Device };

    fn from(_: DeviceFault) -> FileFault {
        FileFault::Device
    }
}

impl From<AllocError> for FileFault {
    ghost from_gives = { λ _ fault. fault ≡ NoMemory };

    fn from(_: AllocError) -> FileFault {
        FileFault::NoMemory
    }
}

impl<T: Drop> From<AllocFailed<T>> for FileFault {
    ghost from_gives = { λ _ fault. fault ≡ NoMemory };

    fn from(_: AllocFailed<T>) -> FileFault {
        FileFault::NoMemory
    }
}
