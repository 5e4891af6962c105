//! Why a file of datagrams was not read.
ghost use Rattle.std.specs.Prelude.{◌≡◌};
ghost use Rattle.media_file.specs.declared.fault.FileFault.TheVariants.{Device};
ghost use Rattle.recording_reader.specs.declared.fault.FileOpeningFault.TheVariants.{NoMemory};
ghost use Rattle.recording_reader.specs.declared.fault.FileOpeningFault.TheVariants.{Reading};
ghost use Rattle.recording_reader.specs.declared.fault.ReadingFault.TheVariants.{Capture};
ghost use Rattle.recording_reader.specs.declared.fault.ReadingFault.TheVariants.{Recording};

use media_file::FileFault;
use pcap_file::RecordingFault;
use st_format::DeviceFault;
use std::alloc::AllocError;
use thiserror::Error;

/// The first fault in the order of a file's octets, or the device's.
#[derive(Clone, Copy, Debug, PartialEq, Eq, Error)]
pub enum ReadingFault {
    /// A capture's. The device's too, where the file's first octets aren't known.
    #[error("{0}")]
    Capture(FileFault),
    /// A recording's.
    #[error("{0}")]
    Recording(RecordingFault),
}

impl ReadingFault {
    ghost use Rattle.recording_reader.specs.Names.{reading_fault_name};

    /// Its bare name, without what the capture's or the recording's fault says.
    pub fn name(self) -> &'static str
        ensures { result.now ≡ reading_fault_name self }
    {
        match self {
            ReadingFault::Capture(_) => "Capture",
            ReadingFault::Recording(_) => "Recording",
        }
    }
}

impl From<FileFault> for ReadingFault {
    ghost from_gives = { λ fault reading. reading ≡ Capture fault };

    fn from(fault: FileFault) -> ReadingFault {
        ReadingFault::Capture(fault)
    }
}

impl From<RecordingFault> for ReadingFault {
    ghost from_gives = { λ fault reading. reading ≡ Recording fault };

    fn from(fault: RecordingFault) -> ReadingFault {
        ReadingFault::Recording(fault)
    }
}

/// Why a file of datagrams was not opened.
#[derive(Clone, Copy, Debug, PartialEq, Eq, Error)]
pub enum FileOpeningFault {
    /// It is a recording, and there are no flows by which it is taken.
    #[error("there are no flows by which a recording is taken")]
    NoFlows,
    /// A growth was refused: there is no room for a record or a packet.
    #[error("the memory was refused")]
    NoMemory,
    /// The file's first fault, or the device's, before all records.
    #[error("{0}")]
    Reading(ReadingFault),
}

impl FileOpeningFault {
    ghost use Rattle.recording_reader.specs.Names.{file_opening_fault_name};

    /// Its bare name, without what the fault of the reading says.
    pub fn name(self) -> &'static str
        ensures { result.now ≡ file_opening_fault_name self }
    {
        match self {
            FileOpeningFault::NoFlows => "NoFlows",
            FileOpeningFault::NoMemory => "NoMemory",
            FileOpeningFault::Reading(_) => "Reading",
        }
    }
}

impl From<AllocError> for FileOpeningFault {
    ghost from_gives = { λ _ fault. fault ≡ NoMemory };

    fn from(_: AllocError) -> FileOpeningFault {
        FileOpeningFault::NoMemory
    }
}

impl From<DeviceFault> for FileOpeningFault {
    ghost from_gives = { λ _ opening. opening ≡ Reading (Capture Device) };

    fn from(_: DeviceFault) -> FileOpeningFault {
        FileOpeningFault::Reading(ReadingFault::Capture(FileFault::Device))
    }
}

impl From<FileFault> for FileOpeningFault {
    ghost from_gives = { λ fault opening. opening ≡ Reading (Capture fault) };

    fn from(fault: FileFault) -> FileOpeningFault {
        FileOpeningFault::Reading(ReadingFault::Capture(fault))
    }
}

impl From<RecordingFault> for FileOpeningFault {
    ghost from_gives = { λ fault opening. opening ≡ Reading (Recording fault) };

    fn from(fault: RecordingFault) -> FileOpeningFault {
        FileOpeningFault::Reading(ReadingFault::Recording(fault))
    }
}
