//! Why a recording was not read.
ghost use Rattle.std.specs.Prelude.{◌≡◌};
ghost use Rattle.pcap_file.specs.declared.fault.RecordingFault.TheVariants.{Device};
ghost use Rattle.pcap_file.specs.RecordingFaults.{recording_fault_name, recording_fault_number};

use st_format::DeviceFault;
use thiserror::Error;

/// The first fault in the order of a recording's octets, or the device's.
#[derive(Clone, Copy, Debug, PartialEq, Eq, Error)]
pub enum RecordingFault {
    /// The device failed.
    #[error("the device failed")]
    Device = 1,
    /// The octets end within what stands before the packets, a packet or a block.
    #[error("the octets end within what stands before the packets, a packet or a block")]
    Truncated = 2,
    /// The octets begin neither a file of pcap nor one of pcapng, or a section has no order.
    #[error("the octets begin no recording, or a section has no order")]
    BadMagic = 3,
    /// Its version is not read: neither 2.4 of pcap, nor 1.0 or 1.2 of pcapng.
    #[error("its version is not read")]
    BadVersion = 4,
    /// The lengths of a block don't fit each other or what it holds, or are beyond all use.
    #[error("the lengths of a block don't fit each other or what it holds, or are beyond all use")]
    BadBlock = 5,
    /// A packet is of an interface that its section doesn't describe, or an interface's units of
    /// time can't be told.
    #[error("an interface is not described, or its units of time can't be told")]
    BadInterface = 6,
    /// A section describes more interfaces than are kept.
    #[error("a section describes more than 64 interfaces")]
    TooManyInterfaces = 7,
    /// A packet's time is no number of nanoseconds since 1970 below 2^64.
    #[error("a packet's time is no number of nanoseconds since 1970 below 2^64")]
    BadTime = 8,
    /// A packet has more octets than the buffer has room for.
    #[error("a packet has more octets than the buffer has room for")]
    PacketTooLong = 9,
    /// The octets begin a file that gzip has packed.
    #[error("the octets begin a file that gzip has packed")]
    Packed = 10,
    /// There are 2^64 - 1 records or blocks, or more.
    #[error("there are 2^64 - 1 records or blocks, or more")]
    TooManyBlocks = 11,
}

impl RecordingFault {
    /// The fault's number, 1 to 11.
    pub fn number(self) -> u8
        ensures { result ≡ recording_fault_number self }
    {
        self as u8
    }

    /// Its bare name, as the texts of the program have it.
    pub fn name(self) -> &'static str
        ensures { result.now ≡ recording_fault_name self }
    {
        match self {
            RecordingFault::Device => "Device",
            RecordingFault::Truncated => "Truncated",
            RecordingFault::BadMagic => "BadMagic",
            RecordingFault::BadVersion => "BadVersion",
            RecordingFault::BadBlock => "BadBlock",
            RecordingFault::BadInterface => "BadInterface",
            RecordingFault::TooManyInterfaces => "TooManyInterfaces",
            RecordingFault::BadTime => "BadTime",
            RecordingFault::PacketTooLong => "PacketTooLong",
            RecordingFault::Packed => "Packed",
            RecordingFault::TooManyBlocks => "TooManyBlocks",
        }
    }
}

impl From<DeviceFault> for RecordingFault {
    ghost from_gives = { λ _ fault. fault ≡ Device };

    fn from(_: DeviceFault) -> RecordingFault {
        RecordingFault::Device
    }
}
