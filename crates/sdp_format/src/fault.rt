//! Why a text describes no video.
ghost use Rattle.std.specs.Prelude.{◌≡◌};
ghost use Rattle.sdp_format.specs.declared.fault.SdpFault.TheVariants.{NoMemory};
ghost use Rattle.sdp_format.specs.Faults.{sdp_fault_name, sdp_fault_number};

use std::alloc::{AllocError, AllocFailed};
use thiserror::Error;

/// The first fault of a text, or want of memory.
#[derive(Clone, Copy, Debug, PartialEq, Eq, Error)]
pub enum SdpFault {
    /// A growth was refused.
    #[error("the memory was refused")]
    NoMemory = 1,
    /// No media section is a video section.
    #[error("no media section is a video section")]
    NoVideo = 2,
    /// More than two sections are.
    #[error("there are more than two video sections")]
    TooManyLegs = 3,
    /// A section's first line isn't `m=video PORT RTP/AVP PT`.
    #[error("a video section's first line isn't m=video PORT RTP/AVP PT")]
    BadMediaLine = 4,
    /// No line of the section begins `a=rtpmap:PT` and a space.
    #[error("no line of the section begins a=rtpmap:PT and a space")]
    NoRtpmap = 5,
    /// The first such line doesn't say `raw/90000`.
    #[error("the first line a=rtpmap:PT doesn't say raw/90000")]
    NotRaw90000 = 6,
    /// No line of the section begins `a=fmtp:PT` and a space.
    #[error("no line of the section begins a=fmtp:PT and a space")]
    NoFmtp = 7,
    /// An item without a name, or a value that isn't of its name's form.
    #[error("an item of a=fmtp:PT has no name, or a value that isn't of its name's form")]
    BadParameter = 8,
    /// Two items with one name.
    #[error("two items of a=fmtp:PT have one name")]
    DoubleParameter = 9,
    /// One of the eight required names isn't there.
    #[error("sampling, width, height, exactframerate, depth, colorimetry, PM or SSN is missing")]
    MissingParameter = 10,
    /// `sampling` is another than 4:2:2, 4:4:4 and RGB.
    #[error("the sampling is another than 4:2:2, 4:4:4 and RGB")]
    UnsupportedSampling = 11,
    /// `depth` is another than 8, 10, 12 and 16.
    #[error("the depth is another than 8, 10, 12 and 16")]
    UnsupportedDepth = 12,
    /// `interlace` or `segmented` is there.
    #[error("interlace or segmented is there")]
    Interlaced = 13,
    /// `PM` is another than general packing mode.
    #[error("the packing mode is another than general packing mode")]
    UnsupportedPacking = 14,
    /// `SSN` doesn't begin `ST2110-20:`.
    #[error("the value of SSN doesn't begin ST2110-20 and a colon")]
    BadSsn = 15,
    /// No `Format` has this size and rate.
    #[error("no format has this size and rate")]
    BadFormat = 16,
    /// Two sections differ in more than their ports.
    #[error("two sections differ in more than their ports")]
    LegsDiffer = 17,
}

impl SdpFault {
    /// The fault's number, 1 to 17, in the order in which faults are looked for.
    pub fn number(self) -> u8
        ensures { result ≡ sdp_fault_number self }
    {
        self as u8
    }

    /// Its bare name, as the texts of the program have it.
    pub fn name(self) -> &'static str
        ensures { result.now ≡ sdp_fault_name self }
    {
        match self {
            SdpFault::NoMemory => "NoMemory",
            SdpFault::NoVideo => "NoVideo",
            SdpFault::TooManyLegs => "TooManyLegs",
            SdpFault::BadMediaLine => "BadMediaLine",
            SdpFault::NoRtpmap => "NoRtpmap",
            SdpFault::NotRaw90000 => "NotRaw90000",
            SdpFault::NoFmtp => "NoFmtp",
            SdpFault::BadParameter => "BadParameter",
            SdpFault::DoubleParameter => "DoubleParameter",
            SdpFault::MissingParameter => "MissingParameter",
            SdpFault::UnsupportedSampling => "UnsupportedSampling",
            SdpFault::UnsupportedDepth => "UnsupportedDepth",
            SdpFault::Interlaced => "Interlaced",
            SdpFault::UnsupportedPacking => "UnsupportedPacking",
            SdpFault::BadSsn => "BadSsn",
            SdpFault::BadFormat => "BadFormat",
            SdpFault::LegsDiffer => "LegsDiffer",
        }
    }

    /// What was wanted where this fault comes, in words for a person.
    pub fn wanted(self) -> &'static str {
        match self {
            SdpFault::NoMemory => "more memory than there is",
            SdpFault::NoVideo => "a line that begins m=video and a space",
            SdpFault::TooManyLegs => "at most two sections m=video",
            SdpFault::BadMediaLine => "m=video PORT RTP/AVP PT, PORT to 65535 and PT to 127",
            SdpFault::NoRtpmap => "a=rtpmap:PT for the payload type of the line m=video",
            SdpFault::NotRaw90000 => "raw/90000 in a=rtpmap:PT",
            SdpFault::NoFmtp => "a=fmtp:PT for the payload type of the line m=video",
            SdpFault::BadParameter => "in a=fmtp:PT items NAME=VALUE, each value of its form",
            SdpFault::DoubleParameter => "in a=fmtp:PT each name once",
            SdpFault::MissingParameter => {
                "sampling, width, height, exactframerate, depth, colorimetry, PM and SSN in \
                 a=fmtp:PT"
            }
            SdpFault::UnsupportedSampling => "sampling=YCbCr-4:2:2, YCbCr-4:4:4 or RGB",
            SdpFault::UnsupportedDepth => "depth=8, 10, 12 or 16",
            SdpFault::Interlaced => "neither interlace nor segmented",
            SdpFault::UnsupportedPacking => "PM=2110GPM",
            SdpFault::BadSsn => "SSN=ST2110-20: and a year",
            SdpFault::BadFormat => "width, height and exactframerate of a format",
            SdpFault::LegsDiffer => {
                "two sections with one payload type, format, range and colorimetry"
            }
        }
    }
}

impl From<AllocError> for SdpFault {
    ghost from_gives = { λ _ e. e ≡ NoMemory };

    fn from(_e: AllocError) -> SdpFault {
        SdpFault::NoMemory
    }
}

impl<T: Drop> From<AllocFailed<T>> for SdpFault {
    ghost from_gives = { λ _ e. e ≡ NoMemory };

    fn from(_e: AllocFailed<T>) -> SdpFault {
        SdpFault::NoMemory
    }
}
