//! What a header says, and what can be wrong with one.
ghost use Rattle.std.specs.Prelude.{◌≡◌};
ghost use Rattle.rtp_header.specs.Faults.{rtp_fault_name, rtp_fault_number};

use thiserror::Error;

/// The octets of the fixed header (RFC 3550, 5.1).
pub(crate) const FIXED: usize = 12;

/// The one version (RFC 3550, 5.1).
pub(crate) const VERSION: u8 = 2;

/// Why octets are no RTP datagram: the first fault, in this order.
#[derive(Clone, Copy, Debug, PartialEq, Eq, Error)]
pub enum RtpFault {
    /// There are fewer than the 12 octets of the fixed header (RFC 3550, 5.1).
    #[error("there are fewer than the 12 octets of an RTP header")]
    ShortHeader = 1,
    /// The version is not 2 (RFC 3550, 5.1).
    #[error("the RTP version isn't 2")]
    BadVersion = 2,
    /// The list of contributing sources or the header extension isn't whole (RFC 3550, 5.1, 5.3.1).
    #[error("the list of contributing sources or the header extension isn't whole")]
    ShortExtension = 3,
    /// P is set, and the last octet, which counts the padding, is 0 or more than the octets behind
    /// the headers (RFC 3550, 5.1).
    #[error("the count of the padding is 0, or more than the octets behind the headers")]
    BadPadding = 4,
}

impl RtpFault {
    /// The fault's number, 1 to 4 in the order of the faults.
    pub fn number(self) -> u8
        ensures { result ≡ rtp_fault_number self }
    {
        self as u8
    }

    /// Its bare name, as the texts of the program have it.
    pub fn name(self) -> &'static str
        ensures { result.now ≡ rtp_fault_name self }
    {
        match self {
            RtpFault::ShortHeader => "ShortHeader",
            RtpFault::BadVersion => "BadVersion",
            RtpFault::ShortExtension => "ShortExtension",
            RtpFault::BadPadding => "BadPadding",
        }
    }
}

/// What a datagram says (RFC 3550, 5.1), and its payload, a part of the octets that were read.
#[derive(Clone, Copy, Debug, PartialEq, Eq)]
pub struct RtpView<'a> {
    /// M. For video it is set on the last packet of a frame.
    pub marker: bool,
    /// The payload type, at most 127.
    pub payload_type: u8,
    /// The sequence number, which rises by one from packet to packet.
    pub sequence: u16,
    /// The time that the payload belongs to, for video in ticks of a 90 kHz clock.
    pub timestamp: u32,
    /// The synchronization source.
    pub ssrc: u32,
    /// The octets behind the list of sources and the extension, without the padding.
    pub payload: &'a [u8],
}

/// What a fixed header is to say (RFC 3550, 5.1). It has no list of sources, no extension and no
/// padding.
#[derive(Clone, Copy, Debug, PartialEq, Eq)]
pub struct RtpHead {
    /// M. For video it is set on the last packet of a frame.
    pub marker: bool,
    /// The payload type, at most 127.
    pub payload_type: u8,
    /// The sequence number, which rises by one from packet to packet.
    pub sequence: u16,
    /// The time that the payload belongs to, for video in ticks of a 90 kHz clock.
    pub timestamp: u32,
    /// The synchronization source.
    pub ssrc: u32,
}
