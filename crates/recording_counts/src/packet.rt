//! What is counted of a packet, and what it is found by.
ghost use Rattle.std.specs.Prelude.{◌≡◌};
ghost use Rattle.recording_counts.specs.Streams.{is_a, key_of};
ghost use Rattle.recording_counts.specs.Timestamps.{timestamp_key_of};

use st_format::Path;

/// What is counted of an RTP packet (RFC 3550, 5.1) that came by one of two paths.
#[derive(Clone, Copy, Debug, PartialEq, Eq)]
pub struct Packet {
    pub path: Path,
    /// The payload type, at most 127.
    pub payload_type: u8,
    /// The synchronization source.
    pub ssrc: u32,
    /// The sequence number, which rises by one from packet to packet, modulo 2^16.
    pub sequence: u16,
    /// The extended number, the upper 16 bits of the packet's number, where its payload has one
    /// (RFC 4175, 4.2).
    pub extended: Option<u16>,
    /// The time that the payload belongs to, for video in ticks of a 90 kHz clock.
    pub timestamp: u32,
    /// M. For video it is set on the last packet of a frame.
    pub marker: bool,
}

/// By what a stream is told from others: packets of one payload type and one source.
#[derive(Clone, Copy, Debug, PartialEq, Eq, PartialOrd, Ord)]
pub struct StreamKey {
    /// The payload type, at most 127.
    pub payload_type: u8,
    /// The synchronization source.
    pub ssrc: u32,
}

/// By what a timestamp is told from others: those of other streams may be the same.
#[derive(Clone, Copy, Debug, PartialEq, Eq, PartialOrd, Ord)]
pub struct TimestampKey {
    pub stream: StreamKey,
    pub timestamp: u32,
}

impl Packet {
    /// The stream that it is of, by its payload type and its source.
    pub fn stream(&self) -> StreamKey
        ensures { result ≡ key_of self.now }
    {
        StreamKey {
            payload_type: self.payload_type,
            ssrc: self.ssrc,
        }
    }

    /// Its timestamp, in ticks of a 90 kHz clock for video, with the stream that it is of.
    pub fn timestamp_key(&self) -> TimestampKey
        ensures { result ≡ timestamp_key_of self.now }
    {
        TimestampKey {
            stream: self.stream(),
            timestamp: self.timestamp,
        }
    }
}

pub(crate) fn is_a(path: Path) -> bool
    ensures { result ≡ is_a path }
{
    match path {
        Path::A => true,
        Path::B => false,
    }
}
