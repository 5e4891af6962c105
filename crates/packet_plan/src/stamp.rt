//! What the datagrams of a picture have in common.

/// What the datagrams of one picture have in common, and the number that they begin with.
#[derive(Clone, Copy, Debug, PartialEq, Eq)]
pub struct Stamp {
    /// The payload type, at most 127 (RFC 3550, 5.1).
    pub payload_type: u8,
    /// The number of the picture's first packet. Numbers run on modulo 2^32: the high half is the
    /// extended number (RFC 4175, 4.1), the low half the sequence number (RFC 3550, 5.1).
    pub first: u32,
    /// The time of the picture, in ticks of a 90 kHz clock.
    pub timestamp: u32,
    /// The synchronization source.
    pub ssrc: u32,
}
