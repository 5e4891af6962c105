//! A datagram that is noted.
use std::net::SocketAddr;

/// A UDP datagram that is noted (RFC 768).
#[derive(Clone, Copy)]
pub struct Noted<'a> {
    /// When it was recorded, in nanoseconds since 1970, where that is known.
    pub time: Option<u64>,
    /// The address and the port that it was sent to.
    pub destination: SocketAddr,
    /// Its octets, maybe none.
    pub payload: &'a [u8],
}
