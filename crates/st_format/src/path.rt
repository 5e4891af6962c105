//! The two redundant paths.

/// One of the two paths over which the same RTP packets are sent (SMPTE ST 2022-7).
///
/// A receiver takes both alike: a datagram means the same by either path.
#[derive(Clone, Copy, Debug, PartialEq, Eq)]
pub enum Path {
    A,
    B,
}
