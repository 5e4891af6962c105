//! What steers files that are read side by side.
ghost use Rattle.std.specs.Prelude.{◌≡◌};
ghost use Rattle.side_by_side.specs.Steering.{stamp_of};

use rtp_header::read_rtp;

/// Whose timestamps steer: those of the datagrams of one stream.
#[derive(Clone, Copy, Debug, PartialEq, Eq)]
pub struct Steering {
    /// The payload type of the stream, at most 127.
    pub payload_type: u8,
    /// Its source (SSRC), where one is pinned.
    pub ssrc: Option<u32>,
}

/// The timestamp by which a datagram goes, in 90 kHz ticks: that of its header (RFC 3550, 5.1),
/// where it has one with the payload type and the source that steer. None of any other, as of RTCP.
#[tactic(auto, unfolding(crate::specs::Steering::stamp_of))]
pub(crate) fn stamp_of(steering: Steering, octets: &[u8]) -> Option<u32>
    ensures { result ≡ stamp_of steering octets.now }
{
    let Ok(header) = read_rtp(octets) else {
        return None;
    };
    if header.payload_type != steering.payload_type {
        return None;
    }
    if let Some(pinned) = steering.ssrc
        && pinned != header.ssrc
    {
        return None;
    }
    Some(header.timestamp)
}
