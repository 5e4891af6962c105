//! The high halves of packet numbers (RFC 4175, 4.2).
ghost use Rattle.std.specs.Prelude.{◌≡◌};
ghost use Rattle.stream_inspection.specs.Numbers.{is_high, without_high};

use recording_counts::Packet;

/// Whether a packet says a high half of its number that isn't 0: a sender may leave it 0.
pub(crate) fn has_high(packet: &Packet) -> bool
    ensures { result ≡ is_high packet.now.extended }
{
    match packet.extended {
        Some(extended) => extended != 0,
        None => false,
    }
}

/// A packet as if its payload said no high half.
pub(crate) fn without_high(packet: &Packet) -> Packet
    ensures { result ≡ without_high packet.now }
{
    Packet {
        extended: None,
        ..*packet
    }
}
