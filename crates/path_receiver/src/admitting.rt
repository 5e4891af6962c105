//! Which datagrams are for a receiver.
ghost use Rattle.std.specs.Prelude.{◌≡◌, ◌+◌, ◌*◌, IfOk};
ghost use Rattle.path_receiver.specs.Admission.{datagram_walk, datagram_of};
ghost use Rattle.st_format.specs.Reading.{Gives};

use crate::answer::Refusal;
use payload_header::{PayloadView, read_payload};
use rtp_header::{RtpView, read_rtp};
use st_format::Format;

/// A datagram that is not refused: its header, and its payload.
#[derive(Drop)]
pub struct Admitted<'a> {
    pub header: RtpView<'a>,
    pub payload: PayloadView<'a>,
}

/// What a datagram says to a receiver of this format, payload type and pinned source, or the first
/// refusal.
#[tactic(auto, unfolding(crate::specs::Admission::datagram_walk))]
pub fn admit<'a>(
    format: &Format,
    payload_type: u8,
    ssrc: Option<u32>,
    octets: &'a [u8],
) -> Result<Admitted<'a>, Refusal>
    ensures exact { Gives datagram_of result
        (datagram_walk format.now payload_type ssrc octets.now) }
    ensures format { IfOk result (λ a. a.payload.format ≡ format.now) }
{
    let header = read_rtp(octets)?;
    if header.payload_type != payload_type {
        return Err(Refusal::WrongPayloadType);
    }
    if let Some(pinned) = ssrc
        && pinned != header.ssrc
    {
        return Err(Refusal::WrongSource);
    }
    let payload = read_payload(format, header.payload)?;
    Ok(Admitted { header, payload })
}

/// A packet number: the extended number is its high half, the sequence number its low half (RFC
/// 4175, 4.1).
pub fn packet_number(extended: u16, sequence: u16) -> u32
    ensures { result ≡ 65536 * extended + sequence }
{
    65536 * u32::from(extended) + u32::from(sequence)
}
