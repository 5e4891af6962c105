//! What a datagram is counted as.
ghost use Rattle.std.specs.Prelude.{◌≡◌};
ghost use Rattle.stream_inspection.specs.Arrivals.{Looks, answer_by, extended_in};
ghost use Rattle.stream_inspection.specs.Arrivals.{packet_of};
ghost use Rattle.rtp_header.specs.Views.{seen_rtp};

use crate::target::Target;
use path_receiver::{Refusal, Taken};
use payload_header::read_payload;
use recording_counts::Packet;
use rtp_header::{RtpView, read_rtp};
use st_format::Path;

/// What a receiver of a format and a payload type, whatever the source and the timestamp, answers
/// to a datagram, and the packet that it is where it has a header (RFC 3550, 5.1).
#[derive(Clone, Copy)]
pub(crate) struct Look {
    pub(crate) answer: Result<Taken, Refusal>,
    pub(crate) packet: Option<Packet>,
}

/// What a datagram that came by a path is.
pub(crate) fn look_at(target: &Target, path: Path, octets: &[u8]) -> Look
    ensures { Looks target.now path octets.now result }
{
    let header = match read_rtp(octets) {
        Ok(header) => header,
        Err(fault) => {
            return Look {
                answer: Err(Refusal::Header(fault)),
                packet: None,
            };
        }
    };
    Look {
        answer: answer(target, &header),
        packet: Some(packet(target, path, &header)),
    }
}

/// What a receiver answers to a datagram with this header.
fn answer(target: &Target, header: &RtpView<'_>) -> Result<Taken, Refusal>
    ensures { result ≡ answer_by target.now (seen_rtp header.now) }
{
    if header.payload_type != target.payload_type {
        return Err(Refusal::WrongPayloadType);
    }
    let payload = read_payload(&target.format, header.payload)?;
    Ok(Taken::Kept(65536 * u32::from(payload.extended) + u32::from(header.sequence)))
}

/// The packet with this header. It has an extended number only if it has the payload type.
fn packet(target: &Target, path: Path, header: &RtpView<'_>) -> Packet
    ensures { result ≡ packet_of target.now path (seen_rtp header.now) }
{
    let is_video = header.payload_type == target.payload_type;
    Packet {
        path,
        payload_type: header.payload_type,
        ssrc: header.ssrc,
        sequence: header.sequence,
        extended: extended(is_video, header.payload),
        timestamp: header.timestamp,
        marker: header.marker,
    }
}

/// The extended number in front of a payload of video (RFC 4175, 4.2).
fn extended(is_video: bool, payload: &[u8]) -> Option<u16>
    ensures { result ≡ extended_in is_video payload.now }
{
    if is_video && payload.len() >= 2 {
        Some(256 * u16::from(payload[0]) + u16::from(payload[1]))
    } else {
        None
    }
}
