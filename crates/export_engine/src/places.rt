//! Where the datagrams of the paths are sent.
ghost use Rattle.std.specs.Prelude.{◌≡◌, ◌≤◌, ◌<◌, ◌*◌, ◌^◌, IfSome, MatchOption, length};
ghost use Rattle.std.specs.Option.{option_copied};
ghost use Rattle.export_engine.specs.Packets.{AreEnvelopes, IsEnvelopeText, can_say};
ghost use Rattle.export_engine.specs.Packets.{envelope_4, envelope_6, envelope_from, envelope_of};
ghost use Rattle.export_engine.specs.Packets.{most_payload, sent_by};

use crate::exporting::Exporting;
use flow::read_flow;
use media_file::RecordHead;
use pcap_file::{Envelope, Envelope6};
use st_format::Path;
use std::net::{IpAddr, Ipv4Addr, Ipv6Addr};

/// The address of IPv4 that sends: one for documentation (RFC 5737, 3).
const SENDER: [u8; 4] = [192, 0, 2, 1];

/// The address of IPv6 that sends, 2001:db8::1: one for documentation (RFC 3849, 2).
const SENDER6: [u8; 16] = [0x20, 0x01, 0x0d, 0xb8, 0, 0, 0, 0, 0, 0, 0, 0, 0, 0, 0, 1];

/// How many octets a datagram over IPv4 has at most: a packet has 65,535 with its header and that
/// of UDP (RFC 791, 3.1; RFC 768).
const MOST_PAYLOAD: usize = 65_507;

/// How many octets a datagram over IPv6 has at most: a packet has 65,535 behind its header, with
/// that of UDP (RFC 8200, 3; RFC 768).
pub(crate) const MOST_PAYLOAD6: usize = 65_527;

/// The first time in nanoseconds that pcap can't say: its seconds have 32 bits.
const TIMES: u64 = 4_294_967_296_000_000_000;

/// Whence a datagram comes and where to it goes, by the version of IP.
#[derive(Clone, Copy)]
pub enum IpEnvelope {
    V4(Envelope),
    V6(Envelope6),
}

/// How the datagrams of the two paths are sent; those of B where that is said.
#[derive(Clone, Copy)]
pub struct Envelopes {
    pub a: IpEnvelope,
    pub b: Option<IpEnvelope>,
}

/// From the octets of a source to an address and a port, and from the same port: a flow names one.
fn envelope_4(source: [u8; 4], address: Ipv4Addr, port: u16) -> IpEnvelope
    ensures { result ≡ envelope_4 source address port }
{
    IpEnvelope::V4(Envelope {
        source,
        destination: address.octets(),
        source_port: port,
        destination_port: port,
    })
}

/// The same of IPv6.
fn envelope_6(source: [u8; 16], address: Ipv6Addr, port: u16) -> IpEnvelope
    ensures { result ≡ envelope_6 source address port }
{
    IpEnvelope::V6(Envelope6 {
        source,
        destination: address.octets(),
        source_port: port,
        destination_port: port,
    })
}

/// From a source to an address and a port, and where none is named from the sender of the
/// address's version; none where the source is of the other version.
fn envelope_from(source: Option<IpAddr>, address: IpAddr, port: u16) -> Option<IpEnvelope>
    ensures { result ≡ envelope_from source address port }
{
    match (source, address) {
        (None, IpAddr::V4(to)) => Some(envelope_4(SENDER, to, port)),
        (None, IpAddr::V6(to)) => Some(envelope_6(SENDER6, to, port)),
        (Some(IpAddr::V4(from)), IpAddr::V4(to)) => Some(envelope_4(from.octets(), to, port)),
        (Some(IpAddr::V6(from)), IpAddr::V6(to)) => Some(envelope_6(from.octets(), to, port)),
        (Some(IpAddr::V4(_)), IpAddr::V6(_)) | (Some(IpAddr::V6(_)), IpAddr::V4(_)) => None,
    }
}

/// Reads a flow to an address, whose source, where it names one, is of the same version, and which
/// names no interface: the classic layout of recordings has no place for one.
fn read_envelope(text: &[u8]) -> Option<IpEnvelope>
    ensures { MatchOption result ((e : IpEnvelope) → IsEnvelopeText text.now e → ⊥)
        (IsEnvelopeText text.now) }
{
    let Some(flow) = read_flow(text) else {
        return None;
    };
    if flow.interface.is_some() {
        return None;
    }
    let Some(address) = flow.address else {
        return None;
    };
    envelope_from(flow.source, address, flow.port)
}

impl Envelopes {
    /// Reads the flows of the paths; none where a text is no flow to an address.
    pub fn read(wanted: &Exporting<'_>) -> Option<Envelopes>
        ensures { MatchOption result
            ((es : Envelopes) → AreEnvelopes wanted.now.a.now (option_copied wanted.now.b) es → ⊥)
            (AreEnvelopes wanted.now.a.now (option_copied wanted.now.b)) }
    {
        let a = read_envelope(wanted.a)?;
        match wanted.b {
            None => Some(Envelopes { a, b: None }),
            Some(text) => {
                let b = read_envelope(text)?;
                Some(Envelopes { a, b: Some(b) })
            }
        }
    }

    fn of(&self, path: Path) -> Option<IpEnvelope>
        ensures { result ≡ envelope_of self.now path }
    {
        match path {
            Path::A => Some(self.a),
            Path::B => self.b,
        }
    }

    /// How a record's datagram is sent; none where it is left out: its path has no flow, it has
    /// more octets than a packet has room for, or pcap can't say its moment.
    pub(crate) fn sent(&self, head: RecordHead, octets: &[u8]) -> Option<IpEnvelope>
        ensures sent { result ≡ sent_by self.now (record {
          path = head.path;
          moment = head.moment;
          octets = octets.now;
        }) }
        ensures few { IfSome result (λ e. length octets.now ≤ most_payload e) }
        ensures time { IfSome result (λ _. head.moment < 2 ^ 32 * 1000000000) }
    {
        match self.of(head.path) {
            Some(envelope) if envelope.can_say(head.moment, octets.len()) => Some(envelope),
            _ => None,
        }
    }
}

impl IpEnvelope {
    fn most_payload(&self) -> usize
        ensures { result ≡ most_payload self.now }
    {
        match self {
            IpEnvelope::V4(_) => MOST_PAYLOAD,
            IpEnvelope::V6(_) => MOST_PAYLOAD6,
        }
    }

    /// Whether a datagram of so many octets at this moment has a packet, which pcap can say.
    fn can_say(&self, moment: u64, count: usize) -> bool
        ensures { result ≡ can_say self.now moment count }
    {
        count <= self.most_payload() && moment < TIMES
    }
}
