//! A packet as a datagram, and where the datagram's octets stand in it.
ghost use Rattle.std.specs.Prelude.{◌≡◌, ◌≤◌, ◌+◌, length, IfOk};
ghost use Rattle.pcap_file.specs.Ip.{header_octets};
ghost use Rattle.pcap_file.specs.Link.{link_of};
ghost use Rattle.pcap_file.specs.PacketDatagram.{walk_of};
ghost use Rattle.pcap_file.specs.Parts.{number_16};
ghost use Rattle.pcap_file.specs.Reading.{datagram_walk};
ghost use Rattle.pcap_file.specs.Views.{seen_datagram};
ghost use Rattle.recording_reader.specs.Found.{CanCarry, StandAt, carried_place};
ghost use Rattle.st_format.specs.Reading.{Gives};

use pcap_file::{
    DatagramView, IpVersion, Link, NoDatagram, PacketHead, number_16, read_link, read_packet,
    read_udp,
};

/// A datagram, and how many octets of its packet stand before its own.
#[derive(Clone, Copy)]
pub(crate) struct Placed<'a> {
    pub datagram: DatagramView<'a>,
    pub place: usize,
}

/// The octets of a header of IPv6 (RFC 8200, 3).
const HEADER_6: usize = 40;

/// The octets of a header of UDP (RFC 768).
const HEADER_UDP: usize = 8;

/// The octets of a header of IPv4, with its options.
fn header_4(packet: &[u8]) -> usize
    requires { 20 ≤ length packet.now }
    ensures { result ≡ header_octets packet.now }
{
    4 * (packet[0] % 16) as usize
}

/// Where in an IP packet its last octets of so many stand that it carries for UDP: behind header
/// and options (RFC 791, 3.1), or header and extensions (RFC 8200, 4).
fn carried_place(version: IpVersion, packet: &[u8], count: usize) -> usize
    requires { CanCarry version packet.now count }
    ensures { result ≡ carried_place version packet.now count }
{
    match version {
        IpVersion::V4 => header_4(packet),
        IpVersion::V6 => HEADER_6 + number_16(packet, 4) as usize - count,
    }
}

/// Reads a packet as a datagram whose link layer this is, and tells where its octets stand.
#[tactic(auto, unfolding(pcap_file::specs::Reading::datagram_walk))]
fn read_by_link(link: Link, octets: &[u8]) -> Result<Placed<'_>, NoDatagram>
    ensures exact { Gives (λ p. seen_datagram p.datagram) result (datagram_walk link octets.now) }
    ensures few { IfOk result (λ p. length p.datagram.payload.now ≤ 65535) }
    ensures stands { IfOk result (λ p. StandAt p.place p.datagram.payload.now octets.now) }
{
    let inner = read_link(link, octets)?;
    let packet = read_packet(inner.version, inner.packet)?;
    let datagram = read_udp(&packet)?;
    let front = octets.len() - inner.packet.len();
    let behind = carried_place(inner.version, inner.packet, packet.carried.len());
    let place = front + behind + HEADER_UDP;
    Ok(Placed { datagram, place })
}

/// Reads the octets of a packet of a recording as a datagram of UDP, and tells where the
/// datagram's own octets stand in them.
///
/// # Errors
///
/// Why it is none.
pub(crate) fn read_placed<'a>(head: &PacketHead, octets: &'a [u8]) -> Result<Placed<'a>, NoDatagram>
    ensures exact { Gives (λ p. seen_datagram p.datagram) result
        (walk_of (link_of head.now.link) octets.now) }
    ensures few { IfOk result (λ p. length p.datagram.payload.now ≤ 65535) }
    ensures stands { IfOk result (λ p. StandAt p.place p.datagram.payload.now octets.now) }
{
    match Link::from_number(head.link) {
        Some(link) => read_by_link(link, octets),
        None => Err(NoDatagram::NotIp),
    }
}
