//! A recorded packet as a UDP datagram, or the reason why it is none.
ghost use Rattle.std.specs.Prelude.{◌≡◌, ◌≤◌, ◌+◌, ◌↔◌, ℕ, List, length, take, IfErr, IfOk};
ghost use Rattle.std.specs.Prelude.{IsErrOf};
ghost use Rattle.std.specs.Prelude.{IsOkAnd, Err};
ghost use Rattle.st_format.specs.Reading.{Gives};
ghost use Rattle.pcap_file.specs.Datagram.{IsDatagram};
ghost use Rattle.pcap_file.specs.Link.{link_of};
ghost use Rattle.pcap_file.specs.PacketDatagram.{HasDatagram, LacksDatagram, walk_of};
ghost use Rattle.pcap_file.specs.Reading.{datagram_walk};
ghost use Rattle.pcap_file.specs.Reasons.{IsNoDatagram, reason_name, reason_number};
ghost use Rattle.pcap_file.specs.Udp.{Datagram};
ghost use Rattle.pcap_file.specs.Views.{seen_datagram};
ghost use Rattle.pcap_file.specs.declared.datagram.NoDatagram.{NoDatagram as Reason};

use crate::ip::read_packet;
use crate::link::{Link, read_link};
use crate::pcap::PacketHead;
use crate::udp::read_udp;
use thiserror::Error;

/// Why a recorded packet is no UDP datagram.
///
/// The layers are looked at from the left, each whole before the next: the link layer's header
/// (`CutShort`, `NotIp`), the IP packet (`CutShort`, `BadIpHeader`, `NotUdp`, `Fragment`), UDP
/// (`BadUdpLength`). This order is the project's own.
#[derive(Clone, Copy, Debug, PartialEq, Eq, Error)]
pub enum NoDatagram {
    /// The octets end before the header of the link layer or the IP packet does: the recorder cut
    /// it short.
    #[error("the recorder cut the packet short")]
    CutShort = 1,
    /// The link layer says that it is no IP packet.
    #[error("the link layer says that it is no IP packet")]
    NotIp = 2,
    /// The header of the IP packet can't be one, or an extension of it isn't whole.
    #[error("the header of the IP packet can't be one, or an extension of it isn't whole")]
    BadIpHeader = 3,
    /// The IP packet carries something else.
    #[error("the IP packet carries something else than UDP")]
    NotUdp = 4,
    /// It is a fragment of an IP packet.
    #[error("it is a fragment of an IP packet")]
    Fragment = 5,
    /// The header of UDP isn't whole, or says fewer octets than it has or more than there are.
    #[error("the length of UDP doesn't fit what is there")]
    BadUdpLength = 6,
}

impl NoDatagram {
    /// The reason's number, 1 to 6.
    pub fn number(self) -> u8
        ensures { result ≡ reason_number self }
    {
        self as u8
    }

    /// Its bare name, as the texts of the program have it.
    pub fn name(self) -> &'static str
        ensures { result.now ≡ reason_name self }
    {
        match self {
            NoDatagram::CutShort => "CutShort",
            NoDatagram::NotIp => "NotIp",
            NoDatagram::BadIpHeader => "BadIpHeader",
            NoDatagram::NotUdp => "NotUdp",
            NoDatagram::Fragment => "Fragment",
            NoDatagram::BadUdpLength => "BadUdpLength",
        }
    }
}

/// What a datagram says: addresses and octets are parts of the octets that were read.
#[derive(Clone, Copy)]
pub struct DatagramView<'a> {
    /// Whence: 4 octets of IPv4, or 16 of IPv6.
    pub source: &'a [u8],
    /// Where to: as many.
    pub destination: &'a [u8],
    pub source_port: u16,
    pub destination_port: u16,
    /// Its octets, maybe none.
    pub payload: &'a [u8],
}

/// What reading from the left gives.
#[tactic(auto, unfolding(crate::specs::Reading::datagram_walk))]
fn read(link: Link, octets: &[u8]) -> Result<DatagramView<'_>, NoDatagram>
    ensures exact { Gives seen_datagram result (datagram_walk link octets.now) }
    ensures few { IfOk result (λ v. length v.payload.now ≤ 65535) }
{
    let inner = read_link(link, octets)?;
    let packet = read_packet(inner.version, inner.packet)?;
    read_udp(&packet)
}

/// Reads a recorded packet as a UDP datagram: its addresses, ports and octets, or the reason why it
/// is none. The octets are those that the recorder kept, the header of the link layer first.
///
/// # Errors
///
/// The reason, in the order of the layers ([`NoDatagram`]).
pub fn read_datagram(link: Link, octets: &[u8]) -> Result<DatagramView<'_>, NoDatagram>
    // What is read is in the grammar.
    ensures found { IfOk result (λ v. IsDatagram link octets.now (seen_datagram v)) }
    // What is in the grammar is read so: it has one reading.
    ensures only { (d : Datagram) → IsDatagram link octets.now d
        → IsOkAnd result (λ v. seen_datagram v ≡ d) }
    // A reason comes only where nothing in the grammar fits.
    ensures none { IfErr result (λ _. (d : Datagram) → IsDatagram link octets.now d → ⊥) }
    // Each reason comes exactly where its condition holds.
    ensures refused { (reason : Reason) →
        (result ≡ Err reason) ↔ IsNoDatagram link octets.now reason }
    // The answer as a walk over the octets.
    ensures exact { Gives seen_datagram result (datagram_walk link octets.now) }
    // It has no more octets than its length can say.
    ensures few { IfOk result (λ v. length v.payload.now ≤ 65535) }
{
    read(link, octets)
}

/// Reads the octets of a packet of a recording as a UDP datagram, by the link layer that its head
/// says, or the reason why it is none.
///
/// # Errors
///
/// `NotIp` where the link layer is not read ([`Link::from_number`]), and the reasons of
/// [`read_datagram`].
pub fn packet_datagram<'a>(
    packet: &PacketHead,
    octets: &'a [u8],
) -> Result<DatagramView<'a>, NoDatagram>
    // What is read is in the grammar.
    ensures found { IfOk result
        (λ v. HasDatagram packet.now.link octets.now (seen_datagram v)) }
    // What is in the grammar is read so.
    ensures only { (d : Datagram) → HasDatagram packet.now.link octets.now d
        → IsOkAnd result (λ v. seen_datagram v ≡ d) }
    // Each reason comes exactly where its condition holds.
    ensures refused { (reason : Reason) →
        (result ≡ Err reason) ↔ LacksDatagram packet.now.link octets.now reason }
    // The answer as a walk over the octets.
    ensures exact { Gives seen_datagram result (walk_of (link_of packet.now.link) octets.now) }
    // It has no more octets than its length can say.
    ensures few { IfOk result (λ v. length v.payload.now ≤ 65535) }
{
    match Link::from_number(packet.link) {
        Some(link) => read_datagram(link, octets),
        None => Err(NoDatagram::NotIp),
    }
}
