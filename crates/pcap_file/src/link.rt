//! The link layers of recordings, and the IP packet behind their headers.
ghost use Rattle.std.specs.Prelude.{◌≡◌, ◌≤◌, ◌+◌, ◌↔◌, ℕ, List, length, take, IfErr, IfOk};
ghost use Rattle.std.specs.Prelude.{IsErrOf};
ghost use Rattle.std.specs.Prelude.{Ok, Err};
ghost use Rattle.pcap_file.specs.declared.link.IpVersion.{IpVersion as Version};
ghost use Rattle.st_format.specs.Reading.{Gives};
ghost use Rattle.pcap_file.specs.Link.{begins_tag, is_tag_type, link_of, packet_place};
ghost use Rattle.pcap_file.specs.Link.{said_version, tag_octets, type_place, version_of_either};
ghost use Rattle.pcap_file.specs.Link.{version_of_family, version_of_packet, version_of_type};
ghost use Rattle.pcap_file.specs.Link.{IsLinked};
ghost use Rattle.pcap_file.specs.Reading.{link_at, version_or};
ghost use Rattle.pcap_file.specs.Reasons.{IsNoLink};
ghost use Rattle.pcap_file.specs.Views.{seen_link};
ghost use Rattle.pcap_file.specs.declared.datagram.NoDatagram.{NoDatagram as Reason};

use crate::datagram::NoDatagram;
use crate::numbers::number_16;

/// A version of IP: 4 (RFC 791) or 6 (RFC 8200).
#[derive(Clone, Copy)]
pub enum IpVersion {
    V4,
    V6,
}

/// A link layer: what stands before a packet in a recording. The numbers are those of the registry
/// of link-layer header types.
#[derive(Clone, Copy)]
pub enum Link {
    /// 0: the family of addresses in four octets, in the order of the machine that recorded.
    Null,
    /// 1: Ethernet, with up to two tags of IEEE 802.1Q.
    Ethernet,
    /// 101: nothing; the packet says its version.
    Ip,
    /// 108: the family of addresses in four octets, most significant first.
    Loop,
    /// 113: Linux "cooked" capture, with up to two tags of IEEE 802.1Q.
    Cooked,
    /// 228: nothing, before a packet of IPv4.
    Ip4,
    /// 229: nothing, before a packet of IPv6.
    Ip6,
    /// 276: Linux "cooked" capture, version 2.
    Cooked2,
}

/// What stands behind the header of a link layer: a part of the octets that were read.
#[derive(Clone, Copy)]
pub struct LinkView<'a> {
    /// The version of IP that the header says.
    pub version: IpVersion,
    /// The packet, and whatever stands behind it.
    pub packet: &'a [u8],
}

impl Link {
    /// The link layer of a number, if it is read.
    pub fn from_number(number: u16) -> Option<Link>
        ensures { result ≡ link_of number }
    {
        match number {
            0 => Some(Link::Null),
            1 => Some(Link::Ethernet),
            101 => Some(Link::Ip),
            108 => Some(Link::Loop),
            113 => Some(Link::Cooked),
            228 => Some(Link::Ip4),
            229 => Some(Link::Ip6),
            276 => Some(Link::Cooked2),
            _ => None,
        }
    }
}

/// The version of IP that an EtherType is of.
fn version_of_type(number: u16) -> Option<IpVersion>
    ensures { result ≡ version_of_type number }
{
    if number == 0x0800 {
        return Some(IpVersion::V4);
    }
    if number == 0x86dd {
        return Some(IpVersion::V6);
    }
    None
}

/// The version of IP that a family of addresses is of. IPv4's is 2; IPv6's is 24, 28 or 30, by the
/// system that recorded.
fn version_of_family(number: u32) -> Option<IpVersion>
    ensures { result ≡ version_of_family number }
{
    if number == 2 {
        return Some(IpVersion::V4);
    }
    if number == 24 || number == 28 || number == 30 {
        return Some(IpVersion::V6);
    }
    None
}

/// The version by the family in four octets of either order.
fn version_of_either(four: [u8; 4]) -> Option<IpVersion>
    ensures { result ≡ version_of_either four }
{
    match version_of_family(u32::from_be_bytes(four)) {
        Some(version) => Some(version),
        None => version_of_family(u32::from_le_bytes(four)),
    }
}

/// The version that a packet says in its first four bits (RFC 791, 3.1; RFC 8200, 3).
fn version_of_packet(packet: &[u8]) -> Option<IpVersion>
    ensures { result ≡ version_of_packet packet.now }
{
    let Some(&first) = packet.first() else {
        return None;
    };
    if first / 16 == 4 {
        return Some(IpVersion::V4);
    }
    if first / 16 == 6 {
        return Some(IpVersion::V6);
    }
    None
}

fn begins_tag(octets: &[u8]) -> bool
    ensures { result ≡ begins_tag octets.now }
{
    if octets.len() < 2 {
        return false;
    }
    let number = number_16(octets, 0);
    number == 0x8100 || number == 0x88a8
}

/// How many octets the tags at the front have, of at most two.
fn tag_octets(octets: &[u8]) -> usize
    ensures value { result ≡ tag_octets 2 octets.now }
    ensures few { result ≤ 8 }
{
    if !begins_tag(octets) {
        return 0;
    }
    if octets.len() < 4 {
        return 4;
    }
    if !begins_tag(&octets[4..]) {
        return 4;
    }
    8
}

/// Where the EtherType stands, behind `count` octets and at most two tags.
fn type_place(octets: &[u8], count: usize) -> usize
    requires { count ≤ 14 }
    ensures value { result ≡ type_place count octets.now }
    ensures few { result ≤ 22 }
{
    if octets.len() < count {
        return count;
    }
    count + tag_octets(&octets[count..])
}

fn packet_place(link: Link, octets: &[u8]) -> usize
    ensures { result ≡ packet_place link octets.now }
{
    match link {
        Link::Null | Link::Loop => 4,
        Link::Ethernet => type_place(octets, 12) + 2,
        Link::Cooked => type_place(octets, 14) + 2,
        Link::Ip | Link::Ip4 | Link::Ip6 => 0,
        Link::Cooked2 => 20,
    }
}

/// The version that a whole header says.
fn said_version(link: Link, octets: &[u8]) -> Option<IpVersion>
    requires { packet_place link octets.now ≤ length octets.now }
    ensures { result ≡ said_version link octets.now }
{
    match link {
        Link::Null => version_of_either([octets[0], octets[1], octets[2], octets[3]]),
        Link::Ethernet => version_of_type(number_16(octets, type_place(octets, 12))),
        Link::Ip => version_of_packet(octets),
        Link::Loop => version_of_family(u32::from_be_bytes([
            octets[0], octets[1], octets[2], octets[3],
        ])),
        Link::Cooked => version_of_type(number_16(octets, type_place(octets, 14))),
        Link::Ip4 => Some(IpVersion::V4),
        Link::Ip6 => Some(IpVersion::V6),
        Link::Cooked2 => {
            let (header, _) = octets.split_at(20);
            version_of_type(number_16(header, 0))
        }
    }
}

/// What reading from the left gives.
#[tactic(auto, unfolding(crate::specs::Reading::link_at))]
fn read(link: Link, octets: &[u8]) -> Result<LinkView<'_>, NoDatagram>
    ensures exact { Gives seen_link result (link_at link octets.now) }
{
    let place = packet_place(link, octets);
    if octets.len() < place {
        return Err(NoDatagram::CutShort);
    }
    match said_version(link, octets) {
        Some(version) => {
            let (_, packet) = octets.split_at(place);
            Ok(LinkView { version, packet })
        }
        None => Err(NoDatagram::NotIp),
    }
}

/// The IP packet behind the header of a link layer, and its version.
///
/// # Errors
///
/// - `CutShort`: the header isn't whole.
/// - `NotIp`: it says no version of IP.
pub fn read_link(link: Link, octets: &[u8]) -> Result<LinkView<'_>, NoDatagram>
    // What is read is in the grammar.
    ensures found { IfOk result (λ v. IsLinked link octets.now v.version v.packet.now) }
    // What is in the grammar is read so.
    ensures only { (version : Version) (packet : List ℕ) → IsLinked link octets.now version packet
        → Gives seen_link result (Ok (version, packet)) }
    // Each reason comes exactly where its condition holds.
    ensures refused { (reason : Reason) → (result ≡ Err reason) ↔ IsNoLink link octets.now reason }
    // The answer as a walk over the octets, for the walks that go on from it.
    ensures exact { Gives seen_link result (link_at link octets.now) }
{
    read(link, octets)
}
