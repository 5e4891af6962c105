//! IP packets that carry UDP.
ghost use Rattle.std.specs.Prelude.{◌≡◌, ◌≤◌, ◌+◌, ◌↔◌, ℕ, List, length, take, IfErr, IfOk};
ghost use Rattle.std.specs.Prelude.{IsErrOf};
ghost use Rattle.std.specs.Prelude.{IsOkAnd, Err, None};
ghost use Rattle.st_format.specs.Reading.{Gives};
ghost use Rattle.pcap_file.specs.Ip.{IsUdpPacket, Packet, is_passed};
ghost use Rattle.pcap_file.specs.Reading.{carried_at, packet_4_at, packet_6_at, packet_at};
ghost use Rattle.pcap_file.specs.Reading.{ending, reason_4, reason_6};
ghost use Rattle.pcap_file.specs.Reasons.{IsNoPacket};
ghost use Rattle.pcap_file.specs.Views.{seen_packet};
ghost use Rattle.pcap_file.specs.declared.datagram.NoDatagram.{NoDatagram as Reason};

use crate::datagram::NoDatagram;
use crate::link::IpVersion;
use crate::numbers::number_16;

/// The octets of a header of IPv4 without options.
const HEADER_4: usize = 20;

/// The octets of a header of IPv6 (RFC 8200, 3).
const HEADER_6: usize = 40;

/// The number of UDP among protocols.
const UDP: u8 = 17;

/// The number of a fragment's header among the headers of IPv6.
const FRAGMENT: u8 = 44;

/// What a packet says: each is a part of the octets that were read.
#[derive(Clone, Copy)]
pub struct PacketView<'a> {
    /// Whence: 4 octets, or 16.
    pub source: &'a [u8],
    /// Where to: as many.
    pub destination: &'a [u8],
    /// What it carries for UDP.
    pub carried: &'a [u8],
}

/// What speaks against a header of IPv4, where so many octets are there.
fn reason_4(header: &[u8], there: usize) -> Option<NoDatagram>
    requires { length header.now ≡ 20 }
    ensures { result ≡ reason_4 header.now there }
{
    let octets = 4 * (header[0] % 16) as usize;
    let total = number_16(header, 2) as usize;
    if header[0] / 16 != 4 || octets < HEADER_4 || total < octets {
        return Some(NoDatagram::BadIpHeader);
    }
    if there < total {
        return Some(NoDatagram::CutShort);
    }
    if header[9] != UDP {
        return Some(NoDatagram::NotUdp);
    }
    if number_16(header, 6) % 0x4000 != 0 {
        return Some(NoDatagram::Fragment);
    }
    None
}

#[tactic(auto, unfolding(crate::specs::Reading::packet_4_at))]
fn read_4(octets: &[u8]) -> Result<PacketView<'_>, NoDatagram>
    ensures { Gives seen_packet result (packet_4_at octets.now) }
{
    if octets.len() < HEADER_4 {
        return Err(NoDatagram::CutShort);
    }
    let (header, _) = octets.split_at(HEADER_4);
    if let Some(reason) = reason_4(header, octets.len()) {
        return Err(reason);
    }
    let (whole, _) = octets.split_at(number_16(header, 2) as usize);
    let (_, carried) = whole.split_at(4 * (header[0] % 16) as usize);
    Ok(PacketView {
        source: &header[12..16],
        destination: &header[16..20],
        carried,
    })
}

/// What speaks against a header of IPv6, where so many octets are behind it.
fn reason_6(header: &[u8], there: usize) -> Option<NoDatagram>
    requires { length header.now ≡ 40 }
    ensures { result ≡ reason_6 header.now there }
{
    if header[0] / 16 != 6 {
        return Some(NoDatagram::BadIpHeader);
    }
    if there < number_16(header, 4) as usize {
        return Some(NoDatagram::CutShort);
    }
    None
}

/// Whether an extension of this number is passed over.
fn is_passed(number: u8) -> bool
    ensures { result ≡ is_passed number }
{
    number == 0 || number == 43 || number == 60
}

/// What is behind the extensions, by its number.
fn ending(last: u8, rest: &[u8]) -> Result<&[u8], NoDatagram>
    ensures { Gives (λ x. x.now) result (ending last rest.now) }
{
    if is_passed(last) {
        return Err(NoDatagram::BadIpHeader);
    }
    if last == UDP {
        return Ok(rest);
    }
    if last == FRAGMENT {
        return Err(NoDatagram::Fragment);
    }
    Err(NoDatagram::NotUdp)
}

/// What is behind the extensions, of which the first has this number.
fn carried(first: u8, octets: &[u8]) -> Result<&[u8], NoDatagram>
    ensures { Gives (λ x. x.now) result (carried_at first octets.now) }
{
    let mut next = first;
    let mut rest = octets;
    while is_passed(next) {
        if rest.len() < 2 {
            return Err(NoDatagram::BadIpHeader);
        }
        let count = 8 * (rest[1] as usize + 1);
        if rest.len() < count {
            return Err(NoDatagram::BadIpHeader);
        }
        next = rest[0];
        let (_, after) = rest.split_at(count);
        rest = after;
    }
    ending(next, rest)
}

#[tactic(auto, unfolding(crate::specs::Reading::packet_6_at))]
fn read_6(octets: &[u8]) -> Result<PacketView<'_>, NoDatagram>
    ensures { Gives seen_packet result (packet_6_at octets.now) }
{
    if octets.len() < HEADER_6 {
        return Err(NoDatagram::CutShort);
    }
    let (header, rest) = octets.split_at(HEADER_6);
    if let Some(reason) = reason_6(header, rest.len()) {
        return Err(reason);
    }
    let (payload, _) = rest.split_at(number_16(header, 4) as usize);
    let carried = carried(header[6], payload)?;
    Ok(PacketView {
        source: &header[8..24],
        destination: &header[24..40],
        carried,
    })
}

/// What reading from the left gives.
fn read(version: IpVersion, octets: &[u8]) -> Result<PacketView<'_>, NoDatagram>
    ensures exact { Gives seen_packet result (packet_at version octets.now) }
{
    match version {
        IpVersion::V4 => read_4(octets),
        IpVersion::V6 => read_6(octets),
    }
}

/// Reads an IP packet that carries UDP, and is whole and no fragment. Checksums are not looked at:
/// a recorder sees a packet before its machine has put them in.
///
/// # Errors
///
/// The first that holds:
///
/// - `CutShort`: the fixed header isn't whole;
/// - `BadIpHeader`: it can't be one;
/// - `CutShort`: the packet isn't whole;
/// - `BadIpHeader`: of IPv6, an extension isn't whole;
/// - `NotUdp`: it carries something else;
/// - `Fragment`: it is a fragment (of IPv4, of UDP).
pub fn read_packet(version: IpVersion, octets: &[u8]) -> Result<PacketView<'_>, NoDatagram>
    // What is read is in the grammar.
    ensures found { IfOk result (λ v. IsUdpPacket version octets.now (seen_packet v)) }
    // What is in the grammar is read so.
    ensures only { (p : Packet) → IsUdpPacket version octets.now p
        → IsOkAnd result (λ v. seen_packet v ≡ p) }
    // Each reason comes exactly where its condition holds.
    ensures refused { (reason : Reason) →
        (result ≡ Err reason) ↔ IsNoPacket version octets.now reason }
    // The answer as a walk over the octets, for the walks that go on from it.
    ensures exact { Gives seen_packet result (packet_at version octets.now) }
{
    read(version, octets)
}
