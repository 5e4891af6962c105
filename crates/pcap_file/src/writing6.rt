//! Writing a recording: a datagram of IPv6 as a record of pcap.
ghost use Rattle.std.specs.Prelude.{◌≡◌, ◌≤◌, ◌<◌, ◌+◌, ◌*◌, ◌^◌, ◌++◌, length, drop};
ghost use Rattle.pcap_file.specs.Datagram.{IsDatagram};
ghost use Rattle.pcap_file.specs.PcapReading.{IsRecord};
ghost use Rattle.pcap_file.specs.Writing.{datagram_of, pseudo_sum, udp_checksum, udp_text};
ghost use Rattle.pcap_file.specs.Writing.{written_file};
ghost use Rattle.pcap_file.specs.Writing6.{datagram6_text, ends_of, ethernet6_of, ethernet6_text};
ghost use Rattle.pcap_file.specs.Writing6.{frame6_text, heads6_text, ip6_front_text, ip6_text};
ghost use Rattle.pcap_file.specs.Writing6.{recorded6_of, udp6_text};

use crate::link::Link;
use crate::writing::{complement_of, word_sum, write_record_head, write_udp};
use byteorder::{BigEndian, ByteOrder};

/// Whence a datagram of IPv6 comes and where to it goes.
#[derive(Clone, Copy)]
pub struct Envelope6 {
    /// The address of IPv6 that sends it.
    pub source: [u8; 16],
    /// The address of IPv6 that it is for.
    pub destination: [u8; 16],
    pub source_port: u16,
    pub destination_port: u16,
}

/// The first eight octets of a header of IPv6.
fn ip6_front(count: u16) -> [u8; 8]
    ensures text { result ≡ ip6_front_text count }
    ensures length { length result ≡ 8 }
{
    let mut front = [0x60, 0, 0, 0, 0, 0, 17, 64];
    BigEndian::write_u16(&mut front[4..], count);
    front
}

/// Writes a header of IPv6.
fn write_ip6(buf: &mut [u8], envelope: &Envelope6, count: u16)
    requires { length buf.old ≡ 40 }
    ensures { buf.new ≡ ip6_text envelope.now count }
{
    let (front, addresses) = buf.split_at_mut(8);
    let (source, destination) = addresses.split_at_mut(16);
    front.copy_from_slice(&ip6_front(count));
    source.copy_from_slice(&envelope.source);
    destination.copy_from_slice(&envelope.destination);
}

/// The sum of what is summed for UDP before its header.
fn pseudo_sum6(envelope: &Envelope6, count: u16) -> u64
    ensures value { result ≡ pseudo_sum (ends_of envelope.now) count }
    ensures few { result < 3000000 }
{
    word_sum(&envelope.source) + word_sum(&envelope.destination) + 17 + count as u64
}

/// The checksum of a datagram.
fn udp_checksum6(envelope: &Envelope6, payload: &[u8]) -> u16
    requires { length payload.now ≤ 65527 }
    ensures { result ≡ udp_checksum (ends_of envelope.now) payload.now }
{
    let count = 8 + payload.len() as u16;
    let mut header = [0u8; 8];
    write_udp(
        &mut header,
        envelope.source_port,
        envelope.destination_port,
        count,
        0,
    );
    let checksum = complement_of(
        pseudo_sum6(envelope, count) + word_sum(&header) + word_sum(payload),
    );
    if checksum == 0 { 65535 } else { checksum }
}

/// The address of Ethernet of an address of IPv6: of a group 33-33 and the low 32 bits (RFC 2464,
/// 7). Another's is not known, and is 0.
fn ethernet6_of(address: [u8; 16]) -> [u8; 6]
    ensures text { result ≡ ethernet6_of address }
    ensures length { length result ≡ 6 }
{
    if address[0] != 255 {
        return [0; 6];
    }
    [
        0x33,
        0x33,
        address[12],
        address[13],
        address[14],
        address[15],
    ]
}

/// Writes a header of Ethernet.
fn write_ethernet6(buf: &mut [u8], envelope: &Envelope6)
    requires { length buf.old ≡ 14 }
    ensures { buf.new ≡ ethernet6_text envelope.now }
{
    let (to, behind) = buf.split_at_mut(6);
    to.copy_from_slice(&ethernet6_of(envelope.destination));
    behind.copy_from_slice(&[0, 0, 0, 0, 0, 0, 0x86, 0xdd]);
}

/// Writes the 78 octets of a record before the datagram's own.
fn write_heads6(buf: &mut [u8], envelope: &Envelope6, time: u64, payload: &[u8])
    requires room { length buf.old ≡ 78 }
    requires few { length payload.now ≤ 65527 }
    requires time { time < 2 ^ 32 * 1000000000 }
    ensures { buf.new ≡ heads6_text envelope.now time payload.now }
{
    let count = payload.len();
    let (record, frame) = buf.split_at_mut(16);
    let (ethernet, packet) = frame.split_at_mut(14);
    let (ip, udp) = packet.split_at_mut(40);
    write_record_head(record, time, 62 + count as u32);
    write_ethernet6(ethernet, envelope);
    write_ip6(ip, envelope, 8 + count as u16);
    write_udp(
        udp,
        envelope.source_port,
        envelope.destination_port,
        8 + count as u16,
        udp_checksum6(envelope, payload),
    );
}

/// How many octets stand in a record of IPv6 before the datagram's own.
pub const HEADS6: usize = 78;

/// Writes a datagram of IPv6 as a record of a file of pcap in nanoseconds, of frames of Ethernet
/// ([`write_pcap_head`](crate::write_pcap_head)), over the first octets of `buf`, and answers how
/// many: `78 + payload`. What follows them in `buf` stays. The time is in nanoseconds since 1970,
/// and below 2^32 seconds.
///
/// The record has a frame of Ethernet, an IPv6 packet without extensions, and UDP with its
/// checksum. The frame is for the Ethernet address of the destination where that is a group's; else
/// its addresses are 0.
pub fn write_record6(buf: &mut [u8], envelope: &Envelope6, time: u64, payload: &[u8]) -> usize
    requires few { length payload.now ≤ 65527 }
    requires room { 78 + length payload.now ≤ length buf.old }
    requires time { time < 2 ^ 32 * 1000000000 }
    ensures value { result ≡ 78 + length payload.now }
    ensures written { buf.new ≡ datagram6_text envelope.now time payload.now
        ++ drop (78 + length payload.now) buf.old }
    // What is written is a record of a packet at this time, which is this datagram.
    ensures record { IsRecord written_file (datagram6_text envelope.now time payload.now)
        (recorded6_of envelope.now time payload.now) }
    ensures datagram { IsDatagram Link.Ethernet (frame6_text envelope.now payload.now)
        (datagram_of (ends_of envelope.now) payload.now) }
{
    let count = payload.len();
    let (record, _) = buf.split_at_mut(HEADS6 + count);
    let (heads, octets) = record.split_at_mut(HEADS6);
    write_heads6(heads, envelope, time, payload);
    octets.copy_from_slice(payload);
    HEADS6 + count
}
