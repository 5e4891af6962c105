//! Writing a recording: a datagram as a record of pcap.
ghost use Rattle.std.specs.Prelude.{◌≡◌, ◌≤◌, ◌<◌, ◌+◌, ◌*◌, ◌^◌, ◌++◌, length, drop};
ghost use Rattle.pcap_file.specs.Writing.{complement_of, folded, heads_text, ip_checksum};
ghost use Rattle.pcap_file.specs.Writing.{ip_front_text};
ghost use Rattle.pcap_file.specs.Writing.{ethernet_of, ethernet_text, ip_text, pseudo_sum};
ghost use Rattle.pcap_file.specs.Writing.{record_text, sent_sum, udp_checksum, udp_head_text};
ghost use Rattle.pcap_file.specs.Writing.{udp_text, word_sum};
ghost use Rattle.pcap_file.specs.Writing.{datagram_of, datagram_text, file_text, frame_text};
ghost use Rattle.pcap_file.specs.Writing.{recorded_of, written_file};
ghost use Rattle.pcap_file.specs.Datagram.{IsDatagram};
ghost use Rattle.pcap_file.specs.Pcap.{IsPcapHead};
ghost use Rattle.pcap_file.specs.PcapReading.{IsRecord};

use crate::link::Link;
use byteorder::{BigEndian, ByteOrder};

/// Whence a datagram comes and where to it goes.
#[derive(Clone, Copy)]
pub struct Envelope {
    /// The address of IPv4 that sends it.
    pub source: [u8; 4],
    /// The address of IPv4 that it is for.
    pub destination: [u8; 4],
    pub source_port: u16,
    pub destination_port: u16,
}

/// The sum of the numbers of 16 bits that octets are.
pub(crate) fn word_sum(octets: &[u8]) -> u64
    requires { length octets.now ≤ 65535 }
    ensures value { result ≡ word_sum octets.now }
    ensures few { result ≤ 65535 * length octets.now }
{
    let mut sum = 0u64;
    let mut rest = octets;
    while let [high, low, after @ ..] = rest {
        sum += 256 * *high as u64 + *low as u64;
        rest = after;
    }
    if let [high] = rest {
        sum += 256 * *high as u64;
    }
    sum
}

/// The complement of a sum of ones' complements, in 16 bits (RFC 1071, 1).
pub(crate) fn complement_of(sum: u64) -> u16
    ensures { result ≡ complement_of sum }
{
    if sum == 0 {
        return 65535;
    }
    (65534 - (sum - 1) % 65535) as u16
}

/// Writes the 16 octets before a packet's own.
pub(crate) fn write_record_head(buf: &mut [u8], time: u64, count: u32)
    requires room { length buf.old ≡ 16 }
    requires time { time < 2 ^ 32 * 1000000000 }
    ensures { buf.new ≡ record_text time count }
{
    BigEndian::write_u32(buf, (time / 1_000_000_000) as u32);
    BigEndian::write_u32(&mut buf[4..], (time % 1_000_000_000) as u32);
    BigEndian::write_u32(&mut buf[8..], count);
    BigEndian::write_u32(&mut buf[12..], count);
}

/// The first 12 octets of a header of IPv4.
fn ip_front(total: u16, checksum: u16) -> [u8; 12]
    ensures text { result ≡ ip_front_text total checksum }
    ensures length { length result ≡ 12 }
{
    let mut front = [0x45, 0, 0, 0, 0, 0, 0x40, 0, 64, 17, 0, 0];
    BigEndian::write_u16(&mut front[2..], total);
    BigEndian::write_u16(&mut front[10..], checksum);
    front
}

fn write_ip(buf: &mut [u8], envelope: &Envelope, total: u16, checksum: u16)
    requires { length buf.old ≡ 20 }
    ensures { buf.new ≡ ip_text envelope.now total checksum }
{
    let (front, addresses) = buf.split_at_mut(12);
    let (source, destination) = addresses.split_at_mut(4);
    front.copy_from_slice(&ip_front(total, checksum));
    source.copy_from_slice(&envelope.source);
    destination.copy_from_slice(&envelope.destination);
}

fn ip_checksum(envelope: &Envelope, total: u16) -> u16
    ensures { result ≡ ip_checksum envelope.now total }
{
    let mut header = [0u8; 20];
    write_ip(&mut header, envelope, total, 0);
    complement_of(word_sum(&header))
}

/// Writes a header of UDP, its numbers most significant octet first (RFC 768).
pub(crate) fn write_udp(
    buf: &mut [u8],
    source_port: u16,
    destination_port: u16,
    count: u16,
    checksum: u16,
)
    requires { length buf.old ≡ 8 }
    ensures { buf.new ≡ udp_head_text source_port destination_port count checksum }
{
    BigEndian::write_u16(buf, source_port);
    BigEndian::write_u16(&mut buf[2..], destination_port);
    BigEndian::write_u16(&mut buf[4..], count);
    BigEndian::write_u16(&mut buf[6..], checksum);
}

/// The sum of what is summed for UDP before its header.
fn pseudo_sum(envelope: &Envelope, count: u16) -> u64
    ensures value { result ≡ pseudo_sum envelope.now count }
    ensures few { result < 1000000 }
{
    word_sum(&envelope.source) + word_sum(&envelope.destination) + 17 + count as u64
}

/// The checksum of a datagram, as UDP sends it: 65,535 in place of 0, which would say that there is
/// none (RFC 768).
fn udp_checksum(envelope: &Envelope, payload: &[u8]) -> u16
    requires { length payload.now ≤ 65507 }
    ensures { result ≡ udp_checksum envelope.now payload.now }
{
    let count = 8 + payload.len() as u16;
    let mut header = [0u8; 8];
    write_udp(
        &mut header,
        envelope.source_port,
        envelope.destination_port,
        count,
        0,
    );
    let checksum = complement_of(
        pseudo_sum(envelope, count) + word_sum(&header) + word_sum(payload),
    );
    if checksum == 0 { 65535 } else { checksum }
}

/// The address of Ethernet of an address of IPv4: of a group 01-00-5E and the low 23 bits (RFC
/// 1112, 6.4). Another's is not known, and is 0.
fn ethernet_of(address: [u8; 4]) -> [u8; 6]
    ensures text { result ≡ ethernet_of address }
    ensures length { length result ≡ 6 }
{
    if address[0] / 16 != 14 {
        return [0; 6];
    }
    [1, 0, 0x5e, address[1] % 128, address[2], address[3]]
}

/// Writes a header of Ethernet, from the address 0, for a packet of IPv4.
fn write_ethernet(buf: &mut [u8], envelope: &Envelope)
    requires { length buf.old ≡ 14 }
    ensures { buf.new ≡ ethernet_text envelope.now }
{
    let (to, behind) = buf.split_at_mut(6);
    to.copy_from_slice(&ethernet_of(envelope.destination));
    behind.copy_from_slice(&[0, 0, 0, 0, 0, 0, 8, 0]);
}

/// Writes the 58 octets of a record before the datagram's own.
fn write_heads(buf: &mut [u8], envelope: &Envelope, time: u64, payload: &[u8])
    requires room { length buf.old ≡ 58 }
    requires few { length payload.now ≤ 65507 }
    requires time { time < 2 ^ 32 * 1000000000 }
    ensures { buf.new ≡ heads_text envelope.now time payload.now }
{
    let count = payload.len();
    let total = 28 + count as u16;
    let checksum = ip_checksum(envelope, total);
    let (record, frame) = buf.split_at_mut(16);
    let (ethernet, packet) = frame.split_at_mut(14);
    let (ip, udp) = packet.split_at_mut(20);
    write_record_head(record, time, 42 + count as u32);
    write_ethernet(ethernet, envelope);
    write_ip(ip, envelope, total, checksum);
    write_udp(
        udp,
        envelope.source_port,
        envelope.destination_port,
        8 + count as u16,
        udp_checksum(envelope, payload),
    );
}

/// How many octets stand in a record before the datagram's own.
pub const HEADS: usize = 58;

/// Writes what stands before the records of a file over the first 24 octets of `buf`: a file of
/// pcap 2.4 in nanoseconds, of frames of Ethernet.
pub fn write_pcap_head(buf: &mut [u8])
    requires { 24 ≤ length buf.old }
    ensures written { buf.new ≡ file_text ++ drop 24 buf.old }
    ensures head { IsPcapHead file_text written_file }
{
    let (head, _) = buf.split_at_mut(24);
    head.copy_from_slice(&[
        0xa1, 0xb2, 0x3c, 0x4d, 0, 2, 0, 4, 0, 0, 0, 0, 0, 0, 0, 0, 0, 4, 0, 0, 0, 0, 0, 1,
    ]);
}

/// Writes a datagram as a record of such a file over the first octets of `buf`, and answers how
/// many: `58 + payload`. What follows them in `buf` stays. The time is in nanoseconds since 1970,
/// and below 2^32 seconds.
///
/// The record has a frame of Ethernet, an IPv4 packet that may not be fragmented, and UDP, with
/// their checksums. The frame is for the Ethernet address of the destination where that is a
/// group's; else its addresses are 0.
pub fn write_record(buf: &mut [u8], envelope: &Envelope, time: u64, payload: &[u8]) -> usize
    requires few { length payload.now ≤ 65507 }
    requires room { 58 + length payload.now ≤ length buf.old }
    requires time { time < 2 ^ 32 * 1000000000 }
    ensures value { result ≡ 58 + length payload.now }
    ensures written { buf.new ≡ datagram_text envelope.now time payload.now
        ++ drop (58 + length payload.now) buf.old }
    // What is written is a record of a packet at this time, which is this datagram.
    ensures record { IsRecord written_file (datagram_text envelope.now time payload.now)
        (recorded_of envelope.now time payload.now) }
    ensures datagram { IsDatagram Link.Ethernet (frame_text envelope.now payload.now)
        (datagram_of envelope.now payload.now) }
{
    let count = payload.len();
    let (record, _) = buf.split_at_mut(HEADS + count);
    let (heads, octets) = record.split_at_mut(HEADS);
    write_heads(heads, envelope, time, payload);
    octets.copy_from_slice(payload);
    HEADS + count
}
