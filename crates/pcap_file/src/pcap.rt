//! The classic layout of recordings, pcap: what stands before its packets, and before each packet's
//! octets.
ghost use Rattle.std.specs.Prelude.{◌≡◌, ◌≤◌, ◌+◌, ◌*◌, ◌^◌, ◌<◌, ◌↔◌, ℕ, List, length, IfErr};
ghost use Rattle.std.specs.Prelude.{IfOk};
ghost use Rattle.std.specs.Prelude.{Ok, Err, IsOkAnd, IsErrOf};
ghost use Rattle.pcap_file.specs.Pcap.{IsBadMagic, IsBadVersion, IsGzipped, IsPcapHead};
ghost use Rattle.pcap_file.specs.Pcap.{IsPacketHead};
ghost use Rattle.pcap_file.specs.Pcap.{is_packed, magic_of, pcap_head_of, record_head_of};
ghost use Rattle.pcap_file.specs.declared.pcap.PcapHead.{PcapHead as Head};

use crate::fault::RecordingFault;
use crate::order::{ByteOrder, long_at, short_at};
use interface_name::InterfaceName;

/// The octets before the packets.
pub const PCAP_HEAD: usize = 24;

/// The octets before a packet's own.
pub const RECORD_HEAD: usize = 16;

/// The number that a file of microseconds begins with.
const MICROSECONDS: u32 = 0xa1b2_c3d4;

/// The number that a file of nanoseconds begins with.
const NANOSECONDS: u32 = 0xa1b2_3c4d;

/// The number in the first two octets of a file that gzip has packed (RFC 1952, 2.3.1).
const GZIP: u16 = 0x1f8b;

/// What stands before the packets of a file.
#[derive(Clone, Copy)]
pub struct PcapHead {
    /// The order of all numbers of the file.
    pub order: ByteOrder,
    /// Whether fractions of a second are in nanoseconds; else they are in microseconds.
    pub nanoseconds: bool,
    /// How many octets of a packet the recorder kept at most. Nothing is made of it.
    pub snap: u32,
    /// The number of the link layer, in the registry of link-layer header types.
    pub link: u16,
}

/// What stands before a packet's octets.
#[derive(Clone, Copy, Debug, PartialEq, Eq)]
pub struct PacketHead {
    /// When it came: nanoseconds since 1970; `None` where the recording doesn't say.
    pub time: Option<u64>,
    /// The number of the link layer, in the registry of link-layer header types.
    pub link: u16,
    /// How many of its octets were kept.
    pub captured: u32,
    /// How many it had, also those that were not kept.
    pub original: u32,
    /// The interface that it was taken at; `None` where the recording doesn't say its name, as no
    /// recording of the classic layout does, or says a text that is no name.
    pub interface: Option<InterfaceName>,
}

/// The order and the unit of time that a file's first four octets say.
pub(crate) fn magic_of(octets: &[u8]) -> Option<(ByteOrder, bool)>
    requires { 4 ≤ length octets.now }
    ensures { result ≡ magic_of octets.now }
{
    let big = long_at(ByteOrder::Big, octets, 0);
    if big == MICROSECONDS {
        return Some((ByteOrder::Big, false));
    }
    if big == NANOSECONDS {
        return Some((ByteOrder::Big, true));
    }
    let little = long_at(ByteOrder::Little, octets, 0);
    if little == MICROSECONDS {
        return Some((ByteOrder::Little, false));
    }
    if little == NANOSECONDS {
        return Some((ByteOrder::Little, true));
    }
    None
}

/// Whether gzip has packed what begins so.
pub(crate) fn is_packed(octets: &[u8]) -> bool
    requires { 2 ≤ length octets.now }
    ensures { result ≡ is_packed octets.now }
{
    short_at(ByteOrder::Big, octets, 0) == GZIP
}

/// What reading from the left gives.
fn read(octets: &[u8]) -> Result<PcapHead, RecordingFault>
    requires { length octets.now ≡ 24 }
    ensures exact { result ≡ pcap_head_of octets.now }
{
    let Some((order, nanoseconds)) = magic_of(octets) else {
        if is_packed(octets) {
            return Err(RecordingFault::Packed);
        }
        return Err(RecordingFault::BadMagic);
    };
    if short_at(order, octets, 4) != 2 || short_at(order, octets, 6) != 4 {
        return Err(RecordingFault::BadVersion);
    }
    Ok(PcapHead {
        order,
        nanoseconds,
        snap: long_at(order, octets, 16),
        link: (long_at(order, octets, 20) % 0x1_0000) as u16,
    })
}

/// What the 24 octets before the packets say.
///
/// # Errors
///
/// - `Packed`: they begin a file that gzip has packed.
/// - `BadMagic`: they don't, nor with the number of such a file, in either order.
/// - `BadVersion`: the version is not 2.4.
pub fn read_pcap_head(octets: &[u8]) -> Result<PcapHead, RecordingFault>
    requires { length octets.now ≡ 24 }
    // What is read is in the grammar.
    ensures found { IfOk result (λ h. IsPcapHead octets.now h) }
    // What is in the grammar is read so.
    ensures only { (head : Head) → IsPcapHead octets.now head → result ≡ Ok head }
    // Each fault comes exactly where its condition holds.
    ensures packed { (result ≡ Err RecordingFault.Packed) ↔ IsGzipped octets.now }
    ensures bad_magic { (result ≡ Err RecordingFault.BadMagic) ↔ IsBadMagic octets.now }
    ensures bad_version { (result ≡ Err RecordingFault.BadVersion) ↔ IsBadVersion octets.now }
    // The answer as a walk over the octets.
    ensures exact { result ≡ pcap_head_of octets.now }
{
    read(octets)
}

/// What the 16 octets before a packet's own say.
pub fn read_record_head(head: &PcapHead, octets: &[u8]) -> PacketHead
    requires { length octets.now ≡ 16 }
    ensures is { IsPacketHead head.now octets.now result }
    ensures exact { result ≡ record_head_of head.now octets.now }
{
    let unit = if head.nanoseconds { 1 } else { 1000 };
    let seconds = long_at(head.order, octets, 0) as u64;
    let fraction = long_at(head.order, octets, 4) as u64;
    PacketHead {
        time: Some(seconds * 1_000_000_000 + fraction * unit),
        link: head.link,
        captured: long_at(head.order, octets, 8),
        original: long_at(head.order, octets, 12),
        interface: None,
    }
}
