//! The layout of recordings in blocks, pcapng: what blocks say, once they lie in a slice.
ghost use Rattle.std.specs.Prelude.{◌≡◌, ◌≤◌, ◌+◌, ◌*◌, ◌^◌, ◌<◌, ◌↔◌, ℕ, List, length, IfErr};
ghost use Rattle.std.specs.Prelude.{IfOk};
ghost use Rattle.std.specs.Prelude.{Ok, Err, OnOk, IfSome, IfNone, ◌≢◌, take, drop, option_copied};
ghost use Rattle.std.specs.Prelude.{slice_get};
ghost use Rattle.st_format.specs.Reading.{Gives};
ghost use Rattle.pcap_file.specs.BlockReading.{body_of_total, enhanced_of, interface_of, offset_of};
ghost use Rattle.pcap_file.specs.BlockReading.{option_at, order_of, section_of, simple_of};
ghost use Rattle.pcap_file.specs.BlockReading.{name_by, obsolete_of, packet_by, resolution_of};
ghost use Rattle.pcap_file.specs.BlockReading.{stamped_in};
ghost use Rattle.pcap_file.specs.Blocks.{IsEnhanced, IsInterface, IsSection, IsSimple, IsTotal};
ghost use Rattle.pcap_file.specs.Blocks.{IsObsolete, before_zero, order_number};
ghost use Rattle.pcap_file.specs.declared.blocks.Interface.{Interface as Described};
ghost use Rattle.pcap_file.specs.Blocks.{per_second_of, time_at};
ghost use Rattle.pcap_file.specs.Fields.{IsContent};
ghost use Rattle.pcap_file.specs.Orders.{long_at};
ghost use Rattle.pcap_file.specs.declared.order.ByteOrder.{ByteOrder as Order};
ghost use Rattle.pcap_file.specs.declared.pcap.PacketHead.{PacketHead as Head};

use crate::fault::RecordingFault;
use crate::order::{ByteOrder, long_at, short_at};
use crate::pcap::PacketHead;
use interface_name::InterfaceName;

/// The type of the block that begins a section: the same in either order.
pub const SECTION: u32 = 0x0a0d_0d0a;

/// The number in a section's order that tells the order.
const ORDER: u32 = 0x1a2b_3c4d;

/// The type of a block that describes an interface.
pub const INTERFACE: u32 = 1;

/// The type of an obsolete packet block, as the first recorders in blocks wrote it.
pub const OBSOLETE: u32 = 2;

/// The type of a simple packet block.
pub const SIMPLE: u32 = 3;

/// The type of an enhanced packet block.
pub const ENHANCED: u32 = 6;

/// How many octets a block has at most (own).
const MOST: u32 = 0x100_0000;

/// The option of an interface that says its name.
const NAME: u16 = 2;

/// The option of an interface that says the unit of its times.
const RESOLUTION: u16 = 9;

/// The option of an interface that says how many seconds belong to its times.
const OFFSET: u16 = 14;

/// An interface, as a section describes it.
#[derive(Clone, Copy, Default)]
pub struct Interface {
    /// The number of the link layer, in the registry of link-layer header types.
    pub link: u16,
    /// How many octets of a packet are kept at most; 0 for all.
    pub snap: u32,
    /// How many units of its times a second has.
    pub per_second: u64,
    /// The seconds that belong to its times, modulo 2^64.
    pub offset: u64,
    /// Its name; `None` where the block says none, or a text that is none.
    pub name: Option<InterfaceName>,
}

/// How many octets the body of a block has that has so many.
///
/// # Errors
///
/// `BadBlock`: fewer than a block without a body has, no multiple of 4, or more than 2^24.
pub fn body_of_total(total: u32) -> Result<usize, RecordingFault>
    ensures found { IfOk result (λ count. IsTotal total count) }
    ensures only { (count : ℕ) → IsTotal total count → result ≡ Ok count }
    ensures exact { result ≡ body_of_total total }
{
    if total < 12 || total % 4 != 0 || total > MOST {
        return Err(RecordingFault::BadBlock);
    }
    Ok(total as usize - 12)
}

/// The order of a section, by the four octets behind its block's length.
pub fn order_of(octets: &[u8]) -> Option<ByteOrder>
    requires { length octets.now ≡ 4 }
    ensures found { IfSome result (λ order. long_at order 0 octets.now ≡ order_number) }
    ensures none { IfNone result ((order : Order) → long_at order 0 octets.now ≢ order_number) }
    ensures exact { result ≡ order_of octets.now }
{
    if long_at(ByteOrder::Big, octets, 0) == ORDER {
        return Some(ByteOrder::Big);
    }
    if long_at(ByteOrder::Little, octets, 0) == ORDER {
        return Some(ByteOrder::Little);
    }
    None
}

/// What a section's body says behind the four octets of its order: its version is read.
///
/// # Errors
///
/// `BadVersion`: the version is neither 1.0 nor 1.2.
pub fn read_section(order: ByteOrder, body: &[u8]) -> Result<(), RecordingFault>
    requires { 4 ≤ length body.now }
    ensures found { OnOk result (IsSection order body.now) }
    ensures only { IsSection order body.now → result ≡ Ok tt }
    ensures exact { result ≡ section_of order body.now }
{
    let minor = short_at(order, body, 2);
    if short_at(order, body, 0) != 1 || (minor != 0 && minor != 2) {
        return Err(RecordingFault::BadVersion);
    }
    Ok(())
}

fn option_of(order: ByteOrder, octets: &[u8], code: u16) -> Result<Option<&[u8]>, RecordingFault>
    ensures exact { Gives (λ x. option_copied x) result (option_at order code octets.now) }
    ensures named { IfErr result IsContent }
{
    let mut rest = octets;
    while !rest.is_empty() {
        if rest.len() < 4 {
            return Err(RecordingFault::BadBlock);
        }
        let found = short_at(order, rest, 0);
        if found == 0 {
            return Ok(None);
        }
        let count = short_at(order, rest, 2) as usize;
        let whole = 4 + (count + 3) / 4 * 4;
        if rest.len() < whole {
            return Err(RecordingFault::BadBlock);
        }
        let (option, after) = rest.split_at(whole);
        if found == code {
            let (_, value) = option.split_at(4);
            let (value, _) = value.split_at(count);
            return Ok(Some(value));
        }
        rest = after;
    }
    Ok(None)
}

/// How many units a second has at a resolution: a power of 10, or of 2 where the top bit is set.
/// None where that isn't below 2^64.
fn per_second_of(resolution: u8) -> Option<u64>
    ensures { result ≡ per_second_of resolution }
{
    if resolution < 128 {
        if resolution > 19 {
            return None;
        }
        return Some(10u64.pow(resolution as u32));
    }
    if resolution > 191 {
        return None;
    }
    Some(2u64.pow(resolution as u32 - 128))
}

/// How many units a second has, by the option that says it.
fn resolution_of(value: Option<&[u8]>) -> Result<u64, RecordingFault>
    ensures exact { result ≡ resolution_of (option_copied value.entry) }
    ensures named { IfErr result IsContent }
{
    let Some(value) = value else {
        return Ok(1_000_000);
    };
    if value.len() != 1 {
        return Err(RecordingFault::BadInterface);
    }
    match per_second_of(value[0]) {
        Some(units) => Ok(units),
        None => Err(RecordingFault::BadInterface),
    }
}

/// The seconds that belong to an interface's times, by the option that says it.
fn offset_of(order: ByteOrder, value: Option<&[u8]>) -> Result<u64, RecordingFault>
    ensures exact { result ≡ offset_of order (option_copied value.entry) }
    ensures named { IfErr result IsContent }
{
    let Some(value) = value else {
        return Ok(0);
    };
    if value.len() != 8 {
        return Err(RecordingFault::BadInterface);
    }
    let eight = [
        value[0], value[1], value[2], value[3], value[4], value[5], value[6], value[7],
    ];
    match order {
        ByteOrder::Big => Ok(u64::from_be_bytes(eight)),
        ByteOrder::Little => Ok(u64::from_le_bytes(eight)),
    }
}

/// A text up to the first zero, which ends it (pcapng: options whose values are strings).
fn before_zero(text: &[u8]) -> &[u8]
    ensures { result.now ≡ before_zero text.now }
{
    for (place, octet) in text.iter().enumerate() {
        if *octet == 0 {
            return &text[..place];
        }
    }
    text
}

/// The name of an interface, by the option that says it; none where that says no name.
fn name_by(value: Option<&[u8]>) -> Option<InterfaceName>
    ensures { result ≡ name_by (option_copied value.entry) }
{
    match value {
        Some(value) => InterfaceName::read(before_zero(value)),
        None => None,
    }
}

/// What reading the body of such a block gives.
#[tactic(auto, unfolding(crate::specs::BlockReading::interface_of))]
fn described(order: ByteOrder, body: &[u8]) -> Result<Interface, RecordingFault>
    ensures exact { result ≡ interface_of order body.now }
    ensures named { IfErr result IsContent }
{
    if body.len() < 8 {
        return Err(RecordingFault::BadBlock);
    }
    let (fixed, options) = body.split_at(8);
    let resolution = option_of(order, options, RESOLUTION)?;
    let per_second = resolution_of(resolution)?;
    let offset = option_of(order, options, OFFSET)?;
    let offset = offset_of(order, offset)?;
    let name = option_of(order, options, NAME)?;
    Ok(Interface {
        link: short_at(order, fixed, 0),
        snap: long_at(order, fixed, 4),
        per_second,
        offset,
        name: name_by(name),
    })
}

/// What a block says that describes an interface, by its body.
///
/// # Errors
///
/// - `BadBlock`: the body isn't whole, or an option in it isn't.
/// - `BadInterface`: the option of the unit of times has not one octet or is finer than 10^-19 or
///   2^-63 seconds, or that of the offset has not eight.
pub fn read_interface(order: ByteOrder, body: &[u8]) -> Result<Interface, RecordingFault>
    ensures found { IfOk result (λ i. IsInterface order body.now i) }
    ensures only { (i : Described) → IsInterface order body.now i → result ≡ Ok i }
    ensures named { IfErr result IsContent }
    ensures exact { result ≡ interface_of order body.now }
{
    described(order, body)
}

/// The time of so many units at an interface, if it can be told.
fn time_at(interface: &Interface, units: u64) -> Option<u64>
    ensures { result ≡ time_at interface.now units }
{
    let since = units as u128 * 1_000_000_000 / interface.per_second.max(1) as u128;
    if interface.offset < 0x8000_0000_0000_0000 {
        let time = since + interface.offset as u128 * 1_000_000_000;
        if time < 0x1_0000_0000_0000_0000 {
            return Some(time as u64);
        }
        return None;
    }
    let back = (0x1_0000_0000_0000_0000 - interface.offset as u128) * 1_000_000_000;
    if since < back {
        return None;
    }
    let time = since - back;
    if time < 0x1_0000_0000_0000_0000 {
        return Some(time as u64);
    }
    None
}

fn interface_at(interfaces: &[Interface], number: usize) -> Option<Interface>
    ensures { result ≡ slice_get interfaces.now number }
{
    interfaces.get(number).copied()
}

/// What is said of a packet whose time can be told.
fn packet_by(
    time: Option<u64>,
    interface: &Interface,
    captured: u32,
    original: u32,
) -> Result<PacketHead, RecordingFault>
    ensures exact { result ≡ packet_by time interface.now captured original }
    ensures named { IfErr result IsContent }
{
    match time {
        Some(time) => Ok(PacketHead {
            time: Some(time),
            link: interface.link,
            captured,
            original,
            interface: interface.name,
        }),
        None => Err(RecordingFault::BadTime),
    }
}

/// What a body says of its packet, which is of the interface of this number: its first 20 octets
/// and those behind them.
fn stamped(
    order: ByteOrder,
    number: usize,
    interfaces: &[Interface],
    front: &[u8],
    octets: &[u8],
) -> Result<PacketHead, RecordingFault>
    requires { length front.now ≡ 20 }
    ensures exact { result ≡ stamped_in order number interfaces.now front.now octets.now }
    ensures named { IfErr result IsContent }
{
    let captured = long_at(order, front, 12);
    if octets.len() < captured as usize {
        return Err(RecordingFault::BadBlock);
    }
    let Some(interface) = interface_at(interfaces, number) else {
        return Err(RecordingFault::BadInterface);
    };
    let units = long_at(order, front, 4) as u64 * 0x1_0000_0000 + long_at(order, front, 8) as u64;
    packet_by(
        time_at(&interface, units),
        &interface,
        captured,
        long_at(order, front, 16),
    )
}

/// What reading a body of such a block gives.
#[tactic(auto, unfolding(crate::specs::BlockReading::stamped_of))]
fn enhanced(
    order: ByteOrder,
    interfaces: &[Interface],
    body: &[u8],
) -> Result<PacketHead, RecordingFault>
    ensures exact { result ≡ enhanced_of order interfaces.now body.now }
    ensures named { IfErr result IsContent }
{
    if body.len() < 20 {
        return Err(RecordingFault::BadBlock);
    }
    let (front, octets) = body.split_at(20);
    let number = long_at(order, front, 0) as usize;
    stamped(order, number, interfaces, front, octets)
}

/// What reading a body of such a block gives.
#[tactic(auto, unfolding(crate::specs::BlockReading::stamped_of))]
fn obsolete(
    order: ByteOrder,
    interfaces: &[Interface],
    body: &[u8],
) -> Result<PacketHead, RecordingFault>
    ensures exact { result ≡ obsolete_of order interfaces.now body.now }
    ensures named { IfErr result IsContent }
{
    if body.len() < 20 {
        return Err(RecordingFault::BadBlock);
    }
    let (front, octets) = body.split_at(20);
    let number = short_at(order, front, 0) as usize;
    stamped(order, number, interfaces, front, octets)
}

/// What an enhanced packet block says of its packet, by its body and the section's interfaces. The
/// packet's octets stand behind the first 20.
///
/// # Errors
///
/// - `BadBlock`: the body isn't whole, or has not the octets that it counts.
/// - `BadInterface`: the section describes no such interface.
/// - `BadTime`: the time can't be told.
pub fn read_enhanced(
    order: ByteOrder,
    interfaces: &[Interface],
    body: &[u8],
) -> Result<PacketHead, RecordingFault>
    ensures found { IfOk result (λ p. IsEnhanced order interfaces.now body.now p
        (take p.captured (drop 20 body.now))) }
    ensures only { (p : Head) (octets : List ℕ) → IsEnhanced order interfaces.now body.now p octets
        → (result ≡ Ok p) × (octets ≡ take p.captured (drop 20 body.now)) }
    ensures within { IfOk result (λ p. 20 + p.captured ≤ length body.now) }
    ensures named { IfErr result IsContent }
    ensures exact { result ≡ enhanced_of order interfaces.now body.now }
{
    enhanced(order, interfaces, body)
}

/// What an obsolete packet block says of its packet, by its body and the section's interfaces. The
/// packet's octets stand behind the first 20.
///
/// # Errors
///
/// - `BadBlock`: the body isn't whole, or has not the octets that it counts.
/// - `BadInterface`: the section describes no such interface.
/// - `BadTime`: the time can't be told.
pub fn read_obsolete(
    order: ByteOrder,
    interfaces: &[Interface],
    body: &[u8],
) -> Result<PacketHead, RecordingFault>
    ensures found { IfOk result (λ p. IsObsolete order interfaces.now body.now p
        (take p.captured (drop 20 body.now))) }
    ensures only { (p : Head) (octets : List ℕ) → IsObsolete order interfaces.now body.now p octets
        → (result ≡ Ok p) × (octets ≡ take p.captured (drop 20 body.now)) }
    ensures within { IfOk result (λ p. 20 + p.captured ≤ length body.now) }
    ensures named { IfErr result IsContent }
    ensures exact { result ≡ obsolete_of order interfaces.now body.now }
{
    obsolete(order, interfaces, body)
}

/// What reading a body of such a block gives.
#[tactic(auto, unfolding(crate::specs::BlockReading::simple_of))]
fn simple(
    order: ByteOrder,
    interfaces: &[Interface],
    body: &[u8],
) -> Result<PacketHead, RecordingFault>
    ensures exact { result ≡ simple_of order interfaces.now body.now }
    ensures named { IfErr result IsContent }
{
    if body.len() < 4 {
        return Err(RecordingFault::BadBlock);
    }
    let (front, octets) = body.split_at(4);
    let Some(interface) = interface_at(interfaces, 0) else {
        return Err(RecordingFault::BadInterface);
    };
    let original = long_at(order, front, 0);
    let captured = if interface.snap == 0 {
        original
    } else {
        original.min(interface.snap)
    };
    if octets.len() < captured as usize {
        return Err(RecordingFault::BadBlock);
    }
    Ok(PacketHead {
        time: None,
        link: interface.link,
        captured,
        original,
        interface: interface.name,
    })
}

/// What a simple packet block says of its packet, which is the first interface's and has no time.
/// The packet's octets stand behind the first 4.
///
/// # Errors
///
/// - `BadBlock`: the body isn't whole, or has not the octets that it counts.
/// - `BadInterface`: the section describes no interface.
pub fn read_simple(
    order: ByteOrder,
    interfaces: &[Interface],
    body: &[u8],
) -> Result<PacketHead, RecordingFault>
    ensures found { IfOk result (λ p. IsSimple order interfaces.now body.now p
        (take p.captured (drop 4 body.now))) }
    ensures only { (p : Head) (octets : List ℕ) → IsSimple order interfaces.now body.now p octets
        → (result ≡ Ok p) × (octets ≡ take p.captured (drop 4 body.now)) }
    ensures within { IfOk result (λ p. 4 + p.captured ≤ length body.now) }
    ensures named { IfErr result IsContent }
    ensures exact { result ≡ simple_of order interfaces.now body.now }
{
    simple(order, interfaces, body)
}
