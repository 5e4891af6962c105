//! Reading a recording in blocks, step by step. A step takes the source and a buffer, and no
//! memory.
ghost use Rattle.std.specs.Prelude.{◌≡◌, ◌≤◌, ◌<◌, ◌+◌, length, take, IfErr, IfOk, IfSome, OnOk};
ghost use Rattle.std.specs.Prelude.{Ok, Err};
ghost use Rattle.pcap_file.specs.Fields.{CountsDevice, Fails, GaveFault, IsContent};
ghost use Rattle.st_format.specs.Given.{GaveValue, Takes};
ghost use Rattle.pcap_file.specs.NgSteps.{GaveStep, GoesOn, IsPacketWithin, describe_of, enter_of};
ghost use Rattle.pcap_file.specs.NgSteps.{first_at};
ghost use Rattle.pcap_file.specs.NgSteps.{fresh, packet_step};
ghost use Rattle.pcap_file.specs.NgSteps.{known, other_step};
ghost use Rattle.pcap_file.specs.NgSteps.{section_step};
ghost use Rattle.pcap_file.specs.NgSteps.{step_at, step_seen};

use crate::blocks::{
    ENHANCED, INTERFACE, Interface, OBSOLETE, SECTION, SIMPLE, read_enhanced, read_interface,
    read_obsolete, read_simple,
};
use crate::blocks_reading::{read_block, read_front, read_section_block};
use crate::fault::RecordingFault;
use crate::fields::read_field;
use crate::order::{ByteOrder, long_at};
use crate::pcap::{PacketHead, is_packed};
use arrayvec::ArrayVec;
use st_format::ByteSource;

/// How many interfaces of a section are kept at most.
pub const INTERFACES: usize = 64;

/// A section of a recording, as far as it was read.
#[derive(Drop)]
pub struct Section {
    /// The order of the octets in its numbers.
    pub order: ByteOrder,
    /// The interfaces that it has described so far.
    pub interfaces: ArrayVec<Interface, 64>,
}

/// What is found by reading on, block by block.
#[derive(Clone, Copy, Debug, PartialEq, Eq)]
pub enum Step {
    /// The end of the recording.
    End,
    /// A block that has no packet.
    Passed,
    /// A packet, whose octets stand in the buffer behind so many others.
    Packet(PacketHead, usize),
}

impl Section {
    /// A section that has described no interface yet.
    pub fn new(order: ByteOrder) -> Section
        ensures { known result ≡ fresh order }
    {
        Section {
            order,
            interfaces: ArrayVec::new(),
        }
    }
}

/// Describes one more interface, by the body of its block.
fn describe(section: &mut Section, body: &[u8]) -> Result<Step, RecordingFault>
    ensures ok { IfOk result (λ s. describe_of (known section.old) body.now
        ≡ Ok (known section.new, step_seen s body.now)) }
    ensures within { IfOk result (λ s. IsPacketWithin s (length body.now)) }
    ensures goes_on { IfOk result (λ s. GoesOn s) }
    ensures fault { IfErr result (λ f. describe_of (known section.old) body.now ≡ Err f) }
    ensures named { IfErr result IsContent }
{
    let interface = read_interface(section.order, body)?;
    if section.interfaces.len() >= INTERFACES {
        return Err(RecordingFault::TooManyInterfaces);
    }
    section.interfaces.push(interface);
    Ok(Step::Passed)
}

/// The step of a packet that was read, whose octets stand behind so many others.
fn packet_step(
    read: Result<PacketHead, RecordingFault>,
    place: usize,
) -> Result<Step, RecordingFault>
    ensures { result ≡ packet_step read place }
{
    match read {
        Ok(packet) => Ok(Step::Packet(packet, place)),
        Err(fault) => Err(fault),
    }
}

/// Takes the body of a block by its type: it describes an interface, has a packet, or is passed.
fn enter(section: &mut Section, kind: u32, body: &[u8]) -> Result<Step, RecordingFault>
    ensures ok { IfOk result (λ s. enter_of (known section.old) kind body.now
        ≡ Ok (known section.new, step_seen s body.now)) }
    ensures within { IfOk result (λ s. IsPacketWithin s (length body.now)) }
    ensures goes_on { IfOk result (λ s. GoesOn s) }
    ensures fault { IfErr result (λ f. enter_of (known section.old) kind body.now ≡ Err f) }
    ensures named { IfErr result IsContent }
{
    if kind == INTERFACE {
        return describe(section, body);
    }
    let interfaces = section.interfaces.as_slice();
    if kind == OBSOLETE {
        return packet_step(read_obsolete(section.order, interfaces, body), 20);
    }
    if kind == SIMPLE {
        return packet_step(read_simple(section.order, interfaces, body), 4);
    }
    if kind == ENHANCED {
        return packet_step(read_enhanced(section.order, interfaces, body), 20);
    }
    Ok(Step::Passed)
}

/// Reads what is left of a section's block behind its first eight octets.
fn next_section<S: ByteSource>(
    source: &mut S,
    section: &mut Section,
    front: &[u8],
    buf: &mut [u8],
) -> Result<Step, RecordingFault>
    requires room { 0 < length buf.old }
    requires front { length front.now ≡ 8 }
    ensures room { length buf.new ≡ length buf.old }
    ensures within { IfOk result (λ s. IsPacketWithin s (length buf.new)) }
    ensures goes_on { IfOk result (λ s. GoesOn s) }
    ensures read { IfOk result
        (λ s. Takes (section_step front.now) (S.to_give source.old) (S.to_give source.new)
        (known section.new, step_seen s buf.new)) }
    ensures gave { IfOk result (λ s. GaveValue (section_step front.now) (S.gave source.old)
        (S.gave source.new) (known section.new, step_seen s buf.new)) }
    ensures fault { IfErr result (λ f. Fails (section_step front.now) (S.to_give source.old) f) }
    ensures gave_wrong { IfErr result (λ f. GaveFault (section_step front.now) (S.gave source.old)
        (S.gave source.new) (S.ended source.new) f) }
    ensures counted { CountsDevice (S.failures source.old) (S.failures source.new) result }
    ensures names { S.names source.new ≡ S.names source.old }
{
    let order = read_section_block(source, front, buf)?;
    *section = Section::new(order);
    Ok(Step::Passed)
}

/// Reads what is left of another block behind its first eight octets.
fn next_other<S: ByteSource>(
    source: &mut S,
    section: &mut Section,
    front: &[u8],
    buf: &mut [u8],
) -> Result<Step, RecordingFault>
    requires room { 0 < length buf.old }
    requires front { length front.now ≡ 8 }
    ensures room { length buf.new ≡ length buf.old }
    ensures within { IfOk result (λ s. IsPacketWithin s (length buf.new)) }
    ensures goes_on { IfOk result (λ s. GoesOn s) }
    ensures read { IfOk result
        (λ s. Takes (other_step (length buf.old) (known section.old) front.now)
        (S.to_give source.old) (S.to_give source.new) (known section.new, step_seen s buf.new)) }
    ensures gave { IfOk result (λ s. GaveValue (other_step (length buf.old) (known section.old)
        front.now) (S.gave source.old) (S.gave source.new)
        (known section.new, step_seen s buf.new)) }
    ensures fault { IfErr result
        (λ f. Fails (other_step (length buf.old) (known section.old) front.now)
        (S.to_give source.old) f) }
    ensures gave_wrong { IfErr result (λ f. GaveFault (other_step (length buf.old)
        (known section.old) front.now) (S.gave source.old) (S.gave source.new) (S.ended source.new)
        f) }
    ensures counted { CountsDevice (S.failures source.old) (S.failures source.new) result }
    ensures names { S.names source.new ≡ S.names source.old }
{
    let order = section.order;
    match read_block(source, order, front, buf) {
        Ok(Some(count)) => enter(section, long_at(order, front, 0), &buf[..count]),
        Ok(None) => Ok(Step::Passed),
        Err(fault) => Err(fault),
    }
}

/// Reads the next block of a recording, and does to the section what it does. A packet's octets
/// then stand in `buf`, behind as many others as the step says; what `buf` holds else, or after a
/// fault, is not said, nor what the section then is.
///
/// A block that is read stands in `buf` as a whole, so one without room there is `PacketTooLong`.
/// Other blocks are passed over, whatever their length.
///
/// # Errors
///
/// `Device`; `Truncated` where the octets end within the block; `BadMagic` where a section's order
/// is none; `BadVersion`; `BadBlock` where the lengths of a block don't fit, or are more than 2^24;
/// `BadInterface`, `TooManyInterfaces`, `BadTime` by what the block says; `PacketTooLong`.
pub fn next_block<S: ByteSource>(
    source: &mut S,
    section: &mut Section,
    buf: &mut [u8],
) -> Result<Step, RecordingFault>
    requires { 0 < length buf.old }
    ensures room { length buf.new ≡ length buf.old }
    ensures within { IfOk result (λ s. IsPacketWithin s (length buf.new)) }
    ensures read { IfOk result
        (λ s. Takes (step_at (length buf.old) (known section.old)) (S.to_give source.old)
        (S.to_give source.new) (known section.new, step_seen s buf.new)) }
    ensures gave { IfOk result (λ s. GaveStep (step_at (length buf.old) (known section.old))
        (S.gave source.old) (S.gave source.new) (S.ended source.new) (known section.new)
        (step_seen s buf.new)) }
    ensures fault { IfErr result
        (λ f. Fails (step_at (length buf.old) (known section.old)) (S.to_give source.old) f) }
    ensures gave_wrong { IfErr result (λ f. GaveFault (step_at (length buf.old)
        (known section.old)) (S.gave source.old) (S.gave source.new) (S.ended source.new) f) }
    ensures counted { CountsDevice (S.failures source.old) (S.failures source.new) result }
    ensures names { S.names source.new ≡ S.names source.old }
{
    let mut front = [0u8; 8];
    if !read_front(source, &mut front)? {
        return Ok(Step::End);
    }
    if long_at(section.order, &front, 0) == SECTION {
        return next_section(source, section, &front, buf);
    }
    next_other(source, section, &front, buf)
}

/// Begins to read a recording in blocks: reads the block of its first section. `buf` is where
/// octets go that are passed over.
///
/// # Errors
///
/// `Device`; `Truncated`; `Packed` where gzip has packed the octets; `BadMagic` where they begin
/// with no section, or its order is none; `BadBlock`; `BadVersion`.
pub fn read_first_section<S: ByteSource>(
    source: &mut S,
    buf: &mut [u8],
) -> Result<Section, RecordingFault>
    requires { 0 < length buf.old }
    ensures room { length buf.new ≡ length buf.old }
    ensures read { IfOk result
        (λ s. Takes first_at (S.to_give source.old) (S.to_give source.new) (known s)) }
    ensures gave { IfOk result (λ s. GaveValue first_at (S.gave source.old) (S.gave source.new)
        (known s)) }
    ensures fault { IfErr result (λ f. Fails first_at (S.to_give source.old) f) }
    ensures gave_wrong { IfErr result (λ f. GaveFault first_at (S.gave source.old)
        (S.gave source.new) (S.ended source.new) f) }
    ensures counted { CountsDevice (S.failures source.old) (S.failures source.new) result }
    ensures names { S.names source.new ≡ S.names source.old }
{
    let mut front = [0u8; 8];
    read_field(source, &mut front)?;
    if long_at(ByteOrder::Big, &front, 0) != SECTION {
        if is_packed(&front) {
            return Err(RecordingFault::Packed);
        }
        return Err(RecordingFault::BadMagic);
    }
    let order = read_section_block(source, &front, buf)?;
    Ok(Section::new(order))
}
