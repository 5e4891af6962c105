//! Reading a recording of either layout, packet by packet. Its first octets say which it is; none
//! is read twice.
ghost use Rattle.std.specs.Prelude.{◌≡◌, ◌≤◌, ◌<◌, ◌+◌, ◌-◌, ◌++◌, ℕ, List, [], length};
ghost use Rattle.std.specs.Prelude.{IfErr, IfOk, IfSome, OnOk};
ghost use Rattle.pcap_file.specs.Fields.{CountsDevice, GaveFault};
ghost use Rattle.st_format.specs.Given.{GaveValue};
ghost use Rattle.pcap_file.specs.NgSteps.{IsPacketWithin, known};
ghost use Rattle.pcap_file.specs.Openings.{behind_at, blocks_laid, laid_behind, pcap_laid};
ghost use Rattle.pcap_file.specs.Pcap.{foreign_of};
ghost use Rattle.pcap_file.specs.Runs.{HasFailed, HasRead, ReadsFault, ReadsNext, ReadsStep};
ghost use Rattle.pcap_file.specs.Runs.{in_blocks, in_pcap, layout_seen, most_blocks, opened_at};
ghost use Rattle.st_format.specs.History.{GrewFrom};

use crate::blocks::SECTION;
use crate::blocks_reading::read_section_block;
use crate::fault::RecordingFault;
use crate::fields::read_field;
use crate::order::{ByteOrder, long_at};
use crate::pcap::{PacketHead, PcapHead, is_packed, magic_of, read_pcap_head};
use crate::pcap_reading::next_record;
use crate::section::{Section, Step, next_block};
use st_format::ByteSource;

/// How many octets of a packet or a block a reader of files has room for (own).
pub const MOST_PACKET: usize = 1_048_576;

/// How a recording lies in its file, and what was read of that so far: what stands before what is
/// to come, and how many records or blocks may still come.
#[derive(Drop)]
pub enum Layout {
    /// The classic layout, pcap: its head, and how many records may still come.
    Pcap(PcapHead, u64),
    /// Blocks, pcapng: the section that is read, and how many blocks may still come.
    Blocks(Section, u64),
}

/// A packet that was read. Its octets stand in the buffer behind `place` others, as many as its
/// head says were captured.
#[derive(Clone, Copy)]
pub struct Packet {
    pub head: PacketHead,
    pub place: usize,
}

/// Fills `octets` with four that were read, and those behind them.
fn read_behind<S: ByteSource>(
    source: &mut S,
    four: &[u8],
    octets: &mut [u8],
) -> Result<(), RecordingFault>
    requires { length four.now ≤ length octets.old }
    ensures room { length octets.new ≡ length octets.old }
    ensures gave { OnOk result (GaveValue (behind_at four.now (length octets.old
        - length four.now)) (S.gave source.old) (S.gave source.new) octets.new) }
    ensures gave_wrong { IfErr result (λ f. GaveFault (behind_at four.now (length octets.old
        - length four.now)) (S.gave source.old) (S.gave source.new) (S.ended source.new) f) }
    ensures counted { CountsDevice (S.failures source.old) (S.failures source.new) result }
    ensures names { S.names source.new ≡ S.names source.old }
{
    let (front, rest) = octets.split_at_mut(four.len());
    front.copy_from_slice(four);
    read_field(source, rest)
}

/// Reads what stands before the packets of the classic layout, behind its first four octets.
fn open_pcap<S: ByteSource>(source: &mut S, four: &[u8]) -> Result<Layout, RecordingFault>
    requires { length four.now ≡ 4 }
    ensures gave { IfOk result (λ l. GaveValue (pcap_laid four.now) (S.gave source.old)
        (S.gave source.new) (layout_seen l).laid) }
    ensures left { IfOk result (λ l. (layout_seen l).left ≡ most_blocks) }
    ensures gave_wrong { IfErr result (λ f. GaveFault (pcap_laid four.now) (S.gave source.old)
        (S.gave source.new) (S.ended source.new) f) }
    ensures counted { CountsDevice (S.failures source.old) (S.failures source.new) result }
    ensures names { S.names source.new ≡ S.names source.old }
{
    let mut octets = [0u8; 24];
    read_behind(source, four, &mut octets)?;
    match read_pcap_head(&octets) {
        Ok(file) => Ok(Layout::Pcap(file, u64::MAX)),
        Err(fault) => Err(fault),
    }
}

/// Reads the block of the first section, behind its first four octets.
fn open_blocks<S: ByteSource>(
    source: &mut S,
    four: &[u8],
    buf: &mut [u8],
) -> Result<Layout, RecordingFault>
    requires room { 0 < length buf.old }
    requires four { length four.now ≡ 4 }
    ensures room { length buf.new ≡ length buf.old }
    ensures gave { IfOk result (λ l. GaveValue (blocks_laid four.now) (S.gave source.old)
        (S.gave source.new) (layout_seen l).laid) }
    ensures left { IfOk result (λ l. (layout_seen l).left ≡ most_blocks) }
    ensures gave_wrong { IfErr result (λ f. GaveFault (blocks_laid four.now) (S.gave source.old)
        (S.gave source.new) (S.ended source.new) f) }
    ensures counted { CountsDevice (S.failures source.old) (S.failures source.new) result }
    ensures names { S.names source.new ≡ S.names source.old }
{
    let mut front = [0u8; 8];
    read_behind(source, four, &mut front)?;
    match read_section_block(source, &front, buf) {
        Ok(order) => Ok(Layout::Blocks(Section::new(order), u64::MAX)),
        Err(fault) => Err(fault),
    }
}

/// The fault of octets that begin no recording: `Packed` where gzip packed them.
fn foreign(octets: &[u8]) -> RecordingFault
    requires { 2 ≤ length octets.now }
    ensures { result ≡ foreign_of octets.now }
{
    if is_packed(octets) {
        return RecordingFault::Packed;
    }
    RecordingFault::BadMagic
}

/// Reads what stands before all packets, behind its first four octets, which say the layout.
fn lay_behind<S: ByteSource>(
    source: &mut S,
    four: &[u8],
    buf: &mut [u8],
) -> Result<Layout, RecordingFault>
    requires room { 0 < length buf.old }
    requires four { length four.now ≡ 4 }
    ensures room { length buf.new ≡ length buf.old }
    ensures gave { IfOk result (λ l. GaveValue (laid_behind four.now) (S.gave source.old)
        (S.gave source.new) (layout_seen l).laid) }
    ensures left { IfOk result (λ l. (layout_seen l).left ≡ most_blocks) }
    ensures gave_wrong { IfErr result (λ f. GaveFault (laid_behind four.now) (S.gave source.old)
        (S.gave source.new) (S.ended source.new) f) }
    ensures counted { CountsDevice (S.failures source.old) (S.failures source.new) result }
    ensures names { S.names source.new ≡ S.names source.old }
{
    if long_at(ByteOrder::Big, four, 0) == SECTION {
        return open_blocks(source, four, buf);
    }
    match magic_of(four) {
        Some(_) => open_pcap(source, four),
        None => Err(foreign(four)),
    }
}

/// Begins to read a recording of which the first four octets were read before: reads what stands
/// before all packets behind them. `buf` is where octets go that are passed over.
///
/// # Errors
///
/// Those of [`open_recording`], for the octets behind the four.
pub fn open_behind<S: ByteSource>(
    source: &mut S,
    four: &[u8],
    buf: &mut [u8],
) -> Result<Layout, RecordingFault>
    requires room { 0 < length buf.old }
    requires four { length four.now ≡ 4 }
    ensures room { length buf.new ≡ length buf.old }
    // Whatever the source gave before those four.
    ensures read { IfOk result (λ l. (before : List ℕ) → S.gave source.old ≡ before ++ four.now
        → HasRead (length buf.old) before (S.gave source.new) (layout_seen l) []) }
    ensures fault { IfErr result (λ f. (before : List ℕ) → S.gave source.old ≡ before ++ four.now
        → HasFailed (length buf.old) before (S.gave source.new) (S.ended source.new) f []) }
    // Just what stands before all packets was read, and a fault is its own.
    ensures opened { IfOk result (λ l. (before : List ℕ) → S.gave source.old ≡ before ++ four.now
        → GaveValue opened_at before (S.gave source.new) (layout_seen l).laid) }
    ensures wrong { IfErr result (λ f. (before : List ℕ) → S.gave source.old ≡ before ++ four.now
        → GaveFault opened_at before (S.gave source.new) (S.ended source.new) f) }
    ensures grown { GrewFrom (S.gave source.old) (S.gave source.new) }
    ensures counted { CountsDevice (S.failures source.old) (S.failures source.new) result }
    ensures names { S.names source.new ≡ S.names source.old }
{
    lay_behind(source, four, buf)
}

/// Begins to read a recording: reads what stands before all packets. `buf` is where octets go that
/// are passed over.
///
/// # Errors
///
/// `Device`; `Truncated` where there are fewer than four octets, or fewer than stand before the
/// packets; `Packed` where gzip has packed the octets; `BadMagic` where they begin neither layout,
/// or a section has no order; `BadVersion`; `BadBlock` where the lengths of the first block don't
/// fit.
pub fn open_recording<S: ByteSource>(
    source: &mut S,
    buf: &mut [u8],
) -> Result<Layout, RecordingFault>
    requires { 0 < length buf.old }
    ensures room { length buf.new ≡ length buf.old }
    ensures read { IfOk result (λ l. HasRead (length buf.old) (S.gave source.old)
        (S.gave source.new) (layout_seen l) []) }
    ensures fault { IfErr result (λ f. HasFailed (length buf.old) (S.gave source.old)
        (S.gave source.new) (S.ended source.new) f []) }
    ensures counted { CountsDevice (S.failures source.old) (S.failures source.new) result }
    ensures names { S.names source.new ≡ S.names source.old }
{
    let mut four = [0u8; 4];
    read_field(source, &mut four)?;
    lay_behind(source, &four, buf)
}

fn pcap_step<S: ByteSource>(
    source: &mut S,
    file: &PcapHead,
    left: &mut u64,
    buf: &mut [u8],
) -> Result<Step, RecordingFault>
    requires { 0 < length buf.old }
    ensures room { length buf.new ≡ length buf.old }
    ensures within { IfOk result (λ s. IsPacketWithin s (length buf.new)) }
    ensures read { IfOk result (λ s. ReadsStep (length buf.old) (S.gave source.old)
        (S.gave source.new) (S.ended source.new) (in_pcap file.now left.old)
        (in_pcap file.now left.new) s buf.new) }
    ensures fewer { IfOk result (λ _. left.new < left.old) }
    ensures fault { IfErr result (λ f. ReadsFault (length buf.old) (S.gave source.old)
        (S.gave source.new) (S.ended source.new) (in_pcap file.now left.old) f) }
    ensures grown { GrewFrom (S.gave source.old) (S.gave source.new) }
    ensures counted { CountsDevice (S.failures source.old) (S.failures source.new) result }
    ensures names { S.names source.new ≡ S.names source.old }
{
    if *left == 0 {
        return Err(RecordingFault::TooManyBlocks);
    }
    *left -= 1;
    match next_record(source, file, buf) {
        Ok(Some(packet)) => Ok(Step::Packet(packet, 0)),
        Ok(None) => Ok(Step::End),
        Err(fault) => Err(fault),
    }
}

fn block_step<S: ByteSource>(
    source: &mut S,
    section: &mut Section,
    left: &mut u64,
    buf: &mut [u8],
) -> Result<Step, RecordingFault>
    requires { 0 < length buf.old }
    ensures room { length buf.new ≡ length buf.old }
    ensures within { IfOk result (λ s. IsPacketWithin s (length buf.new)) }
    ensures read { IfOk result (λ s. ReadsStep (length buf.old) (S.gave source.old)
        (S.gave source.new) (S.ended source.new) (in_blocks (known section.old) left.old)
        (in_blocks (known section.new) left.new) s buf.new) }
    ensures fewer { IfOk result (λ _. left.new < left.old) }
    ensures fault { IfErr result (λ f. ReadsFault (length buf.old) (S.gave source.old)
        (S.gave source.new) (S.ended source.new) (in_blocks (known section.old) left.old) f) }
    ensures grown { GrewFrom (S.gave source.old) (S.gave source.new) }
    ensures counted { CountsDevice (S.failures source.old) (S.failures source.new) result }
    ensures names { S.names source.new ≡ S.names source.old }
{
    if *left == 0 {
        return Err(RecordingFault::TooManyBlocks);
    }
    *left -= 1;
    next_block(source, section, buf)
}

fn step<S: ByteSource>(
    source: &mut S,
    layout: &mut Layout,
    buf: &mut [u8],
) -> Result<Step, RecordingFault>
    requires { 0 < length buf.old }
    ensures room { length buf.new ≡ length buf.old }
    ensures within { IfOk result (λ s. IsPacketWithin s (length buf.new)) }
    ensures read { IfOk result (λ s. ReadsStep (length buf.old) (S.gave source.old)
        (S.gave source.new) (S.ended source.new) (layout_seen layout.old)
        (layout_seen layout.new) s buf.new) }
    ensures fewer { IfOk result
        (λ _. (layout_seen layout.new).left < (layout_seen layout.old).left) }
    ensures fault { IfErr result (λ f. ReadsFault (length buf.old) (S.gave source.old)
        (S.gave source.new) (S.ended source.new) (layout_seen layout.old) f) }
    ensures grown { GrewFrom (S.gave source.old) (S.gave source.new) }
    ensures counted { CountsDevice (S.failures source.old) (S.failures source.new) result }
    ensures names { S.names source.new ≡ S.names source.old }
{
    match layout {
        Layout::Pcap(file, left) => pcap_step(source, file, left, buf),
        Layout::Blocks(section, left) => block_step(source, section, left, buf),
    }
}

/// Reads the next packet of a recording, or answers `None` at its end. Blocks without a packet are
/// passed over. What `buf` holds beside the packet's octets, or after a fault, is not said, nor
/// what the layout is after a fault.
///
/// To go over all packets, lend a buffer of the same length at each call. A packet that is answered
/// leaves fewer records or blocks that may still come, so such a loop ends.
///
/// # Errors
///
/// The first in the order of the octets: `Device`; `Truncated`; `BadMagic`, `BadVersion`,
/// `BadBlock`, `BadInterface`, `TooManyInterfaces`, `BadTime` by what a block says; `PacketTooLong`
/// where `buf` has no room for a packet of the classic layout, or for a whole block;
/// `TooManyBlocks` behind 2^64 - 1 records or blocks.
#[tactic(auto, using(crate::proofs::Growing::grew_on, st_format::proofs::Histories::grew_none))]
pub fn next_packet<S: ByteSource>(
    source: &mut S,
    layout: &mut Layout,
    buf: &mut [u8],
) -> Result<Option<Packet>, RecordingFault>
    requires { 0 < length buf.old }
    ensures room { length buf.new ≡ length buf.old }
    ensures within { IfOk result (λ r. IfSome r
        (λ p. p.place + p.head.captured ≤ length buf.new)) }
    ensures read { IfOk result (λ r. ReadsNext (length buf.old) (S.gave source.old)
        (S.gave source.new) (S.ended source.new) (layout_seen layout.old) (layout_seen layout.new) r
        buf.new) }
    ensures fewer { IfOk result (λ r. IfSome r
        (λ _. (layout_seen layout.new).left < (layout_seen layout.old).left)) }
    ensures fault { IfErr result (λ f. ReadsFault (length buf.old) (S.gave source.old)
        (S.gave source.new) (S.ended source.new) (layout_seen layout.old) f) }
    ensures grown { GrewFrom (S.gave source.old) (S.gave source.new) }
    ensures counted { CountsDevice (S.failures source.old) (S.failures source.new) result }
    ensures names { S.names source.new ≡ S.names source.old }
{
    loop {
        match step(source, layout, buf)? {
            Step::End => return Ok(None),
            Step::Passed => {}
            Step::Packet(head, place) => return Ok(Some(Packet { head, place })),
        }
    }
}
