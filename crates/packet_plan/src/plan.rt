//! A plan: which pgroups each packet of a picture carries.
ghost use Rattle.std.specs.Prelude.{◌≡◌, ◌<◌, ◌≤◌, ◌+◌, ◌*◌, ◌↔◌, ◌⊎◌, ◌==◌};
ghost use Rattle.std.specs.Prelude.{ℕ, List, length, take, drop, IfOk, Err};
ghost use Rattle.std.specs.List.{AllByRecursion};
ghost use Rattle.packet_plan.specs.Plan.{IsFullPlan, IsRasterPlan, NoneHasRoom, RowsRise};
ghost use Rattle.packet_plan.specs.Plan.{group_octets, packet_at, packet_octets};
ghost use Rattle.packet_plan.specs.Sending.{EachHasRoom};
ghost use Rattle.packet_plan.specs.Sent.{IsSentPacket};
ghost use Rattle.packet_plan.specs.Text.{AreRuns, IsStamp, datagram_text};
ghost use Rattle.st_format.specs.Picture.{IsPicture};
ghost use Rattle.packet_plan.specs.declared.run.PacketRun.{PacketRun as Run};

use crate::greedy::{group_octets_of, runs_from, starts_of};
use crate::raster::Raster;
use crate::run::PacketRun;
use crate::stamp::Stamp;
use crate::writing::write_datagram;
use arrayvec::ArrayVec;
use pgroup_pack::PackedPicture;
use st_format::{Format, Picture};
use std::alloc::{AllocError, Allocator, Global};
use std::marker::Model;
use thiserror::Error;

/// Octets before the pgroups of a packet of one segment: the RTP header of 12, the extended number
/// of two, and a header of six (RFC 3550, 5.1; RFC 4175, 4).
const ONE_SEGMENT: u32 = 20;

/// The greatest size of a packet, in octets with its RTP header (own).
const MOST_OCTETS: u32 = 9000;

/// Why there is no plan. The size is tested first.
#[derive(Clone, Copy, Debug, PartialEq, Eq, Error)]
pub enum PlanFault {
    /// The allocator refused the memory for the packets' first pgroups.
    #[error("the memory was refused")]
    NoMemory = 1,
    /// The greatest size is below 20 octets and a pgroup, or above 9000.
    #[error("the greatest size of a packet is below 20 octets and a pgroup, or above 9000")]
    BadPacketSize = 2,
}

impl PlanFault {
    ghost use Rattle.packet_plan.specs.Faults.{plan_fault_name, plan_fault_number};

    /// Its number: 1 or 2, which isn't the order of the tests.
    pub fn number(self) -> u8
        ensures { result ≡ plan_fault_number self }
    {
        self as u8
    }

    /// Its bare name, as the texts of the program have it.
    pub fn name(self) -> &'static str
        ensures { result.now ≡ plan_fault_name self }
    {
        match self {
            PlanFault::NoMemory => "NoMemory",
            PlanFault::BadPacketSize => "BadPacketSize",
        }
    }

    /// What was wanted where this fault comes, in words for a person.
    pub fn wanted(self) -> &'static str {
        match self {
            PlanFault::NoMemory => "more memory than there is",
            PlanFault::BadPacketSize => "20 octets and a pgroup at least, and at most 9000",
        }
    }
}

impl From<AllocError> for PlanFault {
    ghost use Rattle.packet_plan.specs.declared.plan.PlanFault.TheVariants.{NoMemory};

    ghost from_gives = { λ _ e. e ≡ NoMemory };

    fn from(_error: AllocError) -> PlanFault {
        PlanFault::NoMemory
    }
}

/// Which pgroups each packet of a picture carries. It keeps the number of each packet's first
/// pgroup, four octets a packet and at most 256 MiB. Where a packet ends is a formula of where it
/// begins, so any packet is written by itself.
///
/// Contracts see it as its format, its greatest size and a list of packets, each a list of runs.
#[derive(Drop)]
pub struct Plan<A: Allocator = Global> {
    format: Format,
    max_octets: u32,
    // the first pgroup of each packet
    starts: Vec<u32, A>,
}

impl<A: Allocator> Model for Plan<A> {
    ghost use Rattle.std.specs.Prelude.{map};
    ghost use Rattle.packet_plan.specs.Plan.{IsSize, RasterPlan};
    ghost use Rattle.st_format.specs.Position.{group_count};
    ghost use Rattle.packet_plan.specs.Greedy.{IsWalk, packet_from};

    ghost Value = { RasterPlan };

    ghost view = { λ p. record {
      format = p.format;
      max_octets = p.max_octets;
      packets = map (packet_from p.format p.max_octets) p.starts.items;
    } };

    ghost invariant = { λ p. IsSize p.max_octets p.format
        × IsWalk p.format p.max_octets 0 p.starts.items (group_count p.format) };
}

impl<A: Allocator> Plan<A> {
    /// A plan for pictures of a format, by packets of at most `max_octets` octets.
    ///
    /// Packets are filled in raster order, each with as many pgroups as fit into at most three
    /// segments. A further segment begins the next row, where at least one pgroup fits behind its
    /// header.
    ///
    /// # Errors
    ///
    /// `BadPacketSize` where `max_octets` is below 20 and the octets of a pgroup, or above 9000;
    /// else `NoMemory` where the memory was refused.
    pub fn new(alloc: A, format: Format, max_octets: u32) -> Result<Plan<A>, PlanFault>
        ensures size { (result ≡ Err PlanFault.BadPacketSize)
            ↔ ((max_octets < 20 + group_octets format) ⊎ (9000 < max_octets)) }
        ensures made { IfOk result (λ p. (p.format ≡ format) × (p.max_octets ≡ max_octets)) }
        // The packets are a raster plan, and as full as can be.
        ensures plan { IfOk result (λ p. IsRasterPlan p.packets format max_octets) }
        ensures rows { IfOk result (λ p. AllByRecursion RowsRise p.packets) }
        ensures room { IfOk result (λ p. NoneHasRoom p.packets format max_octets) }
        // No raster plan has fewer packets.
        ensures fewest { IfOk result (λ p. (others : List (List Run))
            → IsRasterPlan others format max_octets → length p.packets ≤ length others) }
    {
        if max_octets < ONE_SEGMENT + group_octets_of(&format) || max_octets > MOST_OCTETS {
            return Err(PlanFault::BadPacketSize);
        }
        let starts = starts_of(alloc, &format, max_octets)?;
        Ok(Plan {
            format,
            max_octets,
            starts,
        })
    }

    /// How many packets there are: from 1 to 2^26.
    pub fn len(&self) -> u32
        ensures value { result ≡ length self.now.packets }
        ensures some { 0 < length self.now.packets }
        ensures most { length self.now.packets ≤ 8192 * 8192 }
        // What `new` ensures holds of every plan.
        ensures full { IsFullPlan self.now.packets self.now.format self.now.max_octets }
    {
        self.starts.len() as u32
    }

    /// What is so of every plan: it has a packet, and what [`new`](Plan::new) says of its packets.
    /// A caller's proof learns it from here; nothing is done.
    #[doc(hidden)]
    #[inline(always)]
    pub fn facts(&self)
        ensures some { 0 < length self.now.packets }
        ensures full { IsFullPlan self.now.packets self.now.format self.now.max_octets }
    {
        let _format = &self.format;
    }

    /// The runs of a packet, from 0 on: one to three, each what a segment of it carries.
    pub fn packet(&self, index: u32) -> ArrayVec<PacketRun, 3>
        requires { index < length self.now.packets }
        ensures { result.items ≡ packet_at self.now index }
    {
        runs_from(&self.format, self.max_octets, self.starts[index as usize])
    }

    /// Writes the datagram of a packet over the first octets of `buf`, and answers how long it is.
    /// The octets behind it stay.
    ///
    /// The packet `index`, from 0, has the number `stamp.first + index` modulo 2^32, and the marker
    /// where it is the last. It is a plain RTP header (RFC 3550, 5.1) and a payload (RFC 4175, 4)
    /// whose segments are the packet's runs and spell the picture there.
    ///
    /// The picture has the plan's format, the payload type is at most 127, and `buf` has room for
    /// the datagram, for which [`max_octets`](Plan::max_octets) octets are enough.
    pub fn datagram<B: Allocator>(
        &self,
        index: u32,
        picture: &Picture<B>,
        stamp: Stamp,
        buf: &mut [u8],
    ) -> usize
        requires index { index < length self.now.packets }
        requires format { picture.now.format ≡ self.now.format }
        requires room { packet_octets self.now.format (packet_at self.now index) ≤ length buf.old }
        requires payload_type { stamp.payload_type ≤ 127 }
        ensures length { length buf.new ≡ length buf.old }
        ensures value { result ≡ packet_octets self.now.format (packet_at self.now index) }
        ensures sent { IsSentPacket (take result buf.new) picture.now stamp index
            (index + 1 == length self.now.packets) (packet_at self.now index) }
        // These very octets, and no others, are such a datagram.
        ensures text { take result buf.new ≡ datagram_text picture.now stamp index
            (index + 1 == length self.now.packets) (packet_at self.now index) }
        // The octets behind it stay.
        ensures behind { drop result buf.new ≡ drop result buf.old }
    {
        self.write_packet(index, picture, stamp, buf)
    }

    /// Writes the datagram of a packet of a picture whose pgroups are packed, which are copied
    /// as they are: as [`datagram`](Plan::datagram) does otherwise.
    pub fn packed_datagram<B: Allocator>(
        &self,
        index: u32,
        packed: &PackedPicture<B>,
        stamp: Stamp,
        buf: &mut [u8],
    ) -> usize
        requires index { index < length self.now.packets }
        requires format { packed.now.format ≡ self.now.format }
        requires room { packet_octets self.now.format (packet_at self.now index) ≤ length buf.old }
        requires payload_type { stamp.payload_type ≤ 127 }
        ensures length { length buf.new ≡ length buf.old }
        ensures value { result ≡ packet_octets self.now.format (packet_at self.now index) }
        ensures sent { IsSentPacket (take result buf.new) packed.now stamp index
            (index + 1 == length self.now.packets) (packet_at self.now index) }
        // These very octets, and no others, are such a datagram.
        ensures text { take result buf.new ≡ datagram_text packed.now stamp index
            (index + 1 == length self.now.packets) (packet_at self.now index) }
        // The octets behind it stay.
        ensures behind { drop result buf.new ≡ drop result buf.old }
    {
        self.write_packet(index, packed, stamp, buf)
    }

    /// The same, by the very octets, and what else is known of them.
    pub(crate) fn write_packet<P: Raster>(
        &self,
        index: u32,
        picture: &P,
        stamp: Stamp,
        buf: &mut [u8],
    ) -> usize
        requires index { index < length self.now.packets }
        requires format { (P.values picture.now).format ≡ self.now.format }
        requires room { packet_octets self.now.format (packet_at self.now index) ≤ length buf.old }
        requires payload_type { stamp.payload_type ≤ 127 }
        ensures length { length buf.new ≡ length buf.old }
        ensures value { result ≡ packet_octets self.now.format (packet_at self.now index) }
        ensures text { take result buf.new ≡ datagram_text (P.values picture.now) stamp index
            (index + 1 == length self.now.packets) (packet_at self.now index) }
        ensures behind { drop result buf.new ≡ drop result buf.old }
        ensures runs { AreRuns self.now.format (packet_at self.now index) }
        ensures stamp { IsStamp stamp }
        ensures picture { IsPicture (P.values picture.now) }
    {
        let count = self.len();
        let runs = self.packet(index);
        write_datagram(
            buf,
            picture,
            runs.as_slice(),
            stamp,
            index,
            index + 1 == count,
        )
    }

    /// The format that the plan was made for: that of the pictures that are sent by it.
    pub fn format(&self) -> Format
        ensures { result ≡ self.now.format }
    {
        self.format
    }

    /// The greatest size of a packet, in octets: each datagram has room in so many, and in more.
    pub fn max_octets(&self) -> u32
        ensures value { result ≡ self.now.max_octets }
        ensures room { (octets : ℕ) → result ≤ octets → EachHasRoom self.now octets }
    {
        self.max_octets
    }
}
