//! What is counted of streams by both kinds of packet numbers.
ghost use Rattle.std.specs.Prelude.{◌≡◌, ◌<◌, ◌++◌, ◌∷◌, List, [], OnOk, length};
ghost use Rattle.std.specs.Prelude.{get_or};
ghost use Rattle.recording_counts.specs.Streams.{streams_of};
ghost use Rattle.recording_counts.specs.declared.packet.Packet.{Packet as PacketValue};
ghost use Rattle.stream_inspection.specs.Numbers.{AreStreams, told_streams};

use crate::numbers::{has_high, without_high};
use recording_counts::{Packet, StreamCount, StreamKey, StreamTable};
use std::alloc::{AllocError, Allocator};
use std::collections::BTreeSet;

/// What is counted of streams, by the packets' numbers of 32 bits and by those of 16: by which of
/// them a stream is told is known once all its packets came.
#[derive(Drop)]
pub struct StreamTables<A: Allocator> {
    /// Of the packets as they are.
    pub long: StreamTable<A>,
    /// Of the same packets without the high halves of their numbers.
    pub short: StreamTable<A>,
    /// The streams of which a packet says a high half that isn't 0.
    pub highs: BTreeSet<StreamKey, A>,
}

impl<A: Allocator + Copy> StreamTables<A> {
    /// Of no packets.
    pub(crate) fn new(alloc: A) -> StreamTables<A>
        ensures { AreStreams result [] }
    {
        StreamTables {
            long: StreamTable::new(alloc),
            short: StreamTable::new(alloc),
            highs: BTreeSet::new(alloc),
        }
    }

    /// Notes one more packet.
    ///
    /// # Errors
    ///
    /// That memory was wanted.
    pub(crate) fn note(&mut self, packet: &Packet) -> Result<(), AllocError>
        ensures { OnOk result ((packets : List PacketValue) → AreStreams self.old packets
            → AreStreams self.new (packets ++ packet.now ∷ [])) }
    {
        self.long.note(packet)?;
        self.short.note(&without_high(packet))?;
        if !has_high(packet) {
            return Ok(());
        }
        self.highs.insert(packet.stream())?;
        Ok(())
    }

    /// What is told of the stream of this place, whose count by 32 bits this is: that, where one of
    /// its packets says a high half that isn't 0, and else the count by 16 bits.
    pub(crate) fn told<'a>(&'a self, place: usize, long: &'a StreamCount<A>) -> &'a StreamCount<A>
        ensures { (packets : List PacketValue) → AreStreams self.now packets
            → place < length (streams_of {A = A} packets)
            → long.now ≡ get_or (streams_of packets) place long.now
            → result.now ≡ get_or (told_streams packets) place long.now }
    {
        if self.highs.contains(&long.key) {
            return long;
        }
        // Both tables have the same streams.
        match self.short.streams().get(place) {
            Some(short) => short,
            None => long,
        }
    }
}
