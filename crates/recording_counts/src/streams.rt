//! The table of streams.
ghost use Rattle.std.specs.Prelude.{◌≡◌, ◌++◌, ◌∷◌, List, [], OnErr, OnOk};
ghost use Rattle.std.specs.Prelude.{None, map};
ghost use Rattle.recording_counts.specs.declared.packet.Packet.{Packet as PacketValue};
ghost use Rattle.recording_counts.specs.Streams.{is_same, key_of, stream_of, streams_of};
ghost use Rattle.recording_counts.specs.Tables.{first_index};

use crate::packet::{Packet, StreamKey};
use crate::stream::StreamCount;
use crate::table::append;
use std::alloc::{AllocError, Allocator};
use std::collections::BTreeMap;
use std::marker::Model;

/// What is counted of streams, in the order of their first coming. A sender chooses by what they
/// are told apart, so that lies in a tree, which no choice makes slow.
#[derive(Drop)]
pub struct StreamTable<A: Allocator> {
    alloc: A,
    counts: Vec<StreamCount<A>, A>,
    places: BTreeMap<StreamKey, usize, A>,
}

impl<A: Allocator> Model for StreamTable<A> {
    ghost use Rattle.std.specs.Prelude.{List, map};
    ghost use Rattle.recording_counts.specs.declared.stream.StreamCount.{StreamCount as Count};
    ghost use Rattle.recording_counts.specs.Streams.{is_same, key_cmp};
    ghost use Rattle.recording_counts.specs.Tables.{IsIndexOf};
    ghost use Rattle.recording_counts.specs.Codes.{streams_code};

    // The counts, stream by stream
    ghost Value = { List (Count A) };

    ghost coded = { streams_code };

    ghost view = { λ t. t.counts.items };

    ghost invariant = { λ t. IsIndexOf key_cmp is_same t.places (map (λ c. c.key) t.counts.items) };
}

impl<A: Allocator + Copy> StreamTable<A> {
    /// A table of no packets, which takes no memory.
    pub fn new(alloc: A) -> StreamTable<A>
        ensures { result ≡ streams_of [] }
    {
        StreamTable {
            alloc,
            counts: Vec::new(alloc),
            places: BTreeMap::new(alloc),
        }
    }

    /// Notes one more packet. Where the table was that of some packets, it is then that of those
    /// and this one.
    ///
    /// # Errors
    ///
    /// That memory was wanted. The table is then what it was.
    pub fn note(&mut self, packet: &Packet) -> Result<(), AllocError>
        ensures noted { OnOk result ((packets : List PacketValue) → self.old ≡ streams_of packets
            → self.new ≡ streams_of (packets ++ packet.now ∷ [])) }
        ensures kept { OnErr result (self.new ≡ self.old) }
    {
        let key = packet.stream();
        match self.places.get(&key).copied() {
            Some(place) => self.counts[place].note(packet),
            None => self.open(key, packet),
        }
    }

    /// Adds a stream that no packet was of.
    fn open(&mut self, key: StreamKey, packet: &Packet) -> Result<(), AllocError>
        requires key { key ≡ key_of packet.now }
        requires absent { first_index is_same key (map (λ c. c.key) self.old) ≡ None }
        ensures added { OnOk result (self.new ≡ self.old
            ++ stream_of (key_of packet.now) (packet.now ∷ []) ∷ []) }
        ensures kept { OnErr result (self.new ≡ self.old) }
    {
        let mut count = StreamCount::new(self.alloc, key);
        count.note(packet)?;
        append(&mut self.counts, &mut self.places, key, count)?;
        Ok(())
    }

    /// What is counted, stream by stream, in the order of their first coming.
    pub fn streams(&self) -> &[StreamCount<A>]
        ensures { result.now ≡ self.now }
    {
        self.counts.as_slice()
    }
}
