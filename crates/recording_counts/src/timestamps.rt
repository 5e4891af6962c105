//! The table of timestamps.
ghost use Rattle.std.specs.Prelude.{◌≡◌, ◌++◌, ◌∷◌, List, [], OnErr, OnOk};
ghost use Rattle.std.specs.Prelude.{None, map};
ghost use Rattle.recording_counts.specs.declared.packet.Packet.{Packet as PacketValue};
ghost use Rattle.recording_counts.specs.Timestamps.{is_same_timestamp, timestamp_key_of};
ghost use Rattle.recording_counts.specs.Timestamps.{timestamp_of, timestamps_of};
ghost use Rattle.recording_counts.specs.Tables.{first_index};

use crate::packet::{Packet, TimestampKey};
use crate::table::append;
use crate::timestamp::TimestampCount;
use std::alloc::{AllocError, Allocator};
use std::collections::BTreeMap;
use std::marker::Model;

/// What is counted of timestamps, in the order of their first coming. A sender chooses by what they
/// are told apart, so that lies in a tree, which no choice makes slow.
#[derive(Drop)]
pub struct TimestampTable<A: Allocator> {
    counts: Vec<TimestampCount, A>,
    places: BTreeMap<TimestampKey, usize, A>,
}

impl<A: Allocator> Model for TimestampTable<A> {
    ghost use Rattle.std.specs.Prelude.{List, map};
    ghost use Rattle.recording_counts.specs.declared.timestamp.TimestampCount.{TimestampCount as Count};
    ghost use Rattle.recording_counts.specs.Timestamps.{is_same_timestamp, timestamp_cmp};
    ghost use Rattle.recording_counts.specs.Tables.{IsIndexOf};

    // The counts, timestamp by timestamp
    ghost Value = { List Count };

    ghost view = { λ t. t.counts.items };

    ghost invariant = { λ t. IsIndexOf timestamp_cmp is_same_timestamp t.places
        (map (λ c. c.key) t.counts.items) };
}

impl<A: Allocator + Copy> TimestampTable<A> {
    /// A table of no packets, which takes no memory.
    pub fn new(alloc: A) -> TimestampTable<A>
        ensures { result ≡ timestamps_of [] }
    {
        TimestampTable {
            counts: Vec::new(alloc),
            places: BTreeMap::new(alloc),
        }
    }

    /// Notes one more packet. Where the table was that of some packets, it is then that of those
    /// and this one.
    ///
    /// # Errors
    ///
    /// That memory was wanted. The table is then what it was.
    pub fn note(&mut self, packet: &Packet) -> Result<(), AllocError>
        ensures noted { OnOk result ((packets : List PacketValue) → self.old ≡ timestamps_of packets
            → self.new ≡ timestamps_of (packets ++ packet.now ∷ [])) }
        ensures kept { OnErr result (self.new ≡ self.old) }
    {
        let key = packet.timestamp_key();
        match self.places.get(&key).copied() {
            Some(place) => {
                self.counts[place].note(packet);
                Ok(())
            }
            None => self.open(key, packet),
        }
    }

    /// Adds a timestamp that no packet was of.
    fn open(&mut self, key: TimestampKey, packet: &Packet) -> Result<(), AllocError>
        requires key { key ≡ timestamp_key_of packet.now }
        requires absent { first_index is_same_timestamp key (map (λ c. c.key) self.old) ≡ None }
        ensures added { OnOk result (self.new ≡ self.old
            ++ timestamp_of (timestamp_key_of packet.now) (packet.now ∷ []) ∷ []) }
        ensures kept { OnErr result (self.new ≡ self.old) }
    {
        let mut count = TimestampCount::new(key);
        count.note(packet);
        append(&mut self.counts, &mut self.places, key, count)?;
        Ok(())
    }

    /// What is counted, timestamp by timestamp, in the order of their first coming.
    pub fn timestamps(&self) -> &[TimestampCount]
        ensures { result.now ≡ self.now }
    {
        self.counts.as_slice()
    }
}
