//! What is counted of a timestamp.
ghost use Rattle.std.specs.Prelude.{◌≡◌, ◌++◌, ◌∷◌, List, []};
ghost use Rattle.recording_counts.specs.declared.packet.Packet.{Packet as PacketValue};
ghost use Rattle.recording_counts.specs.declared.packet.TimestampKey.{TimestampKey as KeyValue};
ghost use Rattle.recording_counts.specs.Timestamps.{ticks_from, timestamp_of};

use crate::packet::{Packet, TimestampKey, is_a};
use crate::path_count::one_more;

/// What is counted of the packets of one timestamp of a stream. A count stays at 2^64 - 1 once it
/// is there.
#[derive(Clone, Copy, Debug, PartialEq, Eq)]
pub struct TimestampCount {
    pub key: TimestampKey,
    /// How many packets came by A.
    pub by_a: u64,
    /// How many packets came by B.
    pub by_b: u64,
    /// Whether one came with the marker.
    pub marker: bool,
}

impl TimestampCount {
    /// Of no packets.
    pub(crate) fn new(key: TimestampKey) -> TimestampCount
        ensures { result ≡ timestamp_of key [] }
    {
        TimestampCount {
            key,
            by_a: 0,
            by_b: 0,
            marker: false,
        }
    }

    /// Notes one more packet of the timestamp.
    pub(crate) fn note(&mut self, packet: &Packet)
        ensures counted { (key : KeyValue) (own : List PacketValue)
            → self.old ≡ timestamp_of key own
            → self.new ≡ timestamp_of key (own ++ packet.now ∷ []) }
        ensures same { self.new.key ≡ self.old.key }
    {
        let by_a = is_a(packet.path);
        self.by_a = one_more(self.by_a, by_a);
        self.by_b = one_more(self.by_b, !by_a);
        if packet.marker {
            self.marker = true;
        }
    }

    /// How many ticks it is behind another one, modulo 2^32.
    pub fn ticks_from(&self, before: &TimestampCount) -> u32
        ensures { result ≡ ticks_from before.now.key.timestamp self.now.key.timestamp }
    {
        self.key.timestamp.wrapping_sub(before.key.timestamp)
    }
}
