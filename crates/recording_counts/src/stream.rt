//! What is counted of a stream.
ghost use Rattle.std.specs.Prelude.{◌≡◌, ◌&&◌, ◌++◌, ◌∷◌, List, [], not, true, false, OnErr, OnOk};
ghost use Rattle.recording_counts.specs.PathCounts.{is_repeated};
ghost use Rattle.recording_counts.specs.declared.packet.Packet.{Packet as PacketValue};
ghost use Rattle.recording_counts.specs.declared.packet.StreamKey.{StreamKey as KeyValue};
ghost use Rattle.recording_counts.specs.Streams.{is_a, stream_of};
ghost use Rattle.recording_counts.specs.Numbering.{number_after};

use crate::numbering::number_after;
use crate::packet::{Packet, StreamKey, is_a};
use crate::path_count::{Came, PathCount, greatest, one_more};
use std::alloc::{AllocError, Allocator};

/// What is counted of the packets of one payload type and one source, by either path.
#[derive(Drop)]
pub struct StreamCount<A: Allocator> {
    pub key: StreamKey,
    /// The highest number of a packet so far.
    pub highest: Option<u64>,
    /// How many different packets came by both paths.
    pub both: u64,
    /// Of the packets that came by A.
    pub a: PathCount<A>,
    /// Of the packets that came by B.
    pub b: PathCount<A>,
}

impl<A: Allocator + Copy> StreamCount<A> {
    /// Of no packets.
    pub(crate) fn new(alloc: A, key: StreamKey) -> StreamCount<A>
        ensures { result ≡ stream_of key [] }
    {
        StreamCount {
            key,
            highest: None,
            both: 0,
            a: PathCount::new(alloc),
            b: PathCount::new(alloc),
        }
    }

    /// Notes one more packet of the stream.
    ///
    /// # Errors
    ///
    /// That memory was wanted. The counts are then what they were.
    pub(crate) fn note(&mut self, packet: &Packet) -> Result<(), AllocError>
        ensures counted { OnOk result ((key : KeyValue) (own : List PacketValue)
            → self.old ≡ stream_of key own → self.new ≡ stream_of key (own ++ packet.now ∷ [])) }
        ensures same { self.new.key ≡ self.old.key }
        ensures kept { OnErr result (self.new ≡ self.old) }
    {
        let number = number_after(self.highest, packet);
        if is_a(packet.path) {
            self.note_by_a(number)
        } else {
            self.note_by_b(number)
        }
    }

    /// Notes the number of one more packet of the stream, which came by A.
    fn note_by_a(&mut self, number: u64) -> Result<(), AllocError>
        ensures counted { OnOk result ((key : KeyValue) (own : List PacketValue) (p : PacketValue)
            → self.old ≡ stream_of key own → is_a p.path ≡ true
            → number ≡ number_after self.old.highest p
            → self.new ≡ stream_of key (own ++ p ∷ [])) }
        ensures same { self.new.key ≡ self.old.key }
        ensures kept { OnErr result (self.new ≡ self.old) }
    {
        let came = self.a.note(number)?;
        let there = self.b.numbers.contains(number);
        self.both = one_more(self.both, is_second(came, there));
        self.highest = Some(greatest(self.highest, number));
        Ok(())
    }

    /// Notes the number of one more packet of the stream, which came by B.
    fn note_by_b(&mut self, number: u64) -> Result<(), AllocError>
        ensures counted { OnOk result ((key : KeyValue) (own : List PacketValue) (p : PacketValue)
            → self.old ≡ stream_of key own → is_a p.path ≡ false
            → number ≡ number_after self.old.highest p
            → self.new ≡ stream_of key (own ++ p ∷ [])) }
        ensures same { self.new.key ≡ self.old.key }
        ensures kept { OnErr result (self.new ≡ self.old) }
    {
        let came = self.b.note(number)?;
        let there = self.a.numbers.contains(number);
        self.both = one_more(self.both, is_second(came, there));
        self.highest = Some(greatest(self.highest, number));
        Ok(())
    }
}

/// Whether a packet that came so by one path came by both now, where it came by the other one or
/// not.
fn is_second(came: Came, there: bool) -> bool
    ensures { result ≡ (not (is_repeated came) && there) }
{
    match came {
        Came::New | Came::Late => there,
        Came::Repeated => false,
    }
}
