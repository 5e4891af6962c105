//! The packets by which the skew of the paths is told, by timestamp.
ghost use Rattle.std.specs.Prelude.{◌≡◌, ◌++◌, ◌∷◌, List, [], OnOk};
ghost use Rattle.std.specs.BTreeMap.{get};
ghost use Rattle.recording_counts.specs.Streams.{key_cmp};
ghost use Rattle.recording_counts.specs.Timestamps.{timestamp_cmp};
ghost use Rattle.stream_inspection.specs.Arrivals.{Arrival, arrival};
ghost use Rattle.stream_inspection.specs.Skews.{AreProbes, numbering_in, probes_in, skew_by};

use crate::numbering::Numbering;
use crate::probe::{Probes, skew_in};
use recording_counts::{Packet, StreamKey, TimestampKey};
use std::alloc::{AllocError, Allocator};
use std::collections::BTreeMap;

/// The probes of each timestamp, and what is known of the packet numbers of each stream. A sender
/// chooses by what they are told apart, so they lie in trees, which no choice makes slow.
#[derive(Drop)]
pub struct ProbeTable<A: Allocator> {
    pub(crate) numberings: BTreeMap<StreamKey, Numbering, A>,
    pub(crate) probes: BTreeMap<TimestampKey, Probes, A>,
}

impl<A: Allocator + Copy> ProbeTable<A> {
    /// Of no packets.
    pub(crate) fn new(alloc: A) -> ProbeTable<A>
        ensures { AreProbes result [] }
    {
        ProbeTable {
            numberings: BTreeMap::new(alloc),
            probes: BTreeMap::new(alloc),
        }
    }

    /// Notes one more packet, which came at this moment.
    ///
    /// # Errors
    ///
    /// That memory was wanted.
    pub(crate) fn note(&mut self, packet: &Packet, moment: u64) -> Result<(), AllocError>
        ensures { OnOk result ((arrivals : List Arrival) → AreProbes self.old arrivals
            → AreProbes self.new (arrivals ++ arrival packet.now moment ∷ [])) }
    {
        let stream = packet.stream();
        let numbering = self.numbering(&stream);
        let number = numbering.next(packet);
        let behind = numbering.behind(packet, number);
        self.numberings.insert(stream, behind)?;
        let key = packet.timestamp_key();
        let probes = self.probes(&key).after(packet, number, moment);
        self.probes.insert(key, probes)?;
        Ok(())
    }

    /// What is known of the numbers of a stream, of which no packet may have come.
    fn numbering(&self, stream: &StreamKey) -> Numbering
        ensures { result ≡ numbering_in (get key_cmp self.now.numberings stream.now) }
    {
        match self.numberings.get(stream).copied() {
            Some(numbering) => numbering,
            None => Numbering::new(),
        }
    }

    /// The probes of a timestamp; neither is there where no packet of it came.
    fn probes(&self, key: &TimestampKey) -> Probes
        ensures { result ≡ probes_in (get timestamp_cmp self.now.probes key.now) }
    {
        match self.probes.get(key).copied() {
            Some(probes) => probes,
            None => Probes {
                long: None,
                short: None,
            },
        }
    }

    /// The skew of a timestamp: by the packet numbers of 32 bits, where a packet of its stream says
    /// a high half that isn't 0, and else by those of 16.
    pub(crate) fn skew(&self, key: &TimestampKey) -> Option<u128>
        ensures { (arrivals : List Arrival) → AreProbes self.now arrivals
            → result ≡ skew_by arrivals key.now }
    {
        let probes = self.probes(key);
        if self.numbering(&key.stream).high {
            skew_in(probes.long)
        } else {
            skew_in(probes.short)
        }
    }
}
