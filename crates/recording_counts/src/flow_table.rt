//! The table of flows.
ghost use Rattle.std.specs.Prelude.{◌≡◌, ◌++◌, ◌∷◌, List, [], OnErr, OnOk};
ghost use Rattle.std.specs.Prelude.{None, map, length, ◌≤◌};
ghost use Rattle.recording_counts.specs.FlowCounts.{flow_count_of, flow_counts};
ghost use Rattle.recording_counts.specs.Flows.{Arrival, arrival_of};
ghost use Rattle.recording_counts.specs.FlowPlaces.{flow_key_of, is_same_key};
ghost use Rattle.recording_counts.specs.Tables.{first_index};

use crate::flow_count::FlowCount;
use crate::noted::Noted;
use crate::table::append;
use arrayvec::ArrayVec;
use std::alloc::{AllocError, Allocator};
use std::collections::BTreeMap;
use std::marker::Model;
use std::net::{IpAddr, SocketAddr};

/// By what a flow is found: the port, and the octets of the address. A sender chooses both, so they
/// lie in a tree, which no choice makes slow.
type FlowKey = (u16, ArrayVec<u8, 16>);

/// What is counted of flows, in the order of their first coming.
#[derive(Drop)]
pub struct FlowTable<A: Allocator> {
    counts: Vec<FlowCount, A>,
    places: BTreeMap<FlowKey, usize, A>,
}

impl<A: Allocator> Model for FlowTable<A> {
    ghost use Rattle.std.specs.Prelude.{List, map};
    ghost use Rattle.recording_counts.specs.declared.flow_count.FlowCount.{FlowCount as Count};
    ghost use Rattle.recording_counts.specs.FlowPlaces.{flow_key_cmp, flow_key_of, is_same_key};
    ghost use Rattle.recording_counts.specs.Tables.{IsIndexOf};

    // The counts, flow by flow
    ghost Value = { List Count };

    ghost view = { λ t. t.counts.items };

    ghost invariant = { λ t. IsIndexOf flow_key_cmp is_same_key t.places
        (map (λ c. flow_key_of c.destination) t.counts.items) };
}

impl<A: Allocator + Copy> FlowTable<A> {
    /// A table of no datagrams, which takes no memory.
    pub fn new(alloc: A) -> FlowTable<A>
        ensures { result ≡ flow_counts [] }
    {
        FlowTable {
            counts: Vec::new(alloc),
            places: BTreeMap::new(alloc),
        }
    }

    /// Notes one more datagram. Where the table was that of some datagrams, it is then that of
    /// those and this one.
    ///
    /// # Errors
    ///
    /// That memory was wanted. The table is then what it was.
    pub fn note(&mut self, datagram: &Noted<'_>) -> Result<(), AllocError>
        ensures noted { OnOk result ((arrivals : List Arrival) → self.old ≡ flow_counts arrivals
            → self.new ≡ flow_counts (arrivals ++ arrival_of datagram.now ∷ [])) }
        ensures kept { OnErr result (self.new ≡ self.old) }
    {
        let key = flow_key_of(datagram.destination);
        match self.places.get(&key).copied() {
            Some(place) => {
                self.counts[place].note(datagram);
                Ok(())
            }
            None => self.open(key, datagram),
        }
    }

    /// Adds a flow that no datagram was of.
    fn open(&mut self, key: FlowKey, datagram: &Noted<'_>) -> Result<(), AllocError>
        requires key { key ≡ flow_key_of datagram.now.destination }
        requires absent { first_index is_same_key key
            (map (λ c. flow_key_of c.destination) self.old) ≡ None }
        ensures added { OnOk result (self.new ≡ self.old
            ++ flow_count_of datagram.now.destination (arrival_of datagram.now ∷ []) ∷ []) }
        ensures kept { OnErr result (self.new ≡ self.old) }
    {
        let mut count = FlowCount::new(datagram.destination);
        count.note(datagram);
        append(&mut self.counts, &mut self.places, key, count)?;
        Ok(())
    }

    /// What is counted, flow by flow, in the order of their first coming.
    pub fn flows(&self) -> &[FlowCount]
        ensures { result.now ≡ self.now }
    {
        self.counts.as_slice()
    }
}

fn flow_key_of(destination: SocketAddr) -> FlowKey
    ensures { result ≡ flow_key_of destination }
{
    let port = destination.port();
    match destination.ip() {
        IpAddr::V4(address) => (port, key_octets(&address.octets())),
        IpAddr::V6(address) => (port, key_octets(&address.octets())),
    }
}

fn key_octets(octets: &[u8]) -> ArrayVec<u8, 16>
    requires { length octets.now ≤ 16 }
    ensures { result.items ≡ octets.now }
{
    ArrayVec::try_from(octets).unwrap()
}
