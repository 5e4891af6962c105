//! What is noted of recordings.
ghost use Rattle.std.specs.Prelude.{◌≡◌, [], ◌∷◌, OnOk};
ghost use Rattle.recording_counts.specs.FlowCounts.{flow_counts};
ghost use Rattle.inspect_engine.specs.Arrivals.{captured};
ghost use Rattle.recording_counts.specs.LeftOut.{left_out_of};
ghost use Rattle.inspect_engine.specs.Inspected.{NotesEach};

use crate::destination::destination_of;
use pcap_file::{PacketHead, packet_datagram};
use recording_counts::{FlowTable, LeftOut, Noted, Omission};
use std::alloc::{AllocError, Allocator};

/// What is noted of the packets of recordings.
#[derive(Drop)]
pub struct Inspection<A: Allocator> {
    /// The flows of their datagrams, in the order in which they first came.
    pub flows: FlowTable<A>,
    /// The packets that are no datagrams, counted by the reason why.
    pub left_out: LeftOut,
}

impl<A: Allocator + Copy> Inspection<A> {
    /// What is noted of no packets.
    pub fn new(alloc: A) -> Inspection<A>
        ensures flows { result.flows ≡ flow_counts [] }
        ensures left_out { result.left_out ≡ left_out_of [] }
    {
        Inspection {
            flows: FlowTable::new(alloc),
            left_out: LeftOut::new(),
        }
    }

    /// Notes one more packet.
    ///
    /// # Errors
    ///
    /// That memory was wanted.
    pub(crate) fn note(&mut self, head: &PacketHead, octets: &[u8]) -> Result<(), AllocError>
        ensures { OnOk result (NotesEach (captured head.now octets.now ∷ []) self.old self.new) }
    {
        match packet_datagram(head, octets) {
            Ok(datagram) => {
                let destination = destination_of(datagram.destination, datagram.destination_port);
                self.flows.note(&Noted {
                    time: head.time,
                    destination,
                    payload: datagram.payload,
                })
            }
            Err(reason) => {
                self.left_out.note(Omission::NoDatagram(reason));
                Ok(())
            }
        }
    }
}
