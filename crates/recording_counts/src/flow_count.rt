//! What is counted of a flow.
ghost use Rattle.std.specs.Prelude.{◌≡◌, ◌++◌, ◌∷◌, List, []};
ghost use Rattle.recording_counts.specs.Flows.{Arrival, arrival_of};
ghost use Rattle.recording_counts.specs.FlowCounts.{flow_count_of};
ghost use Rattle.std.specs.declared.net.socket_addr.SocketAddr.{SocketAddr as Destination};

use crate::noted::Noted;
use crate::rtp_count::RtpCount;
use crate::times::Times;
use std::net::SocketAddr;

/// What is counted of a flow: the datagrams to one address and port. A count stays at 2^64 - 1 once
/// it is there.
#[derive(Drop)]
pub struct FlowCount {
    /// Where they were sent to.
    pub destination: SocketAddr,
    /// How many datagrams they are.
    pub datagrams: u64,
    /// How many octets they have, without the headers of UDP and below.
    pub octets: u64,
    /// How many of them read as RTP, and what those say.
    pub rtp: RtpCount,
    /// The least and the greatest of their times.
    pub times: Times,
}

impl FlowCount {
    /// Of no datagrams.
    pub(crate) fn new(destination: SocketAddr) -> FlowCount
        ensures { result ≡ flow_count_of destination [] }
    {
        FlowCount {
            destination,
            datagrams: 0,
            octets: 0,
            rtp: RtpCount::new(),
            times: Times::new(),
        }
    }

    /// Notes one more datagram of the flow.
    pub(crate) fn note(&mut self, datagram: &Noted<'_>)
        ensures counted { (to : Destination) (own : List Arrival) → self.old ≡ flow_count_of to own
            → self.new ≡ flow_count_of to (own ++ arrival_of datagram.now ∷ []) }
        ensures same { self.new.destination ≡ self.old.destination }
    {
        self.datagrams = self.datagrams.saturating_add(1);
        self.octets = self.octets.saturating_add(datagram.payload.len() as u64);
        self.rtp.note(datagram.payload);
        self.times.note(datagram.time);
    }
}
