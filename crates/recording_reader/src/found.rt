//! The record of a packet, found in the buffer where the packet's octets are.
ghost use Rattle.std.specs.Prelude.{◌≡◌, ◌≤◌, ◌+◌, ◌-◌, length, IfOk};
ghost use Rattle.pcap_file.specs.Runs.{packet_seen};
ghost use Rattle.recording_reader.specs.Found.{entry_found, omission_found};
ghost use Rattle.recording_reader.specs.Records.{moment_of, omission_of, record_of};

use crate::place::read_placed;
use flow::Flows;
use pcap_file::Packet;
use recording_counts::Omission;
use st_format::Path;

/// A datagram that was found in a buffer: its path, its moment, and where its octets stand.
#[derive(Clone, Copy)]
pub struct Found {
    pub(crate) path: Path,
    pub(crate) moment: u64,
    /// Behind so many octets of the buffer.
    pub(crate) start: usize,
    /// Up to so many.
    pub(crate) end: usize,
}

/// The moment of a packet: its time in nanoseconds since 1970, or 0 where the recording doesn't
/// say one.
fn moment_of(packet: &Packet) -> u64
    ensures { result ≡ moment_of packet.now.head.time }
{
    match packet.head.time {
        Some(time) => time,
        None => 0,
    }
}

/// Finds the record of a packet whose octets stand in `buf`, where it has a datagram of the flows.
///
/// # Errors
///
/// Why it has none.
pub(crate) fn find(flows: &Flows, packet: &Packet, buf: &[u8]) -> Result<Found, Omission>
    requires { packet.now.place + packet.now.head.captured ≤ length buf.now }
    ensures is { entry_found result buf.now ≡ record_of flows.now (packet_seen packet.now buf.now) }
    ensures why { omission_found result ≡ omission_of flows.now (packet_seen packet.now buf.now) }
    ensures forward { IfOk result (λ f. f.start ≤ f.end) }
    ensures inside { IfOk result (λ f. f.end ≤ length buf.now) }
    ensures few { IfOk result (λ f. f.end - f.start ≤ 65535) }
{
    let place = packet.place;
    let octets = &buf[place..place + packet.head.captured as usize];
    let moment = moment_of(packet);
    match read_placed(&packet.head, octets) {
        Ok(placed) => {
            let datagram = placed.datagram;
            let start = place + placed.place;
            let end = start + datagram.payload.len();
            let port = datagram.destination_port;
            let interface = &packet.head.interface;
            match flows.path_of(interface, datagram.source, datagram.destination, port) {
                Some(path) => Ok(Found {
                    path,
                    moment,
                    start,
                    end,
                }),
                None => Err(Omission::OtherFlow),
            }
        }
        Err(reason) => Err(Omission::NoDatagram(reason)),
    }
}
