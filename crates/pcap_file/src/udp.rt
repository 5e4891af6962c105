//! UDP in what a packet carries.
ghost use Rattle.std.specs.Prelude.{◌≡◌, ◌≤◌, ◌+◌, ◌↔◌, ℕ, List, length, take, IfErr, IfOk};
ghost use Rattle.std.specs.Prelude.{IsErrOf};
ghost use Rattle.std.specs.Prelude.{IsOkAnd, Err, None};
ghost use Rattle.st_format.specs.Reading.{Gives};
ghost use Rattle.pcap_file.specs.Reading.{reason_udp, udp_at};
ghost use Rattle.pcap_file.specs.Reasons.{IsNoUdp};
ghost use Rattle.pcap_file.specs.Udp.{Datagram, IsUdp};
ghost use Rattle.pcap_file.specs.Views.{seen_datagram, seen_packet};
ghost use Rattle.pcap_file.specs.declared.datagram.NoDatagram.{NoDatagram as Reason};

use crate::datagram::{DatagramView, NoDatagram};
use crate::ip::PacketView;
use crate::numbers::number_16;

/// The octets of the header (RFC 768).
const HEADER: usize = 8;

/// What speaks against a header, where so many octets are there.
fn reason_udp(header: &[u8], there: usize) -> Option<NoDatagram>
    requires { length header.now ≡ 8 }
    ensures { result ≡ reason_udp header.now there }
{
    let count = number_16(header, 4) as usize;
    if count < HEADER || there < count {
        return Some(NoDatagram::BadUdpLength);
    }
    None
}

/// What reading from the left gives.
#[tactic(auto, unfolding(crate::specs::Reading::udp_at))]
fn read<'a>(packet: &PacketView<'a>) -> Result<DatagramView<'a>, NoDatagram>
    ensures exact { Gives seen_datagram result (udp_at (seen_packet packet.now)) }
    ensures few { IfOk result (λ v. length v.payload.now ≤ 65535) }
{
    let octets = packet.carried;
    if octets.len() < HEADER {
        return Err(NoDatagram::BadUdpLength);
    }
    let (header, _) = octets.split_at(HEADER);
    if let Some(reason) = reason_udp(header, octets.len()) {
        return Err(reason);
    }
    let (whole, _) = octets.split_at(number_16(header, 4) as usize);
    let (_, payload) = whole.split_at(HEADER);
    Ok(DatagramView {
        source: packet.source,
        destination: packet.destination,
        source_port: number_16(header, 0),
        destination_port: number_16(header, 2),
        payload,
    })
}

/// Reads the datagram that a packet carries. Its checksum is not looked at. Octets behind the
/// length that the header says are ignored.
///
/// # Errors
///
/// `BadUdpLength`: the header isn't whole, or says fewer octets than it has or more than there are.
pub fn read_udp<'a>(packet: &PacketView<'a>) -> Result<DatagramView<'a>, NoDatagram>
    // What is read is in the grammar.
    ensures found { IfOk result (λ v. IsUdp (seen_packet packet.now) (seen_datagram v)) }
    // What is in the grammar is read so.
    ensures only { (d : Datagram) → IsUdp (seen_packet packet.now) d
        → IsOkAnd result (λ v. seen_datagram v ≡ d) }
    // Each reason comes exactly where its condition holds.
    ensures refused { (reason : Reason) →
        (result ≡ Err reason) ↔ IsNoUdp packet.now.carried.now reason }
    // The answer as a walk over the octets, for the walks that go on from it.
    ensures exact { Gives seen_datagram result (udp_at (seen_packet packet.now)) }
    // It has no more octets than its length can say.
    ensures few { IfOk result (λ v. length v.payload.now ≤ 65535) }
{
    read(packet)
}
