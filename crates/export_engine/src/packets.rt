//! Packets of a capture's records.
ghost use Rattle.std.specs.Prelude.{◌≡◌, ◌≤◌, ◌<◌, ◌*◌, ◌^◌, ◌++◌, [], ◌∷◌, length, take};
ghost use Rattle.std.specs.Prelude.{IfErr, IfOk, MatchResult, OnErr, OnOk};
ghost use Rattle.st_format.specs.Device.{CountsOne, GrowsPart};
ghost use Rattle.media_file.specs.Capture.{capture_walk, records_at};
ghost use Rattle.media_file.specs.Fields.{GaveFault};
ghost use Rattle.media_file.specs.Migrated.{CountsEither, IsOfCapture};
ghost use Rattle.pcap_file.specs.Writing.{file_text};
ghost use Rattle.export_engine.specs.Packets.{datagram_record, most_payload, packet_count};
ghost use Rattle.export_engine.specs.Packets.{packet_text};
ghost use Rattle.export_engine.specs.Exported.{ExportsCapture, ExportsRecords, StopsExport};
ghost use Rattle.export_engine.specs.Exported.{StopsPackets};

use crate::places::{Envelopes, IpEnvelope, MOST_PAYLOAD6};
use media_file::{FileFault, RecordHead, read_front, record_begins, record_rest};
use pcap_file::{HEADS6, write_pcap_head, write_record, write_record6};
use st_format::{ByteSink, ByteSource, DeviceFault, write_whole};

/// Room for the greatest packet, in octets: one of IPv6, with all that stands before its payload.
pub const PACKET: usize = HEADS6 + MOST_PAYLOAD6;

/// How many octets stand before the packets of a recording: the head of a file of pcap.
const HEAD: usize = 24;

/// How many datagrams were written, and how many were left out.
#[derive(Clone, Copy)]
pub struct ExportCounts {
    pub written: u64,
    pub left_out: u64,
}

/// Writes a datagram's packet over the first octets of `packet`, as a record of pcap, and answers
/// how many octets it has.
fn write_datagram(packet: &mut [u8], envelope: &IpEnvelope, time: u64, payload: &[u8]) -> usize
    requires few { length payload.now ≤ most_payload envelope.now }
    requires room { 65605 ≤ length packet.old }
    requires time { time < 2 ^ 32 * 1000000000 }
    ensures room { length packet.new ≡ length packet.old }
    ensures count { result ≤ length packet.new }
    ensures written { take result packet.new ≡ datagram_record envelope.now time payload.now }
{
    match envelope {
        IpEnvelope::V4(envelope) => write_record(packet, envelope, time, payload),
        IpEnvelope::V6(envelope) => write_record6(packet, envelope, time, payload),
    }
}

/// Writes the packet of a record's datagram, where it has one, and answers how many it wrote.
/// `packet` has room for any packet.
///
/// # Errors
///
/// That the sink failed. It then has a first part of the packet.
pub fn write_packet<K: ByteSink>(
    envelopes: &Envelopes,
    head: RecordHead,
    octets: &[u8],
    sink: &mut K,
    packet: &mut [u8],
) -> Result<u64, DeviceFault>
    requires { 65605 ≤ length packet.old }
    ensures room { length packet.new ≡ length packet.old }
    ensures counts { IfOk result (λ n. n ≡ packet_count envelopes.now (record {
      path = head.path;
      moment = head.moment;
      octets = octets.now;
    } ∷ [])) }
    ensures took { OnOk result (K.took sink.new
        ≡ K.took sink.old ++ packet_text envelopes.now (record {
          path = head.path;
          moment = head.moment;
          octets = octets.now;
        })) }
    ensures part { OnErr result (GrowsPart (K.took sink.old) (K.took sink.new)
        (packet_text envelopes.now (record {
          path = head.path;
          moment = head.moment;
          octets = octets.now;
        }))) }
    ensures counted { MatchResult result (λ _. K.failures sink.new ≡ K.failures sink.old)
        (λ _. CountsOne (K.failures sink.old) (K.failures sink.new)) }
{
    let Some(envelope) = envelopes.sent(head, octets) else {
        return Ok(0);
    };
    let count = write_datagram(packet, &envelope, head.moment, octets);
    write_whole(sink, &packet[..count])?;
    Ok(1)
}

/// Writes what stands before the packets of a recording. `packet` has room for any packet.
///
/// # Errors
///
/// That the sink failed. It then has a first part of that.
pub fn write_head<K: ByteSink>(sink: &mut K, packet: &mut [u8]) -> Result<(), DeviceFault>
    requires { 65605 ≤ length packet.old }
    ensures room { length packet.new ≡ length packet.old }
    ensures took { OnOk result (K.took sink.new ≡ K.took sink.old ++ file_text) }
    ensures part { OnErr result (GrowsPart (K.took sink.old) (K.took sink.new) file_text) }
    ensures counted { MatchResult result (λ _. K.failures sink.new ≡ K.failures sink.old)
        (λ _. CountsOne (K.failures sink.old) (K.failures sink.new)) }
{
    write_pcap_head(packet);
    write_whole(sink, &packet[..HEAD])
}

/// Writes the recording of a capture of at most so many records.
///
/// `buf` has room for any record, and `packet` for any packet. No memory is taken.
///
/// # Errors
///
/// The first fault of the source's octets, or one of a device.
pub(crate) fn write_recording<S: ByteSource, K: ByteSink>(
    envelopes: &Envelopes,
    source: &mut S,
    sink: &mut K,
    buf: &mut [u8],
    packet: &mut [u8],
    limit: u64,
) -> Result<ExportCounts, FileFault>
    requires room { 65535 ≤ length buf.old }
    requires packet { 65605 ≤ length packet.old }
    ensures exported { IfOk result (λ counts. ExportsCapture limit envelopes.now counts
        (S.gave source.old) (S.gave source.new) (S.ended source.new)
        (K.took sink.old) (K.took sink.new)) }
    ensures gave_wrong { IfErr result (λ f. GaveFault (capture_walk limit)
        (S.gave source.old) (S.gave source.new) (S.ended source.new) f) }
    ensures named { IfErr result IsOfCapture }
    ensures stopped { IfErr result (λ f. StopsExport envelopes.now f
        (S.gave source.old) (S.gave source.new) (S.ended source.new)
        (K.took sink.old) (K.took sink.new)) }
    ensures counted { MatchResult result
        (λ _. (S.failures source.new ≡ S.failures source.old)
        × (K.failures sink.new ≡ K.failures sink.old))
        (λ f. CountsEither f (S.failures source.old) (S.failures source.new) (K.failures sink.old)
        (K.failures sink.new)) }
{
    read_front(source, buf)?;
    write_head(sink, packet)?;
    write_packets(envelopes, source, sink, buf, packet, limit)
}

/// Reads records up to the end, at most so many, and writes their packets.
fn write_packets<S: ByteSource, K: ByteSink>(
    envelopes: &Envelopes,
    source: &mut S,
    sink: &mut K,
    buf: &mut [u8],
    packet: &mut [u8],
    limit: u64,
) -> Result<ExportCounts, FileFault>
    requires room { 65535 ≤ length buf.old }
    requires packet { 65605 ≤ length packet.old }
    ensures exported { IfOk result (λ counts. ExportsRecords limit envelopes.now counts
        (S.gave source.old) (S.gave source.new) (S.ended source.new)
        (K.took sink.old) (K.took sink.new)) }
    ensures gave_wrong { IfErr result (λ f. GaveFault (records_at limit)
        (S.gave source.old) (S.gave source.new) (S.ended source.new) f) }
    ensures named { IfErr result IsOfCapture }
    ensures stopped { IfErr result (λ f. StopsPackets [] envelopes.now f
        (S.gave source.old) (S.gave source.new) (K.took sink.old) (K.took sink.new)) }
    ensures counted { MatchResult result
        (λ _. (S.failures source.new ≡ S.failures source.old)
        × (K.failures sink.new ≡ K.failures sink.old))
        (λ f. CountsEither f (S.failures source.old) (S.failures source.new) (K.failures sink.old)
        (K.failures sink.new)) }
{
    let mut left = limit;
    let mut written = 0u64;
    while let Some(first) = record_begins(source)? {
        if left == 0 {
            return Err(FileFault::TooManyRecords);
        }
        left -= 1;
        let head = record_rest(source, first, buf)?;
        written += write_packet(envelopes, head, &buf[..head.length], sink, packet)?;
    }
    Ok(ExportCounts {
        written,
        left_out: limit - left - written,
    })
}
