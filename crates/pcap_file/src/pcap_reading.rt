//! Reading a recording of the classic layout, step by step. A step takes the source and a buffer,
//! and no memory.
ghost use Rattle.std.specs.Prelude.{◌≡◌, ◌≤◌, ◌<◌, length, take, IfErr, IfOk, IfSome, OnOk};
ghost use Rattle.pcap_file.specs.Fields.{CountsDevice, Fails, GaveFault};
ghost use Rattle.st_format.specs.Given.{GaveNext, GaveValue, Takes};
ghost use Rattle.pcap_file.specs.PcapReading.{head_at, octets_at, option_recorded, pcap_at};
ghost use Rattle.pcap_file.specs.PcapReading.{record_at};

use crate::fault::RecordingFault;
use crate::fields::read_field;
use crate::pcap::{PacketHead, PcapHead, read_pcap_head, read_record_head};
use st_format::{ByteSource, read_whole};

/// Reads what stands before the packets.
///
/// # Errors
///
/// `Device`; `Truncated` where there are fewer than 24 octets; `Packed`, `BadMagic` and
/// `BadVersion` ([`read_pcap_head`]).
pub fn read_pcap<S: ByteSource>(source: &mut S) -> Result<PcapHead, RecordingFault>
    ensures read { IfOk result
        (λ h. Takes pcap_at (S.to_give source.old) (S.to_give source.new) h) }
    ensures gave { IfOk result (λ h. GaveValue pcap_at (S.gave source.old) (S.gave source.new) h) }
    ensures fault { IfErr result (λ f. Fails pcap_at (S.to_give source.old) f) }
    ensures gave_wrong { IfErr result (λ f. GaveFault pcap_at (S.gave source.old)
        (S.gave source.new) (S.ended source.new) f) }
    ensures counted { CountsDevice (S.failures source.old) (S.failures source.new) result }
    ensures names { S.names source.new ≡ S.names source.old }
{
    let mut octets = [0u8; 24];
    read_field(source, &mut octets)?;
    read_pcap_head(&octets)
}

/// Reads what stands before the next packet's octets, or answers `None` at the end.
///
/// # Errors
///
/// `Device`; `Truncated` where there are fewer than 16 octets, and not none.
pub fn record_begins<S: ByteSource>(
    source: &mut S,
    file: &PcapHead,
) -> Result<Option<PacketHead>, RecordingFault>
    ensures read { IfOk result
        (λ p. Takes (head_at file.now) (S.to_give source.old) (S.to_give source.new) p) }
    ensures gave { IfOk result (λ p. GaveNext (head_at file.now) (S.gave source.old)
        (S.gave source.new) (S.ended source.new) p) }
    ensures fault { IfErr result (λ f. Fails (head_at file.now) (S.to_give source.old) f) }
    ensures gave_wrong { IfErr result (λ f. GaveFault (head_at file.now) (S.gave source.old)
        (S.gave source.new) (S.ended source.new) f) }
    ensures counted { CountsDevice (S.failures source.old) (S.failures source.new) result }
    ensures names { S.names source.new ≡ S.names source.old }
{
    let mut octets = [0u8; 16];
    let count = read_whole(source, &mut octets)?;
    if count == 0 {
        return Ok(None);
    }
    if count < 16 {
        return Err(RecordingFault::Truncated);
    }
    Ok(Some(read_record_head(file, &octets)))
}

/// Reads the octets of the packet that a head begins: they stand at the front of `buf`. What `buf`
/// holds behind them, or after a fault, is not said.
///
/// # Errors
///
/// `PacketTooLong` where `buf` has no room for them: nothing is then read; `Device`; `Truncated`
/// where there are fewer.
pub fn record_rest<S: ByteSource>(
    source: &mut S,
    packet: &PacketHead,
    buf: &mut [u8],
) -> Result<(), RecordingFault>
    ensures room { length buf.new ≡ length buf.old }
    ensures within { OnOk result (packet.now.captured ≤ length buf.new) }
    ensures read { OnOk result
        (Takes (octets_at (length buf.old) packet.now) (S.to_give source.old)
        (S.to_give source.new) (take packet.now.captured buf.new)) }
    ensures gave { OnOk result (GaveValue (octets_at (length buf.old) packet.now)
        (S.gave source.old) (S.gave source.new) (take packet.now.captured buf.new)) }
    ensures fault { IfErr result
        (λ f. Fails (octets_at (length buf.old) packet.now) (S.to_give source.old) f) }
    ensures gave_wrong { IfErr result (λ f. GaveFault (octets_at (length buf.old) packet.now)
        (S.gave source.old) (S.gave source.new) (S.ended source.new) f) }
    ensures counted { CountsDevice (S.failures source.old) (S.failures source.new) result }
    ensures names { S.names source.new ≡ S.names source.old }
{
    let count = packet.captured as usize;
    if buf.len() < count {
        return Err(RecordingFault::PacketTooLong);
    }
    read_field(source, &mut buf[..count])
}

/// Reads the next packet, or answers `None` at the end. Its octets stand at the front of `buf`.
/// What `buf` holds behind them, or after a fault, is not said.
///
/// # Errors
///
/// The first of those of [`record_begins`] and [`record_rest`].
pub fn next_record<S: ByteSource>(
    source: &mut S,
    file: &PcapHead,
    buf: &mut [u8],
) -> Result<Option<PacketHead>, RecordingFault>
    ensures room { length buf.new ≡ length buf.old }
    ensures within { IfOk result (λ p. IfSome p (λ h. h.captured ≤ length buf.new)) }
    ensures read { IfOk result
        (λ p. Takes (record_at (length buf.old) file.now) (S.to_give source.old)
        (S.to_give source.new) (option_recorded p buf.new)) }
    ensures gave { IfOk result (λ p. GaveNext (record_at (length buf.old) file.now)
        (S.gave source.old) (S.gave source.new) (S.ended source.new) (option_recorded p buf.new)) }
    ensures fault { IfErr result
        (λ f. Fails (record_at (length buf.old) file.now) (S.to_give source.old) f) }
    ensures gave_wrong { IfErr result (λ f. GaveFault (record_at (length buf.old) file.now)
        (S.gave source.old) (S.gave source.new) (S.ended source.new) f) }
    ensures counted { CountsDevice (S.failures source.old) (S.failures source.new) result }
    ensures names { S.names source.new ≡ S.names source.old }
{
    let Some(packet) = record_begins(source, file)? else {
        return Ok(None);
    };
    record_rest(source, &packet, buf)?;
    Ok(Some(packet))
}
