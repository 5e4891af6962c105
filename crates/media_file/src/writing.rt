//! Writing a capture.
ghost use Rattle.std.specs.Prelude.{◌≡◌, ◌≤◌, ◌<◌, ◌^◌, ◌%◌, ◌++◌, length, map, IfErr, OnErr, OnOk};
ghost use Rattle.std.specs.Io.KnownBytes.{Appends};
ghost use Rattle.std.specs.List.{All};
ghost use Rattle.st_format.specs.Device.{AppendsPrefix, CountsFaults, GrowsPart, StaysUntold};
ghost use Rattle.media_file.specs.Capture.{capture_text, entry_seen};
ghost use Rattle.media_file.specs.Faults.{CountsDevice, IsDevice};
ghost use Rattle.media_file.specs.Fronts.{front_head, front_text};
ghost use Rattle.media_file.specs.Records.{record_head, record_text, records_text};
ghost use Rattle.media_file.specs.declared.front.Version.TheVariants.{Two};

use crate::fault::FileFault;
use crate::record::Record;
use byteorder::{BigEndian, ByteOrder};
use st_format::{ByteSink, DeviceFault, Path, write_whole};
use std::alloc::Allocator;

/// The octets of a record's head: path, moment and length.
const HEAD: usize = 11;

/// How many octets stand before the text of a capture: name, version and the text's length.
const FRONT: usize = 10;

/// Writes a record.
///
/// An `Err` is the sink's one failure in this call. The sink then has a first part of the record's
/// text more than before, and not all.
pub fn write_record<K: ByteSink>(
    sink: &mut K,
    path: Path,
    moment: u64,
    octets: &[u8],
) -> Result<(), DeviceFault>
    requires { length octets.now ≤ 65535 }
    ensures ok { OnOk result
        (Appends (K.held sink.old) (K.held sink.new)
        (record_text (record { path = path; moment = moment; octets = octets.now }))) }
    ensures fault { OnErr result
        (AppendsPrefix (K.held sink.old) (K.held sink.new)
        (record_text (record { path = path; moment = moment; octets = octets.now }))) }
    ensures untold { StaysUntold (K.held sink.old) (K.held sink.new) }
    ensures counted { CountsFaults (K.failures sink.old) (K.failures sink.new) result }
    ensures names { K.names sink.new ≡ K.names sink.old }
    ensures took { OnOk result (K.took sink.new ≡ K.took sink.old
        ++ record_text (record { path = path; moment = moment; octets = octets.now })) }
    ensures part { OnErr result (GrowsPart (K.took sink.old) (K.took sink.new)
        (record_text (record { path = path; moment = moment; octets = octets.now }))) }
{
    let head = head_of(path, moment, octets.len() as u16);
    write_whole(sink, &head)?;
    write_whole(sink, octets)
}

fn head_of(path: Path, moment: u64, length: u16) -> [u8; HEAD]
    ensures { result ≡ record_head path moment length }
{
    let mut head = [0u8; HEAD];
    head[0] = match path {
        Path::A => 0,
        Path::B => 1,
    };
    BigEndian::write_u64(&mut head[1..], moment);
    BigEndian::write_u16(&mut head[9..], length);
    head
}

/// Writes what stands before the records of a capture of version 02: name, version and a text.
///
/// An `Err` is the sink's one failure in this call. The sink then has a first part of that more
/// than before, and not all.
pub fn write_front<K: ByteSink>(sink: &mut K, text: &[u8]) -> Result<(), DeviceFault>
    requires { length text.now ≤ 65535 }
    ensures ok { OnOk result
        (Appends (K.held sink.old) (K.held sink.new) (front_text Two text.now)) }
    ensures fault { OnErr result
        (AppendsPrefix (K.held sink.old) (K.held sink.new) (front_text Two text.now)) }
    ensures untold { StaysUntold (K.held sink.old) (K.held sink.new) }
    ensures counted { CountsFaults (K.failures sink.old) (K.failures sink.new) result }
    ensures names { K.names sink.new ≡ K.names sink.old }
    ensures took { OnOk result (K.took sink.new ≡ K.took sink.old ++ front_text Two text.now) }
    ensures part { OnErr result
        (GrowsPart (K.took sink.old) (K.took sink.new) (front_text Two text.now)) }
{
    let front = front_of(text.len() as u16);
    write_whole(sink, &front)?;
    write_whole(sink, text)
}

/// Name, version and the length of a text.
fn front_of(length: u16) -> [u8; FRONT]
    ensures { result ≡ front_head length }
{
    let mut front = *b"S20CAP02\0\0";
    BigEndian::write_u16(&mut front[8..], length);
    front
}

/// Writes a capture of version 02 with this text, of at most 65,535 octets, and these records, each
/// of at most 65,535.
///
/// # Errors
///
/// `Device` where the sink failed: it then has a first part of the capture more than before, and
/// not all.
pub fn write_capture<A: Allocator, K: ByteSink>(
    sink: &mut K,
    text: &[u8],
    records: &[Record<A>],
) -> Result<(), FileFault>
    requires text { length text.now ≤ 65535 }
    requires records { All (λ r. length r.octets.items ≤ 65535) records.now }
    ensures ok { OnOk result
        (Appends (K.held sink.old) (K.held sink.new)
        (capture_text text.now (map entry_seen records.now))) }
    ensures fault { IfErr result
        (λ f. IsDevice f
        × AppendsPrefix (K.held sink.old) (K.held sink.new)
        (capture_text text.now (map entry_seen records.now))) }
    ensures counted { CountsDevice (K.failures sink.old) (K.failures sink.new) result }
    ensures took { OnOk result (K.took sink.new
        ≡ K.took sink.old ++ capture_text text.now (map entry_seen records.now)) }
    ensures part { OnErr result (GrowsPart (K.took sink.old) (K.took sink.new)
        (capture_text text.now (map entry_seen records.now))) }
{
    write_front(sink, text)?;
    write_records(sink, records)?;
    Ok(())
}

fn write_records<A: Allocator, K: ByteSink>(
    sink: &mut K,
    records: &[Record<A>],
) -> Result<(), DeviceFault>
    requires { All (λ r. length r.octets.items ≤ 65535) records.now }
    ensures ok { OnOk result
        (Appends (K.held sink.old) (K.held sink.new) (records_text (map entry_seen records.now))) }
    ensures fault { OnErr result
        (AppendsPrefix (K.held sink.old) (K.held sink.new)
        (records_text (map entry_seen records.now))) }
    ensures counted { CountsFaults (K.failures sink.old) (K.failures sink.new) result }
    ensures took { OnOk result (K.took sink.new
        ≡ K.took sink.old ++ records_text (map entry_seen records.now)) }
    ensures part { OnErr result (GrowsPart (K.took sink.old) (K.took sink.new)
        (records_text (map entry_seen records.now))) }
{
    for record in records {
        write_record(sink, record.path, record.moment, &record.octets)?;
    }
    Ok(())
}
