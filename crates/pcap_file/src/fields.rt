//! So many octets of a source. This is all that the readers know of devices.
ghost use Rattle.std.specs.Prelude.{◌≡◌, ◌≤◌, ◌<◌, length, take, IfErr, IfOk, OnOk};
ghost use Rattle.st_format.specs.Device.{TellsOctets};
ghost use Rattle.pcap_file.specs.Fields.{CountsDevice, Fails, GaveFault};
ghost use Rattle.st_format.specs.Given.{GaveValue, Takes};
ghost use Rattle.pcap_file.specs.Fields.{field_at};

use crate::fault::RecordingFault;
use st_format::{ByteSource, read_whole};

/// Fills `buf` with the next octets of a recording.
///
/// # Errors
///
/// `Truncated` where the source ends before `buf` is full, and `Device`.
pub(crate) fn read_field<S: ByteSource>(
    source: &mut S,
    buf: &mut [u8],
) -> Result<(), RecordingFault>
    ensures room { length buf.new ≡ length buf.old }
    ensures read { OnOk result
        (Takes (field_at (length buf.old)) (S.to_give source.old) (S.to_give source.new) buf.new) }
    ensures gave { OnOk result (GaveValue (field_at (length buf.old)) (S.gave source.old)
        (S.gave source.new) buf.new) }
    ensures fault { IfErr result (λ f. Fails (field_at (length buf.old)) (S.to_give source.old) f) }
    ensures gave_wrong { IfErr result (λ f. GaveFault (field_at (length buf.old))
        (S.gave source.old) (S.gave source.new) (S.ended source.new) f) }
    ensures counted { CountsDevice (S.failures source.old) (S.failures source.new) result }
    ensures names { S.names source.new ≡ S.names source.old }
{
    if read_whole(source, buf)? < buf.len() {
        return Err(RecordingFault::Truncated);
    }
    Ok(())
}
