//! Noting the packets of a recording.
ghost use Rattle.std.specs.Prelude.{◌≡◌, ◌<◌, length, IfOk, MatchResult};
ghost use Rattle.pcap_file.specs.Runs.{layout_seen};
ghost use Rattle.inspect_engine.specs.Inspected.{NotesBehind, NotesRecording, counts_end};

use crate::inspection::Inspection;
use pcap_file::{Layout, RecordingFault, next_packet, open_recording};
use st_format::ByteSource;
use std::alloc::{AllocError, Allocator};

/// Notes the packets of a recording, up to its end or its first fault, which is answered.
///
/// # Errors
///
/// That memory was wanted.
pub fn note_recording<A: Allocator + Copy, S: ByteSource>(
    inspection: &mut Inspection<A>,
    source: &mut S,
    buf: &mut [u8],
) -> Result<Option<RecordingFault>, AllocError>
    requires { 0 < length buf.old }
    ensures room { length buf.new ≡ length buf.old }
    ensures noted { IfOk result (λ end. NotesRecording (length buf.old) (S.gave source.old)
        (S.gave source.new) (S.ended source.new) end inspection.old inspection.new) }
    ensures failures { MatchResult result
        (λ end. counts_end end (S.failures source.old) (S.failures source.new))
        (λ _. S.failures source.new ≡ S.failures source.old) }
{
    let mut layout = match open_recording(source, buf) {
        Ok(layout) => layout,
        Err(fault) => return Ok(Some(fault)),
    };
    note_packets(inspection, source, &mut layout, buf)
}

/// Notes the packets of a recording that is open, up to its end or its first fault.
fn note_packets<A: Allocator + Copy, S: ByteSource>(
    inspection: &mut Inspection<A>,
    source: &mut S,
    layout: &mut Layout,
    buf: &mut [u8],
) -> Result<Option<RecordingFault>, AllocError>
    requires { 0 < length buf.old }
    ensures room { length buf.new ≡ length buf.old }
    ensures noted { IfOk result (λ end. NotesBehind (length buf.old) (layout_seen layout.old)
        (S.gave source.old) (S.gave source.new) (S.ended source.new) end inspection.old
        inspection.new) }
    ensures failures { MatchResult result
        (λ end. counts_end end (S.failures source.old) (S.failures source.new))
        (λ _. S.failures source.new ≡ S.failures source.old) }
{
    'packets: loop {
        match next_packet(source, layout, buf) {
            Ok(Some(packet)) => {
                let behind = &buf[packet.place..];
                let octets = &behind[..packet.head.captured as usize];
                inspection.note(&packet.head, octets)?;
            }
            Ok(None) => return Ok(None),
            Err(fault) => return Ok(Some(fault)),
        }
    }
}
