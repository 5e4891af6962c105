//! Noting the packets of recordings, one after the other.
ghost use Rattle.std.specs.Prelude.{◌≡◌, ◌<◌, ◌∷◌, [], IfErr, IfOk, length, sum_by};
ghost use Rattle.std.specs.List.{zip};
ghost use Rattle.run_outcome.specs.Fault.{Accounts, counts};
ghost use Rattle.run_outcome.specs.Moments.{WasRead};
ghost use Rattle.run_outcome.specs.Refusing.{OfRefusal};
ghost use Rattle.st_format.specs.History.{IsRead};
ghost use Rattle.inspect_engine.specs.Inspected.{IsFaultOf, IsFirstFailed, NotesAll, NotesOctets};
ghost use Rattle.inspect_engine.specs.Inspected.{end_of};

use crate::inspection::Inspection;
use crate::recording::note_recording;
use pcap_file::RecordingFault;
use run_outcome::Fault;
use st_format::ByteSource;
use std::alloc::Allocator;

/// Notes the packets of recordings, one after the other, and answers whether one was cut short.
/// Such a one is noted as far as it goes, and so are those behind it. A packet or a block that has
/// no room in `buf` is a fault.
///
/// # Errors
///
/// A refusal by the first fault of a recording but `Truncated`; and else that a device failed or
/// memory was wanted.
pub fn note_recordings<A: Allocator + Copy, S: ByteSource>(
    inspection: &mut Inspection<A>,
    recordings: &mut [S],
    buf: &mut [u8],
) -> Result<bool, Fault>
    requires { 0 < length buf.old }
    ensures len { length recordings.new ≡ length recordings.old }
    ensures noted { IfOk result (λ cut. NotesAll (length buf.old) (WasRead S.gave S.ended)
        (zip recordings.old recordings.new) cut inspection.old inspection.new) }
    ensures refusal { IfErr result (λ f. OfRefusal f (IsFirstFailed (length buf.old)
        (WasRead S.gave S.ended) (zip recordings.old recordings.new))) }
    ensures failures { Accounts result (counts (sum_by S.failures recordings.old)
        (sum_by S.failures recordings.new) ∷ []) }
{
    let mut cut = false;
    for place in 0..recordings.len() {
        let short = note_one(inspection, &mut recordings[place], buf)?;
        cut = cut || short;
    }
    Ok(cut)
}

/// Notes a recording, and answers whether it was cut short.
fn note_one<A: Allocator + Copy, S: ByteSource>(
    inspection: &mut Inspection<A>,
    recording: &mut S,
    buf: &mut [u8],
) -> Result<bool, Fault>
    requires { 0 < length buf.old }
    ensures room { length buf.new ≡ length buf.old }
    ensures noted { IfOk result (λ cut. NotesOctets (length buf.old) (IsRead (S.gave recording.old)
        (S.gave recording.new) (S.ended recording.new)) (end_of cut) inspection.old
        inspection.new) }
    ensures refusal { IfErr result (λ f. OfRefusal f (IsFaultOf (length buf.old)
        (IsRead (S.gave recording.old) (S.gave recording.new) (S.ended recording.new)))) }
    ensures failures { Accounts result (counts (S.failures recording.old)
        (S.failures recording.new) ∷ []) }
{
    match note_recording(inspection, recording, buf)? {
        None => Ok(false),
        Some(RecordingFault::Truncated) => Ok(true),
        Some(fault) => Err(Fault::from(fault)),
    }
}
