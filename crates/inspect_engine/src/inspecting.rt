//! The engine of `inspect`.
ghost use Rattle.std.specs.Prelude.{◌≡◌, ◌∷◌, [], IfErr, IfOk, OnOk, false, length, sum_by};
ghost use Rattle.std.specs.Prelude.{vec_len};
ghost use Rattle.std.specs.List.{zip};
ghost use Rattle.pcap_file.specs.Runs.{most_packet};
ghost use Rattle.run_outcome.specs.Fault.{Accounts, counts};
ghost use Rattle.run_outcome.specs.Moments.{WasRead};
ghost use Rattle.run_outcome.specs.Refusing.{OfRefusal};
ghost use Rattle.inspect_engine.specs.Told.{IsInspectRefusal, Tells};

use crate::form::Form;
use crate::inspection::Inspection;
use crate::printing::print_inspection;
use crate::recordings::note_recordings;
use pcap_file::{MOST_PACKET, RecordingFault};
use run_outcome::{Fault, Refusal};
use st_format::{ByteSink, ByteSource};
use std::alloc::{AllocError, Allocator};

/// Room for the greatest packet or block of a recording that is read.
fn block_room<A: Allocator>(alloc: A) -> Result<Vec<u8, A>, AllocError>
    ensures { IfOk result (λ buf. vec_len buf ≡ most_packet) }
{
    vec![in alloc; 0u8; MOST_PACKET]
}

/// Prints which flows of UDP recordings have, in the order in which they first came: of each the
/// datagrams, octets, streams of RTP and times. Then how many flows there are, and how many packets
/// have no datagram, by the reason.
///
/// Each recording is read once, one after the other.
///
/// # Errors
///
/// The refusal of the first recording that has a fault but `Truncated`, and then nothing is
/// printed. Where some were only cut short all is printed that was read, and `Truncated` is the
/// refusal. Else that a device failed, or that memory was wanted: to read, and then nothing is
/// printed.
pub fn inspect<A, S, O>(
    alloc: A,
    recordings: &mut [S],
    form: Form,
    output: &mut O,
) -> Result<(), Fault>
where
    A: Allocator + Copy,
    S: ByteSource,
    O: ByteSink,
    ensures len { length recordings.new ≡ length recordings.old }
    ensures told { OnOk result (Tells form (WasRead S.gave S.ended)
        (zip recordings.old recordings.new) false (O.took output.old) (O.took output.new)) }
    ensures refusal { IfErr result (λ f. OfRefusal f (IsInspectRefusal form (WasRead S.gave S.ended)
        (zip recordings.old recordings.new) (O.took output.old) (O.took output.new))) }
    ensures memory { IfErr result (λ f. f ≡ Fault.Memory → O.took output.new ≡ O.took output.old) }
    ensures failures { Accounts result (counts (sum_by S.failures recordings.old)
        (sum_by S.failures recordings.new) ∷ counts (O.failures output.old) (O.failures output.new)
        ∷ []) }
{
    let mut inspection = Inspection::new(alloc);
    let mut buf = block_room(alloc)?;
    let is_cut = note_recordings(&mut inspection, recordings, &mut buf)?;
    print_inspection(&inspection, form, output)?;
    if is_cut {
        return Err(Fault::Refused(Refusal::Recording(RecordingFault::Truncated)));
    }
    Ok(())
}
