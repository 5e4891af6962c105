//! The engine of `inspect` with a format.
ghost use Rattle.std.specs.Prelude.{◌≡◌, ◌∷◌, [], IfErr, OnOk, None, Ok, length, sum_by};
ghost use Rattle.std.specs.List.{zip};
ghost use Rattle.std.specs.Option.{option_copied};
ghost use Rattle.run_outcome.specs.Fault.{Accounts, Blames, Failures, IfRefused, counts};
ghost use Rattle.run_outcome.specs.Moments.{WasRead};
ghost use Rattle.run_outcome.specs.Refusing.{OfRefusal};
ghost use Rattle.stream_inspection.specs.Read.{end_outcome};
ghost use Rattle.stream_inspection.specs.Told.{IsEndRefusal, IsStreamsRefusal, PrintsText};
ghost use Rattle.stream_inspection.specs.Told.{TellsStreams};

use crate::files::note_files;
use crate::inspection::Inspection;
use crate::target::{Target, Wanted, begin};
use crate::telling::text_of;
use crate::text::Form;
use capture_engines::Seen;
use flow::Flows;
use recording_reader::ReadingFault;
use run_outcome::{Fault, Refusal, of_reading, room};
use st_format::{ByteSink, ByteSource, write_whole};
use std::alloc::Allocator;

/// Prints what came of the streams of files, as they came, whether or not they are of the wanted
/// format: of each stream, in the order in which they first came, what came of it by each path and
/// what both lost; of each timestamp of the wanted payload type how many datagrams came; the skew
/// of the paths; how many datagrams a receiver of the format refuses, by the reason; and last a
/// window of the first timestamps, at most sixteen.
///
/// The skew of a timestamp is that of one packet number, the one of the first packet of it that
/// came: by how much later that number first came by B than by A. The middle is that of the
/// timestamps of which it is known, and the lower one of two.
///
/// `sdp` is an SDP text, where one is given; it is read only where it says what is wanted. A file
/// that begins as a recording of another tool is taken by the flows of its place in `ways`, or
/// refused so; a file of which they say nothing is a capture. Each file is read once, one after the
/// other, up to the first fault behind a file's front. What was seen of each file that was opened
/// is noted at its place in `seen`, where there is one.
///
/// # Errors
///
/// The refusal of the SDP text, or of the front of a file, and then nothing is printed. The refusal
/// of the first file that is at fault behind its front, and then all that came before is printed;
/// no file behind it is read. Else that a device failed, or that memory was wanted.
pub fn inspect_streams<A, S, O>(
    alloc: A,
    wanted: Wanted,
    form: Form,
    sdp: Option<&[u8]>,
    files: &mut [S],
    ways: &[Result<Flows, Refusal>],
    seen: &mut [Seen],
    output: &mut O,
) -> Result<(), Fault>
where
    A: Allocator + Copy,
    S: ByteSource,
    O: ByteSink,
    ensures len { length files.new ≡ length files.old }
    ensures told { OnOk result (TellsStreams wanted form (option_copied sdp.entry) ways.now
        (WasRead S.gave S.ended) (zip files.old files.new) None (O.took output.old)
        (O.took output.new)) }
    ensures refusal { IfErr result (λ f. OfRefusal f (IsStreamsRefusal wanted form
        (option_copied sdp.entry) ways.now (WasRead S.gave S.ended) (zip files.old files.new)
        (O.took output.old) (O.took output.new))) }
    ensures failures { Accounts result (counts (sum_by S.failures files.old)
        (sum_by S.failures files.new)
        ∷ counts (O.failures output.old) (O.failures output.new) ∷ []) }
{
    let mut begun = begin(alloc, wanted, sdp)?;
    let mut said = room(alloc)?;
    let mut inspection = Inspection::new(alloc);
    let end = note_files(
        alloc,
        &mut begun,
        &mut inspection,
        files,
        ways,
        seen,
        &mut said,
    )?;
    let Some(target) = begun else {
        return Err(Fault::Refused(Refusal::ReceiveNoSdp));
    };
    finish(alloc, form, &target, &inspection, end, output)
}

/// Prints the text of what was counted, and answers the fault that ended the reading.
fn finish<A: Allocator + Copy, O: ByteSink>(
    alloc: A,
    form: Form,
    target: &Target,
    inspection: &Inspection<A>,
    end: Option<ReadingFault>,
    output: &mut O,
) -> Result<(), Fault>
    ensures whole { OnOk result (end ≡ None) }
    ensures printed { OnOk result (PrintsText form target.now inspection.now (O.took output.old)
        (O.took output.new)) }
    ensures refusal { IfErr result (λ f. OfRefusal f (IsEndRefusal form target.now inspection.now
        end (O.took output.old) (O.took output.new))) }
    ensures failures { (e : Failures) → Accounts (end_outcome (Ok end)) (e ∷ [])
        → Accounts result (e ∷ counts (O.failures output.old) (O.failures output.new) ∷ []) }
{
    let text = match text_of(alloc, form, target, inspection) {
        Ok(text) => text,
        Err(_) => return Err(wanting(end)),
    };
    match write_whole(output, &text) {
        Ok(()) => {}
        Err(_) => return Err(Fault::Device),
    }
    match end {
        None => Ok(()),
        Some(fault) => Err(of_reading(fault)),
    }
}

/// What ends a run that wants memory behind this end: that a device failed, where one did.
fn wanting(end: Option<ReadingFault>) -> Fault
    ensures unrefused { IfRefused result ⊥ }
    ensures blames { (e f : Failures) → Accounts (end_outcome (Ok end)) (e ∷ [])
        → f.after ≡ f.before → Blames (e ∷ f ∷ []) result }
{
    match end {
        None => Fault::Memory,
        Some(fault) => match of_reading(fault) {
            Fault::Device => Fault::Device,
            _ => Fault::Memory,
        },
    }
}
