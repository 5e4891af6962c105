//! Opening files.
ghost use Rattle.std.specs.Prelude.{◌≡◌, ◌≤◌, ◌∷◌, [], length, IfErr, OnOk};
ghost use Rattle.std.specs.List.{sum_by, zip};
ghost use Rattle.recording_engines.specs.Files.{AllClosed, AllOpened, IsClosed, IsNew, IsOpenedFile};
ghost use Rattle.recording_engines.specs.Files.{IsReady, IsUnread, ReadsToFault, begun_of};
ghost use Rattle.recording_engines.specs.Files.{ended_by, failures_by, gave_by, standing_of};
ghost use Rattle.recording_engines.specs.Opened.{AllBegin, IsFirstStop, IsStopRefusal};
ghost use Rattle.recording_engines.specs.Opened.{TellsUnopened};
ghost use Rattle.run_outcome.specs.Fault.{Accounts, counts};
ghost use Rattle.run_outcome.specs.Moments.{WasRead};
ghost use Rattle.run_outcome.specs.Refusing.{OfRefusal};
ghost use Rattle.recording_engines.specs.Steps.{IsFresh};
ghost use Rattle.st_format.specs.History.{IsRead};

use crate::faults::of_opening;
use crate::file::ImportFile;
use crate::files::know;
use flow::Flows;
use recording_reader::DatagramReader;
use run_outcome::{Fault, room};
use st_format::ByteSource;
use std::alloc::Allocator;
use std::mem;

/// A file of this source with its reader, which takes it by flows where it is a recording; or with
/// the source alone, and why it isn't opened.
#[tactic(auto, using(crate::proofs::Openings::opened_one))]
fn open_source<A: Allocator, S: ByteSource>(
    alloc: A,
    flows: Option<Flows>,
    source: S,
    text: &mut [u8],
) -> (ImportFile<A, S>, Result<(), Fault>)
    requires { 65535 ≤ length text.old }
    ensures room { length text.new ≡ length text.old }
    ensures opened { OnOk result.1 (IsNew flows (S.gave source) result.0) }
    ensures refusal { IfErr result.1 (λ f. OfRefusal f (IsStopRefusal (IsRead
        (S.gave source) (gave_by S.gave result.0) (ended_by S.ended result.0)) flows)) }
    // Memory is told where the reader wanted it: of no recording without flows.
    ensures told { IfErr result.1 (TellsUnopened flows (S.gave source)
        (gave_by S.gave result.0) (ended_by S.ended result.0)) }
    ensures failures { Accounts result.1 (counts (S.failures source)
        (failures_by S.failures result.0) ∷ []) }
{
    match DatagramReader::open(alloc, flows, source, text) {
        Ok(reader) => (ImportFile::Open(reader), Ok(())),
        Err((fault, source)) => (ImportFile::Closed(source), Err(of_opening(fault))),
    }
}

/// Opens a file, which is taken by flows where it is a recording. Takes room for a record or a
/// packet. `text` has room for a capture's text.
///
/// # Errors
///
/// A refusal where it is a recording and there are no flows, or where it has a fault before all
/// records; and else that its source failed or memory was wanted.
fn open_file<A: Allocator, S: ByteSource + Drop>(
    alloc: A,
    flows: Option<Flows>,
    file: &mut ImportFile<A, S>,
    text: &mut [u8],
) -> Result<(), Fault>
    requires closed { IsClosed file.old }
    requires text { 65535 ≤ length text.old }
    ensures room { length text.new ≡ length text.old }
    ensures opened { OnOk result (IsNew flows (gave_by S.gave file.old) file.new) }
    ensures refusal { IfErr result (λ f. OfRefusal f (IsStopRefusal (IsRead
        (gave_by S.gave file.old) (gave_by S.gave file.new) (ended_by S.ended file.new)) flows)) }
    ensures told { IfErr result (TellsUnopened flows (gave_by S.gave file.old)
        (gave_by S.gave file.new) (ended_by S.ended file.new)) }
    ensures failures { Accounts result (counts (failures_by S.failures file.old)
        (failures_by S.failures file.new) ∷ []) }
{
    let ImportFile::Closed(source) = mem::replace(file, ImportFile::Taken) else {
        return Ok(());
    };
    let (opened, outcome) = open_source(alloc, flows, source, text);
    *file = opened;
    outcome
}

/// Reads a file on to its first record, or to its end.
///
/// # Errors
///
/// A refusal where it has a fault before that; and else that its source failed.
#[tactic(auto, using(crate::proofs::Openings::first_fresh))]
fn read_first<A: Allocator, S: ByteSource>(file: &mut ImportFile<A, S>) -> Result<(), Fault>
    requires { IsUnread file.old }
    ensures begun { begun_of file.new ≡ begun_of file.old }
    ensures ready { OnOk result (IsReady file.new) }
    ensures fresh { OnOk result (IsFresh (standing_of file.new)) }
    ensures begins { OnOk result (AllBegin (IsRead (begun_of file.new).1 (gave_by S.gave file.new)
        (ended_by S.ended file.new)) (begun_of file.new).0) }
    ensures refusal { IfErr result (λ f. OfRefusal f (IsStopRefusal (IsRead
        (begun_of file.new).1 (gave_by S.gave file.new) (ended_by S.ended file.new))
        (begun_of file.new).0)) }
    // No memory is asked for.
    ensures stopped { IfErr result (λ f. ReadsToFault f file.old file.new) }
    ensures failures { Accounts result (counts (failures_by S.failures file.old)
        (failures_by S.failures file.new) ∷ []) }
{
    let read = file.go_on();
    know(file);
    read
}

/// Opens a file as [`open_file`] does, and reads on as [`read_first`] does.
#[tactic(auto, using(crate::proofs::Openings::begun_of_file))]
fn begin_file<A: Allocator, S: ByteSource + Drop>(
    alloc: A,
    flows: Option<Flows>,
    file: &mut ImportFile<A, S>,
    text: &mut [u8],
) -> Result<(), Fault>
    requires closed { IsClosed file.old }
    requires text { 65535 ≤ length text.old }
    ensures room { length text.new ≡ length text.old }
    ensures opened { OnOk result (IsOpenedFile S.gave flows file.old file.new) }
    ensures begins { OnOk result (AllBegin (IsRead (gave_by S.gave file.old)
        (gave_by S.gave file.new) (ended_by S.ended file.new)) flows) }
    ensures refusal { IfErr result (λ f. OfRefusal f (IsStopRefusal (IsRead
        (gave_by S.gave file.old) (gave_by S.gave file.new) (ended_by S.ended file.new)) flows)) }
    ensures failures { Accounts result (counts (failures_by S.failures file.old)
        (failures_by S.failures file.new) ∷ []) }
{
    open_file(alloc, flows, file, text)?;
    read_first(file)?;
    Ok(())
}

/// Opens files, each by flows of its own, and reads each on to its first record.
pub(crate) fn open_all<A: Allocator + Copy, S: ByteSource + Drop>(
    alloc: A,
    each: &[Option<Flows>],
    files: &mut [ImportFile<A, S>],
) -> Result<(), Fault>
    requires count { length each.now ≡ length files.old }
    requires closed { AllClosed files.old }
    ensures len { length files.new ≡ length files.old }
    ensures opened { OnOk result (AllOpened S.gave each.now files.old files.new) }
    ensures refusal { IfErr result (λ f. OfRefusal f (IsFirstStop
        (WasRead (gave_by S.gave) (ended_by S.ended)) (zip (zip files.old files.new) each.now))) }
    ensures failures { Accounts result (counts (sum_by (failures_by S.failures) files.old)
        (sum_by (failures_by S.failures) files.new) ∷ []) }
{
    let mut room = room(alloc)?;
    let text = room.as_mut_slice();
    for place in 0..files.len() {
        begin_file(alloc, each[place], &mut files[place], text)?;
    }
    Ok(())
}
