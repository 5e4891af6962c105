//! Noting files, one after the other.
ghost use Rattle.std.specs.Prelude.{◌≡◌, ◌≤◌, ◌<◌, ◌+◌, ◌≢◌, ◌∷◌, [], IfErr, IfOk, None};
ghost use Rattle.std.specs.Prelude.{drop, length, sum_by, take, OnOk};
ghost use Rattle.std.specs.List.{zip};
ghost use Rattle.capture_engines.specs.Files.{way_at};
ghost use Rattle.capture_engines.specs.Received.{IsFrontRefusal};
ghost use Rattle.capture_engines.specs.Sent.{FirstIs};
ghost use Rattle.recording_reader.specs.FileReader.{IsSameFile};
ghost use Rattle.recording_reader.specs.declared.way.Standing.TheVariants.{Reads};
ghost use Rattle.run_outcome.specs.Fault.{Accounts, counts};
ghost use Rattle.run_outcome.specs.Moments.{WasRead};
ghost use Rattle.run_outcome.specs.Refusing.{OfRefusal};
ghost use Rattle.st_format.specs.History.{IsRead};
ghost use Rattle.stream_inspection.specs.Read.{IfEnd, IsFirstFront, IsSettled, StandsAtEnd};
ghost use Rattle.stream_inspection.specs.Read.{IsStartRefusal, NotesFile, NotesRecords, NotesUpTo};
ghost use Rattle.stream_inspection.specs.Read.{end_outcome};

use crate::inspection::Inspection;
use crate::records::note_records;
use crate::target::{Target, settle};
use capture_engines::{Seen, Way, note_seen, unopened};
use flow::Flows;
use recording_reader::{DatagramReader, ReadingFault};
use run_outcome::{Fault, Refusal};
use st_format::ByteSource;
use std::alloc::Allocator;

/// Notes files, each taken as `ways` say, one after the other, up to the end of the last or the
/// first fault behind a file's front, which is answered; no file behind it is read. Where no target
/// was begun with, the text of the first file says it. What was seen of them is noted in `seen`.
/// `said` is room for a text.
///
/// # Errors
///
/// A refusal where a file's front is at fault, a recording is not taken, or the first file's text
/// is refused; and else that a front's source failed or memory was wanted.
pub(crate) fn note_files<A: Allocator + Copy, S: ByteSource>(
    alloc: A,
    begun: &mut Option<Target>,
    inspection: &mut Inspection<A>,
    files: &mut [S],
    ways: &[Result<Flows, Refusal>],
    seen: &mut [Seen],
    said: &mut [u8],
) -> Result<Option<ReadingFault>, Fault>
    requires { 65535 ≤ length said.old }
    ensures len { length files.new ≡ length files.old }
    ensures noted { IfOk result (λ end. IfEnd end (NotesUpTo ways.now (WasRead S.gave S.ended)
        (zip files.old files.new) end begun.old begun.new inspection.old inspection.new)) }
    ensures none { OnOk result (begun.new ≡ None → (begun.old ≡ None) × (files.old ≡ [])) }
    ensures refusal { IfErr result (λ f. OfRefusal f (IsFirstFront (begun.old ≡ None)
        (IsSettled begun.old) ways.now (WasRead S.gave S.ended) (zip files.old files.new))) }
    ensures failures { Accounts (end_outcome result) (counts (sum_by S.failures files.old)
        (sum_by S.failures files.new) ∷ []) }
{
    for place in 0..files.len() {
        let end = note_at(alloc, begun, inspection, files, ways, seen, place, said)?;
        if let Some(fault) = end {
            return Ok(Some(fault));
        }
    }
    Ok(None)
}

/// Notes the file of a place. It alone is lent, so what is known of the others stays.
fn note_at<A: Allocator + Copy, S: ByteSource>(
    alloc: A,
    begun: &mut Option<Target>,
    inspection: &mut Inspection<A>,
    files: &mut [S],
    ways: &[Result<Flows, Refusal>],
    seen: &mut [Seen],
    place: usize,
    said: &mut [u8],
) -> Result<Option<ReadingFault>, Fault>
    requires place { place < length files.old }
    requires text { 65535 ≤ length said.old }
    ensures text { length said.new ≡ length said.old }
    ensures len { length files.new ≡ length files.old }
    ensures front { take place files.new ≡ take place files.old }
    ensures behind { drop (place + 1) files.new ≡ drop (place + 1) files.old }
    ensures noted { IfOk result (λ end. IfEnd end (FirstIs
        (λ s. NotesFile (way_at ways.now place) (WasRead S.gave S.ended s) end begun.old begun.new
        inspection.old inspection.new) (zip (drop place files.old) (drop place files.new)))) }
    ensures begun { OnOk result (begun.new ≢ None) }
    ensures refusal { IfErr result (λ f. OfRefusal f (λ r. FirstIs
        (λ s. IsStartRefusal (way_at ways.now place) (begun.old ≡ None)
        (WasRead S.gave S.ended s) r) (zip (drop place files.old) (drop place files.new)))) }
    ensures failures { Accounts (end_outcome result) (counts (sum_by S.failures files.old)
        (sum_by S.failures files.new) ∷ []) }
{
    let way = Way::at(ways, place);
    note_one(
        alloc,
        begun,
        inspection,
        &mut files[place],
        way,
        seen,
        place,
        said,
    )
}

/// Notes the file of a place. Where no target was begun with, its text says it.
fn note_one<A: Allocator + Copy, S: ByteSource>(
    alloc: A,
    begun: &mut Option<Target>,
    inspection: &mut Inspection<A>,
    file: &mut S,
    way: Way,
    seen: &mut [Seen],
    place: usize,
    said: &mut [u8],
) -> Result<Option<ReadingFault>, Fault>
    requires { 65535 ≤ length said.old }
    ensures text { length said.new ≡ length said.old }
    ensures noted { IfOk result (λ end. IfEnd end (NotesFile way (IsRead (S.gave file.old)
        (S.gave file.new) (S.ended file.new)) end begun.old begun.new inspection.old
        inspection.new)) }
    ensures begun { OnOk result (begun.new ≢ None) }
    ensures refusal { IfErr result (λ f. OfRefusal f (IsStartRefusal way (begun.old ≡ None)
        (IsRead (S.gave file.old) (S.gave file.new) (S.ended file.new)))) }
    ensures failures { Accounts (end_outcome result) (counts (S.failures file.old)
        (S.failures file.new) ∷ []) }
{
    let mut reader = match DatagramReader::open(alloc, way.flows(), &mut *file, said) {
        Ok(reader) => reader,
        Err(failed) => return Err(unopened(way, failed.0, failed.1)),
    };
    let text = &said[..reader.text_len()];
    let noted = note_opened(alloc, begun, inspection, &mut reader, text);
    note_seen(seen, place, &reader);
    reader.history();
    let _ = reader.into_inner();
    noted
}

/// Notes a file whose reader has just been opened. Where no target was begun with, the file's text
/// says it.
fn note_opened<A: Allocator + Copy, S: ByteSource>(
    alloc: A,
    begun: &mut Option<Target>,
    inspection: &mut Inspection<A>,
    reader: &mut DatagramReader<A, S>,
    text: &[u8],
) -> Result<Option<ReadingFault>, Fault>
    requires reads { reader.old.standing ≡ Reads }
    requires none { reader.old.records ≡ [] }
    ensures noted { OnOk result (NotesRecords text.now reader.new.records begun.old begun.new
        inspection.old inspection.new) }
    ensures end { IfOk result (StandsAtEnd reader.new.standing (length reader.new.records)) }
    ensures begun { OnOk result (begun.new ≢ None) }
    ensures refusal { IfErr result (λ f. OfRefusal f (λ r. (begun.old ≡ None)
        × IsFrontRefusal (0 ∷ []) text.now r)) }
    ensures same { IsSameFile reader.old reader.new }
    ensures failures { Accounts (end_outcome result) (counts (S.failures reader.old.source)
        (S.failures reader.new.source) ∷ []) }
    ensures names { S.names reader.new.source ≡ S.names reader.old.source }
{
    let target = settle(alloc, begun, text)?;
    let end = note_records(&target, inspection, reader)?;
    Ok(end)
}
