//! Finding the first timestamps that come of files.
ghost use Rattle.std.specs.Prelude.{◌≡◌, ◌≢◌, ◌≤◌, ◌<◌, ◌+◌, ◌↔◌, ◌∷◌, [], IfErr, IfOk, IsTrue};
ghost use Rattle.std.specs.Prelude.{MatchOption, None, OnErr, OnOk, drop, length, sum_by, take};
ghost use Rattle.std.specs.List.{zip};
ghost use Rattle.std.specs.Option.{option_copied};
ghost use Rattle.capture_engines.specs.Files.{AreReadWhole, IsReadWhole, first_way, octets_of};
ghost use Rattle.capture_engines.specs.Files.{way_at};
ghost use Rattle.capture_engines.specs.Received.{FileOpens, IfFirst, IsFirstFilesRefusal};
ghost use Rattle.capture_engines.specs.Received.{IsFrontRefusal, IsOpeningRefusal, IsTurnRefusal};
ghost use Rattle.capture_engines.specs.Received.{Opens};
ghost use Rattle.capture_engines.specs.Sent.{FirstIs};
ghost use Rattle.capture_engines.specs.Stopping.{IsWithinTaken, StopsOpened};
ghost use Rattle.recording_reader.specs.FileReader.{IsSameFile};
ghost use Rattle.recording_reader.specs.declared.way.Standing.TheVariants.{Reads};
ghost use Rattle.run_outcome.specs.Fault.{Accounts, counts};
ghost use Rattle.run_outcome.specs.Moments.{WasRead};
ghost use Rattle.run_outcome.specs.Refusing.{OfRefusal};
ghost use Rattle.st_format.specs.History.{IsRead};
ghost use Rattle.window_finding.specs.Finding.{FindsFile, FindsFiles, FindsFirst};
ghost use Rattle.window_finding.specs.Finding.{FindsRecords, FindsSoFar, FindsSought};
ghost use Rattle.window_finding.specs.Finding.{IsFindRefusal, IsFindingRefusal, IsFull};
ghost use Rattle.window_finding.specs.Turns.{IsDone};

use crate::finder::{Finder, Sought};
use capture_engines::{Way, unopened};
use flow::Flows;
use path_receiver::OpenFault;
use recording_reader::DatagramReader;
use run_outcome::{Fault, Refusal, room};
use st_format::ByteSource;
use std::alloc::Allocator;

/// The first different timestamps that come of files, as many as are sought, or all where fewer
/// come.
///
/// Those of the datagrams come that have a header (RFC 3550, 5.1), the payload type that an SDP
/// text says, and the source that is asked for, where one is. The SDP text is `sdp`, or, where none
/// is given, that of the first file. A file that begins as a recording of another tool is taken by
/// the flows of its place in `ways`, or refused so; a file of which they say nothing is a capture.
/// The files are read one after the other, and no further than where all are found.
///
/// # Errors
///
/// The first refusal in this order: of the SDP text that is given; of each file in turn, where
/// those before it were read to their ends; and `Open(BadWindow)` where no timestamp comes. And
/// else that a source failed or memory was wanted.
pub fn find_window<A: Allocator + Copy, S: ByteSource>(
    alloc: A,
    sought: Sought,
    sdp: Option<&[u8]>,
    files: &mut [S],
    ways: &[Result<Flows, Refusal>],
) -> Result<Vec<u32, A>, Fault>
    ensures len { length files.new ≡ length files.old }
    // Whatever is behind what was read of the files, these are the first of them.
    ensures found { IfOk result (λ window. FindsFirst sought.count sought.ssrc
        (option_copied sdp.entry) ways.now (WasRead S.gave S.ended) (zip files.old files.new)
        window.items) }
    ensures some { IfOk result (λ window. 0 < length window.items) }
    ensures refusal { IfErr result (λ f. OfRefusal f (IsFindRefusal sought.count sought.ssrc
        (option_copied sdp.entry) ways.now (WasRead S.gave S.ended) (zip files.old files.new))) }
    ensures failures { Accounts result (counts (sum_by S.failures files.old)
        (sum_by S.failures files.new) ∷ []) }
{
    let window = find_timestamps(alloc, sought, sdp, files, ways)?;
    if window.is_empty() {
        return Err(Fault::Refused(Refusal::Open(OpenFault::BadWindow)));
    }
    Ok(window)
}

/// The first timestamps of files, of which there may be none.
fn find_timestamps<A: Allocator + Copy, S: ByteSource>(
    alloc: A,
    sought: Sought,
    sdp: Option<&[u8]>,
    files: &mut [S],
    ways: &[Result<Flows, Refusal>],
) -> Result<Vec<u32, A>, Fault>
    ensures len { length files.new ≡ length files.old }
    ensures found { IfOk result (λ window. FindsFirst sought.count sought.ssrc
        (option_copied sdp.entry) ways.now (WasRead S.gave S.ended) (zip files.old files.new)
        window.items) }
    ensures refusal { IfErr result (λ f. OfRefusal f (IsFindingRefusal (option_copied sdp.entry)
        ways.now (WasRead S.gave S.ended) (zip files.old files.new))) }
    ensures failures { Accounts result (counts (sum_by S.failures files.old)
        (sum_by S.failures files.new) ∷ []) }
{
    let mut begun = begin(alloc, sought, sdp)?;
    let mut said = room(alloc)?;
    find_all(alloc, sought, &mut begun, files, ways, &mut said)?;
    match begun {
        Some(finder) => Ok(finder.window),
        None => Err(Fault::Refused(Refusal::ReceiveNoSdp)),
    }
}

fn begin<A: Allocator + Copy>(
    alloc: A,
    sought: Sought,
    sdp: Option<&[u8]>,
) -> Result<Option<Finder<A>>, Fault>
    ensures begun { IfOk result (λ begun. FindsSoFar sought begun (option_copied sdp.entry) []) }
    ensures refusal { IfErr result (λ f. OfRefusal f (λ r.
        MatchOption (option_copied sdp.entry) ⊥ (λ text. IsOpeningRefusal (0 ∷ []) text r))) }
    ensures failures { Accounts result [] }
{
    match sdp {
        None => Ok(None),
        Some(text) => match open_by(alloc, sought, text) {
            Ok(finder) => Ok(Some(finder)),
            Err(fault) => Err(fault),
        },
    }
}

fn open_by<A: Allocator + Copy>(alloc: A, sought: Sought, sdp: &[u8]) -> Result<Finder<A>, Fault>
    ensures opened { IfOk result (λ s. FindsSought sought sdp.now s []) }
    ensures refusal { IfErr result (λ f. OfRefusal f (IsOpeningRefusal (0 ∷ []) sdp.now)) }
    ensures failures { Accounts result [] }
{
    Finder::open(alloc, sought, sdp)
}

/// Takes the timestamps of all files, each as `ways` say. `said` is room for a text.
fn find_all<A: Allocator + Copy, S: ByteSource>(
    alloc: A,
    sought: Sought,
    begun: &mut Option<Finder<A>>,
    files: &mut [S],
    ways: &[Result<Flows, Refusal>],
    said: &mut [u8],
) -> Result<(), Fault>
    requires text { 65535 ≤ length said.old }
    ensures len { length files.new ≡ length files.old }
    ensures found { OnOk result (FindsFiles sought ways.now (WasRead S.gave S.ended)
        (zip files.old files.new) begun.old begun.new) }
    ensures none { OnOk result (begun.new ≡ None
        → (begun.old ≡ None) × (files.old ≡ [])) }
    // Where no finder had begun, the first file's text opened one; and the files were read to their
    // ends, unless all are found.
    ensures opened { OnOk result (begun.old ≡ None → IfFirst
        (λ s. FileOpens (0 ∷ []) (first_way ways.now) (WasRead S.gave S.ended s))
        (zip files.old files.new)) }
    ensures whole { OnOk result ((IsFull begun.new → ⊥)
        → AreReadWhole ways.now (WasRead S.gave S.ended) (zip files.old files.new)) }
    ensures refusal { IfErr result (λ f. OfRefusal f (IsFirstFilesRefusal (0 ∷ [])
        begun.old ways.now (WasRead S.gave S.ended) (zip files.old files.new))) }
    ensures failures { Accounts result (counts (sum_by S.failures files.old)
        (sum_by S.failures files.new) ∷ []) }
{
    for place in 0..files.len() {
        find_at(alloc, sought, begun, files, ways, place, said)?;
    }
    Ok(())
}

/// Takes the timestamps of the file of a place. It alone is lent, so what is known of the others
/// stays.
fn find_at<A: Allocator + Copy, S: ByteSource>(
    alloc: A,
    sought: Sought,
    begun: &mut Option<Finder<A>>,
    files: &mut [S],
    ways: &[Result<Flows, Refusal>],
    place: usize,
    said: &mut [u8],
) -> Result<(), Fault>
    requires place { place < length files.old }
    requires text { 65535 ≤ length said.old }
    ensures text { length said.new ≡ length said.old }
    ensures len { length files.new ≡ length files.old }
    ensures front { take place files.new ≡ take place files.old }
    ensures behind { drop (place + 1) files.new ≡ drop (place + 1) files.old }
    ensures found { OnOk result (FirstIs
        (λ s. FindsFile sought (way_at ways.now place) (WasRead S.gave S.ended s)
        begun.old begun.new)
        (zip (drop place files.old) (drop place files.new))) }
    ensures begun { OnOk result (begun.new ≢ None) }
    ensures opens { OnOk result (begun.old ≡ None → FirstIs
        (λ s. FileOpens (0 ∷ []) (way_at ways.now place) (WasRead S.gave S.ended s))
        (zip (drop place files.old) (drop place files.new))) }
    ensures whole { OnOk result ((IsFull begun.new → ⊥) → FirstIs
        (λ s. IsReadWhole (way_at ways.now place) (WasRead S.gave S.ended s))
        (zip (drop place files.old) (drop place files.new))) }
    ensures full { OnOk result (IsFull begun.old → IsFull begun.new) }
    ensures lacks { OnErr result (IsFull begun.old → ⊥) }
    ensures refusal { IfErr result (λ f. OfRefusal f (λ r. FirstIs
        (λ s. IsTurnRefusal (0 ∷ []) (way_at ways.now place) (begun.old ≡ None)
        (WasRead S.gave S.ended s) r)
        (zip (drop place files.old) (drop place files.new)))) }
    ensures failures { Accounts result (counts (sum_by S.failures files.old)
        (sum_by S.failures files.new) ∷ []) }
{
    find_one(
        alloc,
        sought,
        begun,
        &mut files[place],
        Way::at(ways, place),
        said,
    )
}

/// Takes the timestamps of a file, which is not looked at where all are found. Where none was
/// begun with yet, its text says what comes.
fn find_one<A: Allocator + Copy, S: ByteSource>(
    alloc: A,
    sought: Sought,
    begun: &mut Option<Finder<A>>,
    file: &mut S,
    way: Way,
    said: &mut [u8],
) -> Result<(), Fault>
    requires text { 65535 ≤ length said.old }
    ensures text { length said.new ≡ length said.old }
    ensures found { OnOk result (FindsFile sought way (IsRead (S.gave file.old)
        (S.gave file.new) (S.ended file.new)) begun.old begun.new) }
    ensures begun { OnOk result (begun.new ≢ None) }
    ensures opens { OnOk result (begun.old ≡ None → FileOpens (0 ∷ []) way
        (IsRead (S.gave file.old) (S.gave file.new) (S.ended file.new))) }
    ensures whole { OnOk result ((IsFull begun.new → ⊥) → IsReadWhole way
        (IsRead (S.gave file.old) (S.gave file.new) (S.ended file.new))) }
    ensures full { OnOk result (IsFull begun.old → IsFull begun.new) }
    ensures lacks { OnErr result (IsFull begun.old → ⊥) }
    ensures refusal { IfErr result (λ f. OfRefusal f (IsTurnRefusal (0 ∷ []) way
        (begun.old ≡ None) (IsRead (S.gave file.old) (S.gave file.new) (S.ended file.new)))) }
    ensures failures { Accounts result (counts (S.failures file.old) (S.failures file.new)
        ∷ []) }
{
    if has_all(begun) {
        return Ok(());
    }
    let mut reader = match DatagramReader::open(alloc, way.flows(), &mut *file, said) {
        Ok(reader) => reader,
        Err(failed) => return Err(unopened(way, failed.0, failed.1)),
    };
    let text = &said[..reader.text_len()];
    let found = find_opened(alloc, sought, begun, &mut reader, text);
    reader.history();
    let _ = reader.into_inner();
    found
}

fn has_all<A: Allocator>(begun: &Option<Finder<A>>) -> bool
    ensures { IsTrue result ↔ IsFull begun.now }
{
    match begun {
        Some(finder) => finder.is_full(),
        None => false,
    }
}

/// Takes the timestamps of a file whose reader has just been opened. Where none was begun with
/// yet, the file's text says what comes.
fn find_opened<A: Allocator + Copy, S: ByteSource>(
    alloc: A,
    sought: Sought,
    begun: &mut Option<Finder<A>>,
    reader: &mut DatagramReader<A, S>,
    text: &[u8],
) -> Result<(), Fault>
    requires reads { reader.old.standing ≡ Reads }
    requires none { reader.old.records ≡ [] }
    ensures found { OnOk result (FindsRecords sought text.now (octets_of reader.new.records)
        begun.old begun.new) }
    ensures begun { OnOk result (begun.new ≢ None) }
    ensures done { OnOk result (IsDone reader.new.standing (IsFull begun.new)) }
    ensures opens { OnOk result (begun.old ≡ None → Opens (0 ∷ []) text.now) }
    ensures within { IsWithinTaken reader.new.standing (length reader.new.records) }
    ensures refusal { IfErr result (StopsOpened (0 ∷ []) text.now (begun.old ≡ None)
        reader.new.standing (length reader.new.records)) }
    ensures same { IsSameFile reader.old reader.new }
    ensures failures { Accounts result (counts (S.failures reader.old.source)
        (S.failures reader.new.source) ∷ []) }
    ensures names { S.names reader.new.source ≡ S.names reader.old.source }
{
    if let Some(finder) = begun {
        return finder.find_in(reader);
    }
    let mut finder = open_by_text(alloc, sought, text)?;
    let found = finder.find_in(reader);
    *begun = Some(finder);
    found
}

fn open_by_text<A: Allocator + Copy>(
    alloc: A,
    sought: Sought,
    said: &[u8],
) -> Result<Finder<A>, Fault>
    ensures opened { IfOk result (λ s. FindsSought sought said.now s []) }
    ensures refusal { IfErr result (λ f. OfRefusal f (IsFrontRefusal (0 ∷ []) said.now)) }
    ensures failures { Accounts result [] }
{
    if said.is_empty() {
        return Err(Fault::Refused(Refusal::ReceiveNoSdp));
    }
    open_by(alloc, sought, said)
}
