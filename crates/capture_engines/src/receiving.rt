//! The engine of `receive`.
ghost use Rattle.std.specs.Prelude.{◌≡◌, ◌≢◌, ◌≤◌, ◌<◌, ◌+◌, ◌∷◌, ℕ, List, []};
ghost use Rattle.std.specs.Prelude.{◌⊎◌, ⊤, IfErr, IfOk, OnErr, OnOk};
ghost use Rattle.std.specs.Prelude.{MatchOption, Option, None, Some, drop, length, sum_by, take};
ghost use Rattle.std.specs.List.{zip};
ghost use Rattle.std.specs.Option.{option_copied, option_map};
ghost use Rattle.run_outcome.specs.Moments.{WasRead, pair};
ghost use Rattle.capture_engines.specs.Files.{octets_of, way_at};
ghost use Rattle.capture_engines.specs.Rescued.{MayTake, TakesFilesUpTo};
ghost use Rattle.capture_engines.specs.Stopping.{IsReadingStop, StopsOpened};
ghost use Rattle.recording_reader.specs.FileReader.{IsSameFile};
ghost use Rattle.recording_reader.specs.declared.way.Standing.TheVariants.{Ended, Reads};
ghost use Rattle.run_outcome.specs.Fault.{Accounts, IfRefused, counts, failures_in};
ghost use Rattle.capture_engines.specs.Received.{FileOpens, IsBehindWindow, IsFirstFilesRefusal};
ghost use Rattle.capture_engines.specs.Received.{IsFirstWordRefusal, IsFrontRefusal};
ghost use Rattle.capture_engines.specs.Received.{IsOpeningRefusal, IsReceiveRefusal, IsTurnRefusal};
ghost use Rattle.capture_engines.specs.Received.{IsWordRefusal, Opens, SayOpening, WantsOpening};
ghost use Rattle.capture_engines.specs.Receiving.{SavesShown, ShowsPart};
ghost use Rattle.run_outcome.specs.Refusing.{OfRefusal};
ghost use Rattle.capture_engines.specs.Sent.{FirstIs};
ghost use Rattle.capture_engines.specs.Taking.{HoldsBy, IsReceiverOfRun, IsSaidText};
ghost use Rattle.capture_engines.specs.Taking.{IsShortText, Receives};
ghost use Rattle.capture_engines.specs.Taking.{Stands, TakesFile, TakesFiles, TakesRecords};
ghost use Rattle.run_outcome.specs.Sources.{IsSourceText};
ghost use Rattle.run_outcome.specs.States.{SavesPart};
ghost use Rattle.run_outcome.specs.Text.{GivesFew};
ghost use Rattle.run_outcome.specs.TextRefusals.{GivesAbove};
ghost use Rattle.run_outcome.specs.Timestamps.{AreTimestamps};
ghost use Rattle.run_outcome.specs.declared.refusal.Refusal.TheVariants.{ReceiveSdp};
ghost use Rattle.st_format.specs.History.{IsRead};

use crate::intake::Intake;
use crate::rescuing::receive_files;
use crate::seen::{Seen, note_seen};
use crate::way::{Way, unopened};
use crate::words::are_timestamps;
use flow::Flows;
use recording_reader::DatagramReader;
use run_outcome::{Fault, MOST_TEXT, Refusal, read_source, read_text, read_timestamps};
use st_format::{ByteSink, ByteSource};
use std::alloc::Allocator;

/// What `receive` is asked for, beside its files.
#[derive(Clone, Copy)]
pub struct Wanted<'a> {
    /// Timestamps with commas between.
    pub window: &'a [u8],
    /// The number of the one source to take datagrams of, or `any`.
    pub ssrc: &'a [u8],
    /// Whether refusals are told.
    pub tells_refusals: bool,
}

/// What is received with: the timestamps and the source that are asked for.
#[derive(Drop)]
pub(crate) struct Asked<A: Allocator> {
    pub(crate) window: Vec<u32, A>,
    pub(crate) ssrc: Option<u32>,
}

/// Refuses the words that a receiver is opened by, its timestamps and its source, where they are
/// none. No file is looked at.
///
/// # Errors
///
/// `ReceiveWindow` where the window lists no timestamps, and else `ReceiveSource` where the source
/// is neither a number nor `any`; and that memory was wanted.
pub fn check_words<A: Allocator + Copy>(alloc: A, wanted: Wanted<'_>) -> Result<(), Fault>
    ensures window { OnOk result ((ts : List ℕ) × AreTimestamps wanted.entry.window.now ts) }
    ensures source { OnOk result ((pin : Option ℕ) × IsSourceText wanted.entry.ssrc.now pin) }
    ensures refusal { IfErr result (λ f. OfRefusal f
        (IsWordRefusal wanted.entry.window.now wanted.entry.ssrc.now)) }
    ensures first { IfErr result (λ f. OfRefusal f (IsBehindWindow wanted.entry.window.now)) }
    // No memory is wanted for words that are refused.
    ensures memory { IfErr result (λ f. f ≡ Fault.Memory
        → SayOpening wanted.entry.window.now wanted.entry.ssrc.now) }
    ensures failures { Accounts result [] }
{
    let _opening = read_opening(alloc, wanted)?;
    Ok(())
}

/// Takes the datagrams of captures into one receiver.
///
/// The receiver is opened by the SDP text of `sdp`, of at most 16,777,216 octets, or, where there
/// is none, by that of the first capture. Then the captures' datagrams are taken, one capture after
/// the other. `delivered N` is printed to `output`, then, where they are wanted, how many datagrams
/// were refused for which reason, and then a line for the frame of each timestamp. Last the
/// receiver is written to `state`.
///
/// # Errors
///
/// A refusal where a word, the SDP, the opening or a capture is refused, before anything is printed
/// or written to `state`; and else that a device failed or memory was wanted. The refusal is the
/// first in this order: of the window; of the source; of the SDP; of each capture, one after the
/// other, of its front, then, where no SDP is given, of opening by the first one's text, and of its
/// records.
pub fn receive<A, S, K, O>(
    alloc: A,
    wanted: Wanted<'_>,
    sdp: &mut Option<S>,
    captures: &mut [S],
    state: &mut K,
    output: &mut O,
) -> Result<(), Fault>
where
    A: Allocator + Copy,
    S: ByteSource,
    K: ByteSink,
    O: ByteSink,
    ensures saved { OnOk result (SavesShown wanted.entry.tells_refusals
        (O.took output.old) (O.took output.new) (K.took state.old) (K.took state.new)) }
    ensures len { length captures.new ≡ length captures.old }
    // What was read of the captures is all of them, up to their ends.
    ensures taken { OnOk result (Receives wanted.entry.window.now wanted.entry.ssrc.now
        (pair sdp.old sdp.new) (WasRead S.gave S.ended) (zip captures.old captures.new)
        wanted.entry.tells_refusals
        (O.took output.old) (O.took output.new) (K.took state.old) (K.took state.new)) }
    // Where it fails, the receiver isn't all written.
    ensures part { OnErr result (SavesPart (IsReceiverOfRun wanted.entry.window.now
        wanted.entry.ssrc.now (pair sdp.old sdp.new) (WasRead S.gave S.ended)
        (zip captures.old captures.new)) (K.took state.old) (K.took state.new)) }
    ensures refused { IfErr result (λ f. IfRefused f (state.new ≡ state.old)) }
    // Nothing was printed then; or all lines of such a receiver, or a first part of them, since the
    // output failed.
    ensures printed { OnErr result (ShowsPart O.took O.failures wanted.entry.tells_refusals
        (IsReceiverOfRun wanted.entry.window.now wanted.entry.ssrc.now (pair sdp.old sdp.new)
        (WasRead S.gave S.ended) (zip captures.old captures.new)) output.old output.new) }
    // A refusal comes before anything is printed.
    ensures quiet { IfErr result (λ f. IfRefused f (output.new ≡ output.old)) }
    // So memory is wanted, and where the words are no refusal.
    ensures memory { IfErr result (λ f. f ≡ Fault.Memory
        → (state.new ≡ state.old) × (output.new ≡ output.old)
        × SayOpening wanted.entry.window.now wanted.entry.ssrc.now) }
    ensures refusal { IfErr result (λ f. OfRefusal f (IsReceiveRefusal wanted.entry.window.now
        wanted.entry.ssrc.now (pair sdp.old sdp.new) (WasRead S.gave S.ended)
        (zip captures.old captures.new))) }
    ensures failures { Accounts result (counts (failures_in S.failures sdp.old)
        (failures_in S.failures sdp.new) ∷ counts (sum_by S.failures captures.old)
        (sum_by S.failures captures.new)
        ∷ counts (K.failures state.old) (K.failures state.new)
        ∷ counts (O.failures output.old) (O.failures output.new) ∷ []) }
{
    check_words(alloc, wanted)?;
    let said = read_said(alloc, sdp)?;
    let mut reception = None;
    receive_files(
        alloc,
        wanted,
        false,
        octets_of(&said),
        captures,
        &[],
        &mut [],
        state,
        output,
        &mut reception,
    )
}

fn read_said<A: Allocator, S: ByteSource>(
    alloc: A,
    sdp: &mut Option<S>,
) -> Result<Option<Vec<u8, A>>, Fault>
    ensures said { IfOk result (λ said. IsSaidText (WasRead S.gave S.ended) (pair sdp.old sdp.new)
        (option_map (λ text. text.items) said)) }
    ensures refusal { IfErr result (λ f. OfRefusal f (λ r. (r ≡ ReceiveSdp)
        × MatchOption (pair sdp.old sdp.new) ⊥
        (λ s. GivesAbove 16777216 (WasRead S.gave S.ended s)))) }
    // Without a source, and for a text that is too long, no memory is wanted.
    ensures memory { IfErr result (λ f. f ≡ Fault.Memory → MatchOption (pair sdp.old sdp.new) ⊥
        (λ s. GivesFew 16777216 (S.gave s.0) (S.gave s.1))) }
    ensures failures { Accounts result (counts (failures_in S.failures sdp.old)
        (failures_in S.failures sdp.new) ∷ []) }
{
    match sdp {
        None => Ok(None),
        Some(source) => match read_given(alloc, source) {
            Ok(text) => Ok(Some(text)),
            Err(fault) => Err(fault),
        },
    }
}

fn read_given<A: Allocator, S: ByteSource>(alloc: A, source: &mut S) -> Result<Vec<u8, A>, Fault>
    ensures said { IfOk result (λ text. ((octets : List ℕ)
        → IsRead (S.gave source.old) (S.gave source.new) (S.ended source.new) octets
        → octets ≡ text.items)
        × IsShortText (IsRead (S.gave source.old) (S.gave source.new) (S.ended source.new))) }
    ensures refusal { IfErr result (λ f. OfRefusal f (λ r. (r ≡ ReceiveSdp) × GivesAbove 16777216
        (IsRead (S.gave source.old) (S.gave source.new) (S.ended source.new)))) }
    ensures memory { IfErr result (λ f. f ≡ Fault.Memory
        → GivesFew 16777216 (S.gave source.old) (S.gave source.new)) }
    ensures failures { Accounts result (counts (S.failures source.old) (S.failures source.new)
        ∷ []) }
{
    match read_text(alloc, source, MOST_TEXT)? {
        Some(text) => Ok(text),
        None => Err(Fault::Refused(Refusal::ReceiveSdp)),
    }
}

fn octets_of<A: Allocator>(said: &Option<Vec<u8, A>>) -> Option<&[u8]>
    ensures { option_copied result ≡ option_map (λ text. text.items) said.now }
{
    match said {
        Some(text) => Some(text.as_slice()),
        None => None,
    }
}

/// Reads the words that a receiver is opened by: its timestamps and its source. Both are looked at
/// before memory is wanted.
pub(crate) fn read_opening<A: Allocator + Copy>(
    alloc: A,
    wanted: Wanted<'_>,
) -> Result<Asked<A>, Fault>
    ensures window { IfOk result (λ o. AreTimestamps wanted.entry.window.now o.window.items) }
    ensures source { IfOk result (λ o. IsSourceText wanted.entry.ssrc.now o.ssrc) }
    ensures refusal { IfErr result (λ f. OfRefusal f
        (IsFirstWordRefusal wanted.entry.window.now wanted.entry.ssrc.now)) }
    // No memory is wanted for words that are refused.
    ensures memory { IfErr result (λ f. f ≡ Fault.Memory
        → SayOpening wanted.entry.window.now wanted.entry.ssrc.now) }
    ensures failures { Accounts result [] }
{
    if !are_timestamps(wanted.window) {
        return Err(Fault::Refused(Refusal::ReceiveWindow));
    }
    let Some(ssrc) = read_source(wanted.ssrc) else {
        return Err(Fault::Refused(Refusal::ReceiveSource));
    };
    match read_timestamps(alloc, wanted.window)? {
        Some(window) => Ok(Asked { window, ssrc }),
        None => unreachable!(),
    }
}

pub(crate) fn begin<A: Allocator + Copy>(
    alloc: A,
    opening: &Asked<A>,
    sdp: Option<&[u8]>,
) -> Result<Option<Intake<A>>, Fault>
    ensures begun { IfOk result (λ begun. Stands opening.now begun (option_copied sdp.entry) []) }
    ensures none { IfOk result (λ begun. begun ≡ None → option_copied sdp.entry ≡ None) }
    ensures opens { OnOk result (MatchOption (option_copied sdp.entry) ⊤
        (λ text. Opens opening.now.window.items text)) }
    ensures refusal { IfErr result (λ f. OfRefusal f (λ r. MatchOption (option_copied sdp.entry) ⊥
        (λ text. IsOpeningRefusal opening.now.window.items text r))) }
    ensures memory { IfErr result (λ f. f ≡ Fault.Memory → MatchOption (option_copied sdp.entry) ⊥
        (λ text. WantsOpening opening.now.window.items text)) }
    ensures failures { Accounts result [] }
{
    match sdp {
        None => Ok(None),
        Some(text) => match open_by(alloc, opening, text) {
            Ok(intake) => Ok(Some(intake)),
            Err(fault) => Err(fault),
        },
    }
}

fn open_by<A: Allocator + Copy>(
    alloc: A,
    opening: &Asked<A>,
    said: &[u8],
) -> Result<Intake<A>, Fault>
    ensures opened { IfOk result (λ s. HoldsBy opening.now said.now s []) }
    ensures opens { OnOk result (Opens opening.now.window.items said.now) }
    ensures refusal { IfErr result (λ f. OfRefusal f
        (IsOpeningRefusal opening.now.window.items said.now)) }
    ensures memory { IfErr result (λ f. f ≡ Fault.Memory
        → WantsOpening opening.now.window.items said.now) }
    ensures failures { Accounts result [] }
{
    Intake::open(alloc, said, opening.ssrc, &opening.window)
}

/// Takes all files, each as `ways` say, and notes in `seen` what was seen of them. `said` is room
/// for a text.
pub(crate) fn take_all<A: Allocator + Copy, S: ByteSource>(
    alloc: A,
    opening: &Asked<A>,
    begun: &mut Option<Intake<A>>,
    files: &mut [S],
    ways: &[Result<Flows, Refusal>],
    seen: &mut [Seen],
    said: &mut [u8],
) -> Result<(), Fault>
    requires text { 65535 ≤ length said.old }
    ensures len { length files.new ≡ length files.old }
    ensures taken { OnOk result (TakesFiles opening.now ways.now (WasRead S.gave S.ended)
        (zip files.old files.new) begun.old begun.new) }
    ensures sound { IfErr result (λ f. TakesFilesUpTo opening.now ways.now S.gave S.ended f
        (zip files.old files.new) begun.old begun.new) }
    ensures none { OnOk result (begun.new ≡ None
        → (begun.old ≡ None) × (files.old ≡ [])) }
    ensures refusal { IfErr result (λ f. OfRefusal f (IsFirstFilesRefusal opening.now.window.items
        begun.old ways.now (WasRead S.gave S.ended) (zip files.old files.new))) }
    ensures failures { Accounts result (counts (sum_by S.failures files.old)
        (sum_by S.failures files.new) ∷ []) }
{
    for place in 0..files.len() {
        take_at(alloc, opening, begun, files, ways, seen, place, said)?;
    }
    Ok(())
}

/// Takes the file of a place. It alone is lent, so what is known of the others stays.
fn take_at<A: Allocator + Copy, S: ByteSource>(
    alloc: A,
    opening: &Asked<A>,
    begun: &mut Option<Intake<A>>,
    files: &mut [S],
    ways: &[Result<Flows, Refusal>],
    seen: &mut [Seen],
    place: usize,
    said: &mut [u8],
) -> Result<(), Fault>
    requires place { place < length files.old }
    requires text { 65535 ≤ length said.old }
    ensures text { length said.new ≡ length said.old }
    ensures len { length files.new ≡ length files.old }
    ensures front { take place files.new ≡ take place files.old }
    ensures behind { drop (place + 1) files.new ≡ drop (place + 1) files.old }
    ensures taken { OnOk result (FirstIs (λ s. TakesFile opening.now (way_at ways.now place)
        (WasRead S.gave S.ended s) begun.old begun.new)
        (zip (drop place files.old) (drop place files.new))) }
    ensures sound { IfErr result (λ f. FirstIs (MayTake opening.now (way_at ways.now place)
        S.gave S.ended f begun.old begun.new)
        (zip (drop place files.old) (drop place files.new))) }
    ensures begun { OnOk result (begun.new ≢ None) }
    ensures opens { OnOk result (begun.old ≡ None → FirstIs (λ s. FileOpens
        opening.now.window.items (way_at ways.now place) (WasRead S.gave S.ended s))
        (zip (drop place files.old) (drop place files.new))) }
    ensures refusal { IfErr result (λ f. OfRefusal f (λ r. FirstIs
        (λ s. IsTurnRefusal opening.now.window.items (way_at ways.now place) (begun.old ≡ None)
        (WasRead S.gave S.ended s) r)
        (zip (drop place files.old) (drop place files.new)))) }
    ensures failures { Accounts result (counts (sum_by S.failures files.old)
        (sum_by S.failures files.new) ∷ []) }
{
    let way = Way::at(ways, place);
    take_one(
        alloc,
        opening,
        begun,
        &mut files[place],
        way,
        seen,
        place,
        said,
    )
}

/// Takes the file of a place. Where no receiver is open yet, its text opens one.
fn take_one<A: Allocator + Copy, S: ByteSource>(
    alloc: A,
    opening: &Asked<A>,
    begun: &mut Option<Intake<A>>,
    file: &mut S,
    way: Way,
    seen: &mut [Seen],
    place: usize,
    said: &mut [u8],
) -> Result<(), Fault>
    requires text { 65535 ≤ length said.old }
    ensures text { length said.new ≡ length said.old }
    ensures taken { OnOk result (TakesFile opening.now way (IsRead (S.gave file.old)
        (S.gave file.new) (S.ended file.new)) begun.old begun.new) }
    ensures sound { IfErr result (λ f. MayTake opening.now way S.gave S.ended f begun.old
        begun.new (file.old, file.new)) }
    ensures begun { OnOk result (begun.new ≢ None) }
    ensures opens { OnOk result (begun.old ≡ None → FileOpens opening.now.window.items way
        (IsRead (S.gave file.old) (S.gave file.new) (S.ended file.new))) }
    ensures refusal { IfErr result (λ f. OfRefusal f (IsTurnRefusal opening.now.window.items way
        (begun.old ≡ None) (IsRead (S.gave file.old) (S.gave file.new) (S.ended file.new)))) }
    ensures failures { Accounts result (counts (S.failures file.old) (S.failures file.new)
        ∷ []) }
{
    let mut reader = match DatagramReader::open(alloc, way.flows(), &mut *file, said) {
        Ok(reader) => reader,
        Err(failed) => return Err(unopened(way, failed.0, failed.1)),
    };
    let text = &said[..reader.text_len()];
    let taken = take_opened(alloc, opening, begun, &mut reader, text);
    note_seen(seen, place, &reader);
    reader.history();
    let _ = reader.into_inner();
    taken
}

/// Takes a file whose reader has just been opened. Where no receiver is open yet, the file's text
/// opens one.
fn take_opened<A: Allocator + Copy, S: ByteSource>(
    alloc: A,
    opening: &Asked<A>,
    begun: &mut Option<Intake<A>>,
    reader: &mut DatagramReader<A, S>,
    text: &[u8],
) -> Result<(), Fault>
    requires reads { reader.old.standing ≡ Reads }
    requires none { reader.old.records ≡ [] }
    ensures taken { OnOk result (TakesRecords opening.now text.now (octets_of reader.new.records)
        begun.old begun.new) }
    ensures begun { OnOk result (begun.new ≢ None) }
    ensures ended { OnOk result (reader.new.standing ≡ Ended) }
    ensures few { OnOk result (length reader.new.records < 16777216) }
    // Up to a fault the datagrams of the records that were read were taken; or nothing was begun.
    ensures stop { IfErr result (λ f.
        (TakesRecords opening.now text.now (octets_of reader.new.records) begun.old begun.new
        × IsReadingStop reader.new.standing (length reader.new.records) f)
        ⊎ ((begun.new ≡ begun.old) × OfRefusal f (λ r. (begun.old ≡ None)
        × IsFrontRefusal opening.now.window.items text.now r))) }
    ensures opens { OnOk result (begun.old ≡ None → Opens opening.now.window.items text.now) }
    ensures refusal { IfErr result (StopsOpened opening.now.window.items text.now
        (begun.old ≡ None) reader.new.standing (length reader.new.records)) }
    // Where a receiver is open, memory is wanted only if the reader says so.
    ensures memory { IfErr result (λ f. f ≡ Fault.Memory
        → IsReadingStop reader.new.standing (length reader.new.records) f
        ⊎ ((begun.old ≡ None) × WantsOpening opening.now.window.items text.now)) }
    ensures same { IsSameFile reader.old reader.new }
    ensures failures { Accounts result (counts (S.failures reader.old.source)
        (S.failures reader.new.source) ∷ []) }
    ensures names { S.names reader.new.source ≡ S.names reader.old.source }
{
    if let Some(intake) = begun {
        return intake.take_records(reader);
    }
    let mut intake = open_by_text(alloc, opening, text)?;
    let taken = intake.take_records(reader);
    *begun = Some(intake);
    taken
}

fn open_by_text<A: Allocator + Copy>(
    alloc: A,
    opening: &Asked<A>,
    said: &[u8],
) -> Result<Intake<A>, Fault>
    ensures opened { IfOk result (λ s. HoldsBy opening.now said.now s []) }
    ensures opens { OnOk result (Opens opening.now.window.items said.now) }
    ensures refusal { IfErr result (λ f. OfRefusal f
        (IsFrontRefusal opening.now.window.items said.now)) }
    // Where there is no text no memory is wanted: none is wanted to open by that.
    ensures memory { IfErr result (λ f. f ≡ Fault.Memory
        → WantsOpening opening.now.window.items said.now) }
    ensures failures { Accounts result [] }
{
    if said.is_empty() {
        return Err(Fault::Refused(Refusal::ReceiveNoSdp));
    }
    open_by(alloc, opening, said)
}
