//! The engine of `follow`.
ghost use Rattle.std.specs.Prelude.{◌≡◌, ◌≤◌, ◌∷◌, [], IfErr, IfOk, MatchOption, OnErr};
ghost use Rattle.std.specs.Prelude.{OnOk, length, take};
ghost use Rattle.std.specs.List.{AllByRecursion, zip};
ghost use Rattle.std.specs.Option.{option_copied};
ghost use Rattle.follow_engine.specs.Followed.{FollowsPart, FollowsWhole, StopsShort};
ghost use Rattle.follow_engine.specs.Fronts.{StopsFirstFront};
ghost use Rattle.follow_engine.specs.Opened.{AllClosedSides, AreOpened, IsFirstText};
ghost use Rattle.follow_engine.specs.Refused.{IsFirstRefusal, IsFollowRefusal, StopsReadSides};
ghost use Rattle.follow_engine.specs.Running.{IsSoundRun, TellsEvents, TellsSome};
ghost use Rattle.follow_engine.specs.Sides.{EndsSome, EndsStream, FollowsEntries, FollowsUpTo};
ghost use Rattle.follow_engine.specs.Sides.{HasBegunIn, HasBegunRun, SideRead, text_by};
ghost use Rattle.path_receiver.specs.Opening.{IsWindowSize};
ghost use Rattle.recording_engines.specs.Files.{HasKnownOctets, IsReadByFlows};
ghost use Rattle.run_outcome.specs.Fault.{Accounts, IfRefused, counts};
ghost use Rattle.run_outcome.specs.Refusing.{OfRefusal};
ghost use Rattle.run_outcome.specs.TextRefusals.{IsDescriptionRefusal};
ghost use Rattle.side_by_side.specs.Sides.{IsUnreadSide, begun_each, failures_each};

use crate::opening::{FollowAsked, open_all, open_run, read_words};
use crate::pictures::PictureSink;
use crate::running::Run;
use crate::taking::follow_sides;
use crate::telling::{FollowTotals, tell_totals};
use capture_engines::{Seen, note_seen};
use flow::Flows;
use recording_engines::ImportFile;
use run_outcome::{Fault, Refusal, room};
use side_by_side::{Side, SideBySide};
use st_format::{ByteSink, ByteSource};
use std::alloc::Allocator;
use std::mem;

/// Follows the stream that files have: captures, and recordings of other tools, which are read side
/// by side, always from the one whose next datagram has the oldest timestamp. So recordings of the
/// two paths are one stream, whatever the skew between them.
///
/// The stream is what the SDP text `sdp` says, or, where none is given, that of the first file. A
/// file that begins as a recording is taken by the flows of its place in `ways`, or refused so; one
/// of which they say nothing is a capture. Each frame that leaves the window is shown to
/// `pictures`, and then told to `output` by a line: `frame TS present P missing M contested C late
/// L`, where L counts the datagrams that came late since the line before. Where only datagrams come
/// that are late or too far ahead, for longer than ten seconds, all frames leave, and the stream is
/// followed anew: `anew TS`. Last are the totals, and where datagrams came late that more frames
/// would have held, how many: `late wants window N`.
///
/// What was seen of each file is noted at its place in `seen`, where there is one.
///
/// # Errors
///
/// The first refusal in this order: of the words; of the SDP text that is given; of a file, before
/// its records; of the first file's text; of the records of the file whose turn it is, where
/// several are at fault of the first, or that they are 2^64 or more, behind what was told and shown
/// of those before the fault. And else that a device failed or memory was wanted.
pub fn follow_files<A, S, P, O>(
    alloc: A,
    asked: FollowAsked<'_>,
    sdp: Option<&[u8]>,
    sides: &mut Vec<Side<A, S>, A>,
    ways: &[Result<Flows, Refusal>],
    seen: &mut [Seen],
    pictures: &mut P,
    output: &mut O,
) -> Result<FollowTotals, Fault>
where
    A: Allocator + Copy,
    S: ByteSource + Drop,
    P: PictureSink,
    O: ByteSink,
    requires { AllClosedSides sides.old.items }
    ensures len { length sides.new.items ≡ length sides.old.items }
    ensures followed { IfOk result (λ t. FollowsWhole asked.entry (option_copied sdp.entry) ways.now
        (SideRead S.gave S.ended) (zip sides.old.items sides.new.items) P.takes
        pictures.old pictures.new (O.took output.old) (O.took output.new) t) }
    ensures refusal { IfErr result (λ f. OfRefusal f (IsFollowRefusal asked.entry.frames
        asked.entry.ssrc.now (option_copied sdp.entry) ways.now
        (SideRead S.gave S.ended) (zip sides.old.items sides.new.items))) }
    // Behind a refusal nothing was told, or all of what came before it; and where a device failed
    // or memory was wanted a first part of what is told.
    ensures before { IfErr result (λ f. IfRefused f (StopsShort asked.entry
        (option_copied sdp.entry) ways.now (SideRead S.gave S.ended)
        (zip sides.old.items sides.new.items) P.takes
        pictures.old pictures.new (O.took output.old) (O.took output.new))) }
    ensures part { OnErr result (FollowsPart asked.entry (option_copied sdp.entry) ways.now
        (SideRead S.gave S.ended) (zip sides.old.items sides.new.items) P.takes P.fails
        pictures.old pictures.new (O.took output.old) (O.took output.new)) }
    ensures failures { Accounts result (counts (failures_each S.failures sides.old.items)
        (failures_each S.failures sides.new.items)
        ∷ counts (P.failures pictures.old) (P.failures pictures.new)
        ∷ counts (O.failures output.old) (O.failures output.new) ∷ []) }
{
    let ssrc = read_words(asked)?;
    let given = begin(alloc, asked, ssrc, sdp)?;
    let mut said = room(alloc)?;
    let mut others = room(alloc)?;
    let text = said.as_mut_slice();
    let rest = others.as_mut_slice();
    let count = open_files(alloc, ways, sides, text, rest)?;
    let mut run = begin_or(alloc, asked, ssrc, sdp, given, &text[..count])?;
    follow_opened(&mut run, alloc, sides, seen, pictures, output)?;
    let totals = end_stream(&mut run, pictures, output)?;
    Ok(totals)
}

/// Begins a stream by the SDP text, where one is given.
fn begin<A: Allocator + Copy>(
    alloc: A,
    asked: FollowAsked<'_>,
    ssrc: Option<u32>,
    sdp: Option<&[u8]>,
) -> Result<Option<Run<A>>, Fault>
    requires { IsWindowSize asked.frames }
    ensures begun { IfOk result
        (λ r. HasBegunIn asked.entry ssrc (option_copied sdp.entry) r) }
    ensures refusal { IfErr result (λ f. OfRefusal f (λ r. MatchOption (option_copied sdp.entry) ⊥
        (λ text. IsDescriptionRefusal text r))) }
    ensures failures { Accounts result [] }
{
    match sdp {
        None => Ok(None),
        Some(said) => match begin_by(alloc, asked, ssrc, said) {
            Ok(run) => Ok(Some(run)),
            Err(fault) => Err(fault),
        },
    }
}

/// The stream that was begun, or where none was one by the text of the first file, which may have
/// none.
fn begin_or<A: Allocator + Copy>(
    alloc: A,
    asked: FollowAsked<'_>,
    ssrc: Option<u32>,
    _sdp: Option<&[u8]>,
    given: Option<Run<A>>,
    said: &[u8],
) -> Result<Run<A>, Fault>
    requires frames { IsWindowSize asked.frames }
    requires given { HasBegunIn asked ssrc (option_copied _sdp) given }
    ensures begun { IfOk result
        (λ r. HasBegunRun asked.entry ssrc (text_by (option_copied _sdp.entry) said.now) r) }
    ensures refusal { IfErr result (λ f. OfRefusal f (λ r. MatchOption (option_copied _sdp.entry)
        (IsFirstRefusal said.now r) (λ _. ⊥))) }
    ensures failures { Accounts result [] }
{
    match given {
        Some(run) => Ok(run),
        None => begin_first(alloc, asked, ssrc, said),
    }
}

/// Begins a stream by the text of the first file, which may have none.
fn begin_first<A: Allocator + Copy>(
    alloc: A,
    asked: FollowAsked<'_>,
    ssrc: Option<u32>,
    said: &[u8],
) -> Result<Run<A>, Fault>
    requires { IsWindowSize asked.frames }
    ensures begun { IfOk result (λ r. HasBegunRun asked.entry ssrc said.now r) }
    ensures refusal { IfErr result (λ f. OfRefusal f (IsFirstRefusal said.now)) }
    ensures failures { Accounts result [] }
{
    if said.is_empty() {
        return Err(Fault::Refused(Refusal::ReceiveNoSdp));
    }
    begin_by(alloc, asked, ssrc, said)
}

/// Begins a stream by an SDP text.
fn begin_by<A: Allocator + Copy>(
    alloc: A,
    asked: FollowAsked<'_>,
    ssrc: Option<u32>,
    said: &[u8],
) -> Result<Run<A>, Fault>
    requires { IsWindowSize asked.frames }
    ensures begun { IfOk result (λ r. HasBegunRun asked.entry ssrc said.now r) }
    ensures refusal { IfErr result (λ f. OfRefusal f (IsDescriptionRefusal said.now)) }
    ensures failures { Accounts result [] }
{
    let run = open_run(alloc, asked.frames, ssrc, asked.is_eager, said)?;
    Ok(run)
}

/// Opens files, each as `ways` say, and answers how many octets the first one's text has, which
/// stands at the front of `text` then.
fn open_files<A: Allocator + Copy, S: ByteSource + Drop>(
    alloc: A,
    ways: &[Result<Flows, Refusal>],
    sides: &mut Vec<Side<A, S>, A>,
    text: &mut [u8],
    room: &mut [u8],
) -> Result<usize, Fault>
    requires text { 65535 ≤ length text.old }
    requires room { 65535 ≤ length room.old }
    requires closed { AllClosedSides sides.old.items }
    ensures text { length text.new ≡ length text.old }
    ensures room { length room.new ≡ length room.old }
    ensures len { length sides.new.items ≡ length sides.old.items }
    ensures opened { OnOk result
        (AreOpened S.gave S.ended ways.now sides.old.items sides.new.items) }
    ensures first { IfOk result (λ count. IsFirstText (take count text.new) sides.new.items) }
    ensures few { IfOk result (λ count. count ≤ 65535) }
    ensures refusal { IfErr result (λ f. OfRefusal f
        (StopsFirstFront ways.now (SideRead S.gave S.ended)
        (zip sides.old.items sides.new.items))) }
    ensures failures { Accounts result (counts (failures_each S.failures sides.old.items)
        (failures_each S.failures sides.new.items) ∷ []) }
{
    open_all(alloc, ways, sides.as_mut_slice(), text, room)
}

/// Follows the stream of files that were opened, to their ends.
fn follow_opened<A: Allocator + Copy, S: ByteSource + Drop, P: PictureSink, O: ByteSink>(
    run: &mut Run<A>,
    alloc: A,
    sides: &mut Vec<Side<A, S>, A>,
    seen: &mut [Seen],
    pictures: &mut P,
    output: &mut O,
) -> Result<(), Fault>
    requires run { IsSoundRun run.old }
    requires begun { AllByRecursion IsUnreadSide sides.old.items }
    ensures len { length sides.new.items ≡ length sides.old.items }
    ensures begun { begun_each sides.new.items ≡ begun_each sides.old.items }
    ensures known { AllByRecursion (λ s. HasKnownOctets S.gave S.ended s.file) sides.new.items }
    ensures by_flows { AllByRecursion (λ s. IsReadByFlows s.file) sides.new.items }
    ensures run { OnOk result (IsSoundRun run.new) }
    ensures followed { OnOk result (FollowsEntries S.gave S.ended P.takes run.old run.new
        pictures.old pictures.new (O.took output.old) (O.took output.new) sides.new.items) }
    ensures stopped { IfErr result (λ f. OfRefusal f
        (StopsReadSides S.gave S.ended run.old.steering sides.new.items)) }
    ensures before { IfErr result (λ f. IfRefused f (FollowsUpTo S.gave S.ended run.old
        sides.new.items (TellsEvents P.takes pictures.old pictures.new
        (O.took output.old) (O.took output.new)))) }
    ensures part { OnErr result (FollowsUpTo S.gave S.ended run.old sides.new.items
        (TellsSome P.takes P.fails pictures.old pictures.new
        (O.took output.old) (O.took output.new))) }
    ensures failures { Accounts result (counts (failures_each S.failures sides.old.items)
        (failures_each S.failures sides.new.items)
        ∷ counts (P.failures pictures.old) (P.failures pictures.new)
        ∷ counts (O.failures output.old) (O.failures output.new) ∷ []) }
{
    let taken = mem::replace(sides, Vec::new(alloc));
    let mut source = SideBySide::new(run.steering, taken);
    let followed = follow_sides(&mut source, run, pictures, output);
    source.history();
    *sides = source.into_sides();
    note_all(sides, seen);
    followed
}

/// Notes what was seen of each file.
fn note_all<A: Allocator, S: ByteSource>(sides: &[Side<A, S>], seen: &mut [Seen]) {
    for (place, side) in sides.iter().enumerate() {
        if let ImportFile::Open(reader) = &side.file {
            note_seen(seen, place, reader);
        }
    }
}

/// Lets all frames leave that are in, and tells what became of the stream.
fn end_stream<A: Allocator + Copy, P: PictureSink, O: ByteSink>(
    run: &mut Run<A>,
    pictures: &mut P,
    output: &mut O,
) -> Result<FollowTotals, Fault>
    requires { IsSoundRun run.old }
    ensures ended { IfOk result (λ t. EndsStream P.takes run.old pictures.old pictures.new
        (O.took output.old) (O.took output.new) t) }
    ensures part { OnErr result (EndsSome P.takes P.fails run.old pictures.old pictures.new
        (O.took output.old) (O.took output.new)) }
    ensures unrefused { IfErr result (λ f. IfRefused f ⊥) }
    ensures failures { Accounts result (counts (P.failures pictures.old)
        (P.failures pictures.new)
        ∷ counts (O.failures output.old) (O.failures output.new) ∷ []) }
{
    run.finish(pictures, output)?;
    let totals = tell_totals(run, output)?;
    Ok(totals)
}
