//! What a stream is followed with: the words, the SDP and the files that are opened.
ghost use Rattle.std.specs.Prelude.{◌≡◌, ◌≤◌, ◌∷◌, [], ℕ, IfErr, IfOk, List, OnOk, length, take};
ghost use Rattle.std.specs.List.{zip};
ghost use Rattle.capture_engines.specs.Files.{flows_in};
ghost use Rattle.capture_engines.specs.Received.{StopsFront};
ghost use Rattle.follow_engine.specs.Fronts.{StopsFirstFront};
ghost use Rattle.follow_engine.specs.Opened.{AllClosedSides, AreOpened, IsFirstText, OpensRun};
ghost use Rattle.follow_engine.specs.Refused.{AskForFrames, IsBehindFrames, IsFollowWordRefusal};
ghost use Rattle.follow_engine.specs.Running.{IsSoundRun, running_of};
ghost use Rattle.follow_engine.specs.Sides.{SideRead};
ghost use Rattle.path_receiver.specs.Opening.{IsWindowSize};
ghost use Rattle.recording_engines.specs.Files.{HasKnownOctets, IsClosed, IsReadByFlows, ended_by};
ghost use Rattle.recording_engines.specs.Files.{failures_by, gave_by};
ghost use Rattle.recording_reader.specs.Opening.{CountsOpening, IsByFlows, StopsOpening};
ghost use Rattle.run_outcome.specs.Fault.{Accounts, Blames, counts};
ghost use Rattle.run_outcome.specs.Refusing.{OfRefusal};
ghost use Rattle.run_outcome.specs.Sources.{IsSourceText};
ghost use Rattle.run_outcome.specs.TextRefusals.{IsDescriptionRefusal};
ghost use Rattle.side_by_side.specs.Side.{IsNewSide};
ghost use Rattle.side_by_side.specs.Sides.{failures_each};
ghost use Rattle.st_format.specs.History.{IsRead};

use crate::running::Run;
use capture_engines::{Way, unopened};
use flow::Flows;
use path_receiver::{MOST_TIMESTAMPS, OpenFault};
use recording_engines::{ImportFile, know};
use recording_reader::FileOpeningFault;
use run_outcome::{Fault, Refusal, read_source};
use sdp_format::read_located;
use side_by_side::Side;
use st_format::ByteSource;
use std::alloc::Allocator;

/// What `follow` is asked for, beside its files.
#[derive(Clone, Copy)]
pub struct FollowAsked<'a> {
    /// How many frames are in at most: 1 to 16, or it is refused.
    pub frames: usize,
    /// The number of the one source to take datagrams of, or `any`.
    pub ssrc: &'a [u8],
    /// Whether a frame leaves as soon as it is the oldest and nothing of it is missing.
    pub is_eager: bool,
}

/// Refuses the words that a stream is followed by, where they are none. No file is looked at.
///
/// # Errors
///
/// `Open(BadWindow)` where there are to be no frames, or more than 16; else `ReceiveSource` where
/// the source is neither a number nor `any`.
pub fn check_words(asked: FollowAsked<'_>) -> Result<(), Fault>
    ensures words { OnOk result (AskForFrames asked.entry.frames asked.entry.ssrc.now) }
    ensures refusal { IfErr result (λ f. OfRefusal f (IsFollowWordRefusal asked.entry.frames
        asked.entry.ssrc.now)) }
    ensures first { IfErr result (λ f. OfRefusal f (IsBehindFrames asked.entry.frames)) }
    ensures failures { Accounts result [] }
{
    let _ssrc = read_words(asked)?;
    Ok(())
}

/// The source that is asked for, if one is.
pub(crate) fn read_words(asked: FollowAsked<'_>) -> Result<Option<u32>, Fault>
    ensures frames { OnOk result (IsWindowSize asked.entry.frames) }
    ensures source { IfOk result (λ ssrc. IsSourceText asked.entry.ssrc.now ssrc) }
    ensures refusal { IfErr result (λ f. OfRefusal f (IsFollowWordRefusal asked.entry.frames
        asked.entry.ssrc.now)) }
    ensures first { IfErr result (λ f. OfRefusal f (IsBehindFrames asked.entry.frames)) }
    ensures failures { Accounts result [] }
{
    if asked.frames == 0 || asked.frames > MOST_TIMESTAMPS {
        return Err(Fault::Refused(Refusal::Open(OpenFault::BadWindow)));
    }
    match read_source(asked.ssrc) {
        Some(ssrc) => Ok(ssrc),
        None => Err(Fault::Refused(Refusal::ReceiveSource)),
    }
}

/// A stream of what an SDP text says, of which nothing came yet.
pub(crate) fn open_run<A: Allocator + Copy>(
    alloc: A,
    frames: usize,
    ssrc: Option<u32>,
    is_eager: bool,
    said: &[u8],
) -> Result<Run<A>, Fault>
    requires { IsWindowSize frames }
    ensures run { IfOk result (λ r. IsSoundRun r) }
    ensures eager { IfOk result (λ r. r.is_eager ≡ is_eager) }
    ensures opened { IfOk result (λ r. OpensRun frames ssrc said.now (running_of r)) }
    ensures refusal { IfErr result (λ f. OfRefusal f (IsDescriptionRefusal said.now)) }
    ensures failures { Accounts result [] }
{
    let sdp = read_located(alloc, said)?;
    match Run::open(alloc, sdp.format, sdp.payload_type, ssrc, frames, is_eager) {
        Ok(run) => Ok(run),
        // (the number of frames is one, so memory was wanted)
        Err(_) => Err(Fault::Memory),
    }
}

/// Opens files, each as `ways` say, and answers how many octets the first one's text has, which
/// stands at the front of `text` then. `text` and `room` have room for a text.
pub(crate) fn open_all<A: Allocator + Copy, S: ByteSource + Drop>(
    alloc: A,
    ways: &[Result<Flows, Refusal>],
    sides: &mut [Side<A, S>],
    text: &mut [u8],
    room: &mut [u8],
) -> Result<usize, Fault>
    requires text { 65535 ≤ length text.old }
    requires room { 65535 ≤ length room.old }
    requires closed { AllClosedSides sides.old }
    ensures text { length text.new ≡ length text.old }
    ensures room { length room.new ≡ length room.old }
    ensures len { length sides.new ≡ length sides.old }
    ensures opened { OnOk result (AreOpened S.gave S.ended ways.now sides.old sides.new) }
    ensures first { IfOk result (λ count. IsFirstText (take count text.new) sides.new) }
    ensures few { IfOk result (λ count. count ≤ 65535) }
    ensures refusal { IfErr result (λ f. OfRefusal f
        (StopsFirstFront ways.now (SideRead S.gave S.ended) (zip sides.old sides.new))) }
    ensures failures { Accounts result (counts (failures_each S.failures sides.old)
        (failures_each S.failures sides.new) ∷ []) }
{
    if sides.is_empty() {
        return Ok(0);
    }
    let first = Way::at(ways, 0);
    let count = open_side(alloc, first, &mut sides[0], text)?;
    for place in 1..sides.len() {
        let way = Way::at(ways, place);
        open_side(alloc, way, &mut sides[place], room)?;
    }
    Ok(count)
}

/// Opens a file that is taken so, and answers how many octets its text has, which stands at the
/// front of `text` then.
fn open_side<A: Allocator, S: ByteSource + Drop>(
    alloc: A,
    way: Way,
    side: &mut Side<A, S>,
    text: &mut [u8],
) -> Result<usize, Fault>
    requires text { 65535 ≤ length text.old }
    requires closed { IsClosed side.old.file }
    ensures text { length text.new ≡ length text.old }
    ensures opened { IfOk result (λ count. IsNewSide (flows_in way) (gave_by S.gave side.old.file)
        (take count text.new) side.new) }
    ensures known { OnOk result (HasKnownOctets S.gave S.ended side.new.file) }
    ensures by_flows { OnOk result (IsReadByFlows side.new.file) }
    ensures few { IfOk result (λ count. count ≤ 65535) }
    ensures refusal { IfErr result (λ f. OfRefusal f (StopsFront way (IsRead
        (gave_by S.gave side.old.file) (gave_by S.gave side.new.file)
        (ended_by S.ended side.new.file)))) }
    ensures failures { Accounts result (counts (failures_by S.failures side.old.file)
        (failures_by S.failures side.new.file) ∷ []) }
{
    match side.open(alloc, way.flows(), text) {
        Ok(count) => {
            know(&side.file);
            Ok(count)
        }
        Err(fault) => Err(unopened_file(way, fault, &mut side.file)),
    }
}

/// The fault by which a file was not opened that is taken so.
fn unopened_file<A: Allocator, S: ByteSource>(
    way: Way,
    fault: FileOpeningFault,
    file: &mut ImportFile<A, S>,
) -> Fault
    requires { IsClosed file.old }
    ensures refusal { (before : List ℕ)
        → StopsOpening (flows_in way) before (gave_by S.gave file.old) (ended_by S.ended file.old)
        fault → IsByFlows (flows_in way) fault → OfRefusal result (StopsFront way
        (IsRead before (gave_by S.gave file.new) (ended_by S.ended file.new))) }
    ensures failures { (failed : ℕ)
        → CountsOpening fault failed (failures_by S.failures file.old)
        → Blames (counts failed (failures_by S.failures file.new) ∷ []) result }
{
    match file {
        ImportFile::Closed(source) => unopened(way, fault, source),
        ImportFile::Open(_) => Fault::Device,
        ImportFile::Taken => Fault::Device,
    }
}
