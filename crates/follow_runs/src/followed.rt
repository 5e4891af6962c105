//! `follow` over the devices of this machine.
ghost use Rattle.std.specs.Prelude.{◌≡◌, ◌∷◌, [], Err, IfErr, IfOk, MatchResult, None, OnOk};
ghost use Rattle.std.specs.Prelude.{length};
ghost use Rattle.std.specs.List.{zip};
ghost use Rattle.std.specs.Option.{option_copied};
ghost use Rattle.follow_runs.specs.Followed.{AreNewSides, FollowsFiles, IsFollowOpening};
ghost use Rattle.follow_runs.specs.Followed.{StopsFiles};
ghost use Rattle.capture_runs.specs.Opened.{AreUnread, said_text};
ghost use Rattle.follow_runs.specs.Outputs.{AreApart, AreInPlace, AreLeft, AreUnplaced};
ghost use Rattle.follow_runs.specs.Outputs.{AreUnwritten, SameOutputs, TakesAllOver};
ghost use Rattle.follow_runs.specs.Outputs.{sinks_failures, written_failures};
ghost use Rattle.follow_runs.specs.Pictured.{IsFillGiven};
ghost use Rattle.capture_runs.specs.Replayed.{replayed_ended, replayed_failures, replayed_gave};
ghost use Rattle.devices.specs.Passed.{output_failures, output_took};
ghost use Rattle.follow_engine.specs.Followed.{FollowsWhole, StopsShort};
ghost use Rattle.follow_engine.specs.Refused.{IsFollowRefusal};
ghost use Rattle.follow_engine.specs.Sides.{SideRead};
ghost use Rattle.follow_engine.specs.declared.telling.FollowTotals.{FollowTotals};
ghost use Rattle.recording_engines.specs.Ways.{AreWaysBy};
ghost use Rattle.run_outcome.specs.Fault.{Accounts, IfRefused, counts};
ghost use Rattle.run_outcome.specs.Refusing.{OfRefusal};
ghost use Rattle.run_outcome.specs.declared.fault.Fault.TheVariants.{Refused};
ghost use Rattle.side_by_side.specs.Sides.{failures_each};

use crate::outputs::{FollowOutputs, FollowSinks, outputs_of, sinks_over};
use crate::pictured::fill_said;
use capture_runs::{Files, Replayed, octets, text_of};
use command_end::{Command, Devices, Hints, Ran};
use command_line::FollowWords;
use devices::{Meter, OutputSink, Reading, Stream};
use follow_engine::{FollowAsked, check_words, follow_files};
use frame_sinks::Filling;
use recording_engines::FlowWords;
use run_outcome::Fault;
use side_by_side::Side;
use std::alloc::{AllocError, Global};

/// A file of `follow`, of this machine and in global memory.
type FollowFile<'a> = Side<Global, Replayed<'a>>;

/// Follows the stream of captures and recordings.
#[derive(Drop)]
pub struct FollowCommand<'a> {
    rt: &'a HostRuntime,
    pub asked: FollowAsked<'a>,
    pub flows: FlowWords<'a>,
    /// How samples without a value are filled, and the text of the fill, where one is given.
    pub filling: Filling,
    pub fill: Option<&'a [u8]>,
    /// The values of the fill, where its text is given; or that the words are refused, a file can't
    /// be written, or the SDP not be read.
    pub opened: Result<Option<[u16; 3]>, Fault>,
    /// The SDP, and by which flows each file is taken that is a recording.
    pub files: Files<'a>,
    pub sides: Vec<FollowFile<'a>>,
    /// The pictures' stream, the report and the directory of pictures, those that are named.
    pub outputs: FollowOutputs<'a>,
    /// Whether one of them is one of the files that are read.
    pub is_input: bool,
    pub output: OutputSink<Stream>,
}

impl<'a> FollowCommand<'a> {
    /// The command of these words, of which nothing is done yet but that the SDP is read; or that
    /// there is no memory for its list of files. A meter is told how much is read.
    pub fn new(
        rt: &'a HostRuntime,
        words: &'a FollowWords<'a>,
        meter: &Meter,
    ) -> Result<Self, AllocError>
        ensures { IfOk result ⟦<FollowCommand<'a> as Command>⟧.is_new }
    {
        let asked = asked(words);
        let flows = FlowWords {
            a: octets(words.a),
            b: octets(words.b),
        };
        let sides = closed_sides(rt, words.recordings.as_slice(), meter)?;
        let fill = octets(words.fill);
        let mut outputs = FollowOutputs::new(rt, words);
        let is_input = outputs.are_read(rt, words);
        let mut files = Files::new(rt, meter);
        let opened = open(
            rt,
            asked,
            fill,
            &mut outputs,
            is_input,
            flows,
            words.sdp,
            sides.len(),
            &mut files,
        );
        Ok(FollowCommand {
            rt,
            asked,
            flows,
            filling: filling(words),
            fill,
            opened,
            files,
            sides,
            outputs,
            is_input,
            output: OutputSink::beside(rt, beside(words)).metered(meter),
        })
    }
}

impl FollowCommand<'_> {
    /// Follows, where nothing is refused yet.
    fn follow_opened(&mut self) -> Result<(), Fault>
        requires new { AreNewSides self.old.sides.items }
        requires unplaced { AreUnplaced self.old.outputs }
        ensures done { OnOk result (IfOk self.old.opened (λ values. FollowsFiles self.old.asked
            (said_text self.old.files.said) self.old.files.ways.items
            (zip self.old.sides.items self.new.sides.items) self.old.filling values
            self.old.outputs self.new.outputs
            (output_took self.old.output) (output_took self.new.output))) }
        ensures unplaced { AreUnplaced self.new.outputs }
        ensures refusal { IfErr result (λ f. OfRefusal f (λ r. MatchResult self.old.opened
            (λ values. IsFollowRefusal self.old.asked.frames self.old.asked.ssrc.now
            (said_text self.old.files.said) self.old.files.ways.items
            (SideRead replayed_gave replayed_ended)
            (zip self.old.sides.items self.new.sides.items) r
            × StopsFiles self.old.asked (said_text self.old.files.said) self.old.files.ways.items
            (zip self.old.sides.items self.new.sides.items) self.old.filling values
            self.old.outputs self.new.outputs
            (output_took self.old.output) (output_took self.new.output))
            (λ g. (g ≡ Refused r) × (self.new.outputs ≡ self.old.outputs)
            × (output_took self.new.output ≡ output_took self.old.output)))) }
        ensures owed { MatchResult self.old.opened (λ _. Accounts result
            (counts (failures_each replayed_failures self.old.sides.items)
            (failures_each replayed_failures self.new.sides.items)
            ∷ counts (written_failures self.old.outputs) (written_failures self.new.outputs)
            ∷ counts (output_failures self.old.output) (output_failures self.new.output) ∷ []))
            (λ f. result ≡ Err f) }
    {
        match self.opened {
            Ok(values) => follow_into(
                self.rt,
                self.asked,
                self.filling,
                values,
                &mut self.files,
                &mut self.sides,
                &mut self.outputs,
                &mut self.output,
            ),
            Err(fault) => Err(fault),
        }
    }
}

/// How samples without a value are filled.
fn filling(words: &FollowWords<'_>) -> Filling {
    if words.is_held {
        Filling::Hold
    } else {
        Filling::Fill
    }
}

/// The name beside which lines are printed: of a file that is standard output, where one is.
fn beside<'a>(words: &FollowWords<'a>) -> &'a str {
    match words.report {
        Some("-") => "-",
        _ => words.out.unwrap_or(""),
    }
}

fn asked<'a>(words: &'a FollowWords<'a>) -> FollowAsked<'a> {
    FollowAsked {
        frames: words.window as usize,
        ssrc: words.ssrc.as_bytes(),
        is_eager: words.is_eager,
    }
}

/// The files of these names, none of which is looked at yet.
fn closed_sides<'a>(
    rt: &'a HostRuntime,
    names: &[&'a str],
    meter: &Meter,
) -> Result<Vec<FollowFile<'a>>, AllocError>
    ensures { IfOk result (λ sides. AreNewSides sides.items) }
{
    let mut sides = Vec::new(rt.alloc());
    for name in names {
        sides.push(Side::closed(Replayed::once(rt, name, meter)))?;
    }
    Ok(sides)
}

/// Looks at the words, and at the places of the files that are written, reads the SDP where one is
/// named, and finds by which flows each of so many files is taken that is a recording. No such file
/// is looked at yet. It answers the values of the fill, where its text is given.
fn open<'a>(
    rt: &'a HostRuntime,
    asked: FollowAsked<'_>,
    fill: Option<&[u8]>,
    outputs: &mut FollowOutputs<'_>,
    is_input: bool,
    flows: FlowWords<'_>,
    sdp: Option<&'a str>,
    count: usize,
    files: &mut Files<'a>,
) -> Result<Option<[u16; 3]>, Fault>
    requires unread { AreUnread files.old }
    requires none { files.old.sdp ≡ None }
    requires unwritten { AreUnwritten outputs.old }
    ensures unread { AreUnread files.new }
    ensures unwritten { AreUnwritten outputs.new }
    ensures given { IfOk result (λ values. IsFillGiven (option_copied fill.entry) values) }
    ensures apart { OnOk result (AreApart outputs.new is_input) }
    ensures ways { OnOk result (AreWaysBy (option_copied flows.entry.a)
        (option_copied flows.entry.b) (said_text files.new.said) count files.new.ways.items) }
    ensures refusal { IfErr result (λ f. OfRefusal f (IsFollowOpening asked.entry
        (option_copied fill.entry) outputs.new is_input (option_copied flows.entry.a)
        (option_copied flows.entry.b) files.new)) }
{
    check_words(asked)?;
    let values = fill_said(fill)?;
    outputs.find(is_input)?;
    files.read_sdp(rt, sdp)?;
    files.find_ways(rt, flows, count)?;
    Ok(values)
}

/// Follows, and writes of the frames what there is a file for.
fn follow_into<'a>(
    rt: &HostRuntime,
    asked: FollowAsked<'_>,
    filling: Filling,
    fill: Option<[u16; 3]>,
    files: &mut Files<'_>,
    sides: &mut Vec<FollowFile<'_>>,
    outputs: &mut FollowOutputs<'a>,
    output: &mut OutputSink<Stream>,
) -> Result<(), Fault>
    requires new { AreNewSides sides.old.items }
    requires unplaced { AreUnplaced outputs.old }
    ensures followed { OnOk result (FollowsFiles asked.entry (said_text files.old.said)
        files.old.ways.items (zip sides.old.items sides.new.items) filling fill outputs.old
        outputs.new (output_took output.old) (output_took output.new)) }
    ensures unplaced { AreUnplaced outputs.new }
    ensures refusal { IfErr result (λ f. OfRefusal f (IsFollowRefusal asked.entry.frames
        asked.entry.ssrc.now (said_text files.old.said) files.old.ways.items
        (SideRead replayed_gave replayed_ended) (zip sides.old.items sides.new.items))) }
    ensures before { IfErr result (λ f. IfRefused f (StopsFiles asked.entry
        (said_text files.old.said) files.old.ways.items (zip sides.old.items sides.new.items)
        filling fill outputs.old outputs.new (output_took output.old) (output_took output.new))) }
    ensures owed { Accounts result (counts (failures_each replayed_failures sides.old.items)
        (failures_each replayed_failures sides.new.items)
        ∷ counts (written_failures outputs.old) (written_failures outputs.new)
        ∷ counts (output_failures output.old) (output_failures output.new) ∷ []) }
{
    let taken = outputs.take();
    let mut sinks = sinks_over(rt, filling, fill, taken);
    let followed = follow(rt, asked, files, sides, &mut sinks, output);
    *outputs = outputs_of(sinks);
    followed
}

/// Follows, and shows the frames to sinks, those of them that there are.
fn follow(
    rt: &HostRuntime,
    asked: FollowAsked<'_>,
    files: &mut Files<'_>,
    sides: &mut Vec<FollowFile<'_>>,
    sinks: &mut FollowSinks<'_>,
    output: &mut OutputSink<Stream>,
) -> Result<(), Fault>
    requires { AreNewSides sides.old.items }
    ensures followed { OnOk result ((totals : FollowTotals) × FollowsWhole asked.entry
        (said_text files.old.said) files.old.ways.items (SideRead replayed_gave replayed_ended)
        (zip sides.old.items sides.new.items) TakesAllOver
        sinks.old sinks.new (output_took output.old) (output_took output.new) totals) }
    ensures refusal { IfErr result (λ f. OfRefusal f (IsFollowRefusal asked.entry.frames
        asked.entry.ssrc.now (said_text files.old.said) files.old.ways.items
        (SideRead replayed_gave replayed_ended) (zip sides.old.items sides.new.items))) }
    ensures before { IfErr result (λ f. IfRefused f (StopsShort asked.entry
        (said_text files.old.said) files.old.ways.items (SideRead replayed_gave replayed_ended)
        (zip sides.old.items sides.new.items) TakesAllOver
        sinks.old sinks.new (output_took output.old) (output_took output.new))) }
    ensures owed { Accounts result (counts (failures_each replayed_failures sides.old.items)
        (failures_each replayed_failures sides.new.items)
        ∷ counts (sinks_failures sinks.old) (sinks_failures sinks.new)
        ∷ counts (output_failures output.old) (output_failures output.new) ∷ []) }
{
    follow_files(
        rt.alloc(),
        asked,
        text_of(&files.said),
        sides,
        files.ways.as_slice(),
        files.seen.as_mut_slice(),
        sinks,
        output,
    )?;
    Ok(())
}

/// Where the reading of the last of these files stands that was begun, if one was.
fn last_begun<'a>(sides: &[FollowFile<'a>]) -> Option<Reading<'a>> {
    let mut last = None;
    for side in sides {
        last = begun(side).or(last);
    }
    last
}

/// Where the reading of a file stands, if it began.
fn begun<'a>(side: &FollowFile<'a>) -> Option<Reading<'a>> {
    match side.source() {
        Some(source) => source.begun(),
        None => None,
    }
}

impl<'a> Command for FollowCommand<'a> {
    // (the SDP was read, which the flows of recordings wait for)
    ghost is_new = { λ c. AreUnread c.files × AreNewSides c.sides.items
        × AreUnwritten c.outputs × (output_took c.output ≡ [])
        × IfOk c.opened (λ values. IsFillGiven (option_copied c.fill) values)
        × OnOk c.opened (AreApart c.outputs c.is_input)
        × OnOk c.opened (AreWaysBy (option_copied c.flows.a) (option_copied c.flows.b)
        (said_text c.files.said) (length c.sides.items) c.files.ways.items)
        × IfErr c.opened (λ f. OfRefusal f (IsFollowOpening c.asked (option_copied c.fill)
        c.outputs c.is_input (option_copied c.flows.a) (option_copied c.flows.b) c.files)) };

    // What is printed is a line for each frame that leaves a follower, of all records of the
    // captures and recordings that were read as they go side by side, of recordings by their flows;
    // and the totals of it. What is written, where files are named for it, is the stream of the
    // pictures of these frames, filled or held as the words say, what a report has of them, and
    // each picture as a file of its own.
    ghost does = { λ old new. IfOk old.opened (λ values. FollowsFiles old.asked
        (said_text old.files.said) old.files.ways.items (zip old.sides.items new.sides.items)
        old.filling values old.outputs new.outputs
        (output_took old.output) (output_took new.output)) };

    // A refusal of the words, of a file that is to be written, of the SDP or of the words for
    // flows, where nothing is printed or written; or else one of what was read, behind all that is
    // printed and written of the frames that left before.
    ghost is_refused = { λ old new r. MatchResult old.opened (λ values. IsFollowRefusal
        old.asked.frames old.asked.ssrc.now (said_text old.files.said) old.files.ways.items
        (SideRead replayed_gave replayed_ended) (zip old.sides.items new.sides.items) r
        × StopsFiles old.asked (said_text old.files.said) old.files.ways.items
        (zip old.sides.items new.sides.items) old.filling values old.outputs new.outputs
        (output_took old.output) (output_took new.output))
        (λ f. (f ≡ Refused r) × SameOutputs old.outputs new.outputs
        × (output_took new.output ≡ output_took old.output)) };

    ghost is_placed = { λ c. AreInPlace c.outputs };

    ghost is_unplaced = { λ c. AreLeft c.outputs };

    // (where it could not begin, it came to what stopped it)
    ghost owes = { λ old new outcome. MatchResult old.opened (λ _. Accounts outcome
        (counts (failures_each replayed_failures old.sides.items)
        (failures_each replayed_failures new.sides.items)
        ∷ counts (written_failures old.outputs) (written_failures new.outputs)
        ∷ counts (output_failures old.output) (output_failures new.output) ∷ []))
        (λ f. outcome ≡ Err f) };

    fn run(&mut self) -> Ran {
        let outcome = self.follow_opened();
        self.output.clear();
        Ran {
            outcome,
            is_whole: self.outputs.settle(outcome.is_ok()),
        }
    }

    fn devices(&self) -> Devices<'_> {
        Devices {
            sdp: self.files.sdp_reading(),
            read: last_begun(self.sides.as_slice()),
            written: self.outputs.writing(),
            output: self.output.writing(),
            kept: None,
            hints: Hints {
                takes_recordings: true,
                ..Hints::none()
            },
        }
    }
}
