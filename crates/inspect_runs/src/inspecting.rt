//! `inspect` over the devices of this machine.
ghost use Rattle.std.specs.Prelude.{◌≡◌, ◌⊎◌, [], Err, IfErr, IfOk, MatchResult, OnOk, is_some};
ghost use Rattle.std.specs.Prelude.{length, vec_len, ◌||◌};
ghost use Rattle.std.specs.Option.{option_copied};
ghost use Rattle.inspect_runs.specs.Inspected.{AccountsAim, AccountsRead, AreFresh, CountFiles};
ghost use Rattle.inspect_runs.specs.Inspected.{IsAim, IsAimRefusal, IsFlowsRefusal, IsSeen};
ghost use Rattle.inspect_runs.specs.Inspected.{IsSetRefusal, IsToldStreamRefusal, TakesByWays};
ghost use Rattle.inspect_runs.specs.Inspected.{TellsAim, TellsFlows, TellsStream, flow_form};
ghost use Rattle.inspect_runs.specs.Inspected.{stream_form};
ghost use Rattle.capture_runs.specs.Opened.{AreUnread, said_text};
ghost use Rattle.capture_runs.specs.Refused.{IsFlowRefusal, IsTooLongSdp};
ghost use Rattle.devices.specs.Passed.{output_failures, output_took};
ghost use Rattle.recording_engines.specs.Ways.{AreWaysBy};
ghost use Rattle.run_outcome.specs.Fault.{counts};
ghost use Rattle.run_outcome.specs.Refusing.{OfRefusal};
ghost use Rattle.run_outcome.specs.declared.fault.Fault.TheVariants.{Refused};

use crate::aim::{Aim, Inspected};
use capture_engines::Seen;
use capture_runs::{Files, Replayed, files_of, fresh_files, last_begun, look_at, octets, text_of};
use command_end::{Command, Devices, Hints, Ran};
use command_line::InspectWords;
use devices::{Meter, OutputSink};
use inspect_engine::Form as FlowForm;
use recording_engines::FlowWords;
use run_outcome::{Fault, LineFault};
use st_format::FormatFault;
use std::io::Stdout;
use std::snapshot::Snapshot;
use stream_inspection::{Form as StreamForm, Target, Wanted, inspect_streams};

/// What the words of `inspect` ask for: which stream, where one is asked for, and of which files.
#[derive(Clone, Copy)]
pub struct InspectAsked<'a> {
    /// The format and the payload type that are given, or why there is no such format.
    pub target: Option<Result<Target, FormatFault>>,
    /// The SDP's file, where one is named.
    pub sdp: Option<&'a str>,
    /// The flows of recordings of other tools.
    pub flows: FlowWords<'a>,
    /// The names of the captures' and recordings' files, in the order in which they are read.
    pub recordings: &'a [&'a str],
    /// Whether it is told as objects of JSON.
    pub is_json: bool,
}

impl InspectAsked<'_> {
    /// Whether words but a format name a stream: an SDP, or a flow.
    fn names_stream(&self) -> bool
        ensures { result ≡ (is_some self.now.sdp
            || (is_some self.now.flows.a || is_some self.now.flows.b)) }
    {
        self.sdp.is_some() || self.flows.a.is_some() || self.flows.b.is_some()
    }
}

/// Tells which flows recordings have, or what came of a stream in captures and recordings.
#[derive(Drop)]
pub struct InspectCommand<'a> {
    rt: &'a HostRuntime,
    pub asked: InspectAsked<'a>,
    /// What is told, or why no file is read.
    pub opened: Result<Aim, Fault>,
    pub files: Inspected<'a>,
    pub output: OutputSink<Stdout>,
}

impl<'a> InspectCommand<'a> {
    /// The command of these words, and of a format where one is given, of which nothing is done yet
    /// but that the SDP is read, and files looked at for captures where nothing else says a stream.
    /// A meter is told how much is read.
    pub fn new(
        rt: &'a HostRuntime,
        words: &'a InspectWords<'a>,
        target: Option<Result<Target, FormatFault>>,
        meter: &Meter,
    ) -> Self
        ensures { ⟦<InspectCommand<'a> as Command>⟧.is_new result }
    {
        let asked = InspectAsked {
            target,
            sdp: words.sdp,
            flows: FlowWords {
                a: octets(words.a),
                b: octets(words.b),
            },
            recordings: words.recordings.as_slice(),
            is_json: words.is_json,
        };
        let mut files = nothing_read(rt, meter);
        let opened = open(rt, asked, &mut files);
        InspectCommand {
            rt,
            asked,
            opened,
            files,
            output: OutputSink::new(rt.stdout()).metered(meter),
        }
    }

    /// What was seen of the packets of the recordings of which a stream was told. It is for a
    /// person.
    pub fn seen(&self) -> Seen {
        self.files.streams.seen()
    }
}

fn nothing_read<'a>(rt: &HostRuntime, meter: &Meter) -> Inspected<'a>
    ensures { AreFresh result }
{
    let none = Vec::new(rt.alloc());
    Inspected {
        looked: Snapshot::of(&none),
        flows: none,
        streams: Files::new(rt, meter),
    }
}

/// Finds what is told, and opens what is read for that.
fn open<'a>(
    rt: &'a HostRuntime,
    asked: InspectAsked<'a>,
    files: &mut Inspected<'a>,
) -> Result<Aim, Fault>
    requires { AreFresh files.old }
    ensures fresh { AreFresh files.new }
    ensures aim { IfOk result (IsAim asked.entry.target (is_some asked.entry.sdp
        || (is_some asked.entry.flows.a || is_some asked.entry.flows.b))
        files.new.looked.value.items) }
    ensures each { IfOk result (CountFiles (length asked.entry.recordings.now) files.new) }
    ensures ways { IfOk result (TakesByWays (option_copied asked.entry.flows.a)
        (option_copied asked.entry.flows.b) (length asked.entry.recordings.now) files.new) }
    ensures refusal { IfErr result (λ f. OfRefusal f (IsSetRefusal asked.entry.target
        (option_copied asked.entry.flows.a) (option_copied asked.entry.flows.b) files.new)) }
{
    match asked.target {
        Some(Ok(target)) => open_named(rt, asked, Wanted::Given(target), files),
        Some(Err(fault)) => Err(LineFault::Format(fault).refused_at(1)),
        None if asked.names_stream() => open_named(rt, asked, Wanted::Said, files),
        None => open_looked(rt, asked, files),
    }
}

/// Opens the files for a stream that words name.
fn open_named<'a>(
    rt: &'a HostRuntime,
    asked: InspectAsked<'a>,
    wanted: Wanted,
    files: &mut Inspected<'a>,
) -> Result<Aim, Fault>
    requires { AreFresh files.old }
    ensures fresh { AreFresh files.new }
    ensures aim { IfOk result (λ aim. aim ≡ Aim.Streams wanted) }
    ensures each { IfOk result (CountFiles (length asked.entry.recordings.now) files.new) }
    ensures ways { IfOk result (TakesByWays (option_copied asked.entry.flows.a)
        (option_copied asked.entry.flows.b) (length asked.entry.recordings.now) files.new) }
    ensures refusal { IfErr result (λ f. OfRefusal f (λ r. IsTooLongSdp files.new.streams.sdp r
        ⊎ IsFlowRefusal (option_copied asked.entry.flows.a)
        (option_copied asked.entry.flows.b) r)) }
{
    let recordings = files_of(rt, asked.recordings, false, &files.streams.meter)?;
    open_streams(rt, asked, recordings, &mut files.streams)?;
    Ok(Aim::Streams(wanted))
}

/// Looks whether a file is a capture, and opens the files for the stream that its text says, or for
/// flows.
fn open_looked<'a>(
    rt: &'a HostRuntime,
    asked: InspectAsked<'a>,
    files: &mut Inspected<'a>,
) -> Result<Aim, Fault>
    requires { AreFresh files.old }
    ensures fresh { AreFresh files.new }
    ensures aim { IfOk result (IsSeen files.new.looked.value.items) }
    ensures each { IfOk result (CountFiles (length asked.entry.recordings.now) files.new) }
    ensures ways { IfOk result (TakesByWays (option_copied asked.entry.flows.a)
        (option_copied asked.entry.flows.b) (length asked.entry.recordings.now) files.new) }
    ensures refusal { IfErr result (λ f. OfRefusal f (λ r. IsTooLongSdp files.new.streams.sdp r
        ⊎ IsFlowRefusal (option_copied asked.entry.flows.a)
        (option_copied asked.entry.flows.b) r)) }
{
    let looked = look_at(rt, asked.recordings, &files.streams.meter)?;
    files.looked = Snapshot::of(&looked.files);
    if looked.have_capture {
        open_streams(rt, asked, looked.files, &mut files.streams)?;
        return Ok(Aim::Streams(Wanted::Said));
    }
    files.flows = fresh_files(rt, looked.files)?;
    Ok(Aim::Flows)
}

/// Reads the SDP where one is named, and opens files from their fronts.
fn open_streams<'a>(
    rt: &'a HostRuntime,
    asked: InspectAsked<'a>,
    recordings: Vec<Replayed<'a>>,
    files: &mut Files<'a>,
) -> Result<(), Fault>
    requires { AreUnread files.old }
    ensures unread { AreUnread files.new }
    ensures each { OnOk result (vec_len files.new.recordings ≡ vec_len recordings.entry) }
    ensures ways { OnOk result (AreWaysBy (option_copied asked.entry.flows.a)
        (option_copied asked.entry.flows.b) (said_text files.new.said)
        (length asked.entry.recordings.now) files.new.ways.items) }
    ensures refusal { IfErr result (λ f. OfRefusal f (λ r. IsTooLongSdp files.new.sdp r
        ⊎ IsFlowRefusal (option_copied asked.entry.flows.a)
        (option_copied asked.entry.flows.b) r)) }
{
    files.read_sdp(rt, asked.sdp)?;
    files.find_ways(rt, asked.flows, asked.recordings.len())?;
    files.recordings = fresh_files(rt, recordings)?;
    Ok(())
}

fn form_of_flows(is_json: bool) -> FlowForm
    ensures { result ≡ flow_form is_json }
{
    if is_json {
        FlowForm::Json
    } else {
        FlowForm::Lines
    }
}

fn form_of_streams(is_json: bool) -> StreamForm
    ensures { result ≡ stream_form is_json }
{
    if is_json {
        StreamForm::Json
    } else {
        StreamForm::Columns
    }
}

fn tell_flows(
    rt: &HostRuntime,
    is_json: bool,
    recordings: &mut Vec<Replayed<'_>>,
    output: &mut OutputSink<Stdout>,
) -> Result<(), Fault>
    ensures told { OnOk result (TellsFlows is_json recordings.old.items recordings.new.items
        (output_took output.old) (output_took output.new)) }
    ensures refusal { IfErr result (λ f. OfRefusal f (IsFlowsRefusal is_json recordings.old.items
        recordings.new.items (output_took output.old) (output_took output.new))) }
    ensures owed { AccountsRead recordings.old.items recordings.new.items
        (counts (output_failures output.old) (output_failures output.new)) result }
{
    let form = form_of_flows(is_json);
    let told = inspect_engine::inspect(rt.alloc(), recordings.as_mut_slice(), form, output);
    output.clear();
    told
}

fn tell_stream(
    rt: &HostRuntime,
    wanted: Wanted,
    is_json: bool,
    files: &mut Files<'_>,
    output: &mut OutputSink<Stdout>,
) -> Result<(), Fault>
    ensures told { OnOk result (TellsStream wanted is_json files.old files.new
        (output_took output.old) (output_took output.new)) }
    ensures refusal { IfErr result (λ f. OfRefusal f (λ r. IsToldStreamRefusal wanted is_json
        files.old files.new (output_took output.old) (output_took output.new) r)) }
    ensures owed { AccountsRead files.old.recordings.items files.new.recordings.items
        (counts (output_failures output.old) (output_failures output.new)) result }
{
    let form = form_of_streams(is_json);
    let told = inspect_streams(
        rt.alloc(),
        wanted,
        form,
        text_of(&files.said),
        files.recordings.as_mut_slice(),
        files.ways.as_slice(),
        files.seen.as_mut_slice(),
        output,
    );
    output.clear();
    told
}

impl InspectCommand<'_> {
    /// What tells more of a fault.
    fn hints(&self) -> Hints {
        Hints {
            takes_recordings: !matches!(self.opened, Ok(Aim::Flows)),
            has_format: self.asked.target.is_some(),
            ..Hints::none()
        }
    }
}

impl<'a> Command for InspectCommand<'a> {
    // (what is told was found, and the SDP read, which the flows of recordings wait for)
    ghost is_new = { λ c. AreFresh c.files × (output_took c.output ≡ [])
        × IfOk c.opened (IsAim c.asked.target (is_some c.asked.sdp
        || (is_some c.asked.flows.a || is_some c.asked.flows.b)) c.files.looked.value.items)
        × IfOk c.opened (CountFiles (length c.asked.recordings.now) c.files)
        × IfOk c.opened (TakesByWays (option_copied c.asked.flows.a)
        (option_copied c.asked.flows.b) (length c.asked.recordings.now) c.files)
        × IfErr c.opened (λ f. OfRefusal f (IsSetRefusal c.asked.target
        (option_copied c.asked.flows.a) (option_copied c.asked.flows.b) c.files)) };

    // What is printed are the flows of the recordings that were read; or what came of a stream in
    // the captures and recordings that were read.
    ghost does = { λ old new. MatchResult old.opened (λ aim. TellsAim aim old.asked.is_json
        old.files new.files (output_took old.output) (output_took new.output)) (λ f. ⊥) };

    // A refusal before files were read, or one of what was read.
    ghost is_refused = { λ old new r. MatchResult old.opened (λ aim. IsAimRefusal aim
        old.asked.is_json old.files new.files (output_took old.output) (output_took new.output) r)
        (λ f. f ≡ Refused r) };

    // (where it could not begin, it came to what stopped it)
    ghost owes = { λ old new outcome. MatchResult old.opened (λ aim. AccountsAim aim old.files
        new.files (counts (output_failures old.output) (output_failures new.output)) outcome)
        (λ f. outcome ≡ Err f) };

    fn run(&mut self) -> Ran {
        let (rt, is_json) = (self.rt, self.asked.is_json);
        let outcome = match self.opened {
            Ok(Aim::Flows) => { tell_flows(rt, is_json, &mut self.files.flows, &mut self.output) }
            Ok(Aim::Streams(wanted)) => {
                let files = &mut self.files.streams;
                tell_stream(rt, wanted, is_json, files, &mut self.output)
            }
            Err(fault) => Err(fault),
        };
        Ran {
            outcome,
            is_whole: true,
        }
    }

    fn devices(&self) -> Devices<'_> {
        let streams = self.files.streams.last_read();
        Devices {
            sdp: self.files.streams.sdp_reading(),
            read: streams.or(last_begun(&self.files.flows)),
            written: None,
            output: self.output.writing(),
            kept: None,
            hints: self.hints(),
        }
    }
}
