//! `process` over the devices of this machine.
ghost use Rattle.std.specs.Prelude.{◌≡◌, ◌∷◌, ◌≤◌, ℕ, List, [], All, IfErr, IfOk, IfSome};
ghost use Rattle.std.specs.Prelude.{IsFalse, OnOk, length, sum_by};
ghost use Rattle.std.specs.List.{zip};
ghost use Rattle.command_end.specs.InTurn.{IsInTurn};
ghost use Rattle.devices.specs.Passed.{file_ended, file_failures, file_gave, file_took};
ghost use Rattle.devices.specs.Passed.{IsInPlace, IsUnplaced, output_failures, output_took};
ghost use Rattle.devices.specs.Passed.{writing_failures};
ghost use Rattle.receiver_engines.specs.Processing.{PrintsSent, SendsSaidFiles};
ghost use Rattle.receiver_engines.specs.Refused.{IsSaidRunRefusal, SaysJob};
ghost use Rattle.run_outcome.specs.Fault.{Accounts, IfRefused, counts, failures_in};
ghost use Rattle.run_outcome.specs.Moments.{WasRead, pair};
ghost use Rattle.run_outcome.specs.Refusing.{OfRefusal};
ghost use Rattle.run_outcome.specs.declared.refusal.Refusal.TheVariants.{ProcessJob};
ghost use Rattle.run_outcome.specs.declared.refusal.Writer.TheVariants.{Process};
ghost use Rattle.run_outcome.specs.TextRefusals.{SaysText};
ghost use Rattle.receiver_runs.specs.Asked.{IsProcessOf, IsProcessingOf};
ghost use Rattle.command_end.specs.Untouched.{AreUntouched};

use command_end::{Command, Devices, Hints, Ran, find_output};
use command_line::ProcessWords;
use devices::{
    FileOutput, FileSource, OutputSink, Rest, Stream, any_is, last_begun, named_file, named_files,
    one_is, reading_begun, reading_of,
};
use packet_plan::Stamp;
use receiver_engines::{Processing, check_job, process_said};
use run_outcome::{Fault, Writer};
use std::alloc::AllocError;

/// Runs a job on frames of receivers, and sends its picture into a capture.
#[derive(Drop)]
pub struct ProcessCommand<'a> {
    rt: &'a HostRuntime,
    pub wanted: Processing<'a>,
    /// The SDP's file, where one is named.
    pub sdp: Option<FileSource<'a>>,
    pub states: Vec<FileSource<'a>>,
    pub hold: Option<FileSource<'a>>,
    pub out: FileOutput<'a>,
    /// Whether that is one of the files that are read.
    pub is_input: bool,
    pub output: OutputSink<Stream>,
    ghost payload_type_bits: { wanted.stamp.payload_type ≤ 127 },
}

impl<'a> ProcessCommand<'a> {
    /// The command of these words, of which nothing is done yet, or that there is no memory for its
    /// list of files.
    pub fn new(rt: &'a HostRuntime, words: &ProcessWords<'a>) -> Result<Self, AllocError>
        ensures new { IfOk result ⟦<ProcessCommand<'a> as Command>⟧.is_new }
        ensures asked { IfOk result (λ c. IsProcessOf words.now c.wanted c.sdp
            c.states.items c.hold c.out) }
    {
        let sdp = named_file(rt, words.sdp);
        let states = named_files(rt, words.states.as_slice())?;
        let hold = named_file(rt, words.hold);
        let out = FileOutput::new(rt, words.out, Rest::Stays);
        let is_input = is_read(&out, &sdp, &hold, states.as_slice());
        Ok(ProcessCommand {
            rt,
            wanted: processing(words),
            sdp,
            states,
            hold,
            out,
            is_input,
            output: OutputSink::beside(rt, words.out),
        })
    }
}

/// What `process` is asked for, beside its files.
fn processing<'a>(words: &ProcessWords<'a>) -> Processing<'a>
    ensures { IsProcessingOf words.now result }
{
    Processing {
        job: words.job.as_bytes(),
        timestamp: words.timestamp,
        fill: words.fill.as_bytes(),
        stamp: Stamp {
            payload_type: words.stamp.payload_type,
            first: words.stamp.first,
            timestamp: words.stamp.base,
            ssrc: words.stamp.ssrc,
        },
        max_octets: words.max_octets,
    }
}

/// Whether the capture that is to be written is one of the files that are read.
fn is_read(
    out: &FileOutput<'_>,
    sdp: &Option<FileSource<'_>>,
    hold: &Option<FileSource<'_>>,
    states: &[FileSource<'_>],
) -> bool {
    let file = out.identity();
    one_is(sdp, file) || one_is(hold, file) || any_is(states, file)
}

/// Looks at the words, and at the place of the capture, before anything is read, and runs the job.
fn process<'a>(
    rt: &HostRuntime,
    wanted: Processing<'_>,
    sdp: &mut Option<FileSource<'a>>,
    states: &mut [FileSource<'a>],
    hold: &mut Option<FileSource<'a>>,
    out: &mut FileOutput<'_>,
    is_input: bool,
    output: &mut OutputSink<Stream>,
) -> Result<(), Fault>
    requires payload_type { wanted.stamp.payload_type ≤ 127 }
    requires unplaced { IsUnplaced out.old }
    ensures len { length states.new ≡ length states.old }
    ensures sent { OnOk result ((text : List ℕ)
        × SaysText file_gave file_ended sdp.old sdp.new text
        × ((count : ℕ) × SendsSaidFiles text (WasRead file_gave file_ended)
        (zip states.old states.new) (pair hold.old hold.new)
        wanted.entry.job.now wanted.entry.timestamp wanted.entry.fill.now wanted.entry.max_octets
        wanted.entry.stamp (file_took out.old) (file_took out.new) count
        × PrintsSent count (output_took output.old) (output_took output.new))) }
    ensures quiet { IfErr result (λ f. IfRefused f
        (AreUntouched out.old out.new output.old output.new)) }
    // So memory is wanted.
    ensures memory { IfErr result (λ f. f ≡ Fault.Memory
        → AreUntouched out.old out.new output.old output.new) }
    ensures unplaced { IsUnplaced out.new }
    ensures apart { OnOk result (IsFalse is_input) }
    ensures refusal { IfErr result (λ f. OfRefusal f (IsInTurn Process is_input
        (SaysJob wanted.entry) (λ r. r ≡ ProcessJob)
        (IsSaidRunRefusal (WasRead file_gave file_ended) sdp.old sdp.new
        (zip states.old states.new) (pair hold.old hold.new) wanted.entry))) }
    ensures owed { Accounts result
        (counts (failures_in file_failures sdp.old) (failures_in file_failures sdp.new)
        ∷ counts (sum_by file_failures states.old) (sum_by file_failures states.new)
        ∷ counts (failures_in file_failures hold.old) (failures_in file_failures hold.new)
        ∷ counts (writing_failures out.old) (writing_failures out.new)
        ∷ counts (output_failures output.old) (output_failures output.new) ∷ []) }
{
    check_job(wanted.job)?;
    find_output(out, is_input, Writer::Process)?;
    process_said(rt.alloc(), wanted, sdp, states, hold, &mut out.sink, output)
}

impl<'a> Command for ProcessCommand<'a> {
    ghost is_new = { λ c. IfSome c.sdp (λ f. file_gave f ≡ [])
        × All (λ f. file_gave f ≡ []) c.states.items
        × IfSome c.hold (λ f. file_gave f ≡ [])
        × (file_took c.out ≡ []) × IsUnplaced c.out × (output_took c.output ≡ []) };

    // What is written is the capture of the SDP text that was read and of the datagrams of the
    // job's picture, made of the receivers and the held picture whose files were read, and it is
    // printed how many they are.
    ghost does = { λ old new. (text : List ℕ)
        × SaysText file_gave file_ended old.sdp new.sdp text
        × ((count : ℕ) × SendsSaidFiles text (WasRead file_gave file_ended)
        (zip old.states.items new.states.items) (pair old.hold new.hold)
        old.wanted.job.now old.wanted.timestamp old.wanted.fill.now old.wanted.max_octets
        old.wanted.stamp (file_took old.out) (file_took new.out) count
        × PrintsSent count (output_took old.output) (output_took new.output)) };

    // Then nothing is printed or written.
    ghost is_refused = { λ old new r. IsInTurn Process old.is_input (SaysJob old.wanted)
        (λ x. x ≡ ProcessJob) (IsSaidRunRefusal (WasRead file_gave file_ended)
        old.sdp new.sdp (zip old.states.items new.states.items) (pair old.hold new.hold)
        old.wanted) r
        × AreUntouched old.out new.out old.output new.output };

    // Before anything is printed or written.
    ghost wants = { λ old new. AreUntouched old.out new.out old.output new.output };

    ghost is_placed = { λ c. IsInPlace c.out × IsFalse c.is_input };

    ghost is_unplaced = { λ c. IsUnplaced c.out };

    ghost owes = { λ old new outcome. Accounts outcome
        (counts (failures_in file_failures old.sdp) (failures_in file_failures new.sdp)
        ∷ counts (sum_by file_failures old.states.items) (sum_by file_failures new.states.items)
        ∷ counts (failures_in file_failures old.hold) (failures_in file_failures new.hold)
        ∷ counts (writing_failures old.out) (writing_failures new.out)
        ∷ counts (output_failures old.output) (output_failures new.output) ∷ []) };

    fn run(&mut self) -> Ran {
        let outcome = process(
            self.rt,
            self.wanted,
            &mut self.sdp,
            self.states.as_mut_slice(),
            &mut self.hold,
            &mut self.out,
            self.is_input,
            &mut self.output,
        );
        Ran {
            outcome,
            is_whole: self.out.settle(outcome.is_ok()),
        }
    }

    fn devices(&self) -> Devices<'_> {
        Devices {
            sdp: reading_of(&self.sdp),
            read: reading_begun(&self.hold).or(last_begun(&self.states)),
            written: Some(self.out.writing()),
            output: self.output.writing(),
            kept: None,
            hints: Hints::none(),
        }
    }
}
