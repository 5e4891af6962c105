//! `export --paced` over the devices of this machine.
ghost use Rattle.std.specs.Prelude.{◌≡◌, ◌∷◌, [], IfErr, IsFalse, OnOk};
ghost use Rattle.std.specs.Option.{option_copied};
ghost use Rattle.command_end.specs.InTurn.{IsInTurn};
ghost use Rattle.devices.specs.Passed.{FileRead, file_ended, file_failures, file_gave, file_took};
ghost use Rattle.devices.specs.Passed.{IsInPlace, IsUnplaced, output_failures, output_took};
ghost use Rattle.devices.specs.Passed.{writing_failures};
ghost use Rattle.paced_export.specs.PacedRefused.{IsPacedRefusal};
ghost use Rattle.paced_export.specs.PacedExported.{LeavesPaced, PrintsPaced};
ghost use Rattle.export_engine.specs.Packets.{SayFlows};
ghost use Rattle.run_outcome.specs.Fault.{Accounts, IfRefused, counts};
ghost use Rattle.run_outcome.specs.Refusing.{OfRefusal};
ghost use Rattle.run_outcome.specs.declared.refusal.Refusal.TheVariants.{ExportFlow};
ghost use Rattle.run_outcome.specs.declared.refusal.Writer.TheVariants.{Export};

use crate::exporting::exporting;
use command_end::{Command, Devices, Hints, Ran, find_output};
use command_line::{ExportWords, StartWords};
use devices::{FileOutput, FileSource, OutputSink, Rest, Stream};
use export_engine::check_flows;
use paced_export::{Pacing, export_paced};
use run_outcome::{Fault, Writer};

/// Writes a capture as a recording, each packet at the moment that a sender has for it.
#[derive(Drop)]
pub struct PacedCommand<'a> {
    rt: &'a HostRuntime,
    pub wanted: Pacing<'a>,
    /// The capture, of which the first reading tells how many records each frame has.
    pub ahead: FileSource<'a>,
    /// The same file once more, from its begin: the second reading writes its packets.
    pub capture: FileSource<'a>,
    pub out: FileOutput<'a>,
    /// Whether that is one of the files that are read.
    pub is_input: bool,
    pub output: OutputSink<Stream>,
}

impl<'a> PacedCommand<'a> {
    /// The command of these words, of which nothing is done yet.
    pub fn new(rt: &'a HostRuntime, words: &ExportWords<'a>, start: StartWords) -> Self
        ensures { ⟦<PacedCommand<'a> as Command>⟧.is_new result }
    {
        let capture = FileSource::new(rt, words.capture);
        let out = FileOutput::new(rt, words.out, Rest::Stays);
        let is_input = capture.is(out.identity());
        PacedCommand {
            rt,
            wanted: Pacing {
                flows: exporting(words),
                start: start.start,
            },
            ahead: FileSource::new(rt, words.capture),
            capture,
            out,
            is_input,
            output: OutputSink::beside(rt, words.out),
        }
    }
}

/// Looks at the words, and at the place of the recording, before anything is read, and exports.
fn export<'a>(
    rt: &HostRuntime,
    wanted: Pacing<'_>,
    ahead: &mut FileSource<'a>,
    capture: &mut FileSource<'a>,
    out: &mut FileOutput<'_>,
    is_input: bool,
    output: &mut OutputSink<Stream>,
) -> Result<(), Fault>
    requires unplaced { IsUnplaced out.old }
    ensures exported { OnOk result (PrintsPaced wanted.entry.start
        wanted.entry.flows.a.now (option_copied wanted.entry.flows.b)
        (file_gave ahead.old) (file_gave ahead.new) (file_ended ahead.new)
        (file_gave capture.old) (file_gave capture.new) (file_ended capture.new)
        (file_took out.old) (file_took out.new) (output_took output.old)
        (output_took output.new)) }
    ensures unplaced { IsUnplaced out.new }
    ensures apart { OnOk result (IsFalse is_input) }
    ensures refusal { IfErr result (λ f. OfRefusal f (IsInTurn Export is_input
        (SayFlows wanted.entry.flows.a.now (option_copied wanted.entry.flows.b))
        (λ r. r ≡ ExportFlow)
        (IsPacedRefusal wanted.entry.flows.a.now (option_copied wanted.entry.flows.b)
        (FileRead ahead.old ahead.new) (FileRead capture.old capture.new)))) }
    // Then nothing is printed, and what is written is what a refusal leaves.
    ensures left { IfErr result (λ f. OfRefusal f (λ _. LeavesPaced wanted.entry.start
        wanted.entry.flows.a.now (option_copied wanted.entry.flows.b)
        (file_gave ahead.old) (file_gave ahead.new) (file_ended ahead.new)
        (file_gave capture.old) (file_gave capture.new) (file_ended capture.new)
        (file_took out.old) (file_took out.new))) }
    ensures quiet { IfErr result (λ f. IfRefused f
        (output_took output.new ≡ output_took output.old)) }
    // Memory is wanted where the words are flows, before anything is printed.
    ensures memory { IfErr result (λ f. f ≡ Fault.Memory
        → SayFlows wanted.entry.flows.a.now (option_copied wanted.entry.flows.b)
        × (output_took output.new ≡ output_took output.old)) }
    ensures owed { Accounts result (counts (file_failures ahead.old) (file_failures ahead.new)
        ∷ counts (file_failures capture.old) (file_failures capture.new)
        ∷ counts (writing_failures out.old) (writing_failures out.new)
        ∷ counts (output_failures output.old) (output_failures output.new) ∷ []) }
{
    check_flows(wanted.flows)?;
    find_output(out, is_input, Writer::Export)?;
    export_paced(rt.alloc(), wanted, ahead, capture, &mut out.sink, output)
}

impl<'a> Command for PacedCommand<'a> {
    ghost is_new = { λ c. (file_gave c.ahead ≡ []) × (file_gave c.capture ≡ [])
        × (file_took c.out ≡ []) × IsUnplaced c.out × (output_took c.output ≡ []) };

    // What is written is a recording of the capture that was read, in which each packet has the
    // moment that a sender at the rate of the capture's text has for it, and what is printed counts
    // it.
    ghost does = { λ old new. PrintsPaced old.wanted.start
        old.wanted.flows.a.now (option_copied old.wanted.flows.b)
        (file_gave old.ahead) (file_gave new.ahead) (file_ended new.ahead)
        (file_gave old.capture) (file_gave new.capture) (file_ended new.capture)
        (file_took old.out) (file_took new.out) (output_took old.output)
        (output_took new.output) };

    // Then nothing is printed; and nothing is written but, where the second reading is at fault,
    // the packets of the records before that.
    ghost is_refused = { λ old new r. IsInTurn Export old.is_input
        (SayFlows old.wanted.flows.a.now (option_copied old.wanted.flows.b))
        (λ x. x ≡ ExportFlow) (IsPacedRefusal old.wanted.flows.a.now
        (option_copied old.wanted.flows.b) (FileRead old.ahead new.ahead)
        (FileRead old.capture new.capture)) r
        × LeavesPaced old.wanted.start
        old.wanted.flows.a.now (option_copied old.wanted.flows.b)
        (file_gave old.ahead) (file_gave new.ahead) (file_ended new.ahead)
        (file_gave old.capture) (file_gave new.capture) (file_ended new.capture)
        (file_took old.out) (file_took new.out)
        × (output_took new.output ≡ output_took old.output) };

    // Where the words are flows, before anything is printed.
    ghost wants = { λ old new. SayFlows old.wanted.flows.a.now (option_copied old.wanted.flows.b)
        × (output_took new.output ≡ output_took old.output) };

    ghost is_placed = { λ c. IsInPlace c.out × IsFalse c.is_input };

    ghost is_unplaced = { λ c. IsUnplaced c.out };

    ghost owes = { λ old new outcome. Accounts outcome
        (counts (file_failures old.ahead) (file_failures new.ahead)
        ∷ counts (file_failures old.capture) (file_failures new.capture)
        ∷ counts (writing_failures old.out) (writing_failures new.out)
        ∷ counts (output_failures old.output) (output_failures new.output) ∷ []) };

    fn run(&mut self) -> Ran {
        let outcome = export(
            self.rt,
            self.wanted,
            &mut self.ahead,
            &mut self.capture,
            &mut self.out,
            self.is_input,
            &mut self.output,
        );
        Ran {
            outcome,
            is_whole: self.out.settle(outcome.is_ok()),
        }
    }

    fn devices(&self) -> Devices<'_> {
        Devices {
            sdp: None,
            read: self.capture.begun().or(self.ahead.begun()),
            written: Some(self.out.writing()),
            output: self.output.writing(),
            kept: None,
            hints: Hints::none(),
        }
    }
}
