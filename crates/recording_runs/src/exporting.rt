//! `export` over the devices of this machine.
ghost use Rattle.std.specs.Prelude.{◌≡◌, ◌∷◌, [], IfErr, IsFalse, OnOk};
ghost use Rattle.std.specs.Option.{option_copied};
ghost use Rattle.command_end.specs.InTurn.{IsInTurn};
ghost use Rattle.devices.specs.Passed.{FileRead, file_ended, file_failures, file_gave, file_took};
ghost use Rattle.devices.specs.Passed.{IsInPlace, IsUnplaced, output_failures, output_took};
ghost use Rattle.devices.specs.Passed.{writing_failures};
ghost use Rattle.export_engine.specs.ExportRefused.{IsExportRefusal};
ghost use Rattle.export_engine.specs.Exported.{IsUntouched, LeavesExport, PrintsExported};
ghost use Rattle.export_engine.specs.Packets.{SayFlows};
ghost use Rattle.run_outcome.specs.Fault.{Accounts, IfRefused, counts};
ghost use Rattle.run_outcome.specs.Refusing.{OfRefusal};
ghost use Rattle.run_outcome.specs.declared.fault.Fault.TheVariants.{Refused};
ghost use Rattle.run_outcome.specs.declared.refusal.Refusal.TheVariants.{ExportFlow};
ghost use Rattle.run_outcome.specs.declared.refusal.Writer.TheVariants.{Export};

use crate::importing::octets;
use command_end::{Command, Devices, Hints, Ran, find_output};
use command_line::ExportWords;
use devices::{FileOutput, FileSource, OutputSink, Rest, Stream};
use export_engine::{Exporting, check_flows};
use run_outcome::{Fault, Writer};

/// Writes a capture as a recording.
#[derive(Drop)]
pub struct ExportCommand<'a> {
    rt: &'a HostRuntime,
    pub wanted: Exporting<'a>,
    pub capture: FileSource<'a>,
    pub out: FileOutput<'a>,
    /// Whether that is one of the files that are read.
    pub is_input: bool,
    pub output: OutputSink<Stream>,
}

impl<'a> ExportCommand<'a> {
    /// The command of these words, of which nothing is done yet.
    pub fn new(rt: &'a HostRuntime, words: &ExportWords<'a>) -> Self
        ensures { ⟦<ExportCommand<'a> as Command>⟧.is_new result }
    {
        let capture = FileSource::new(rt, words.capture);
        let out = FileOutput::new(rt, words.out, Rest::Stays);
        let is_input = capture.is(out.identity());
        ExportCommand {
            rt,
            wanted: exporting(words),
            capture,
            out,
            is_input,
            output: OutputSink::beside(rt, words.out),
        }
    }
}

/// What `export` is asked for, beside its files.
pub(crate) fn exporting<'a>(words: &ExportWords<'a>) -> Exporting<'a> {
    Exporting {
        a: words.a.as_bytes(),
        b: octets(words.b),
    }
}

/// Looks at the words, and at the place of the recording, before anything is read, and exports.
fn export(
    rt: &HostRuntime,
    wanted: Exporting<'_>,
    capture: &mut FileSource<'_>,
    out: &mut FileOutput<'_>,
    is_input: bool,
    output: &mut OutputSink<Stream>,
) -> Result<(), Fault>
    requires unplaced { IsUnplaced out.old }
    ensures exported { OnOk result (PrintsExported
        wanted.entry.a.now (option_copied wanted.entry.b)
        (file_gave capture.old) (file_gave capture.new) (file_ended capture.new)
        (file_took out.old) (file_took out.new) (output_took output.old)
        (output_took output.new)) }
    ensures unplaced { IsUnplaced out.new }
    ensures apart { OnOk result (IsFalse is_input) }
    ensures refusal { IfErr result (λ f. OfRefusal f (IsInTurn Export is_input
        (SayFlows wanted.entry.a.now (option_copied wanted.entry.b)) (λ r. r ≡ ExportFlow)
        (IsExportRefusal wanted.entry.a.now (option_copied wanted.entry.b)
        (FileRead capture.old capture.new)))) }
    // Then nothing is printed, and what is written is what such a refusal leaves.
    ensures left { IfErr result (λ f. OfRefusal f (λ r. LeavesExport (Refused r)
        wanted.entry.a.now (option_copied wanted.entry.b)
        (file_gave capture.old) (file_gave capture.new) (file_ended capture.new)
        (file_took out.old) (file_took out.new))) }
    ensures quiet { IfErr result (λ f. IfRefused f
        (output_took output.new ≡ output_took output.old)) }
    // Memory is wanted where the words are flows, before anything is read, written or printed.
    ensures memory { IfErr result (λ f. f ≡ Fault.Memory
        → SayFlows wanted.entry.a.now (option_copied wanted.entry.b)
        × IsUntouched (file_gave capture.old) (file_gave capture.new)
        (file_took out.old) (file_took out.new)
        × (output_took output.new ≡ output_took output.old)) }
    ensures owed { Accounts result (counts (file_failures capture.old) (file_failures capture.new)
        ∷ counts (writing_failures out.old) (writing_failures out.new)
        ∷ counts (output_failures output.old) (output_failures output.new) ∷ []) }
{
    check_flows(wanted)?;
    find_output(out, is_input, Writer::Export)?;
    export_engine::export(rt.alloc(), wanted, capture, &mut out.sink, output)
}

impl<'a> Command for ExportCommand<'a> {
    ghost is_new = { λ c. (file_gave c.capture ≡ []) × (file_took c.out ≡ [])
        × IsUnplaced c.out × (output_took c.output ≡ []) };

    // What is written is a recording of the capture that was read, and what is printed counts it.
    ghost does = { λ old new. PrintsExported old.wanted.a.now (option_copied old.wanted.b)
        (file_gave old.capture) (file_gave new.capture) (file_ended new.capture)
        (file_took old.out) (file_took new.out) (output_took old.output)
        (output_took new.output) };

    // Then nothing is printed; and nothing is written but, of a capture that is cut short or at
    // fault, the packets of the records before that.
    ghost is_refused = { λ old new r. IsInTurn Export old.is_input
        (SayFlows old.wanted.a.now (option_copied old.wanted.b)) (λ x. x ≡ ExportFlow)
        (IsExportRefusal old.wanted.a.now (option_copied old.wanted.b)
        (FileRead old.capture new.capture)) r
        × LeavesExport (Refused r) old.wanted.a.now (option_copied old.wanted.b)
        (file_gave old.capture) (file_gave new.capture) (file_ended new.capture)
        (file_took old.out) (file_took new.out)
        × (output_took new.output ≡ output_took old.output) };

    // Where the words are flows, before anything is read, written or printed.
    ghost wants = { λ old new. SayFlows old.wanted.a.now (option_copied old.wanted.b)
        × IsUntouched (file_gave old.capture) (file_gave new.capture)
        (file_took old.out) (file_took new.out)
        × (output_took new.output ≡ output_took old.output) };

    ghost is_placed = { λ c. IsInPlace c.out × IsFalse c.is_input };

    ghost is_unplaced = { λ c. IsUnplaced c.out };

    ghost owes = { λ old new outcome. Accounts outcome
        (counts (file_failures old.capture) (file_failures new.capture)
        ∷ counts (writing_failures old.out) (writing_failures new.out)
        ∷ counts (output_failures old.output) (output_failures new.output) ∷ []) };

    fn run(&mut self) -> Ran {
        let outcome = export(
            self.rt,
            self.wanted,
            &mut self.capture,
            &mut self.out,
            self.is_input,
            &mut self.output,
        );
        Ran {
            outcome,
            is_whole: self.out.settle(outcome.is_ok()),
        }
    }

    fn devices(&self) -> Devices<'_> {
        Devices {
            sdp: None,
            read: self.capture.begun(),
            written: Some(self.out.writing()),
            output: self.output.writing(),
            kept: None,
            hints: Hints::none(),
        }
    }
}
