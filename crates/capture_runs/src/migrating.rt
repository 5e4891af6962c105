//! `migrate` over the devices of this machine.
ghost use Rattle.std.specs.Prelude.{◌≡◌, ◌∷◌, ⊤, [], IfErr, IsFalse, OnOk};
ghost use Rattle.capture_engines.specs.MigrateRefused.{IsMigrateRefusal};
ghost use Rattle.capture_engines.specs.Migrating.{PrintsMigrated};
ghost use Rattle.command_end.specs.InTurn.{IsInTurn};
ghost use Rattle.devices.specs.Passed.{FileRead, file_ended, file_failures, file_gave, file_took};
ghost use Rattle.devices.specs.Passed.{IsInPlace, IsUnplaced, output_failures, output_took};
ghost use Rattle.devices.specs.Passed.{writing_failures};
ghost use Rattle.run_outcome.specs.Fault.{Accounts, IfRefused, counts};
ghost use Rattle.run_outcome.specs.Refusing.{OfRefusal};
ghost use Rattle.run_outcome.specs.Text.{GivesText};
ghost use Rattle.run_outcome.specs.TextRefusals.{SaysCaptureText};
ghost use Rattle.run_outcome.specs.declared.refusal.Writer.TheVariants.{Migrate};

use command_end::{Command, Devices, Hints, Ran, find_output};
use command_line::MigrateWords;
use devices::{FileOutput, FileSource, OutputSink, Rest, Stream};
use run_outcome::{Fault, Writer};

/// Writes a capture of version 01 as one of version 02.
#[derive(Drop)]
pub struct MigrateCommand<'a> {
    rt: &'a HostRuntime,
    pub sdp: FileSource<'a>,
    pub capture: FileSource<'a>,
    pub out: FileOutput<'a>,
    /// Whether that is one of the files that are read.
    pub is_input: bool,
    pub output: OutputSink<Stream>,
}

impl<'a> MigrateCommand<'a> {
    /// The command of these words, of which nothing is done yet.
    pub fn new(rt: &'a HostRuntime, words: &MigrateWords<'a>) -> Self
        ensures { ⟦<MigrateCommand<'a> as Command>⟧.is_new result }
    {
        let sdp = FileSource::new(rt, words.sdp);
        let capture = FileSource::new(rt, words.capture);
        let out = FileOutput::new(rt, words.out, Rest::Stays);
        let is_input = is_read(&out, &sdp, &capture);
        MigrateCommand {
            rt,
            sdp,
            capture,
            out,
            is_input,
            output: OutputSink::beside(rt, words.out),
        }
    }
}

/// Whether the new capture is one of the files that are read.
fn is_read(out: &FileOutput<'_>, sdp: &FileSource<'_>, capture: &FileSource<'_>) -> bool {
    let file = out.identity();
    sdp.is(file) || capture.is(file)
}

/// Looks at the place of the new capture, before anything is read, and migrates.
fn migrate<'a>(
    rt: &HostRuntime,
    sdp: &mut FileSource<'a>,
    capture: &mut FileSource<'a>,
    out: &mut FileOutput<'_>,
    is_input: bool,
    output: &mut OutputSink<Stream>,
) -> Result<(), Fault>
    requires unplaced { IsUnplaced out.old }
    ensures migrated { OnOk result (PrintsMigrated
        (GivesText 65535 (file_gave sdp.old) (file_gave sdp.new) (file_ended sdp.new))
        (file_gave capture.old) (file_gave capture.new) (file_ended capture.new)
        (file_took out.old) (file_took out.new) (output_took output.old)
        (output_took output.new)) }
    ensures described { OnOk result (SaysCaptureText (FileRead sdp.old sdp.new)) }
    ensures unplaced { IsUnplaced out.new }
    ensures apart { OnOk result (IsFalse is_input) }
    ensures refusal { IfErr result (λ f. OfRefusal f (IsInTurn Migrate is_input ⊤ (λ _. ⊥)
        (IsMigrateRefusal (FileRead sdp.old sdp.new) (FileRead capture.old capture.new)))) }
    ensures quiet { IfErr result (λ f. IfRefused f
        (output_took output.new ≡ output_took output.old)) }
    ensures owed { Accounts result (counts (file_failures sdp.old) (file_failures sdp.new)
        ∷ counts (file_failures capture.old) (file_failures capture.new)
        ∷ counts (writing_failures out.old) (writing_failures out.new)
        ∷ counts (output_failures output.old) (output_failures output.new) ∷ []) }
{
    find_output(out, is_input, Writer::Migrate)?;
    capture_engines::migrate(rt.alloc(), sdp, capture, &mut out.sink, output)
}

impl<'a> Command for MigrateCommand<'a> {
    ghost is_new = { λ c. (file_gave c.sdp ≡ []) × (file_gave c.capture ≡ [])
        × (file_took c.out ≡ []) × IsUnplaced c.out × (output_took c.output ≡ []) };

    // What is written is the capture that was read, with the text that was read, which describes a
    // video, and it is printed how many records it has.
    ghost does = { λ old new. PrintsMigrated
        (GivesText 65535 (file_gave old.sdp) (file_gave new.sdp) (file_ended new.sdp))
        (file_gave old.capture) (file_gave new.capture) (file_ended new.capture)
        (file_took old.out) (file_took new.out) (output_took old.output)
        (output_took new.output) × SaysCaptureText (FileRead old.sdp new.sdp) };

    // Then nothing is printed.
    ghost is_refused = { λ old new r. IsInTurn Migrate old.is_input ⊤ (λ _. ⊥)
        (IsMigrateRefusal (FileRead old.sdp new.sdp) (FileRead old.capture new.capture)) r
        × (output_took new.output ≡ output_took old.output) };

    ghost is_placed = { λ c. IsInPlace c.out × IsFalse c.is_input };

    ghost is_unplaced = { λ c. IsUnplaced c.out };

    ghost owes = { λ old new outcome. Accounts outcome
        (counts (file_failures old.sdp) (file_failures new.sdp)
        ∷ counts (file_failures old.capture) (file_failures new.capture)
        ∷ counts (writing_failures old.out) (writing_failures new.out)
        ∷ counts (output_failures old.output) (output_failures new.output) ∷ []) };

    fn run(&mut self) -> Ran {
        let outcome = migrate(
            self.rt,
            &mut self.sdp,
            &mut self.capture,
            &mut self.out,
            self.is_input,
            &mut self.output,
        );
        Ran {
            outcome,
            is_whole: self.out.settle(outcome.is_ok()),
        }
    }

    fn devices(&self) -> Devices<'_> {
        Devices {
            sdp: Some(self.sdp.reading()),
            read: self.capture.begun(),
            written: Some(self.out.writing()),
            output: self.output.writing(),
            kept: None,
            hints: Hints::none(),
        }
    }
}
