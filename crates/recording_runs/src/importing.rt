//! `import` over the devices of this machine.
ghost use Rattle.std.specs.Prelude.{◌≡◌, ◌⊎◌, ◌∷◌, ⊤, [], All, IfErr, IfOk, IsFalse};
ghost use Rattle.std.specs.Prelude.{OnOk, Some, length, sum_by};
ghost use Rattle.std.specs.List.{AllByRecursion, zip};
ghost use Rattle.std.specs.Option.{option_copied};
ghost use Rattle.command_end.specs.InTurn.{IsInTurn};
ghost use Rattle.devices.specs.Passed.{FileRead, file_ended, file_failures, file_gave, file_took};
ghost use Rattle.devices.specs.Passed.{IsInPlace, IsUnplaced, output_failures, output_took};
ghost use Rattle.devices.specs.Passed.{writing_failures};
ghost use Rattle.recording_engines.specs.Files.{AllClosed, ended_by, failures_by, gave_by};
ghost use Rattle.recording_engines.specs.Imported.{Imports, IsImportRefusal};
ghost use Rattle.recording_engines.specs.Progress.{IsDeviceOrFile};
ghost use Rattle.recording_engines.specs.declared.importing.ImportCounts.{ImportCounts as Sums};
ghost use Rattle.recording_runs.specs.Files.{AreNew};
ghost use Rattle.run_outcome.specs.Fault.{Accounts, IfRefused, counts};
ghost use Rattle.run_outcome.specs.Moments.{WasRead};
ghost use Rattle.run_outcome.specs.Refusing.{OfRefusal};
ghost use Rattle.run_outcome.specs.Text.{GivesFew, GivesText};
ghost use Rattle.run_outcome.specs.declared.fault.Fault.TheVariants.{Memory};
ghost use Rattle.run_outcome.specs.declared.refusal.Writer.TheVariants.{Import};

use command_end::{Command, Devices, Hints, Ran, find_output};
use command_line::ImportWords;
use devices::{FileOutput, FileSource, Identity, Meter, OutputSink, Reading, Rest, Stream};
use recording_engines::{FlowWords, ImportCounts, ImportFile};
use run_outcome::{Fault, Writer};
use std::alloc::{AllocError, Global};

/// A file of `import`, of this machine and in global memory.
type InputFile<'a> = ImportFile<Global, FileSource<'a>>;

/// Makes a capture of captures and recordings.
#[derive(Drop)]
pub struct ImportCommand<'a> {
    rt: &'a HostRuntime,
    pub wanted: FlowWords<'a>,
    pub sdp: FileSource<'a>,
    pub files: Vec<InputFile<'a>>,
    pub out: FileOutput<'a>,
    /// Whether that is one of the files that are read.
    pub is_input: bool,
    pub output: OutputSink<Stream>,
    /// What was recorded, once it is.
    pub counts: Option<ImportCounts>,
}

impl<'a> ImportCommand<'a> {
    /// The command of these words, of which nothing is done yet, or that there is no memory for its
    /// list of files. A meter is told how much is read.
    pub fn new(
        rt: &'a HostRuntime,
        words: &ImportWords<'a>,
        meter: &Meter,
    ) -> Result<Self, AllocError>
        ensures { IfOk result ⟦<ImportCommand<'a> as Command>⟧.is_new }
    {
        let sdp = FileSource::new(rt, words.sdp);
        let files = given_files(rt, words.recordings.as_slice(), meter)?;
        let out = FileOutput::new(rt, words.out, Rest::Stays);
        let is_input = is_read(&out, &sdp, files.as_slice());
        Ok(ImportCommand {
            rt,
            wanted: importing(words),
            sdp,
            files,
            out,
            is_input,
            output: OutputSink::beside(rt, words.out).metered(meter),
            counts: None,
        })
    }
}

/// What `import` is asked for, beside its files.
fn importing<'a>(words: &ImportWords<'a>) -> FlowWords<'a> {
    FlowWords {
        a: octets(words.a),
        b: octets(words.b),
    }
}

/// The octets of a text that may be absent.
pub(crate) fn octets(text: Option<&str>) -> Option<&[u8]> {
    match text {
        Some(text) => Some(text.as_bytes()),
        None => None,
    }
}

/// The files of these names, in their order, of which `-` is standard input. None is looked at yet.
fn given_files<'a>(
    rt: &'a HostRuntime,
    names: &[&'a str],
    meter: &Meter,
) -> Result<Vec<InputFile<'a>>, AllocError>
    ensures { IfOk result (λ files. AreNew files.items) }
{
    let mut files = Vec::new(rt.alloc());
    for name in names {
        let file = FileSource::given(rt, name).metered(meter);
        files.push(ImportFile::Closed(file))?;
    }
    Ok(files)
}

/// Whether the capture that is to be written is one of the files that are read.
fn is_read(out: &FileOutput<'_>, sdp: &FileSource<'_>, files: &[InputFile<'_>]) -> bool {
    let file = out.identity();
    sdp.is(file) || files.iter().any(|it| is_of(it, file))
}

/// Whether a file of `import`, as a capture or as a recording, is this plain one.
fn is_of(it: &InputFile<'_>, file: Option<Identity>) -> bool {
    match it.source() {
        Some(source) => source.is(file),
        None => false,
    }
}

/// Where the reading of a file stands, if it began.
fn begun<'a>(it: &InputFile<'a>) -> Option<Reading<'a>> {
    match it.source() {
        Some(source) => source.begun(),
        None => None,
    }
}

/// Where the reading of the last of these files stands that was begun, if one was.
fn last_begun<'a>(files: &[InputFile<'a>]) -> Option<Reading<'a>> {
    let mut last = None;
    for file in files {
        last = begun(file).or(last);
    }
    last
}

/// Looks at the place of the capture, before anything is read, imports, and keeps what was
/// recorded.
fn import<'a>(
    rt: &HostRuntime,
    wanted: FlowWords<'_>,
    sdp: &mut FileSource<'a>,
    files: &mut [InputFile<'a>],
    out: &mut FileOutput<'_>,
    is_input: bool,
    output: &mut OutputSink<Stream>,
    recorded: &mut Option<ImportCounts>,
) -> Result<(), Fault>
    requires closed { AllClosed files.old }
    requires unplaced { IsUnplaced out.old }
    ensures len { length files.new ≡ length files.old }
    ensures imported { OnOk result ((sums : Sums) × (recorded.new ≡ Some sums) × Imports
        (option_copied wanted.entry.a) (option_copied wanted.entry.b)
        (GivesText 65535 (file_gave sdp.old) (file_gave sdp.new) (file_ended sdp.new))
        (WasRead (gave_by file_gave) (ended_by file_ended)) (zip files.old files.new)
        (file_took out.old) (file_took out.new) (output_took output.old)
        (output_took output.new) sums) }
    ensures unplaced { IsUnplaced out.new }
    ensures apart { OnOk result (IsFalse is_input) }
    ensures refusal { IfErr result (λ f. OfRefusal f (IsInTurn Import is_input ⊤ (λ _. ⊥)
        (IsImportRefusal
        (option_copied wanted.entry.a) (option_copied wanted.entry.b) (FileRead sdp.old sdp.new)
        (GivesText 65535 (file_gave sdp.old) (file_gave sdp.new) (file_ended sdp.new))
        (WasRead (gave_by file_gave) (ended_by file_ended)) (zip files.old files.new)
        (file_took out.old) (file_took out.new)))) }
    ensures quiet { IfErr result (λ f. IfRefused f
        (output_took output.new ≡ output_took output.old)) }
    // Memory is wanted before anything is printed, for a text that isn't too long; and, unless a
    // file's reader says so, before anything is written.
    ensures memory { IfErr result (λ f. f ≡ Fault.Memory
        → (output_took output.new ≡ output_took output.old)
        × GivesFew 65535 (file_gave sdp.old) (file_gave sdp.new)
        × ((file_took out.new ≡ file_took out.old) ⊎ IsDeviceOrFile files.new f)) }
    ensures owed { Accounts result (counts (file_failures sdp.old) (file_failures sdp.new)
        ∷ counts (sum_by (failures_by file_failures) files.old)
        (sum_by (failures_by file_failures) files.new)
        ∷ counts (writing_failures out.old) (writing_failures out.new)
        ∷ counts (output_failures output.old) (output_failures output.new) ∷ []) }
{
    find_output(out, is_input, Writer::Import)?;
    let alloc = rt.alloc();
    let file = &mut out.sink;
    let sums = recording_engines::import(alloc, wanted, sdp, files, file, output)?;
    *recorded = Some(sums);
    Ok(())
}

impl<'a> Command for ImportCommand<'a> {
    ghost is_new = { λ c. (file_gave c.sdp ≡ [])
        × AreNew c.files.items
        × (file_took c.out ≡ []) × IsUnplaced c.out × (output_took c.output ≡ []) };

    // What is written is the capture of the files that were read, of recordings by the flows of the
    // words or of the SDP text that was read, and what is printed counts it.
    ghost does = { λ old new. (sums : Sums) × (new.counts ≡ Some sums)
        × Imports (option_copied old.wanted.a) (option_copied old.wanted.b)
        (GivesText 65535 (file_gave old.sdp) (file_gave new.sdp) (file_ended new.sdp))
        (WasRead (gave_by file_gave) (ended_by file_ended)) (zip old.files.items new.files.items)
        (file_took old.out) (file_took new.out) (output_took old.output)
        (output_took new.output) sums };

    // Then nothing is printed.
    ghost is_refused = { λ old new r. IsInTurn Import old.is_input ⊤ (λ _. ⊥)
        (IsImportRefusal (option_copied old.wanted.a)
        (option_copied old.wanted.b) (FileRead old.sdp new.sdp)
        (GivesText 65535 (file_gave old.sdp) (file_gave new.sdp) (file_ended new.sdp))
        (WasRead (gave_by file_gave) (ended_by file_ended)) (zip old.files.items new.files.items)
        (file_took old.out) (file_took new.out)) r
        × (output_took new.output ≡ output_took old.output) };

    // Before anything is printed, for a text that isn't too long; and, unless a file's reader says
    // so, before anything is written.
    ghost wants = { λ old new. (output_took new.output ≡ output_took old.output)
        × GivesFew 65535 (file_gave old.sdp) (file_gave new.sdp)
        × ((file_took new.out ≡ file_took old.out) ⊎ IsDeviceOrFile new.files.items Memory) };

    ghost is_placed = { λ c. IsInPlace c.out × IsFalse c.is_input };

    ghost is_unplaced = { λ c. IsUnplaced c.out };

    ghost owes = { λ old new outcome. Accounts outcome
        (counts (file_failures old.sdp) (file_failures new.sdp)
        ∷ counts (sum_by (failures_by file_failures) old.files.items)
        (sum_by (failures_by file_failures) new.files.items)
        ∷ counts (writing_failures old.out) (writing_failures new.out)
        ∷ counts (output_failures old.output) (output_failures new.output) ∷ []) };

    fn run(&mut self) -> Ran {
        let outcome = import(
            self.rt,
            self.wanted,
            &mut self.sdp,
            self.files.as_mut_slice(),
            &mut self.out,
            self.is_input,
            &mut self.output,
            &mut self.counts,
        );
        self.output.clear();
        Ran {
            outcome,
            is_whole: self.out.settle(outcome.is_ok()),
        }
    }

    fn devices(&self) -> Devices<'_> {
        Devices {
            sdp: Some(self.sdp.reading()),
            read: last_begun(&self.files),
            written: Some(self.out.writing()),
            output: self.output.writing(),
            kept: None,
            hints: Hints {
                takes_recordings: true,
                ..Hints::none()
            },
        }
    }
}
