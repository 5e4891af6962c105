//! What `import`, `receive` and `inspect` tell where nothing came of a flow.
ghost use Rattle.std.specs.Prelude.{◌≡◌, ◌∷◌, ◌++◌, [], All, IfErr, IfOk, OnOk, sum_by};
ghost use Rattle.std.specs.List.{zip};
ghost use Rattle.devices.specs.Passed.{file_ended, file_failures, file_gave};
ghost use Rattle.devices.specs.Passed.{output_failures, output_took};
ghost use Rattle.recording_runs.specs.Telling.{IsAgainRefusal, TellsAgain, notice_if};
ghost use Rattle.run_outcome.specs.Fault.{Accounts, counts};
ghost use Rattle.run_outcome.specs.Moments.{WasRead};
ghost use Rattle.run_outcome.specs.Refusing.{OfRefusal};
ghost use Rattle.st_format.specs.Device.{CountsFaults};

use command_end::{Command, Devices, Hints, Ran};
use devices::{FileSource, OutputSink, Stream, last_begun};
use inspect_engine::Form;
use run_outcome::Fault;
use st_format::{DeviceFault, write_whole};
use std::alloc::AllocError;

/// Tells which flows recordings have, which are read once more. Standard input can't be, and this
/// is said.
#[derive(Drop)]
pub struct FlowsCommand<'a> {
    rt: &'a HostRuntime,
    /// The files, but for standard input.
    pub recordings: Vec<FileSource<'a>>,
    /// Whether standard input was among them.
    pub has_input: bool,
    pub output: OutputSink<Stream>,
}

/// What is said of standard input.
const READ_ONCE: &[u8] = b"standard input is read once; inspect tells its flows\n";

impl<'a> FlowsCommand<'a> {
    /// The command for files of these names, which tells a stream, of which nothing is done yet, or
    /// that there is no memory for their list.
    pub fn new(rt: &'a HostRuntime, names: &[&'a str], stream: Stream) -> Result<Self, AllocError>
        ensures { IfOk result ⟦<FlowsCommand<'a> as Command>⟧.is_new }
    {
        let recordings = named_but_input(rt, names)?;
        Ok(FlowsCommand {
            rt,
            has_input: recordings.len() < names.len(),
            recordings,
            output: OutputSink::new(stream),
        })
    }

    /// Says what is said of standard input, and tells the flows of the others, if there are any.
    fn tell(&mut self) -> Result<(), Fault>
        ensures done { OnOk result (TellsAgain (WasRead file_gave file_ended) self.old.has_input
            (zip self.old.recordings.items self.new.recordings.items)
            (output_took self.old.output) (output_took self.new.output)) }
        ensures refusal { IfErr result (λ f. OfRefusal f (IsAgainRefusal
            (WasRead file_gave file_ended) self.old.has_input
            (zip self.old.recordings.items self.new.recordings.items)
            (output_took self.old.output) (output_took self.new.output))) }
        ensures owed { Accounts result (counts (sum_by file_failures self.old.recordings.items)
            (sum_by file_failures self.new.recordings.items)
            ∷ counts (output_failures self.old.output) (output_failures self.new.output) ∷ []) }
    {
        say_once(self.has_input, &mut self.output)?;
        if self.recordings.is_empty() {
            return Ok(());
        }
        inspect_engine::inspect(
            self.rt.alloc(),
            self.recordings.as_mut_slice(),
            Form::Lines,
            &mut self.output,
        )
    }
}

/// The files of these names, in their order, but for standard input. None is looked at yet.
fn named_but_input<'a>(
    rt: &'a HostRuntime,
    names: &[&'a str],
) -> Result<Vec<FileSource<'a>>, AllocError>
    ensures { IfOk result (λ files. All (λ f. file_gave f ≡ []) files.items) }
{
    let mut files = Vec::new(rt.alloc());
    for name in names {
        if *name != "-" {
            files.push(FileSource::new(rt, name))?;
        }
    }
    Ok(files)
}

/// Says what is said of standard input, where it was among the recordings.
fn say_once(has_input: bool, output: &mut OutputSink<Stream>) -> Result<(), DeviceFault>
    ensures said { OnOk result
        (output_took output.new ≡ output_took output.old ++ notice_if has_input) }
    ensures counted { CountsFaults (output_failures output.old) (output_failures output.new)
        result }
{
    if has_input {
        return write_whole(output, READ_ONCE);
    }
    Ok(())
}

impl<'a> Command for FlowsCommand<'a> {
    ghost is_new = { λ c. All (λ f. file_gave f ≡ []) c.recordings.items
        × (output_took c.output ≡ []) };

    // What is printed are the flows of the recordings that were read.
    ghost does = { λ old new. TellsAgain (WasRead file_gave file_ended) old.has_input
        (zip old.recordings.items new.recordings.items)
        (output_took old.output) (output_took new.output) };

    ghost is_refused = { λ old new. IsAgainRefusal (WasRead file_gave file_ended) old.has_input
        (zip old.recordings.items new.recordings.items)
        (output_took old.output) (output_took new.output) };

    ghost owes = { λ old new outcome. Accounts outcome
        (counts (sum_by file_failures old.recordings.items)
        (sum_by file_failures new.recordings.items)
        ∷ counts (output_failures old.output) (output_failures new.output) ∷ []) };

    fn run(&mut self) -> Ran {
        Ran {
            outcome: self.tell(),
            is_whole: true,
        }
    }

    fn devices(&self) -> Devices<'_> {
        Devices {
            sdp: None,
            read: last_begun(&self.recordings),
            written: None,
            output: self.output.writing(),
            kept: None,
            hints: Hints::none(),
        }
    }
}
