//! `merge` over the devices of this machine.
ghost use Rattle.std.specs.Prelude.{◌≡◌, ◌∷◌, [], All, IfErr, IfOk, OnOk, length, sum_by};
ghost use Rattle.std.specs.List.{zip};
ghost use Rattle.devices.specs.Passed.{FileRead, file_ended, file_failures, file_gave, file_took};
ghost use Rattle.devices.specs.Passed.{HasNoPart, IsInPlace, IsUnplaced, LeavesNoPart};
ghost use Rattle.devices.specs.Passed.{output_failures, output_took, writing_failures};
ghost use Rattle.receiver_engines.specs.MergeAllRefused.{IsMergeAllRefusal};
ghost use Rattle.receiver_engines.specs.MergedAll.{MergesAll, PrintsAll};
ghost use Rattle.run_outcome.specs.Fault.{Accounts, IfRefused, counts};
ghost use Rattle.run_outcome.specs.Moments.{WasRead};
ghost use Rattle.run_outcome.specs.Refusing.{OfRefusal};
ghost use Rattle.receiver_runs.specs.Asked.{IsMergeOf};
ghost use Rattle.command_end.specs.Untouched.{AreUntouched};

use command_end::{Command, Devices, Hints, Ran};
use command_line::MergeWords;
use devices::{FileOutput, FileSource, OutputSink, Rest, Stream, last_begun, named_files};
use run_outcome::Fault;
use std::alloc::AllocError;

/// Merges receivers that were written as files: others into the left one.
#[derive(Drop)]
pub struct MergeCommand<'a> {
    rt: &'a HostRuntime,
    pub left: FileSource<'a>,
    pub others: Vec<FileSource<'a>>,
    pub state: FileOutput<'a>,
    pub output: OutputSink<Stream>,
}

impl<'a> MergeCommand<'a> {
    /// The command of these words, of which nothing is done yet, or that there is no memory for its
    /// list of files.
    pub fn new(rt: &'a HostRuntime, words: &MergeWords<'a>) -> Result<Self, AllocError>
        ensures new { IfOk result ⟦<MergeCommand<'a> as Command>⟧.is_new }
        ensures asked { IfOk result (λ c. IsMergeOf words.now c.left c.others.items c.state) }
    {
        let others = named_files(rt, words.others.as_slice())?;
        Ok(MergeCommand {
            rt,
            left: FileSource::new(rt, words.left),
            others,
            state: FileOutput::new(rt, words.state, Rest::Goes),
            output: OutputSink::beside(rt, words.state),
        })
    }
}

/// Looks at the place of the merged receiver, which may be one of those that are read, before
/// anything is read, and merges.
fn merge<'a>(
    rt: &HostRuntime,
    left: &mut FileSource<'a>,
    others: &mut [FileSource<'a>],
    state: &mut FileOutput<'_>,
    output: &mut OutputSink<Stream>,
) -> Result<(), Fault>
    requires unplaced { IsUnplaced state.old }
    ensures len { length others.new ≡ length others.old }
    ensures merged { OnOk result (MergesAll (FileRead left.old left.new)
        (WasRead file_gave file_ended) (zip others.old others.new)
        (file_took state.old) (file_took state.new)) }
    ensures printed { OnOk result (PrintsAll (FileRead left.old left.new)
        (WasRead file_gave file_ended) (zip others.old others.new)
        (output_took output.old) (output_took output.new)) }
    ensures ended { OnOk result (file_ended left.new × All file_ended others.new) }
    ensures quiet { IfErr result (λ f. IfRefused f
        (AreUntouched state.old state.new output.old output.new)) }
    // So memory is wanted.
    ensures memory { IfErr result (λ f. f ≡ Fault.Memory
        → AreUntouched state.old state.new output.old output.new) }
    ensures unplaced { IsUnplaced state.new }
    ensures rest { LeavesNoPart state.old → LeavesNoPart state.new }
    ensures refusal { IfErr result (λ f. OfRefusal f (IsMergeAllRefusal
        (FileRead left.old left.new) (WasRead file_gave file_ended)
        (zip others.old others.new))) }
    ensures owed { Accounts result (counts (file_failures left.old) (file_failures left.new)
        ∷ counts (sum_by file_failures others.old) (sum_by file_failures others.new)
        ∷ counts (writing_failures state.old) (writing_failures state.new)
        ∷ counts (output_failures output.old) (output_failures output.new) ∷ []) }
{
    state.find()?;
    receiver_engines::merge_all(rt.alloc(), left, others, &mut state.sink, output)
}

impl<'a> Command for MergeCommand<'a> {
    ghost is_new = { λ c. (file_gave c.left ≡ [])
        × All (λ f. file_gave f ≡ []) c.others.items
        × (file_took c.state ≡ []) × IsUnplaced c.state × LeavesNoPart c.state
        × (output_took c.output ≡ []) };

    // What was read are the files of receivers, what is written is that of all merged, and a line
    // is printed for each of its frames.
    ghost does = { λ old new.
        MergesAll (FileRead old.left new.left) (WasRead file_gave file_ended)
        (zip old.others.items new.others.items) (file_took old.state) (file_took new.state)
        × PrintsAll (FileRead old.left new.left) (WasRead file_gave file_ended)
        (zip old.others.items new.others.items) (output_took old.output) (output_took new.output)
        × file_ended new.left × All file_ended new.others.items };

    // Then nothing is printed or written.
    ghost is_refused = { λ old new r.
        IsMergeAllRefusal (FileRead old.left new.left) (WasRead file_gave file_ended)
        (zip old.others.items new.others.items) r
        × AreUntouched old.state new.state old.output new.output };

    // Before anything is printed or written.
    ghost wants = { λ old new. AreUntouched old.state new.state old.output new.output };

    ghost is_placed = { λ c. IsInPlace c.state };

    ghost is_unplaced = { λ c. IsUnplaced c.state × HasNoPart c.state };

    ghost owes = { λ old new outcome. Accounts outcome
        (counts (file_failures old.left) (file_failures new.left)
        ∷ counts (sum_by file_failures old.others.items) (sum_by file_failures new.others.items)
        ∷ counts (writing_failures old.state) (writing_failures new.state)
        ∷ counts (output_failures old.output) (output_failures new.output) ∷ []) };

    fn run(&mut self) -> Ran {
        let outcome = merge(
            self.rt,
            &mut self.left,
            self.others.as_mut_slice(),
            &mut self.state,
            &mut self.output,
        );
        Ran {
            outcome,
            is_whole: self.state.settle(outcome.is_ok()),
        }
    }

    fn devices(&self) -> Devices<'_> {
        Devices {
            sdp: None,
            read: last_begun(&self.others).or(self.left.begun()),
            written: Some(self.state.writing()),
            output: self.output.writing(),
            kept: None,
            hints: Hints::none(),
        }
    }
}
