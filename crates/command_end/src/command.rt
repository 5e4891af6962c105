//! A command over its devices: what it does, and how it ends.
ghost use Rattle.std.specs.Prelude.{◌≡◌, ◌≢◌, ◌⊎◌, [], IfErr, IsErr, IsFalse, IsTrue, OnErr};
ghost use Rattle.std.specs.Prelude.{OnOk, Result, ⊤};
ghost use Rattle.command_end.specs.Ended.{EndsBy, TellsDevice};
ghost use Rattle.devices.specs.Passed.{output_failures, output_took};
ghost use Rattle.run_outcome.specs.Refusing.{OfRefusal};
ghost use Rattle.run_outcome.specs.declared.fault.Fault.{Fault as Cause};
ghost use Rattle.run_outcome.specs.declared.fault.Fault.TheVariants.{Memory};
ghost use Rattle.run_outcome.specs.declared.refusal.Refusal.{Refusal as Reason};
ghost use Rattle.st_format.specs.Device.{Failed};

use crate::ending::end_run;
use crate::hints::Hints;
use crate::places::Devices;
use devices::OutputSink;
use run_outcome::Fault;
use std::io::Stderr;

/// What a command came to.
#[derive(Clone, Copy)]
pub struct Ran {
    /// What its engine answered.
    pub outcome: Result<(), Fault>,
    /// Whether all that it wrote is written out, which its engine can't know.
    pub is_whole: bool,
}

/// A command over its devices, as `main` runs it: of a fault a `run_` call of `st2110_tool` leaves
/// a status and a line, and `--verbose` explains the fault itself, by the devices.
pub trait Command {
    /// Nothing was read and nothing written yet, and no device has failed.
    ghost is_new: { Self → Type 0 };

    /// What a run that ends well reads and writes: the command before it, and after.
    ghost does: { Self → Self → Type 0 };

    /// Which refusals speak against the words, and against what was read.
    ghost is_refused: { Self → Self → Reason → Type 0 };

    /// Which devices failed, by what the run came to.
    ghost owes: { Self → Self → Result (Unit {0}) Cause → Type 0 };

    /// The file that it writes has its name, all of it.
    ghost is_placed: { Self → Type 0 } = { λ _. ⊤ };

    /// What stood under that name stands there, or what the command leaves where it ends by a
    /// fault.
    ghost is_unplaced: { Self → Type 0 } = { λ _. ⊤ };

    /// What a run that ends by a fault has written for good: the command before it, and after.
    ghost leaves: { Self → Self → Type 0 } = { λ _ _. ⊤ };

    /// What a run that wanted memory left: the command before it, and after.
    ghost wants: { Self → Self → Type 0 } = { λ _ _. ⊤ };

    /// Reads and writes all that the command does.
    fn run(&mut self) -> Ran
        requires { is_new self.old }
        ensures done { OnOk result.outcome (does self.old self.new) }
        ensures refusal { IfErr result.outcome
            (λ f. OfRefusal f (is_refused self.old self.new)) }
        ensures owed { owes self.old self.new result.outcome }
        ensures placed { OnOk result.outcome (IsTrue result.is_whole → is_placed self.new) }
        ensures unplaced { IsErr result.outcome ⊎ IsFalse result.is_whole
            → is_unplaced self.new }
        ensures left { OnErr result.outcome (leaves self.old self.new) }
        ensures wanted { IfErr result.outcome (λ f. f ≡ Memory → wants self.old self.new) };

    /// The devices, where a fault is explained.
    fn devices(&self) -> Devices<'_>;
}

/// A command that was run and ended, and what it came to.
#[derive(Drop)]
pub struct Ended<C> {
    /// The exit status, as `run_command` says it: 0, 1, 3 or 4.
    pub status: u8,
    /// Whether all that it wrote is written out.
    pub is_whole: bool,
    /// The command, with what its devices gave and took.
    pub command: C,
    /// Standard error, with the line that it was told.
    pub faults: OutputSink<Stderr>,
}

/// Runs a command, and ends it.
///
/// The status is 0 where all was done, and what was written has the name that it is to have; else
/// what stood there stands there still. It is 1 where the words or what was read are refused; 3
/// where a device failed, also standard error, or what was written could not be written out; and 4
/// where memory was wanted, also for a file's buffer. Of 1, 3 and 4 standard error is told by a
/// line, and where that is asked for by one more, which says where the fault is and what was wanted
/// there.
pub fn run_command<C: Command + Drop>(rt: &HostRuntime, is_verbose: bool, command: C) -> Ended<C>
    requires { C.is_new command }
    ensures ends { EndsBy C.is_new C.does C.is_refused C.owes C.leaves C.wants result.status
        result.is_whole result.command (output_took result.faults)
        (output_failures result.faults) }
    // At 3 standard error was told of the device last, unless it failed itself.
    ensures blamed { result.status ≡ 3 → Failed 0 (output_failures result.faults)
        ⊎ TellsDevice (C.is_refused command result.command) result.is_whole []
        (output_took result.faults) }
    ensures placed { result.status ≡ 0 → C.is_placed result.command }
    ensures unplaced { result.status ≢ 0 → C.is_unplaced result.command }
{
    let mut command = command;
    let mut faults = OutputSink::new(rt.stderr());
    let ran = command.run();
    let devices = command.devices();
    let status = end_run(rt, is_verbose, ran, &devices, &mut faults);
    Ended {
        status,
        is_whole: ran.is_whole,
        command,
        faults,
    }
}

/// Ends a command whose list of files there was no memory for, and answers the exit status: 4, or 3
/// where standard error failed.
pub fn end_without_memory(rt: &HostRuntime, is_verbose: bool) -> u8
    ensures { (result ≡ 3) ⊎ (result ≡ 4) }
{
    let mut faults = OutputSink::new(rt.stderr());
    let ran = Ran {
        outcome: Err(Fault::Memory),
        is_whole: true,
    };
    end_run(rt, is_verbose, ran, &no_devices(rt), &mut faults)
}

/// Where no device was used yet.
fn no_devices(rt: &HostRuntime) -> Devices<'static> {
    Devices {
        sdp: None,
        read: None,
        written: None,
        output: OutputSink::new(rt.stdout()).writing(),
        kept: None,
        hints: Hints::none(),
    }
}
