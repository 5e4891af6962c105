//! `report` over the devices of this machine.
ghost use Rattle.std.specs.Prelude.{◌≡◌, ◌∷◌, []};
ghost use Rattle.devices.specs.Passed.{FileRead, file_ended, file_failures, file_gave};
ghost use Rattle.devices.specs.Passed.{file_path};
ghost use Rattle.devices.specs.Passed.{output_failures, output_took};
ghost use Rattle.receiver_engines.specs.Reporting.{Reports};
ghost use Rattle.receiver_engines.specs.States.{IsStateRefusal};
ghost use Rattle.run_outcome.specs.Fault.{Accounts, counts};

use command_end::{Command, Devices, Hints, Ran};
use devices::{FileSource, OutputSink};
use std::io::Stdout;

/// Prints what a receiver lacks that was written as a file.
#[derive(Drop)]
pub struct ReportCommand<'a> {
    rt: &'a HostRuntime,
    pub state: FileSource<'a>,
    pub output: OutputSink<Stdout>,
}

impl<'a> ReportCommand<'a> {
    /// The command for the receiver's file of this name, of which nothing is done yet.
    pub fn new(rt: &'a HostRuntime, name: &'a str) -> Self
        ensures new { ⟦<ReportCommand<'a> as Command>⟧.is_new result }
        ensures asked { file_path result.state ≡ name.now }
    {
        ReportCommand {
            rt,
            state: FileSource::new(rt, name),
            output: OutputSink::new(rt.stdout()),
        }
    }
}

impl<'a> Command for ReportCommand<'a> {
    ghost is_new = { λ c. (file_gave c.state ≡ []) × (output_took c.output ≡ []) };

    // What was read is the file of a receiver, and what is printed is its report.
    ghost does = { λ old new. Reports (FileRead old.state new.state)
        (output_took old.output) (output_took new.output) × file_ended new.state };

    // Then nothing is printed.
    ghost is_refused = { λ old new r. IsStateRefusal (FileRead old.state new.state) r
        × (output_took new.output ≡ output_took old.output) };

    ghost owes = { λ old new outcome. Accounts outcome
        (counts (file_failures old.state) (file_failures new.state)
        ∷ counts (output_failures old.output) (output_failures new.output) ∷ []) };

    fn run(&mut self) -> Ran {
        let outcome = receiver_engines::report(self.rt.alloc(), &mut self.state, &mut self.output);
        Ran {
            outcome,
            is_whole: true,
        }
    }

    fn devices(&self) -> Devices<'_> {
        Devices {
            sdp: None,
            read: self.state.begun(),
            written: None,
            output: self.output.writing(),
            kept: None,
            hints: Hints::none(),
        }
    }
}
