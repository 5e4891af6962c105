//! `rehearse` over the devices of this machine.
ghost use Rattle.std.specs.Prelude.{◌≡◌, ◌∷◌, []};
ghost use Rattle.std.specs.declared.alloc.Global.{Global};
ghost use Rattle.devices.specs.Passed.{input_ended, input_failures, input_gave};
ghost use Rattle.devices.specs.Passed.{output_failures, output_took};
ghost use Rattle.run_outcome.specs.Fault.{Accounts, counts};
ghost use Rattle.script_engines.specs.Reading.{DoesScript, IsRefusedFor};
ghost use Rattle.script_engines.specs.Rehearsed.{IsRefusedScript, Rehearses};

use crate::streams::Streams;
use command_end::{Command, Devices, Hints, Ran};

/// Plays the schedule on standard input.
#[derive(Drop)]
pub struct RehearseCommand<'a> {
    rt: &'a HostRuntime,
    pub streams: Streams,
}

impl<'a> RehearseCommand<'a> {
    /// The command, of which nothing is done yet. Where `is_verbose`, what is read is kept.
    pub fn new(rt: &'a HostRuntime, is_verbose: bool) -> Self
        ensures { ⟦<RehearseCommand<'a> as Command>⟧.is_new result }
    {
        RehearseCommand {
            rt,
            streams: Streams::new(rt, is_verbose),
        }
    }
}

impl<'a> Command for RehearseCommand<'a> {
    ghost is_new = { λ c. (input_gave c.streams.input ≡ [])
        × (output_took c.streams.output ≡ []) };

    ghost does = { λ old new. DoesScript (Rehearses Global)
        (input_gave old.streams.input) (input_gave new.streams.input)
        (input_ended new.streams.input)
        (output_took old.streams.output) (output_took new.streams.output) };

    ghost is_refused = { λ old new. IsRefusedFor IsRefusedScript
        (input_gave old.streams.input) (input_gave new.streams.input)
        (input_ended new.streams.input) };

    ghost owes = { λ old new outcome. Accounts outcome
        (counts (input_failures old.streams.input) (input_failures new.streams.input)
        ∷ counts (output_failures old.streams.output) (output_failures new.streams.output) ∷ []) };

    fn run(&mut self) -> Ran {
        let streams = &mut self.streams;
        let outcome = script_engines::rehearse(
            self.rt.alloc(),
            &mut streams.input,
            &mut streams.output,
        );
        Ran {
            outcome,
            is_whole: true,
        }
    }

    fn devices(&self) -> Devices<'_> {
        Devices {
            sdp: None,
            read: Some(self.streams.input.reading()),
            written: None,
            output: self.streams.output.writing(),
            kept: self.streams.input.kept(),
            hints: Hints::none(),
        }
    }
}
