//! `sdp` over the devices of this machine.
ghost use Rattle.std.specs.Prelude.{◌≡◌, ◌∷◌, []};
ghost use Rattle.devices.specs.Passed.{input_ended, input_failures, input_gave};
ghost use Rattle.devices.specs.Passed.{output_failures, output_took};
ghost use Rattle.run_outcome.specs.Fault.{Accounts, counts};
ghost use Rattle.script_engines.specs.Described.{DescribesVideo, IsUndescribed};
ghost use Rattle.script_engines.specs.Reading.{DoesScript, IsRefusedFor};

use crate::streams::kept;
use crate::text_reader::TextReader;
use command_end::{Command, Devices, Hints, Ran};
use devices::{InputSource, OutputSink, Reading};
use std::io::Stdout;

/// Tells the canonical line of an SDP text.
#[derive(Drop)]
pub struct SdpCommand<'a> {
    rt: &'a HostRuntime,
    /// What the text's file is called where a fault's place is told.
    name: &'a str,
    pub input: InputSource<TextReader<'a>>,
    pub output: OutputSink<Stdout>,
}

impl<'a> SdpCommand<'a> {
    /// The command of the text of this file, or of that on standard input, of which nothing is done
    /// yet. Where `is_verbose`, what is read is kept.
    pub fn new(rt: &'a HostRuntime, file: Option<&'a str>, is_verbose: bool) -> Self
        ensures { ⟦<SdpCommand<'a> as Command>⟧.is_new result }
    {
        SdpCommand {
            rt,
            name: file.unwrap_or("standard input"),
            input: InputSource::new(TextReader::new(rt, file), kept(rt, is_verbose)),
            output: OutputSink::new(rt.stdout()),
        }
    }

    /// The text, where it was kept.
    pub fn text(&self) -> Option<&[u8]> {
        self.input.kept()
    }
}

impl<'a> Command for SdpCommand<'a> {
    ghost is_new = { λ c. (input_gave c.input ≡ []) × (output_took c.output ≡ []) };

    ghost does = { λ old new. DoesScript DescribesVideo
        (input_gave old.input) (input_gave new.input) (input_ended new.input)
        (output_took old.output) (output_took new.output) };

    ghost is_refused = { λ old new. IsRefusedFor IsUndescribed
        (input_gave old.input) (input_gave new.input) (input_ended new.input) };

    ghost owes = { λ old new outcome. Accounts outcome
        (counts (input_failures old.input) (input_failures new.input)
        ∷ counts (output_failures old.output) (output_failures new.output) ∷ []) };

    fn run(&mut self) -> Ran {
        let outcome = script_engines::describe(self.rt.alloc(), &mut self.input, &mut self.output);
        Ran {
            outcome,
            is_whole: true,
        }
    }

    fn devices(&self) -> Devices<'_> {
        let reading = self.input.reading();
        Devices {
            sdp: Some(Reading {
                name: self.name,
                octet: reading.octet,
                is_packed: reading.is_packed,
                fault: reading.fault,
            }),
            read: None,
            written: None,
            output: self.output.writing(),
            kept: self.input.kept(),
            hints: Hints::none(),
        }
    }
}
