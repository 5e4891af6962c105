//! `sdp --write` over the devices of this machine.
ghost use Rattle.std.specs.Prelude.{◌≡◌, ◌∷◌, [], IfErr, OnOk};
ghost use Rattle.devices.specs.Passed.{output_failures, output_took};
ghost use Rattle.run_outcome.specs.Fault.{Accounts, counts};
ghost use Rattle.run_outcome.specs.Refusing.{OfRefusal};
ghost use Rattle.script_runs.specs.Announced.{IsUnannounced, PrintsSdp};

use crate::announced::AnnouncedStream;
use command_end::{Command, Devices, Hints, Ran};
use devices::OutputSink;
use run_outcome::{Fault, LineFault};
use sdp_writing::{usual_sdp, write_sdp};
use st_format::write_whole;
use std::io::Stdout;

/// Writes the SDP text of a stream.
#[derive(Drop)]
pub struct SdpWriteCommand<'a> {
    rt: &'a HostRuntime,
    pub stream: AnnouncedStream,
    pub output: OutputSink<Stdout>,
}

impl<'a> SdpWriteCommand<'a> {
    /// The command, of which nothing is done yet.
    pub fn new(rt: &'a HostRuntime, stream: AnnouncedStream) -> Self
        ensures { ⟦<SdpWriteCommand<'a> as Command>⟧.is_new result }
    {
        SdpWriteCommand {
            rt,
            stream,
            output: OutputSink::new(rt.stdout()),
        }
    }
}

/// Writes the text of a stream, or refuses a format that is none.
fn announce(
    rt: &HostRuntime,
    stream: &AnnouncedStream,
    output: &mut OutputSink<Stdout>,
) -> Result<(), Fault>
    ensures announced { OnOk result
        (PrintsSdp stream.now (output_took output.old) (output_took output.new)) }
    ensures refusal { IfErr result (λ f. OfRefusal f (IsUnannounced stream.now)) }
    ensures owed { Accounts result
        (counts (output_failures output.old) (output_failures output.new) ∷ []) }
{
    let format = match stream.format {
        Ok(format) => format,
        Err(fault) => return Err(LineFault::Format(fault).refused_at(1)),
    };
    let sdp = usual_sdp(stream.payload_type, format, stream.a, stream.b);
    let text = write_sdp(rt.alloc(), &sdp, stream.a, stream.b)?;
    write_whole(output, &text)?;
    Ok(())
}

impl<'a> Command for SdpWriteCommand<'a> {
    ghost is_new = { λ c. output_took c.output ≡ [] };

    // What is printed is an SDP text that says the stream.
    ghost does = { λ old new. PrintsSdp old.stream
        (output_took old.output) (output_took new.output) };

    ghost is_refused = { λ old new. IsUnannounced old.stream };

    ghost owes = { λ old new outcome. Accounts outcome
        (counts (output_failures old.output) (output_failures new.output) ∷ []) };

    fn run(&mut self) -> Ran {
        Ran {
            outcome: announce(self.rt, &self.stream, &mut self.output),
            is_whole: true,
        }
    }

    fn devices(&self) -> Devices<'_> {
        Devices {
            sdp: None,
            read: None,
            written: None,
            output: self.output.writing(),
            kept: None,
            hints: Hints::none(),
        }
    }
}
