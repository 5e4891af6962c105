//! Standard output and error as devices. They tell the octets that they took.
ghost use Rattle.std.specs.Prelude.{◌≡◌, ◌+◌, ◌-◌, ◌^◌, ◌<◌, ◌↔◌, [], IsTrue, min, None};

use crate::history::History;
use crate::meter::Meter;
use crate::standing::Writing;
use crate::stream::{OUTPUT, Stream};
use st_format::{ByteSink, DeviceFault};
use std::io::{self, Write};

/// Standard output, or any other writer in its place.
#[derive(Drop)]
pub struct OutputSink<W: Write + Drop> {
    writer: W,
    name: &'static str,
    took: History,
    failures: u64,
    /// Why it failed last, where the system said so.
    fault: Option<io::Error>,
    /// What may stand in a terminal's line, which is taken from there before anything is written.
    meter: Meter,
}

impl<W: Write + Drop> OutputSink<W> {
    /// A sink that passes on to a writer what comes.
    pub fn new(writer: W) -> Self
        ensures unfailed { ⟦<OutputSink<W> as ByteSink>⟧.failures result ≡ 0 }
        ensures fresh { ⟦<OutputSink<W> as ByteSink>⟧.took result ≡ [] }
    {
        OutputSink {
            writer,
            name: "standard output",
            took: History::new(),
            failures: 0,
            fault: None,
            meter: Meter::silent(),
        }
    }

    /// The same beside a meter, whose line is taken from a terminal before anything is written.
    pub fn metered(self, meter: &Meter) -> Self
        ensures failures { ⟦<OutputSink<W> as ByteSink>⟧.failures result
            ≡ ⟦<OutputSink<W> as ByteSink>⟧.failures self }
        ensures took { ⟦<OutputSink<W> as ByteSink>⟧.took result
            ≡ ⟦<OutputSink<W> as ByteSink>⟧.took self }
    {
        let mut sink = self;
        sink.meter = meter.share();
        sink
    }

    /// Takes the meter's line from a terminal, if one stands there.
    pub fn clear(&self) {
        self.meter.clear();
    }

    /// How the writing went, for what a person is told of it.
    pub fn writing(&self) -> Writing<'static>
        ensures { IsTrue result.has_failed
            ↔ (0 < ⟦<OutputSink<W> as ByteSink>⟧.failures self.now) }
    {
        Writing {
            name: self.name,
            has_failed: self.failures > 0,
            fault: self.fault,
            left: None,
        }
    }
}

impl OutputSink<Stream> {
    /// What lines are printed to where a command writes this file: standard output, or where that
    /// is the file standard error.
    pub fn beside(rt: &HostRuntime, file: &str) -> Self
        ensures unfailed { ⟦<OutputSink<Stream> as ByteSink>⟧.failures result ≡ 0 }
        ensures fresh { ⟦<OutputSink<Stream> as ByteSink>⟧.took result ≡ [] }
    {
        if file == OUTPUT {
            let mut sink = OutputSink::new(Stream::Error(rt.stderr()));
            sink.name = "standard error";
            sink
        } else {
            OutputSink::new(Stream::Output(rt.stdout()))
        }
    }
}

impl<W: Write + Drop> ByteSink for OutputSink<W> {
    ghost held = { λ _. None };

    ghost took = { λ s. s.took.octets };

    ghost failures = { λ s. s.failures };

    /// A write of no octets of some is a failure.
    fn write(&mut self, octets: &[u8]) -> Result<usize, DeviceFault> {
        self.meter.clear();
        match self.writer.write(octets) {
            Ok(n) if n > 0 || octets.is_empty() => {
                self.took.note(&octets[..n]);
                Ok(n)
            }
            outcome => {
                self.fault = outcome.err();
                self.failures = self.failures.saturating_add(1);
                Err(DeviceFault)
            }
        }
    }
}
