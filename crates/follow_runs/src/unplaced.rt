//! A file that is written under another name than its own.
ghost use Rattle.std.specs.Prelude.{None};
ghost use Rattle.devices.specs.Passed.{IsUnplaced, sink_took, writing_failures};

use devices::FileOutput;
use st_format::{ByteSink, DeviceFault};

/// A file that is written, and has not its name yet.
#[derive(Drop)]
pub struct UnplacedOutput<'a> {
    pub file: FileOutput<'a>,
    pub ghost unplaced: { IsUnplaced file },
}

impl ByteSink for UnplacedOutput<'_> {
    ghost held = { λ _. None };

    ghost took = { λ s. sink_took s.file.sink };

    ghost failures = { λ s. writing_failures s.file };

    fn write(&mut self, octets: &[u8]) -> Result<usize, DeviceFault> {
        self.file.sink.write(octets)
    }
}
