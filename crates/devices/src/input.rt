//! Standard input as a device. It tells the octets that it gave, and not those that it will give.
ghost use Rattle.std.specs.Prelude.{◌≡◌, ◌+◌, ◌-◌, ◌^◌, [], min, None, true};

use crate::history::History;
use crate::standing::Reading;
use st_format::{ByteSource, DeviceFault};
use std::io::{self, Read};

/// Standard input, or any other reader in its place.
#[derive(Drop)]
pub struct InputSource<R: Read + Drop> {
    reader: R,
    /// Whether its last reading told the end.
    is_ended: bool,
    gave: History,
    failures: u64,
    /// How many octets were read: the place where the reading stands.
    octet: u64,
    /// Why it failed last.
    fault: Option<io::Error>,
    /// All that was read so far, where a fault's line is to be shown of it.
    kept: Option<Vec<u8>>,
}

impl<R: Read + Drop> InputSource<R> {
    /// A source that keeps what it reads behind what `kept` has, if there is any.
    pub fn new(reader: R, kept: Option<Vec<u8>>) -> Self
        ensures unfailed { ⟦<InputSource<R> as ByteSource>⟧.failures result ≡ 0 }
        ensures fresh { ⟦<InputSource<R> as ByteSource>⟧.gave result ≡ [] }
    {
        InputSource {
            reader,
            is_ended: false,
            gave: History::new(),
            failures: 0,
            octet: 0,
            fault: None,
            kept,
        }
    }

    /// All that was read so far, where it is kept and there was memory for it.
    pub fn kept(&self) -> Option<&[u8]> {
        match &self.kept {
            Some(kept) => Some(kept.as_slice()),
            None => None,
        }
    }

    /// Where the reading stands: how many octets were read, and why it failed last.
    pub fn reading(&self) -> Reading<'static> {
        Reading {
            name: "standard input",
            octet: self.octet,
            is_packed: false,
            fault: self.fault,
        }
    }

    /// Keeps what was read. Without memory for it nothing is kept.
    fn keep(&mut self, octets: &[u8])
        ensures failures { self.new.failures ≡ self.old.failures }
        ensures gave { self.new.gave.octets ≡ self.old.gave.octets }
    {
        self.octet = self.octet.saturating_add(octets.len() as u64);
        let Some(kept) = &mut self.kept else {
            return;
        };
        if kept.extend_from_slice(octets).is_err() {
            self.kept = None;
        }
    }
}

impl<R: Read + Drop> ByteSource for InputSource<R> {
    ghost to_give = { λ _. None };

    ghost gave = { λ s. s.gave.octets };

    ghost ended = { λ s. s.is_ended ≡ true };

    ghost failures = { λ s. s.failures };

    fn read(&mut self, buf: &mut [u8]) -> Result<usize, DeviceFault> {
        match self.reader.read(buf) {
            Ok(n) => {
                self.keep(&buf[..n]);
                self.gave.note(&buf[..n]);
                self.is_ended = n == 0;
                Ok(n)
            }
            Err(fault) => {
                self.fault = Some(fault);
                self.failures = self.failures.saturating_add(1);
                Err(DeviceFault)
            }
        }
    }
}
