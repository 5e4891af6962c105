//! A writer that notes what it took.
ghost use Rattle.std.specs.Prelude.{◌≡◌, [], Some};

use crate::history::History;
use std::io::{self, Write};

/// A writer, and what it took so far.
#[derive(Drop)]
pub(crate) struct Noted<W: Write + Drop> {
    writer: W,
    wrote: History,
}

impl<W: Write + Drop> Noted<W> {
    /// A writer that took nothing yet.
    pub(crate) fn new(writer: W) -> Self
        ensures { result.wrote.octets ≡ [] }
    {
        Noted {
            writer,
            wrote: History::new(),
        }
    }

    /// The writer itself, for what a draft asks of its file.
    pub(crate) fn writer(&self) -> &W
        ensures { result.now ≡ self.now.writer }
    {
        &self.writer
    }

    /// What it took, for the clauses behind; the writer is given up.
    pub(crate) fn into_wrote(self) -> History
        ensures { result ≡ self.wrote }
    {
        self.wrote
    }
}

impl<W: Write + Drop> Write for Noted<W> {
    ghost contents = { λ w. Some w.wrote.octets };

    fn write(&mut self, octets: &[u8]) -> io::Result<usize> {
        let n = self.writer.write(octets)?;
        self.wrote.note(&octets[..n]);
        Ok(n)
    }

    fn flush(&mut self) -> io::Result<()> {
        self.writer.flush()
    }
}
