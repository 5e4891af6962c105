//! What takes octets as they come: a device, a pipe, or standard output.
use std::fs::{self, File};
use std::io::{self, Stderr, Stdout, Write};

/// The name of standard output.
pub(crate) const OUTPUT: &str = "-";

/// How many octets are passed on at once, at most. A pipe takes a picture in pieces that stay in
/// the processor's cache until they are read a quarter faster than as a whole.
const PIECE: usize = 8_192;

/// A stream that is written: a device or a pipe by its name, standard output, or standard error.
#[derive(Drop)]
pub enum Stream {
    Named(File),
    Output(Stdout),
    Error(Stderr),
}

impl Stream {
    /// The stream of this name: standard output, or a device or a pipe, which is opened to be
    /// written.
    pub(crate) fn open(rt: &HostRuntime, name: &str) -> io::Result<Stream> {
        if name == OUTPUT {
            Ok(Stream::Output(rt.stdout()))
        } else {
            Ok(Stream::Named(fs::create(rt, name)?))
        }
    }
}

impl Write for Stream {
    fn write(&mut self, octets: &[u8]) -> io::Result<usize> {
        let piece = &octets[..octets.len().min(PIECE)];
        match self {
            Stream::Named(file) => file.write(piece),
            Stream::Output(output) => output.write(piece),
            Stream::Error(error) => error.write(piece),
        }
    }

    fn flush(&mut self) -> io::Result<()> {
        match self {
            Stream::Named(file) => file.flush(),
            Stream::Output(output) => output.flush(),
            Stream::Error(error) => error.flush(),
        }
    }
}
