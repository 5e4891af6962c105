//! Standard input or a file, as the text that is read.
use std::fs::{self, File};
use std::io::{self, Read, Stdin};

/// Standard input, or a file, which is opened where its first octets are wanted.
#[derive(Drop)]
pub enum TextReader<'a> {
    Input(Stdin),
    /// The file of this name, which isn't open yet.
    Unopened(&'a HostRuntime, &'a str),
    Open(File),
}

impl<'a> TextReader<'a> {
    /// The file of this name, where one is named, else standard input.
    pub(crate) fn new(rt: &'a HostRuntime, name: Option<&'a str>) -> Self {
        match name {
            Some(name) => TextReader::Unopened(rt, name),
            None => TextReader::Input(rt.stdin()),
        }
    }
}

impl Read for TextReader<'_> {
    fn read(&mut self, buf: &mut [u8]) -> io::Result<usize> {
        if let TextReader::Unopened(rt, name) = *self {
            *self = TextReader::Open(fs::open(rt, name)?);
        }
        match self {
            TextReader::Input(input) => input.read(buf),
            TextReader::Open(file) => file.read(buf),
            TextReader::Unopened(..) => Ok(0),
        }
    }
}
