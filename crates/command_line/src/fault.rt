//! Why the words of the command line are not followed.
use clap::Error;
use clap::error::ErrorKind;
use std::alloc::AllocError;
use std::io;

/// Why the words are not followed.
#[derive(Drop)]
pub enum WordsFault {
    /// Memory was wanted.
    NoMemory,
    /// A word isn't UTF-8.
    NoText,
    /// What is to be read twice is no plain file.
    NotPlain,
    /// A word is none of its option's, for this reason.
    Misworded(String),
    /// Help or the version was asked for.
    Shown(Error),
    /// They are no command line of the program.
    Refused(Error),
}

impl From<AllocError> for WordsFault {
    fn from(_: AllocError) -> WordsFault {
        WordsFault::NoMemory
    }
}

impl From<io::Error> for WordsFault {
    fn from(error: io::Error) -> WordsFault {
        match error.kind() {
            io::ErrorKind::OutOfMemory => WordsFault::NoMemory,
            _ => WordsFault::NoText,
        }
    }
}

impl From<Error> for WordsFault {
    fn from(error: Error) -> WordsFault {
        match error.kind() {
            ErrorKind::OutOfMemory => WordsFault::NoMemory,
            ErrorKind::DisplayHelp | ErrorKind::DisplayVersion => WordsFault::Shown(error),
            _ => WordsFault::Refused(error),
        }
    }
}

impl WordsFault {
    /// Prints why the words are not followed: help and version to standard output, all else to
    /// standard error.
    pub fn print<R: Print + Eprint>(&self, rt: &R) -> io::Result<()> {
        match self {
            WordsFault::NoMemory => eprintln!(rt; "st2110: memory"),
            WordsFault::NoText => eprintln!(rt; "error: the command line is no UTF-8 text"),
            WordsFault::NotPlain => {
                eprintln!(rt;
                    "error: --paced reads the capture twice, so it has to be a plain file"
                )
            }
            WordsFault::Misworded(text) => {
                eprintln!(rt; "error: {text}\n\nFor more information, try '--help'.")
            }
            WordsFault::Shown(text) | WordsFault::Refused(text) => text.print(rt),
        }
    }
}

/// A value of an option that isn't of its form, which is found where it is read.
#[derive(Clone, Copy)]
pub struct BadValue<'a> {
    /// The option and what its value is called, as `--a <ADDR:PORT>`.
    pub option: &'static str,
    pub value: &'a str,
    /// What was wanted, for a person.
    pub wanted: &'static str,
}

impl BadValue<'_> {
    /// Prints it to standard error, as clap does of values that it reads.
    pub fn print<R: Eprint>(&self, rt: &R) -> io::Result<()> {
        let (option, value, wanted) = (self.option, self.value, self.wanted);
        eprintln!(rt; "error: invalid value '{value}' for '{option}': {wanted}")?;
        eprintln!(rt; "\nFor more information, try '--help'.")
    }
}
