//! A program from its words to its status.
use crate::unfollowed::refuse;
use command_line::{Given, given_words, read_words};
use std::fs::File;
use std::io::IsTerminal;
use std::process::ExitCode;

/// Reads the words of the command line and follows them, by a function that is told whether a
/// fault's place is told and answers the exit status.
pub fn enter<F: FnOnce(&HostRuntime, &Given<'_>, bool) -> u8>(
    rt: &HostRuntime,
    follow: F,
) -> ExitCode
    requires { F.IsAlwaysCallable follow }
{
    let _held = (hold_stream(rt), hold_stream(rt), hold_stream(rt));
    ExitCode::from(run(rt, follow))
}

/// Opens a device that gives and takes nothing. It takes the place of standard input, output or
/// error where that is closed; else the next file that is opened would, and get what is printed.
fn hold_stream(rt: &HostRuntime) -> Option<File> {
    let mut options = File::options();
    options.write(true);
    options.open(rt, "/dev/full").ok()
}

/// Does what the command line asks for, and answers the exit status.
fn run<F: FnOnce(&HostRuntime, &Given<'_>, bool) -> u8>(rt: &HostRuntime, follow: F) -> u8
    requires { F.IsAlwaysCallable follow }
{
    let words = match given_words(rt) {
        Ok(words) => words,
        Err(fault) => return refuse(rt, &fault),
    };
    match read_words(rt.alloc(), words.as_slice()) {
        Ok(given) => follow(rt, &given, explains_faults(rt, &given)),
        Err(fault) => refuse(rt, &fault),
    }
}

/// Whether a fault's place is told: where that is asked for, and by itself at a terminal.
fn explains_faults(rt: &HostRuntime, given: &Given<'_>) -> bool {
    given.is_verbose || !given.is_quiet && rt.stderr().is_terminal()
}
