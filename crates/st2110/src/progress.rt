//! Whether and how it is told how far a command is that reads long files.
use command_line::{Given, Words};
use devices::Meter;
use std::io::IsTerminal;

/// What tells how far the command is: where that is asked for, and by itself at a terminal.
pub fn meter_of(rt: &HostRuntime, given: &Given<'_>) -> Meter {
    let is_terminal = rt.stderr().is_terminal() && !prints_lines(rt, &given.words);
    let is_shown = is_terminal && !given.is_quiet && is_long(&given.words);
    if given.has_progress || is_shown {
        Meter::start(rt, is_terminal)
    } else {
        Meter::silent()
    }
}

/// Whether a command reads long files.
fn is_long(words: &Words<'_>) -> bool {
    matches!(
        words,
        Words::Send(_) | Words::Receive(_) | Words::Import(_) | Words::Inspect(_) | Words::Follow(_)
    )
}

/// Whether a command prints lines to a terminal while it reads, which show how far it is.
fn prints_lines(rt: &HostRuntime, words: &Words<'_>) -> bool {
    match words {
        Words::Follow(words) => words.out == Some("-") || rt.stdout().is_terminal(),
        _ => false,
    }
}
