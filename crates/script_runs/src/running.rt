//! The commands run: each answers its exit status.
use crate::describing::SdpCommand;
use crate::rehearsing::RehearseCommand;
use crate::stream_words::read_stream;
use crate::telling::{tell_edition, tell_legs};
use crate::tracing::TraceCommand;
use crate::writing::SdpWriteCommand;
use command_end::run_command;
use command_line::SdpWords;
use program_entry::refuse_value;

/// Runs the script on standard input, and answers the exit status.
pub fn trace(rt: &HostRuntime, explains: bool) -> u8 {
    run_command(rt, explains, TraceCommand::new(rt, explains)).status
}

/// Plays the schedule on standard input, and answers the exit status.
pub fn rehearse(rt: &HostRuntime, explains: bool) -> u8 {
    run_command(rt, explains, RehearseCommand::new(rt, explains)).status
}

/// Reads an SDP text, or writes one, and answers the exit status.
pub fn sdp(rt: &HostRuntime, words: &SdpWords<'_>, explains: bool) -> u8 {
    match words {
        SdpWords::Read(file) => describe(rt, *file, explains),
        SdpWords::Write(words) => match read_stream(words) {
            Ok(stream) => run_command(rt, explains, SdpWriteCommand::new(rt, stream)).status,
            Err(value) => refuse_value(rt, value),
        },
    }
}

/// Tells the canonical line of a text, and answers the exit status. Where a fault's place is told,
/// so is what else a text says that was read well.
fn describe(rt: &HostRuntime, file: Option<&str>, explains: bool) -> u8 {
    let ended = run_command(rt, explains, SdpCommand::new(rt, file, explains));
    match ended.command.text() {
        Some(text) if ended.status == 0 => {
            tell_legs(rt, text);
            tell_edition(rt, text);
        }
        _ => {}
    }
    ended.status
}
