//! `export`, by the records' moments or paced.
use command_end::run_command;
use command_line::{ExportWords, WordsFault};
use program_entry::refuse;
use recording_runs::{ExportCommand, PacedCommand};
use std::fs;

/// Writes a capture as a recording, and answers the exit status. Where packets are paced the
/// capture is read twice, so it has to be a plain file.
pub fn export(rt: &HostRuntime, words: &ExportWords<'_>, explains: bool) -> u8 {
    match words.paced {
        None => run_command(rt, explains, ExportCommand::new(rt, words)).status,
        Some(start) if is_readable_twice(rt, words.capture) => {
            run_command(rt, explains, PacedCommand::new(rt, words, start)).status
        }
        Some(_) => refuse(rt, &WordsFault::NotPlain),
    }
}

/// Whether what has this name can be read twice: it is a plain file, or there is none.
fn is_readable_twice(rt: &HostRuntime, name: &str) -> bool {
    match fs::metadata(rt, name) {
        Ok(found) => found.is_file(),
        Err(_) => true,
    }
}
