//! The commands that tell nothing beside what they print. Each answers the exit status.
ghost use Rattle.std.specs.Result.{ForOk};

use capture_runs::{LoopCommand, MigrateCommand};
use command_end::{Command, end_without_memory, run_command};
use command_line::{FollowWords, LoopWords, MergeWords, MigrateWords, PictureWords, ProcessWords};
use devices::Meter;
use follow_runs::FollowCommand;
use picture_runs::PictureCommand;
use receiver_runs::{MergeCommand, ProcessCommand, ReportCommand};
use std::alloc::AllocError;

/// Writes a capture of version 01 as one of version 02.
pub fn migrate(rt: &HostRuntime, words: &MigrateWords<'_>, explains: bool) -> u8 {
    run_command(rt, explains, MigrateCommand::new(rt, words)).status
}

/// Merges receivers' files into one.
pub fn merge(rt: &HostRuntime, words: &MergeWords<'_>, explains: bool) -> u8 {
    run_made(rt, explains, MergeCommand::new(rt, words))
}

/// Runs a job on frames of receivers, and sends its picture.
pub fn process(rt: &HostRuntime, words: &ProcessWords<'_>, explains: bool) -> u8 {
    run_made(rt, explains, ProcessCommand::new(rt, words))
}

/// Reports what a receiver's file lacks, by its name.
pub fn report(rt: &HostRuntime, state: &str, explains: bool) -> u8 {
    run_command(rt, explains, ReportCommand::new(rt, state)).status
}

/// Sends a picture over a link, and takes what comes.
pub fn loop_back(rt: &HostRuntime, words: &LoopWords<'_>, explains: bool) -> u8 {
    run_command(rt, explains, LoopCommand::new(rt, words)).status
}

/// Follows a stream, and tells every frame of it.
pub fn follow_stream(
    rt: &HostRuntime,
    words: &FollowWords<'_>,
    explains: bool,
    meter: &Meter,
) -> u8 {
    run_made(rt, explains, FollowCommand::new(rt, words, meter))
}

/// Writes a frame of a receiver as a picture's file.
pub fn picture(rt: &HostRuntime, words: &PictureWords<'_>, explains: bool) -> u8 {
    run_command(rt, explains, PictureCommand::new(rt, words)).status
}

/// Runs a command, or ends where there was no memory for its list of files, and answers the exit
/// status.
pub fn run_made<C: Command + Drop>(
    rt: &HostRuntime,
    explains: bool,
    made: Result<C, AllocError>,
) -> u8
    requires { ForOk made C.is_new }
{
    match made {
        Ok(command) => run_command(rt, explains, command).status,
        Err(_) => end_without_memory(rt, explains),
    }
}
