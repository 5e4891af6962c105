//! `import`, and what it tells behind its counts.
use crate::alone::run_made;
use command_end::{Command, end_without_memory, run_command};
use command_line::ImportWords;
use devices::{FileSource, Meter, Stream};
use recording_counts::LeftOut;
use recording_engines::ImportFile;
use recording_runs::{FlowsCommand, ImportCommand};
use std::alloc::{AllocError, Global};

/// Makes a capture of captures and recordings, and answers the exit status. Where nothing was
/// recorded, the flows that the recordings have are told by one command more.
pub fn import(
    rt: &HostRuntime,
    words: &ImportWords<'_>,
    explains: bool,
    is_verbose: bool,
    meter: &Meter,
) -> u8 {
    match ImportCommand::new(rt, words, meter) {
        Ok(command) => record(rt, words, command, explains, is_verbose),
        Err(_) => end_without_memory(rt, explains),
    }
}

/// Runs the command, and answers the exit status. Why packets were left out is told where that is
/// asked for, and where nothing was recorded.
fn record<'a>(
    rt: &HostRuntime,
    words: &ImportWords<'_>,
    command: ImportCommand<'a>,
    explains: bool,
    is_verbose: bool,
) -> u8
    requires { ⟦<ImportCommand<'a> as Command>⟧.is_new command }
{
    let ended = run_command(rt, explains, command);
    let Some(counts) = &ended.command.counts else {
        return ended.status;
    };
    let is_none = counts.a == 0 && counts.b == 0;
    if is_verbose || is_none {
        tell_left_out(rt, &counts.left_out);
    }
    if is_none && ended.status == 0 {
        return tell_flows(rt, words, ended.command.files.as_slice(), explains);
    }
    ended.status
}

/// Tells the flows of those files that are recordings, where the counts were told: on standard
/// output, or where that is the capture on standard error. Answers the exit status.
fn tell_flows(
    rt: &HostRuntime,
    words: &ImportWords<'_>,
    files: &[ImportFile<Global, FileSource<'_>>],
    explains: bool,
) -> u8 {
    let Ok(names) = recordings(rt, words, files) else {
        return end_without_memory(rt, explains);
    };
    let stream = if words.out == "-" {
        Stream::Error(rt.stderr())
    } else {
        Stream::Output(rt.stdout())
    };
    run_made(
        rt,
        explains,
        FlowsCommand::new(rt, names.as_slice(), stream),
    )
}

fn recordings<'a>(
    rt: &HostRuntime,
    words: &ImportWords<'a>,
    files: &[ImportFile<Global, FileSource<'_>>],
) -> Result<Vec<&'a str>, AllocError> {
    let mut names = Vec::new(rt.alloc());
    for (name, file) in words.recordings.iter().zip(files.iter()) {
        if file.is_recording() {
            names.push(*name)?;
        }
    }
    Ok(names)
}

/// Tells how many packets were left out, by the reason. That standard error may fail changes
/// nothing.
pub(crate) fn tell_left_out(rt: &HostRuntime, left_out: &LeftOut) {
    for (omission, count) in left_out.each() {
        if count > 0 {
            let _ = eprintln!(rt; "  left out {count} {}", omission.name());
        }
    }
}
