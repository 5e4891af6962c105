//! The program of the commands `trace`, `sdp` and `rehearse` alone: the part of `st2110` that the
//! launcher builds where these are asked for first, since it stands on half of its crates.
#![tactic(auto)]

use command_line::{Given, Words};
use program_entry::enter;
use run_outcome::Status;
use script_runs::{rehearse, sdp, trace};
use std::process::ExitCode;

fn main(rt: HostRuntime) -> ExitCode {
    enter(&rt, follow)
}

/// Runs the command, and answers the exit status.
fn follow(rt: &HostRuntime, given: &Given<'_>, explains: bool) -> u8 {
    match &given.words {
        Words::Trace => trace(rt, explains),
        Words::Sdp(words) => sdp(rt, words, explains),
        Words::Rehearse => rehearse(rt, explains),
        _ => refuse_command(rt),
    }
}

/// Says that a command isn't in this part, and answers the status.
fn refuse_command(rt: &HostRuntime) -> u8 {
    match eprintln!(rt; "st2110: this part of the program has trace, sdp and rehearse alone") {
        Ok(()) => Status::CommandLine.number(),
        Err(_) => Status::Device.number(),
    }
}
