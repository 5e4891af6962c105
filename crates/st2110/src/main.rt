//! The program `st2110`: words in, a status out.
#![tactic(auto)]

mod alone;
mod converting;
mod exporting;
mod importing;
mod inspecting;
mod progress;
mod receiving;
mod sending;

use alone::{follow_stream, loop_back, merge, migrate, picture, process, report};
use command_line::{Given, Words};
use converting::convert;
use exporting::export;
use importing::import;
use inspecting::inspect;
use program_entry::enter;
use progress::meter_of;
use receiving::receive;
use script_runs::{rehearse, sdp, trace};
use sending::send;
use std::process::ExitCode;

fn main(rt: HostRuntime) -> ExitCode {
    enter(&rt, follow)
}

/// Runs the command, and answers the exit status.
// (Each command stands in a function of its own: what one with all of them owes takes longer to
// prove than all else here.)
fn follow(rt: &HostRuntime, given: &Given<'_>, explains: bool) -> u8 {
    let meter = meter_of(rt, given);
    match &given.words {
        Words::Trace => trace(rt, explains),
        Words::Sdp(words) => sdp(rt, words, explains),
        Words::Rehearse => rehearse(rt, explains),
        Words::Migrate(words) => migrate(rt, words, explains),
        Words::Send(words) => send(rt, words, explains, &meter),
        Words::Receive(words) => receive(rt, words, explains, given.is_verbose, &meter),
        Words::Merge(words) => merge(rt, words, explains),
        Words::Process(words) => process(rt, words, explains),
        Words::Report(state) => report(rt, state, explains),
        Words::Loop(words) => loop_back(rt, words, explains),
        Words::Import(words) => import(rt, words, explains, given.is_verbose, &meter),
        Words::Export(words) => export(rt, words, explains),
        Words::Inspect(words) => inspect(rt, words, explains, given.is_verbose, &meter),
        Words::Follow(words) => follow_stream(rt, words, explains, &meter),
        Words::Convert(words) => convert(rt, words, explains),
        Words::Picture(words) => picture(rt, words, explains),
    }
}
