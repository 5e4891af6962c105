//! `receive`, and what it tells where little or nothing was kept.
use crate::alone::run_made;
use crate::importing::tell_left_out;
use capture_engines::{REFUSAL_COUNT, Reception, Seen, Tally, refusal_at};
use capture_runs::{Files, ReceiveCommand};
use command_end::run_command;
use command_line::ReceiveWords;
use devices::{Meter, Stream};
use recording_counts::LeftOut;
use recording_runs::FlowsCommand;
use std::alloc::AllocError;
use std::fmt;

/// How many refusals are named in the line, those that came most often.
const NAMED: usize = 3;

/// Takes the datagrams of captures and recordings into one receiver, and answers the exit status.
/// Where none was kept, or more came to nothing than were kept, one line more says so and why; else
/// packets that were left out are told by the reason where that is asked for. Where a flow was
/// asked for of which no datagram came, standard error is told the flows that the recordings have.
/// That this may fail changes nothing.
pub fn receive(
    rt: &HostRuntime,
    words: &ReceiveWords<'_>,
    explains: bool,
    is_verbose: bool,
    meter: &Meter,
) -> u8 {
    let ended = run_command(rt, explains, ReceiveCommand::new(rt, words, meter));
    let files = &ended.command.files;
    let seen = files.seen();
    if let Some(reception) = &ended.command.reception {
        tell_lost(rt, reception, &seen, is_verbose);
        if ended.status == 0 && seen.lacks_flow() {
            tell_flows(rt, words.recordings.as_slice(), files, explains);
        }
    }
    ended.status
}

/// Tells standard error the flows of those files that are recordings.
pub(crate) fn tell_flows(rt: &HostRuntime, names: &[&str], files: &Files<'_>, explains: bool) {
    if let Ok(names) = recordings(rt, names, files) {
        let stream = Stream::Error(rt.stderr());
        let _ = run_made(
            rt,
            explains,
            FlowsCommand::new(rt, names.as_slice(), stream),
        );
    }
}

fn recordings<'a>(
    rt: &HostRuntime,
    names: &[&'a str],
    files: &Files<'_>,
) -> Result<Vec<&'a str>, AllocError> {
    let mut recordings = Vec::new(rt.alloc());
    for (name, seen) in names.iter().zip(files.seen.iter()) {
        if seen.is_recording() {
            recordings.push(*name)?;
        }
    }
    Ok(recordings)
}

/// Says how many datagrams were kept and what became of the others, where none was kept or more
/// came to nothing; else, where that is asked for, how many packets were left out, by the reason.
/// That standard error may fail changes nothing.
fn tell_lost(rt: &HostRuntime, reception: &Reception, seen: &Seen, is_verbose: bool) {
    let lost = Lost {
        delivered: reception.delivered,
        tally: &reception.tally,
        left_out: &seen.left_out,
    };
    if lost.is_told() {
        let _ = eprintln!(rt; "{lost}");
    } else if is_verbose {
        tell_left_out(rt, &seen.left_out);
    }
}

/// What became of datagrams and packets.
#[derive(Clone, Copy)]
struct Lost<'a> {
    delivered: u64,
    tally: &'a Tally,
    /// The packets of recordings of which no datagram was delivered.
    left_out: &'a LeftOut,
}

impl Lost<'_> {
    fn refused(&self) -> u64 {
        let mut sum = 0u64;
        for count in self.tally.refused.iter() {
            sum = sum.saturating_add(*count);
        }
        sum
    }

    /// Whether none was kept, or more were outside the window, refused or left out than kept.
    fn is_told(&self) -> bool {
        let kept = self.tally.kept;
        let lost = self.tally.outside.saturating_add(self.refused());
        kept == 0 || lost.saturating_add(self.left_out.total()) > kept
    }
}

impl fmt::Display for Lost<'_> {
    fn fmt<W: fmt::Write>(&self, f: &mut fmt::Formatter<W>) -> fmt::Result {
        let (kept, delivered) = (self.tally.kept, self.delivered);
        write!(f, "  kept {kept} of {delivered} datagrams")?;
        let outside = self.tally.outside;
        if outside > 0 {
            write!(f, "; outside the window {outside}")?;
        }
        let refused = self.refused();
        if refused > 0 {
            write!(f, "; refused {refused}")?;
            tell_refused(self.tally, f)?;
        }
        let left_out = self.left_out.total();
        if left_out > 0 {
            write!(f, "; left out {left_out} packets")?;
            name_left_out(self.left_out, f)?;
        }
        Ok(())
    }
}

/// Says of the refusals that came most often how often each came. There is one that came.
fn tell_refused<W: fmt::Write>(tally: &Tally, f: &mut fmt::Formatter<W>) -> fmt::Result {
    let mut told = [false; REFUSAL_COUNT];
    let mut between = " (";
    for _ in 0..NAMED {
        let place = most_frequent(tally, &told);
        if place >= REFUSAL_COUNT {
            break;
        }
        told[place] = true;
        let (count, name) = (tally.refused[place], refusal_at(place).name());
        write!(f, "{between}{count} {name}")?;
        between = ", ";
    }
    write!(f, ")")
}

/// The place of the refusal that came most often of those that are not told yet, of equally many
/// the first; past all where none came.
fn most_frequent(tally: &Tally, told: &[bool; REFUSAL_COUNT]) -> usize {
    let mut most = REFUSAL_COUNT;
    let mut greatest = 0;
    for place in 0..REFUSAL_COUNT {
        let count = tally.refused[place];
        if !told[place] && count > greatest {
            most = place;
            greatest = count;
        }
    }
    most
}

/// Says of each reason for which packets were left out how many were. There is one.
fn name_left_out<W: fmt::Write>(left_out: &LeftOut, f: &mut fmt::Formatter<W>) -> fmt::Result {
    let mut between = " (";
    for (omission, count) in left_out.each() {
        if count > 0 {
            let name = omission.name();
            write!(f, "{between}{count} {name}")?;
            between = ", ";
        }
    }
    write!(f, ")")
}
