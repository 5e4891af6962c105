//! A script of `rehearse`: what is opened and sent, and the events.
ghost use Rattle.std.specs.Prelude.{◌≡◌, ◌≤◌, ◌+◌, ◌⊎◌, ◌∷◌, ◌++◌, [], false, length};
ghost use Rattle.std.specs.Prelude.{IfErr, IfOk, OnOk};
ghost use Rattle.st_format.specs.Picture.{Values};
ghost use Rattle.run_outcome.specs.Fault.{Accounts};
ghost use Rattle.run_outcome.specs.LowerFaults.{IsMisformed};
ghost use Rattle.script_engines.specs.FirstLines.{IsFaultyNext, ReadsOne, end_of, lines_left};
ghost use Rattle.script_engines.specs.Rehearsal.{AddsLine, IsBody, IsFaultyBody};
ghost use Rattle.script_engines.specs.Rehearsal.{IsFaultyHead, IsPictureOf};
ghost use Rattle.script_engines.specs.Rehearsal.{IsFaultyRehearsal, IsMaxLine, IsUnfitBehind};
ghost use Rattle.script_engines.specs.Rehearsal.{ReadsHead};
ghost use Rattle.script_engines.specs.Rehearsal.{SaysCount, SaysMax, SaysRehearsal, SaysStamp};
ghost use Rattle.script_engines.specs.Rehearsal.{SaysWindow, heading_of, said_by};
ghost use Rattle.script_engines.specs.RehearsalForms.{IsCountLine, IsStampLine, IsWindowLine};
ghost use Rattle.script_engines.specs.Script.{line_behind, numbered_lines};

use crate::first_lines::{next_line, read_format};
use crate::picture_text::read_picture;
use crate::rehearsal_line::{
    read_count_line, read_event, read_number_line, read_stamp_line, read_window_line,
};
use crate::script::{Lines, Script, ScriptLine};
use crate::wanted_form::body_form;
use packet_plan::Stamp;
use path_merge::{Event, MOST_PICTURES};
use path_receiver::PlayFault;
use run_outcome::{Fault, Form, after_word};
use st_format::{Format, Picture};
use std::alloc::Allocator;

/// What the first five lines of a rehearsal say, and where.
#[derive(Drop)]
pub(crate) struct Head<A: Allocator> {
    pub format: Format,
    pub stamp: Stamp,
    pub max_octets: u32,
    pub window: Vec<u32, A>,
    pub receivers: u8,
    /// The number of the line that says the greatest size of a packet.
    pub max_line: usize,
    /// That of the line that says the window: it is told where a window is refused.
    pub window_line: usize,
    /// That of the line that says how many receivers there are.
    pub receivers_line: usize,
}

/// A rehearsal that was read, and the line of each thing by which a schedule may be refused.
#[derive(Drop)]
pub(crate) struct Rehearsal<A: Allocator> {
    pub head: Head<A>,
    pub pictures: Vec<Picture<A>, A>,
    pub events: Vec<Event, A>,
    /// The number of the line of each picture.
    pub picture_lines: Vec<usize, A>,
    /// The number of the line of each event.
    pub event_lines: Vec<usize, A>,
}

impl<A: Allocator> Rehearsal<A> {
    /// The number of the line by which a schedule is refused: of the window, of the receivers, of
    /// the first picture too many, or of the event that cannot happen.
    pub fn line_of(&self, fault: PlayFault) -> usize {
        match fault {
            PlayFault::BadWindow | PlayFault::DoubleTimestamp => self.head.window_line,
            PlayFault::BadReceivers => self.head.receivers_line,
            PlayFault::BadPictures => line_at(&self.picture_lines, MOST_PICTURES),
            PlayFault::BadEvent(place) => line_at(&self.event_lines, place),
            PlayFault::NoMemory => 0,
        }
    }
}

/// The number that stands at a place: a schedule is refused only at one that there is.
fn line_at(lines: &[usize], place: usize) -> usize {
    match lines.get(place) {
        Some(line) => *line,
        None => 0,
    }
}

/// Reads what all lines of a script say: five first ones, pictures, and events.
pub(crate) fn read_rehearsal<A: Allocator + Copy>(
    alloc: A,
    script: &Script<A>,
) -> Result<Rehearsal<A>, Fault>
    requires { length script.now.octets.items ≤ 16777216 }
    ensures failures { Accounts result [] }
    ensures whole { OnOk result (script.now.is_cut ≡ false) }
    ensures range { IfOk result (λ r. r.head.stamp.payload_type ≤ 127) }
    ensures says { IfOk result (λ r.
        SaysRehearsal (numbered_lines 0 script.now.octets.items) (said_by r)) }
    ensures fault { IfErr result (λ fault. (fault ≡ Fault.Memory)
        ⊎ IsFaultyRehearsal (numbered_lines 0 script.now.octets.items) script.now.is_cut
        (line_behind 0 script.now.octets.items) fault) }
{
    let mut lines = Lines::new(&script.octets, script.is_cut);
    let head = read_head(alloc, &mut lines)?;
    let rehearsal = read_body(alloc, head, &mut lines)?;
    if script.is_cut {
        return Err(Form::End.refused_at(lines.following()));
    }
    Ok(rehearsal)
}

/// Reads the first five lines, each of its form: whether a schedule can be played is tried later.
fn read_head<A: Allocator + Copy>(alloc: A, lines: &mut Lines<'_>) -> Result<Head<A>, Fault>
    ensures failures { Accounts result [] }
    ensures range { IfOk result (λ head. head.stamp.payload_type ≤ 127) }
    ensures says { IfOk result (λ head.
        ReadsHead (lines_left lines.old) (lines_left lines.new) (heading_of head)) }
    ensures fault { IfErr result (λ fault. (fault ≡ Fault.Memory)
        ⊎ IsFaultyHead (lines_left lines.old) (end_of lines.old) fault) }
    ensures end { OnOk result (end_of lines.new ≡ end_of lines.old) }
{
    Ok(Head {
        format: read_format(lines)?,
        stamp: read_stamp(lines)?,
        max_octets: read_max(lines)?,
        max_line: lines.last(),
        window: read_window(alloc, lines)?,
        window_line: lines.last(),
        receivers: read_receiver_count(lines)?,
        receivers_line: lines.last(),
    })
}

/// The stamp that the next line says; it is at fault where it isn't of the form.
fn read_stamp(lines: &mut Lines<'_>) -> Result<Stamp, Fault>
    ensures failures { Accounts result [] }
    ensures range { IfOk result (λ stamp. stamp.payload_type ≤ 127) }
    ensures says { IfOk result (λ stamp. ReadsOne (λ text. IsStampLine text stamp)
        (lines_left lines.old) (lines_left lines.new)) }
    ensures fault { IfErr result (λ fault.
        IsFaultyNext SaysStamp (lines_left lines.old) (end_of lines.old) fault) }
    ensures end { end_of lines.new ≡ end_of lines.old }
{
    let line = next_line(lines, Form::Stamp)?;
    match read_stamp_line(line.text) {
        Some(stamp) => Ok(stamp),
        None => Err(Form::Stamp.refused_at(line.number)),
    }
}

/// The greatest size of a packet, in octets, that the next line says: any number, tried by a plan.
fn read_max(lines: &mut Lines<'_>) -> Result<u32, Fault>
    ensures failures { Accounts result [] }
    ensures says { IfOk result (λ octets. ReadsOne (λ text. IsMaxLine text octets)
        (lines_left lines.old) (lines_left lines.new)) }
    ensures fault { IfErr result (λ fault.
        IsFaultyNext SaysMax (lines_left lines.old) (end_of lines.old) fault) }
    ensures end { end_of lines.new ≡ end_of lines.old }
{
    let line = next_line(lines, Form::MaxOctets)?;
    match read_number_line(line.text, b"max ") {
        Some(octets) => Ok(octets),
        None => Err(Form::MaxOctets.refused_at(line.number)),
    }
}

/// The window that the next line says, tried by the schedule.
fn read_window<A: Allocator + Copy>(alloc: A, lines: &mut Lines<'_>) -> Result<Vec<u32, A>, Fault>
    ensures failures { Accounts result [] }
    ensures says { IfOk result (λ window. ReadsOne (λ text. IsWindowLine text window.items)
        (lines_left lines.old) (lines_left lines.new)) }
    ensures fault { IfErr result (λ fault. (fault ≡ Fault.Memory)
        ⊎ IsFaultyNext SaysWindow (lines_left lines.old) (end_of lines.old) fault) }
    ensures end { end_of lines.new ≡ end_of lines.old }
{
    let line = next_line(lines, Form::Window)?;
    match read_window_line(alloc, line.text)? {
        Some(window) => Ok(window),
        None => Err(Form::Window.refused_at(line.number)),
    }
}

/// How many receivers the next line says: up to 255, tried by the schedule.
fn read_receiver_count(lines: &mut Lines<'_>) -> Result<u8, Fault>
    ensures failures { Accounts result [] }
    ensures says { IfOk result (λ count. ReadsOne (λ text. IsCountLine text count)
        (lines_left lines.old) (lines_left lines.new)) }
    ensures fault { IfErr result (λ fault.
        IsFaultyNext SaysCount (lines_left lines.old) (end_of lines.old) fault) }
    ensures end { end_of lines.new ≡ end_of lines.old }
{
    let line = next_line(lines, Form::Receivers)?;
    match read_count_line(line.text) {
        Some(count) => Ok(count),
        None => Err(Form::Receivers.refused_at(line.number)),
    }
}

/// Reads what stands behind the head: the pictures, and then the events.
fn read_body<A: Allocator + Copy>(
    alloc: A,
    head: Head<A>,
    lines: &mut Lines<'_>,
) -> Result<Rehearsal<A>, Fault>
    ensures failures { Accounts result [] }
    ensures head { IfOk result (λ r. r.head ≡ head) }
    ensures says { IfOk result (λ r.
        IsBody head.format (lines_left lines.old) r.pictures.items r.events.items) }
    ensures fault { IfErr result (λ fault. (fault ≡ Fault.Memory)
        ⊎ IsFaultyBody head.format (lines_left lines.old) fault) }
    ensures end { OnOk result (lines.new.passed + 1 ≡ end_of lines.old) }
{
    let mut rehearsal = Rehearsal {
        head,
        pictures: Vec::new(alloc),
        events: Vec::new(alloc),
        picture_lines: Vec::new(alloc),
        event_lines: Vec::new(alloc),
    };
    while let Some(line) = lines.next() {
        read_body_line(alloc, line, &mut rehearsal)?;
    }
    Ok(rehearsal)
}

/// Reads a line of a picture, which stands before all events, or of an event.
fn read_body_line<A: Allocator + Copy>(
    alloc: A,
    line: ScriptLine<'_>,
    rehearsal: &mut Rehearsal<A>,
) -> Result<(), Fault>
    ensures failures { Accounts result [] }
    ensures head { rehearsal.new.head ≡ rehearsal.old.head }
    ensures adds { OnOk result (AddsLine rehearsal.old.head.format line.entry.text.now
        rehearsal.old.pictures.items rehearsal.old.events.items
        rehearsal.new.pictures.items rehearsal.new.events.items) }
    ensures fault { IfErr result (λ fault. (fault ≡ Fault.Memory)
        ⊎ (IsMisformed line.entry.number fault
        × IsUnfitBehind rehearsal.old.head.format rehearsal.old.events.items line.entry.text.now)) }
{
    if let Some(digits) = after_word(line.text, b"picture ") {
        if !rehearsal.events.is_empty() {
            return Err(Form::Event.refused_at(line.number));
        }
        return add_picture(alloc, line.number, digits, rehearsal);
    }
    match read_event(line.text) {
        Some(event) => add_event(event, line.number, rehearsal),
        None => {
            let has_events = !rehearsal.events.is_empty();
            Err(body_form(line.text, has_events).refused_at(line.number))
        }
    }
}

/// Adds the event of the line of a number, which is told where the event cannot happen.
fn add_event<A: Allocator>(
    event: Event,
    number: usize,
    rehearsal: &mut Rehearsal<A>,
) -> Result<(), Fault>
    ensures fault { IfErr result (λ fault. fault ≡ Fault.Memory) }
    ensures head { rehearsal.new.head ≡ rehearsal.old.head }
    ensures pictures { rehearsal.new.pictures.items ≡ rehearsal.old.pictures.items }
    ensures events { OnOk result
        (rehearsal.new.events.items ≡ rehearsal.old.events.items ++ event ∷ []) }
{
    if rehearsal.event_lines.push(number).is_err() {
        return Err(Fault::Memory);
    }
    match rehearsal.events.push(event) {
        Ok(()) => Ok(()),
        Err(_) => Err(Fault::Memory),
    }
}

/// Adds the picture of the digits of a line; the line is at fault where they aren't its pgroups.
fn add_picture<A: Allocator + Copy>(
    alloc: A,
    number: usize,
    digits: &[u8],
    rehearsal: &mut Rehearsal<A>,
) -> Result<(), Fault>
    ensures head { rehearsal.new.head ≡ rehearsal.old.head }
    ensures events { rehearsal.new.events.items ≡ rehearsal.old.events.items }
    ensures picture { OnOk result ((p : Values)
        × IsPictureOf rehearsal.old.head.format digits.now p
        × (rehearsal.new.pictures.items ≡ rehearsal.old.pictures.items ++ p ∷ [])) }
    ensures fault { IfErr result (λ fault. (fault ≡ Fault.Memory)
        ⊎ (IsMisformed number fault
        × ((p : Values) → IsPictureOf rehearsal.old.head.format digits.now p → ⊥))) }
{
    match read_picture(alloc, rehearsal.head.format, digits)? {
        Some(picture) => keep_picture(picture, number, rehearsal),
        None => Err(Form::Picture.refused_at(number)),
    }
}

fn keep_picture<A: Allocator>(
    picture: Picture<A>,
    number: usize,
    rehearsal: &mut Rehearsal<A>,
) -> Result<(), Fault>
    ensures fault { IfErr result (λ fault. fault ≡ Fault.Memory) }
    ensures head { rehearsal.new.head ≡ rehearsal.old.head }
    ensures events { rehearsal.new.events.items ≡ rehearsal.old.events.items }
    ensures pictures { OnOk result
        (rehearsal.new.pictures.items ≡ rehearsal.old.pictures.items ++ picture ∷ []) }
{
    if rehearsal.picture_lines.push(number).is_err() {
        return Err(Fault::Memory);
    }
    match rehearsal.pictures.push(picture) {
        Ok(()) => Ok(()),
        Err(_) => Err(Fault::Memory),
    }
}
