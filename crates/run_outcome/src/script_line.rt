//! Why a line of a script is refused, and what was wanted in its place.
ghost use Rattle.std.specs.Prelude.{◌≡◌, IfSome};
ghost use Rattle.run_outcome.specs.LowerFaults.{of_line, of_script};
ghost use Rattle.run_outcome.specs.Wanted.{form_wanted, line_wanted};

use crate::fault::Fault;
use crate::refusal::Refusal;
use crate::refusal_text::text_of_line;
use packet_numbers::SeqMapFault;
use packet_plan::PlanFault;
use path_receiver::{OpenFault, PlayFault};
use st_format::FormatFault;
use std::fmt;

/// The form of a line of a script, or what else was wanted in the place of one.
#[derive(Clone, Copy, Debug, PartialEq, Eq)]
pub enum Form {
    /// The first line of a script: `format S B W H N/D`.
    Format,
    /// The second line of `trace`: `open PT SSRC WINDOW`.
    Open,
    /// A datagram by a path: `A HEX` or `B HEX`.
    Datagram,
    /// The line `slide TS` of `trace`.
    Slide,
    /// A sample that is asked for: `cell TS ROW COL COMP`.
    Cell,
    /// The line `numbers FIRST COUNT`, which stands once.
    Numbers,
    /// Any line that `trace` has behind the first two.
    Traced,
    /// The second line of `rehearse`: `stamp PT FIRST TIMESTAMP SSRC`.
    Stamp,
    /// Its third line: `max OCTETS`.
    MaxOctets,
    /// Its fourth line: `window WINDOW`.
    Window,
    /// Its fifth line: `receivers N`.
    Receivers,
    /// A line of `rehearse` before its events: `picture HEX`.
    Picture,
    /// An event of `rehearse`: `arrive R A I` or `arrive R B I`.
    Arrive,
    /// An event of `rehearse`: `slide R TS`.
    SlideAt,
    /// An event of `rehearse`: `merge R S`.
    Merge,
    /// Any event: `send`, or one of the three.
    Event,
    /// A picture or any event, where no event stood before.
    PictureOrEvent,
    /// The end of the script, which is too long.
    End,
    /// The end of an SDP text, which is too long.
    TextEnd,
}

impl Form {
    /// What was wanted where a line isn't of this form, for a person.
    pub fn wanted(self) -> &'static str
        ensures { result.now ≡ form_wanted self }
    {
        match self {
            Form::Format => "format S B W H N/D",
            Form::Open => "open PT SSRC WINDOW",
            Form::Datagram => "A HEX or B HEX, two digits for each of at most 65535 octets, or -",
            Form::Slide => "slide TS",
            Form::Cell => "cell TS ROW COL COMP",
            Form::Numbers => "numbers FIRST COUNT, once",
            Form::Traced => "A HEX, B HEX, slide TS, cell TS ROW COL COMP or numbers FIRST COUNT",
            Form::Stamp => "stamp PT FIRST TIMESTAMP SSRC",
            Form::MaxOctets => "max OCTETS",
            Form::Window => "window WINDOW",
            Form::Receivers => "receivers N",
            Form::Picture => "picture HEX, two digits for each of its octets",
            Form::Arrive => "arrive R A I or arrive R B I",
            Form::SlideAt => "slide R TS",
            Form::Merge => "merge R S",
            Form::Event => "send, arrive R A I, arrive R B I, slide R TS or merge R S",
            Form::PictureOrEvent => {
                "picture HEX, send, arrive R A I, arrive R B I, slide R TS or merge R S"
            }
            Form::End => "a script of at most 16777216 octets",
            Form::TextEnd => "at most 16777216 octets",
        }
    }

    /// The fault of the line of this number, which isn't of this form.
    pub fn refused_at(self, line: usize) -> Fault
        ensures { result ≡ of_script line self }
    {
        Fault::Refused(Refusal::Script(line, LineFault::Form(self)))
    }
}

/// Why a line of a script is refused.
#[derive(Clone, Copy)]
pub enum LineFault {
    /// It isn't of this form, or stands where it may not.
    Form(Form),
    /// The fields of a line `format` are of the form, and say no format.
    Format(FormatFault),
    /// The fields of a line `open` are of the form, and its window is refused.
    Open(OpenFault),
    /// The fields of a line `numbers` are of the form, and its count is refused.
    Numbers(SeqMapFault),
    /// The number of a line `max` is refused.
    Plan(PlanFault),
    /// It is the line by which a schedule is not played.
    Play(PlayFault),
}

impl LineFault {
    /// What was wanted in the place of the line, for a person.
    pub fn wanted(self) -> &'static str
        ensures { IfSome (line_wanted self) (λ text. result.now ≡ text) }
    {
        match self {
            LineFault::Form(form) => form.wanted(),
            LineFault::Format(fault) => fault.wanted(),
            LineFault::Open(fault) => fault.wanted(),
            LineFault::Numbers(fault) => fault.wanted(),
            LineFault::Plan(fault) => fault.wanted(),
            LineFault::Play(fault) => fault.wanted(),
        }
    }

    /// The fault of the line of this number. Want of memory is no line's.
    pub fn refused_at(self, line: usize) -> Fault
        ensures { result ≡ of_line line self }
    {
        match self {
            LineFault::Open(OpenFault::NoMemory) => Fault::Memory,
            LineFault::Numbers(SeqMapFault::NoMemory) => Fault::Memory,
            LineFault::Plan(PlanFault::NoMemory) => Fault::Memory,
            LineFault::Play(PlayFault::NoMemory) => Fault::Memory,
            _ => Fault::Refused(Refusal::Script(line, self)),
        }
    }
}

impl fmt::Display for LineFault {
    ghost use Rattle.std.specs.Prelude.{Some};
    ghost use Rattle.run_outcome.specs.RefusalText.{line_fault_text};

    ghost output = { λ fault. Some (line_fault_text fault) };

    /// The subject, the number and the name of a fault, and of an event its place; of a form only
    /// that it is the script's.
    fn fmt<W: fmt::Write>(&self, f: &mut fmt::Formatter<W>) -> fmt::Result {
        f.write_str(text_of_line(*self).as_str())
    }
}
