//! Where a fault is: what `--verbose` adds behind its line.
use crate::fmtp::Missing;
use crate::hints::{Hints, Room};
use crate::lines::{line_at, shown};
use devices::{Reading, Writing};
use run_outcome::{Fault, Form, LineFault, Refusal, Writer};
use sdp_format::{Located, SdpFault};
use std::fmt;
use std::io::{self, ErrorKind};

/// The devices that a command worked on.
#[derive(Clone, Copy)]
pub struct Devices<'a> {
    /// The SDP's file, where one is named.
    pub sdp: Option<Reading<'a>>,
    /// Of the other files that are read, the last one that was begun, or standard input.
    pub read: Option<Reading<'a>>,
    /// The file that is written, where the command writes one.
    pub written: Option<Writing<'a>>,
    /// Standard output, or standard error where the file that is written is that.
    pub output: Writing<'a>,
    /// The script or the SDP that was read from standard input, where it was kept.
    pub kept: Option<&'a [u8]>,
    pub hints: Hints,
}

impl Devices<'_> {
    /// Whether one of them failed since there was no memory, as for the buffer of a file.
    pub(crate) fn want_memory(&self) -> bool {
        let read = [fault_of(self.sdp), fault_of(self.read)];
        let written = [self.written.and_then(|it| it.fault), self.output.fault];
        read.iter().chain(written.iter()).any(|it| wants_memory(it))
    }
}

/// Why a reading failed, where there is one that did.
fn fault_of(reading: Option<Reading<'_>>) -> Option<io::Error> {
    reading?.fault
}

/// Whether that is why something failed that there was no memory.
fn wants_memory(fault: &Option<io::Error>) -> bool {
    match fault {
        Some(fault) => fault.kind() == ErrorKind::OutOfMemory,
        None => false,
    }
}

/// What was wanted in a line, as it is shown.
#[derive(Clone, Copy)]
enum Wanted<'a> {
    /// What these words say.
    Words(&'static str),
    /// The names that a line lacks, as many as they are.
    Names(Missing<'a>),
}

impl fmt::Display for Wanted<'_> {
    fn fmt<W: fmt::Write>(&self, f: &mut fmt::Formatter<W>) -> fmt::Result {
        match self {
            Wanted::Words(words) => f.write_str(words),
            Wanted::Names(missing) => write!(f, "{missing}"),
        }
    }
}

/// Where a fault is, and what was wanted there.
#[derive(Clone, Copy)]
enum Said<'a> {
    /// At a word of the command, by its name.
    Name(&'a str, &'static str),
    /// Where the reading of a file stands.
    Octet(Reading<'a>, &'static str),
    /// Where that of one stands that is of another kind than these.
    Other(Reading<'a>, &'static str),
    /// A receiver for which there is no memory.
    Room(Room),
    /// In a line of a text, or in this part of it.
    Text(&'a str, usize, &'a [u8], Wanted<'a>),
    /// In a line of a text that isn't shown, or of one that is in a file.
    Line(&'a str, usize, &'static str, &'static str),
    /// At a file or standard input, where a reading failed, and why.
    Unread(Reading<'a>, io::Error),
    /// At a file or standard output, where a writing failed.
    Unwritten(Writing<'a>),
}

impl fmt::Display for Said<'_> {
    fn fmt<W: fmt::Write>(&self, f: &mut fmt::Formatter<W>) -> fmt::Result {
        match self {
            Said::Name(name, wanted) => write!(f, "  at {name}; wanted {wanted}"),
            Said::Octet(reading, wanted) => {
                let (name, octet) = (reading.name, reading.octet);
                write!(f, "  at {name}, octet {octet}; wanted {wanted}")
            }
            Said::Other(reading, kinds) => {
                let (name, octet, why) = (reading.name, reading.octet, why_other(reading));
                write!(f, "  at {name}, octet {octet}; wanted {kinds}{why}")
            }
            Said::Room(room) => {
                let (frames, octets, needed) = (room.frames, room.octets, room.megabytes());
                write!(
                    f,
                    "  at --window; wanted {needed} MB of memory for {frames} frames of {octets} \
                     octets each"
                )
            }
            Said::Text(name, line, text, wanted) => {
                let (front, dots) = shown(text);
                let text = front.escape_ascii();
                write!(
                    f,
                    "  at {name}, line {line}, '{text}{dots}'; wanted {wanted}"
                )
            }
            Said::Line(name, line, of, wanted) => {
                write!(f, "  at {name}, line {line}{of}; wanted {wanted}")
            }
            Said::Unread(reading, fault) => {
                let (name, octet) = (reading.name, reading.octet);
                write!(
                    f,
                    "  at {name}, octet {octet}; wanted to read there: {fault}"
                )
            }
            Said::Unwritten(writing) => {
                let name = writing.name;
                match writing.fault {
                    Some(fault) => write!(f, "  at {name}; wanted to write there: {fault}"),
                    None => write!(f, "  at {name}; wanted to write there"),
                }
            }
        }
    }
}

/// What is said of a file that is of another kind.
fn why_other(reading: &Reading<'_>) -> &'static str {
    if reading.octet == 0 {
        "; the file is empty"
    } else if reading.is_packed {
        "; gzip has packed the file, and zcat unpacks it"
    } else {
        ""
    }
}

/// Which device failed, and why.
fn of_device<'a>(devices: &Devices<'a>) -> Option<Said<'a>> {
    let read = of_reading(devices.sdp).or(of_reading(devices.read));
    read.or(of_writing(devices.written))
        .or(of_writing(Some(devices.output)))
}

/// Why a reading failed, if it did.
fn of_reading<'a>(reading: Option<Reading<'a>>) -> Option<Said<'a>> {
    let reading = reading?;
    let fault = reading.fault?;
    Some(Said::Unread(reading, fault))
}

/// Why a writing failed, if it did.
fn of_writing<'a>(writing: Option<Writing<'a>>) -> Option<Said<'a>> {
    match writing {
        Some(writing) if writing.has_failed => Some(Said::Unwritten(writing)),
        _ => None,
    }
}

/// How far the reading had come when memory was wanted.
fn of_memory<'a>(devices: &Devices<'a>) -> Said<'a> {
    if let Some(room) = devices.hints.room {
        return Said::Room(room);
    }
    let wanted = "more memory than there is";
    match devices.read.or(devices.sdp) {
        Some(reading) => Said::Octet(reading, wanted),
        None => Said::Name("the words", wanted),
    }
}

/// Where to look for what a refusal is of.
#[derive(Clone, Copy)]
enum Blamed {
    /// The word of the command that has the value, by its name.
    Word(&'static str),
    /// The file that was begun last, where its reading stands.
    Read,
    /// The SDP, where its reading stands. One without a file of its own is that of the first
    /// capture.
    Sdp,
    /// The line of this number of a script, counted from 1.
    Line(usize),
    /// The place in an SDP that its first fault has.
    Described(Located),
}

/// What a refusal is of: the word that has a value, or the file that has the octets.
fn blamed_by(refusal: Refusal) -> Blamed {
    match refusal {
        Refusal::Script(_, LineFault::Form(Form::TextEnd)) => Blamed::Sdp,
        Refusal::Script(line, _) => Blamed::Line(line),
        Refusal::Sdp(at) => Blamed::Described(at),
        Refusal::Plan(_) => Blamed::Word("--max"),
        Refusal::Open(_) | Refusal::ReceiveWindow => Blamed::Word("--window"),
        Refusal::ReceiveSource => Blamed::Word("--ssrc"),
        Refusal::SendPictures => Blamed::Word("the pictures"),
        Refusal::Job(_) | Refusal::ProcessJob => Blamed::Word("--job"),
        Refusal::ProcessFrame | Refusal::FrameTimestamp => Blamed::Word("--ts"),
        Refusal::ProcessFill | Refusal::FollowFill | Refusal::FrameFill => Blamed::Word("--fill"),
        Refusal::FrameForm | Refusal::ConvertForm => Blamed::Word("--as"),
        Refusal::ExportFlow | Refusal::ImportFlow => Blamed::Word("--a or --b"),
        Refusal::ImportPlaces => Blamed::Word("the recordings"),
        Refusal::OutputIsInput(Writer::Receive) => Blamed::Word("--state"),
        Refusal::OutputIsInput(Writer::Convert) => Blamed::Word("OUT"),
        Refusal::OutputIsInput(Writer::Follow) => Blamed::Word("--out or --report"),
        Refusal::OutputIsInput(_) => Blamed::Word("--out"),
        Refusal::SendSdp
        | Refusal::MigrateSdp
        | Refusal::ReceiveSdp
        | Refusal::ImportSdp
        | Refusal::Flows(_) => Blamed::Sdp,
        Refusal::ReceiveNoSdp
        | Refusal::SendFormats
        | Refusal::MergeUnlike
        | Refusal::ProcessHold
        | Refusal::FrameHold
        | Refusal::ImportRecords
        | Refusal::Capture(_)
        | Refusal::Picture(_)
        | Refusal::State(_)
        | Refusal::Recording(_)
        | Refusal::Form(_) => Blamed::Read,
    }
}

/// Says where the fault of a run is, what was wanted there, and what stays of what was written.
/// That standard error may fail too changes nothing: the status is the fault's.
pub(crate) fn explain(rt: &HostRuntime, fault: Fault, devices: &Devices<'_>) {
    let told = Told {
        said: match fault {
            Fault::Device => of_device(devices),
            Fault::Memory => Some(of_memory(devices)),
            Fault::Refused(refusal) => of_refusal(refusal, devices),
        },
        left: left_by(devices),
        sound: sound_of(fault, devices),
    };
    if told.is_some() {
        let _ = eprintln!(rt; "{told}");
    }
}

/// What the second line tells of a fault.
#[derive(Clone, Copy)]
struct Told<'a> {
    /// Where it is, and what was wanted there.
    said: Option<Said<'a>>,
    /// The file that holds what was written and is not whole.
    left: Option<&'a str>,
    /// What is said of what came before it.
    sound: Option<&'static str>,
}

impl Told<'_> {
    /// Whether anything is told; else there is no line more.
    fn is_some(&self) -> bool {
        self.said.is_some() || self.left.is_some() || self.sound.is_some()
    }
}

impl fmt::Display for Told<'_> {
    fn fmt<W: fmt::Write>(&self, f: &mut fmt::Formatter<W>) -> fmt::Result {
        let mut between = "  ";
        if let Some(said) = self.said {
            write!(f, "{said}")?;
            between = "; ";
        }
        if let Some(left) = self.left {
            write!(f, "{between}what was written stays as {left}")?;
            between = "; ";
        }
        if let Some(sound) = self.sound {
            write!(f, "{between}{sound}")?;
        }
        Ok(())
    }
}

/// The file that holds what was written and is not whole, if one does.
fn left_by<'a>(devices: &Devices<'a>) -> Option<&'a str> {
    devices.written?.left
}

/// What is said of what came before the fault of a capture or a recording, where it is one.
fn sound_of(fault: Fault, devices: &Devices<'_>) -> Option<&'static str> {
    let octet = devices.read?.octet;
    match fault {
        Fault::Refused(refusal) if devices.hints.kinds(refusal, octet).is_none() => {
            of_records(refusal, devices.hints.sound)
        }
        _ => None,
    }
}

/// What is said where a capture's or a recording's fault is the refusal.
fn of_records(refusal: Refusal, said: Option<&'static str>) -> Option<&'static str> {
    match refusal {
        Refusal::Capture(_) | Refusal::Recording(_) => said,
        _ => None,
    }
}

/// Where a refusal is, and what was wanted there.
fn of_refusal<'a>(refusal: Refusal, devices: &Devices<'a>) -> Option<Said<'a>> {
    let wanted = devices.hints.wanted(refusal);
    match blamed_by(refusal) {
        Blamed::Word(name) => Some(Said::Name(name, wanted)),
        Blamed::Read => Some(of_file(refusal, devices.read?, devices, wanted)),
        Blamed::Sdp => Some(Said::Octet(devices.sdp.or(devices.read)?, wanted)),
        Blamed::Line(line) => of_script(devices, line, wanted),
        Blamed::Described(at) => of_sdp(devices, at, wanted),
    }
}

/// Where the reading of a refused file stands, and what was wanted: all kinds, where it is of none.
fn of_file<'a>(
    refusal: Refusal,
    reading: Reading<'a>,
    devices: &Devices<'a>,
    wanted: &'static str,
) -> Said<'a> {
    match devices.hints.kinds(refusal, reading.octet) {
        Some(kinds) => Said::Other(reading, kinds),
        None => Said::Octet(reading, wanted),
    }
}

/// A line of a script; where none is read, the word that says a format in one line: that of `sdp`,
/// or that of `inspect`, which takes recordings.
fn of_script<'a>(devices: &Devices<'a>, line: usize, wanted: &'static str) -> Option<Said<'a>> {
    let Some(script) = devices.read else {
        let word = if devices.hints.takes_recordings {
            "--format"
        } else {
            "--write"
        };
        return Some(Said::Name(word, wanted));
    };
    let name = script.name;
    Some(match devices.kept {
        Some(kept) => Said::Text(name, line, line_at(kept, line), Wanted::Words(wanted)),
        None => Said::Line(name, line, "", wanted),
    })
}

/// A place of an SDP. One without a file of its own is that of the first capture.
fn of_sdp<'a>(devices: &Devices<'a>, at: Located, wanted: &'static str) -> Option<Said<'a>> {
    let Some(place) = at.place else {
        return Some(Said::Octet(devices.sdp.or(devices.read)?, wanted));
    };
    let Some(sdp) = devices.sdp else {
        return Some(Said::Line(devices.read?.name, place.line, " of its SDP", wanted));
    };
    Some(match part_of(devices.kept, place.start, place.end) {
        Some(text) => {
            let wanted = wanted_in(text, at.fault, wanted);
            Said::Text(sdp.name, place.line, text, wanted)
        }
        None => Said::Line(sdp.name, place.line, "", wanted),
    })
}

/// What was wanted in a line of an SDP that has a fault, or in a part of it.
fn wanted_in<'a>(text: &'a [u8], fault: SdpFault, wanted: &'static str) -> Wanted<'a> {
    if fault == SdpFault::MissingParameter {
        if let Some(missing) = Missing::of(text) {
            return Wanted::Names(missing);
        }
    }
    Wanted::Words(wanted)
}

/// A part of a text that was kept; none where it was not, as of a file.
fn part_of(text: Option<&[u8]>, start: usize, end: usize) -> Option<&[u8]> {
    text?.get(start..end)
}
