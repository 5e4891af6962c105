//! Where in a text its fault is.
ghost use Rattle.std.specs.Prelude.{◌≡◌, ◌≤◌, ◌⊎◌, IfSome, length, take};
ghost use Rattle.sdp_format.specs.declared.fault.SdpFault.TheVariants.{NoMemory, NoVideo};
ghost use Rattle.sdp_format.specs.Places.{IsPlace, line_feeds};

use crate::fault::SdpFault;
use crate::item_at_fault::item_at_fault;
use crate::lines::{attribute_line, media_of, next_line};
use crate::sdp::{Stop, VideoSection};
use crate::text::{after_last, octets_before};
use std::error::Error;
use std::fmt;

/// Octets of one line of a text.
#[derive(Clone, Copy, Debug, PartialEq, Eq)]
pub struct Place {
    /// The number of the line, counted from 1, empty lines too.
    pub line: usize,
    /// How many octets of the text stand before them.
    pub start: usize,
    /// How many octets of the text stand before their end. None of them is an LF.
    pub end: usize,
}

/// Why a text describes no video, and where it says so.
#[derive(Clone, Copy, Debug, PartialEq, Eq)]
pub struct Located {
    /// The first fault of the text, or want of memory.
    pub fault: SdpFault,
    /// The item of the fmtp line that has the fault, without spaces and tabs around it, where one
    /// item has it and stands in the first 4096 octets of the line's items; else the line that has
    /// it, without its LF and a CR before that. The first line of its section has the fault that a
    /// line is missing, that there are more sections, and that two differ. `None` where memory is
    /// wanted, or the text has no video section.
    pub place: Option<Place>,
}

impl fmt::Display for Located {
    /// The fault in words, behind the number of its line where it has a place.
    fn fmt<W: fmt::Write>(&self, f: &mut fmt::Formatter<W>) -> fmt::Result {
        let fault = self.fault;
        match self.place {
            Some(place) => write!(f, "line {}: {fault}", place.line),
            None => write!(f, "{fault}"),
        }
    }
}

impl Error for Located {}

fn line_feeds(text: &[u8]) -> usize
    ensures value { result ≡ line_feeds text.now }
    ensures most { result ≤ length text.now }
{
    text.iter().filter(|octet| **octet == b'\n').count()
}

/// How many octets the first line of a text has, without its LF and a CR before that.
#[tactic(auto, using(crate::proofs::Places::line_shorter, crate::proofs::Places::line_whole))]
fn line_length(text: &[u8]) -> usize
    ensures within { result ≤ length text.now }
    ensures one_line { line_feeds (take result text.now) ≡ 0 }
{
    next_line(text).0.len()
}

/// The line in which an index of a text stands. An LF stands in the line that it ends.
fn line_at(text: &[u8], index: usize) -> Place
    requires { index ≤ length text.now }
    ensures { IsPlace text.now result }
{
    let start = after_last(&text[..index], b'\n');
    let line = line_feeds(&text[..start]) + 1;
    let end = start + line_length(&text[start..]);
    Place { line, start, end }
}

/// The item at fault of a line, or the line where none of its items is.
#[tactic(auto, using(crate::proofs::Places::narrowed_place))]
fn narrowed(text: &[u8], line: Place, fault: SdpFault) -> Place
    requires { IsPlace text.now line }
    ensures { IsPlace text.now result }
{
    match item_at_fault(&text[line.start..line.end], fault) {
        Some((start, end)) => Place {
            line: line.line,
            start: line.start + start,
            end: line.start + end,
        },
        None => line,
    }
}

/// How the line begins that has a fault, where that isn't the first line of its section.
fn attribute_at_fault(fault: SdpFault) -> Option<&'static [u8]> {
    match fault {
        SdpFault::NoMemory
        | SdpFault::NoVideo
        | SdpFault::TooManyLegs
        | SdpFault::BadMediaLine
        | SdpFault::NoRtpmap
        | SdpFault::NoFmtp
        | SdpFault::LegsDiffer => None,
        SdpFault::NotRaw90000 => Some(b"a=rtpmap:"),
        SdpFault::BadParameter
        | SdpFault::DoubleParameter
        | SdpFault::MissingParameter
        | SdpFault::UnsupportedSampling
        | SdpFault::UnsupportedDepth
        | SdpFault::Interlaced
        | SdpFault::UnsupportedPacking
        | SdpFault::BadSsn
        | SdpFault::BadFormat => Some(b"a=fmtp:"),
    }
}

/// What is left behind the line of a section that has a fault, where that isn't its first line.
fn attribute_left<'a>(section: VideoSection<'a>, fault: SdpFault) -> Option<Option<&'a [u8]>> {
    let word = attribute_at_fault(fault)?;
    let (_, payload_type) = media_of(section.media)?;
    let (_, left) = attribute_line(word, payload_type, section.left)?;
    Some(left)
}

fn place_in(text: &[u8], section: VideoSection<'_>, fault: SdpFault) -> Place
    ensures { IsPlace text.now result }
{
    match attribute_left(section, fault) {
        Some(left) => narrowed(text, line_at(text, octets_before(text, left)), fault),
        None => line_at(text, octets_before(text, section.left)),
    }
}

/// The place of the fault for which a text isn't read.
pub(crate) fn place_of_stop(text: &[u8], stop: Stop<'_>) -> Option<Place>
    ensures place { IfSome result (λ place. IsPlace text.now place) }
    ensures placed { result ≡ None
        → (stop.entry.fault ≡ NoMemory) ⊎ (stop.entry.fault ≡ NoVideo) }
{
    match (stop.fault, stop.section) {
        (SdpFault::NoMemory, _) | (_, None) => None,
        (fault, Some(section)) => Some(place_in(text, section, fault)),
    }
}
