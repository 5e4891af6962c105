//! What an fmtp line of an SDP text has, as a person is told it.
use st_format::{read_number, split_once, without_carriage_return};
use std::fmt;

/// The names that an fmtp line has to have (SMPTE ST 2110-20, SDP), in the order in which the
/// canonical line has them.
const REQUIRED: [&str; 8] = [
    "sampling",
    "width",
    "height",
    "exactframerate",
    "depth",
    "colorimetry",
    "PM",
    "SSN",
];

/// The required names that an fmtp line lacks.
#[derive(Clone, Copy)]
pub(crate) struct Missing<'a> {
    line: &'a [u8],
    count: usize,
}

impl<'a> Missing<'a> {
    /// Those of this line; none where it has all, and so something else is at fault.
    pub(crate) fn of(line: &'a [u8]) -> Option<Missing<'a>> {
        let count = REQUIRED
            .iter()
            .filter(|name| !has(line, name.as_bytes()))
            .count();
        if count > 0 {
            Some(Missing { line, count })
        } else {
            None
        }
    }
}

/// The names, with commas between, and the last one behind `and`.
impl fmt::Display for Missing<'_> {
    fn fmt<W: fmt::Write>(&self, f: &mut fmt::Formatter<W>) -> fmt::Result {
        let mut left = self.count;
        for name in REQUIRED {
            if !has(self.line, name.as_bytes()) {
                left = left.saturating_sub(1);
                f.write_str(name)?;
                f.write_str(behind(left))?;
            }
        }
        f.write_str(" in a=fmtp:PT")
    }
}

/// What stands behind a name of a list, before so many others.
fn behind(left: usize) -> &'static str {
    match left {
        0 => "",
        1 => " and ",
        _ => ", ",
    }
}

/// Whether the first fmtp line of a text's first video section says that the text is of the
/// edition of 2022 (SMPTE ST 2110-20, SSN). It is asked of texts that are read well.
pub fn is_of_2022(text: &[u8]) -> bool {
    match first_fmtp(text) {
        Some(line) => value_of(line, b"SSN") == Some(b"ST2110-20:2022".as_slice()),
        None => false,
    }
}

/// The first fmtp line of the payload type of a text's first video section.
fn first_fmtp(text: &[u8]) -> Option<&[u8]> {
    let mut payload_type = None;
    for line in text.split(|octet| *octet == b'\n') {
        let line = without_carriage_return(line);
        match payload_type {
            None => payload_type = video_type(line),
            Some(_) if is_fmtp_of(line, payload_type) => return Some(line),
            Some(_) => {}
        }
    }
    None
}

/// The payload type of the first line of a video section.
fn video_type(line: &[u8]) -> Option<u32> {
    let words = line.strip_prefix(b"m=video ".as_slice())?;
    let (_, words) = split_once(words, b' ')?;
    let (_, payload_type) = split_once(words, b' ')?;
    read_number(trimmed(payload_type))
}

/// Whether a line begins `a=fmtp:`, and its number is this payload type.
fn is_fmtp_of(line: &[u8], payload_type: Option<u32>) -> bool {
    let Some(behind) = line.strip_prefix(b"a=fmtp:".as_slice()) else {
        return false;
    };
    match split_once(behind, b' ') {
        Some((number, _)) => read_number(number) == payload_type,
        None => false,
    }
}

/// Whether an fmtp line has an item of a name.
fn has(line: &[u8], name: &[u8]) -> bool {
    value_of(line, name).is_some()
}

/// The value of the first item of a name of an fmtp line; it is empty where the item has none.
fn value_of<'a>(line: &'a [u8], name: &[u8]) -> Option<&'a [u8]> {
    let (_, items) = split_once(line, b' ')?;
    for item in items.split(|octet| *octet == b';') {
        let (key, value) = split_once(item, b'=').unwrap_or((item, b""));
        if trimmed(key) == name {
            return Some(trimmed(value));
        }
    }
    None
}

/// A text without the spaces and tabs around it.
fn trimmed(text: &[u8]) -> &[u8] {
    let Some(start) = text.iter().position(|octet| !is_space(*octet)) else {
        return b"";
    };
    let behind = text
        .iter()
        .rev()
        .position(|octet| !is_space(*octet))
        .unwrap_or(0);
    text.get(start..text.len().saturating_sub(behind))
        .unwrap_or(text)
}

fn is_space(octet: u8) -> bool {
    octet == b' ' || octet == b'\t'
}
