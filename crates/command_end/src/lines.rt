//! Lines of a text, as they are shown.
use st_format::{split_once, without_carriage_return};

/// How many octets of a line are shown.
const SHOWN: usize = 60;

/// The line of a number, counted from 1, without its LF and a CR before that. It is empty where the
/// text has no such line.
pub fn line_at(text: &[u8], number: usize) -> &[u8] {
    let mut rest = text;
    for _ in 1..number {
        let Some((_, behind)) = split_once(rest, b'\n') else {
            return &[];
        };
        rest = behind;
    }
    match split_once(rest, b'\n') {
        Some((line, _)) => without_carriage_return(line),
        None => without_carriage_return(rest),
    }
}

/// What is shown of a line, and what tells that it goes on.
pub fn shown(line: &[u8]) -> (&[u8], &'static str) {
    match line.get(..SHOWN) {
        Some(front) if line.len() > SHOWN => (front, ".."),
        _ => (line, ""),
    }
}
