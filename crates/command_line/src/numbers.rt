//! Words that are numbers in a form of their own.
ghost use Rattle.std.specs.Prelude.{◌<◌, IfSome};

use crate::fault::WordsFault;
use crate::words::StartWords;
use std::alloc::Global;

/// Whether the word of `--pt` is `sdp`. Any other has to be a payload type, and is refused in the
/// words that clap has for a number.
pub(crate) fn is_type_of_sdp(alloc: Global, text: &str) -> Result<bool, WordsFault> {
    if text == "sdp" {
        return Ok(true);
    }
    let why = match text.parse::<i64>() {
        Ok(number) if 0 <= number && number <= 127 => return Ok(false),
        Ok(number) => format!(in alloc; "{number} is not in 0..=127")?,
        Err(error) => format!(in alloc; "{error}")?,
    };
    Err(WordsFault::Misworded(format!(in alloc; "invalid value '{text}' for '--pt <N>': {why}")?))
}

/// Reads the word of `--start`: seconds with up to nine digits behind a point, below 2^32.
pub(crate) fn read_start(alloc: Global, text: &str) -> Result<StartWords, WordsFault> {
    match start_in(text) {
        Some(start) => Ok(start),
        None => Err(WordsFault::Misworded(format!(in alloc;
            "invalid value '{text}' for '--start <SECONDS>': it isn't seconds below 4294967296, \
            with up to nine digits behind a point"
        )?)),
    }
}

/// The moment that a text of seconds says.
fn start_in(text: &str) -> Option<StartWords> {
    let (seconds, part) = match text.split_once('.') {
        None => (digits(text)?, 0),
        Some((seconds, part)) => (digits(seconds)?, nanoseconds(part)?),
    };
    Some(StartWords {
        start: u64::from(seconds) * 1_000_000_000 + u64::from(part),
    })
}

/// The nanoseconds that up to nine digits behind a point are.
fn nanoseconds(part: &str) -> Option<u32>
    ensures { IfSome result (λ n. n < 1000000000) }
{
    let unit = match part.len() {
        1 => 100_000_000,
        2 => 10_000_000,
        3 => 1_000_000,
        4 => 100_000,
        5 => 10_000,
        6 => 1_000,
        7 => 100,
        8 => 10,
        9 => 1,
        _ => return None,
    };
    let nanoseconds = u64::from(digits(part)?) * unit;
    if nanoseconds < 1_000_000_000 {
        Some(nanoseconds as u32)
    } else {
        None
    }
}

/// The number that digits are, below 2^32. `parse` takes a `+` before them too, which is none.
fn digits(text: &str) -> Option<u32> {
    if text.starts_with('+') {
        return None;
    }
    text.parse::<u32>().ok()
}
