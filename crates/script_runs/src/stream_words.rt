//! The words of which a stream is read.
ghost use Rattle.std.specs.Prelude.{MatchOption, MatchResult};
ghost use Rattle.script_runs.specs.StreamWords.{IsFormatOf, IsNoFormat, IsNoLeg, IsNoStream};
ghost use Rattle.script_runs.specs.StreamWords.{SaysLeg, SaysStream};
ghost use Rattle.st_format.specs.Forms.{read_format};

use crate::announced::AnnouncedStream;
use command_line::{BadValue, WriteWords};
use flow::{Flow, read_flow};
use st_format::{Format, FormatFault, FormatTextFault};

/// Reads a format, or why there is none of words that have its form; none where they haven't.
fn read_format(text: &str) -> Option<Result<Format, FormatFault>>
    ensures { MatchOption result (IsNoFormat text.now) (λ r. IsFormatOf r (read_format text.now)) }
{
    match text.parse::<Format>() {
        Ok(format) => Some(Ok(format)),
        Err(FormatTextFault::Refused(fault)) => Some(Err(fault)),
        Err(FormatTextFault::NotFormat | FormatTextFault::NotRate) => None,
    }
}

/// Reads the word of an option that is a format's, or why there is no such format. The error is a
/// word that isn't of a format's form.
pub fn read_format_word<'w>(
    option: &'static str,
    text: &'w str,
) -> Result<Result<Format, FormatFault>, BadValue<'w>>
    ensures { MatchResult result (λ r. IsFormatOf r (read_format text.now))
        (λ _. IsNoFormat text.now) }
{
    match read_format(text) {
        Some(format) => Ok(format),
        None => Err(BadValue {
            option,
            value: text,
            wanted: "sampling, depth, width, height and rate, as YCbCr-4:2:2 10 1920 1080 \
                60000/1001",
        }),
    }
}

/// Reads where the datagrams of a path go: an address and a port, and neither a source nor an
/// interface.
fn read_leg(text: &str) -> Option<Flow>
    ensures { MatchOption result (IsNoLeg text.now) (SaysLeg text.now) }
{
    let flow = read_flow(text.as_bytes())?;
    match (flow.interface, flow.source, flow.address) {
        (None, None, Some(_)) => Some(flow),
        _ => None,
    }
}

/// The value that isn't an address and a port.
fn no_leg<'w>(option: &'static str, value: &'w str) -> BadValue<'w> {
    BadValue {
        option,
        value,
        wanted: "an address, a colon and a port, as 239.1.1.1:5004 or [ff3e::1]:5004",
    }
}

/// Reads the stream of an SDP text that is to be written.
///
/// The error is the first of the words, the format's, A's and B's, that isn't of its form. A format
/// of which there is none is no such error.
pub fn read_stream<'w>(words: &WriteWords<'w>) -> Result<AnnouncedStream, BadValue<'w>>
    ensures { MatchResult result (SaysStream words.now) (λ _. IsNoStream words.now) }
{
    let format = read_format_word("--write <S B W H N/D>", words.format)?;
    let Some(a) = read_leg(words.a) else {
        return Err(no_leg("--a <ADDR:PORT>", words.a));
    };
    let b = match words.b {
        None => None,
        Some(text) => match read_leg(text) {
            Some(b) => Some(b),
            None => return Err(no_leg("--b <ADDR:PORT>", text)),
        },
    };
    Ok(AnnouncedStream {
        format,
        payload_type: words.payload_type,
        a,
        b,
    })
}
