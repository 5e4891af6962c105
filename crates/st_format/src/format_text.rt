//! Formats as texts.
ghost use Rattle.std.specs.Prelude.{◌≡◌, Some};
ghost use Rattle.st_format.specs.Fields.{fields_of, made_fields};
ghost use Rattle.st_format.specs.Forms.{format_text, read_format};

use crate::format::{Format, FormatFault};
use crate::number::read_number;
use crate::rate::Rate;
use crate::sampling::{Depth, Sampling};
use crate::text::split_once;
use crate::words::rate_named;
use std::fmt;
use std::str::FromStr;
use thiserror::Error;

/// Why a text says no format or no rate.
#[derive(Clone, Copy, Debug, PartialEq, Eq, Error)]
pub enum FormatTextFault {
    /// It isn't of the form `S B W H N/D`.
    #[error("a format is S B W H N/D, as YCbCr-4:2:2 10 1920 1080 60000/1001")]
    NotFormat,
    /// It isn't of the form `N` or `N/D`.
    #[error("a rate is N or N/D, as 60 or 60000/1001")]
    NotRate,
    /// It is of the form; a field says what no format or rate has.
    #[error("{0}")]
    Refused(FormatFault),
}

impl FormatTextFault {
    ghost use Rattle.st_format.specs.FormFaults.{format_text_fault_name, format_text_fault_number};

    /// Its number: 1 to 3 where the format is refused, 4 and 5 where the text isn't of its form.
    pub fn number(self) -> u8
        ensures { result ≡ format_text_fault_number self }
    {
        match self {
            FormatTextFault::Refused(fault) => fault.number(),
            FormatTextFault::NotFormat => 4,
            FormatTextFault::NotRate => 5,
        }
    }

    /// Its name, as in the source; that of the refusal where it is one.
    pub fn name(self) -> &'static str
        ensures { result.now ≡ format_text_fault_name self }
    {
        match self {
            FormatTextFault::Refused(fault) => fault.name(),
            FormatTextFault::NotFormat => "NotFormat",
            FormatTextFault::NotRate => "NotRate",
        }
    }
}

impl Format {
    /// Its rate, in lowest terms.
    pub fn rate(&self) -> Rate
        ensures n { result.n ≡ self.now.n }
        ensures d { result.d ≡ self.now.d }
    {
        Rate {
            n: self.n,
            d: self.d,
        }
    }
}

/// Sampling, depth, width, height and rate, parted by single spaces, as scripts have them:
/// `YCbCr-4:2:2 10 1920 1080 60000/1001`.
impl fmt::Display for Format {
    ghost output = { λ f. Some (format_text (fields_of f)) };

    fn fmt<W: fmt::Write>(&self, f: &mut fmt::Formatter<W>) -> fmt::Result {
        write!(
            f,
            "{} {} {} {} {}",
            self.sampling,
            self.depth,
            self.width,
            self.height,
            self.rate()
        )
    }
}

/// The format of five words parted by single spaces: the rate is all behind the fourth.
#[tactic(auto, unfolding(crate::specs::Forms::read_format))]
fn read_format(text: &[u8]) -> Result<Format, FormatTextFault>
    ensures { made_fields result ≡ read_format text.now }
{
    let (sampling, rest) = split_once(text, b' ').ok_or(FormatTextFault::NotFormat)?;
    let (depth, rest) = split_once(rest, b' ').ok_or(FormatTextFault::NotFormat)?;
    let (width, rest) = split_once(rest, b' ').ok_or(FormatTextFault::NotFormat)?;
    let (height, rate) = split_once(rest, b' ').ok_or(FormatTextFault::NotFormat)?;
    let sampling = Sampling::of_word(sampling).ok_or(FormatTextFault::NotFormat)?;
    let depth = Depth::of_word(depth).ok_or(FormatTextFault::NotFormat)?;
    let width = read_number(width).ok_or(FormatTextFault::NotFormat)?;
    let height = read_number(height).ok_or(FormatTextFault::NotFormat)?;
    let (n, d) = rate_named(rate).ok_or(FormatTextFault::NotFormat)?;
    match Format::new(sampling, depth, width, height, n, d) {
        Ok(format) => Ok(format),
        Err(fault) => Err(FormatTextFault::Refused(fault)),
    }
}

/// Reads five words parted by single spaces, as `Display` writes them; the rate may also be `N/1`,
/// or not in lowest terms, and of numbers zeros may lead.
///
/// `NotFormat` where the text isn't of that form, else `Refused` with the fault of `Format::new`.
impl FromStr for Format {
    type Err = FormatTextFault;

    ghost from_str_gives = { λ text r. made_fields r ≡ read_format text };

    fn from_str(text: &str) -> Result<Format, FormatTextFault> {
        read_format(text.as_bytes())
    }
}
