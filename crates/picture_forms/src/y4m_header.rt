//! The line of a YUV4MPEG2 stream, read.
ghost use Rattle.std.specs.Prelude.{◌≡◌, None, IfErr, IfOk};
ghost use Rattle.std.specs.Option.{option_copied};
ghost use Rattle.st_format.specs.Fields.{made_fields};
ghost use Rattle.picture_forms.specs.Faults.{IsShown};
ghost use Rattle.picture_forms.specs.Heads.{colour_at, head_at, last_of, number_at, rate_at};
ghost use Rattle.picture_forms.specs.Heads.{scan_at};
ghost use Rattle.picture_forms.specs.Heads.{colour_named, told};
ghost use Rattle.picture_forms.specs.Layouts.{IsYcc};

use crate::fault::FormFault;
use st_format::{Depth, Format, Sampling, read_number, split_once};

/// The format that the parameters of a stream say: all that stands in its line behind the name.
///
/// # Errors
///
/// `BadHeader` where W, H or F is absent or no number, `UnsupportedForm` where I is something else
/// than `p` or C is none of the eight words, `BadFormat` where there is no such format.
#[tactic(auto, unfolding(crate::specs::Heads::head_at))]
pub fn format_of_head(text: &[u8]) -> Result<Format, FormFault>
    ensures value { made_fields result ≡ head_at text.now }
    ensures ycc { IfOk result (λ f. IsYcc f.sampling) }
    ensures named { IfErr result IsShown }
{
    let width = number_in(last_of(text, b'W'))?;
    let height = number_in(last_of(text, b'H'))?;
    let (n, d) = rate_in(last_of(text, b'F'))?;
    scan_in(last_of(text, b'I'))?;
    let (sampling, depth) = colour_in(last_of(text, b'C'))?;
    match Format::new(sampling, depth, width, height, n, d) {
        Ok(format) => Ok(format),
        Err(_) => Err(FormFault::BadFormat),
    }
}

/// What stands behind a letter in the last word that begins with it.
fn last_of(text: &[u8], letter: u8) -> Option<&[u8]>
    ensures { option_copied result ≡ last_of letter text.now }
{
    let mut found = None;
    let mut rest = text;
    while let Some((word, more)) = split_once(rest, b' ') {
        found = told(word, letter, found);
        rest = more;
    }
    told(rest, letter, found)
}

/// What stands behind a letter in a word that begins with it, and else what was found before.
fn told<'a>(word: &'a [u8], letter: u8, found: Option<&'a [u8]>) -> Option<&'a [u8]>
    ensures { option_copied result ≡ told letter (option_copied found.entry) word.now }
{
    match word {
        [first, text @ ..] if *first == letter => Some(text),
        _ => found,
    }
}

/// A number that has to be there, or it is `BadHeader`.
fn number_in(text: Option<&[u8]>) -> Result<u32, FormFault>
    ensures value { result ≡ number_at (option_copied text.entry) }
    ensures named { IfErr result IsShown }
{
    match text {
        Some(text) => match read_number(text) {
            Some(number) => Ok(number),
            None => Err(FormFault::BadHeader),
        },
        None => Err(FormFault::BadHeader),
    }
}

/// A rate that has to be there: `N:D`.
fn rate_in(text: Option<&[u8]>) -> Result<(u32, u32), FormFault>
    ensures value { result ≡ rate_at (option_copied text.entry) }
    ensures named { IfErr result IsShown }
{
    match text {
        Some(text) => match split_once(text, b':') {
            Some((n, d)) => Ok((number_in(Some(n))?, number_in(Some(d))?)),
            None => Err(FormFault::BadHeader),
        },
        None => Err(FormFault::BadHeader),
    }
}

/// That pictures are progressive: `p`, or nothing is said.
fn scan_in(text: Option<&[u8]>) -> Result<(), FormFault>
    ensures value { result ≡ scan_at (option_copied text.entry) }
    ensures named { IfErr result IsShown }
{
    match text {
        Some(text) => {
            if text == b"p".as_slice() {
                Ok(())
            } else {
                Err(FormFault::UnsupportedForm)
            }
        }
        None => Ok(()),
    }
}

/// Sampling and depth. A stream that says none has 4:2:0, which isn't read.
fn colour_in(text: Option<&[u8]>) -> Result<(Sampling, Depth), FormFault>
    ensures value { result ≡ colour_at (option_copied text.entry) }
    ensures ycc { IfOk result (λ c. IsYcc c.0) }
    ensures named { IfErr result IsShown }
{
    match text {
        Some(text) => colour_named(text),
        None => Err(FormFault::UnsupportedForm),
    }
}

/// Sampling and depth that a word names; any other is `UnsupportedForm`.
#[tactic(auto, unfolding(crate::specs::Heads::colour_named))]
fn colour_named(text: &[u8]) -> Result<(Sampling, Depth), FormFault>
    ensures value { result ≡ colour_named text.now }
    ensures ycc { IfOk result (λ c. IsYcc c.0) }
    ensures named { IfErr result IsShown }
{
    if text == b"422".as_slice() {
        Ok((Sampling::Ycc422, Depth::D8))
    } else if text == b"422p10".as_slice() {
        Ok((Sampling::Ycc422, Depth::D10))
    } else if text == b"422p12".as_slice() {
        Ok((Sampling::Ycc422, Depth::D12))
    } else if text == b"422p16".as_slice() {
        Ok((Sampling::Ycc422, Depth::D16))
    } else if text == b"444".as_slice() {
        Ok((Sampling::Ycc444, Depth::D8))
    } else if text == b"444p10".as_slice() {
        Ok((Sampling::Ycc444, Depth::D10))
    } else if text == b"444p12".as_slice() {
        Ok((Sampling::Ycc444, Depth::D12))
    } else if text == b"444p16".as_slice() {
        Ok((Sampling::Ycc444, Depth::D16))
    } else {
        Err(FormFault::UnsupportedForm)
    }
}
