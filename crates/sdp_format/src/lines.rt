//! The lines of a text, and what they say by themselves.
ghost use Rattle.std.specs.Prelude.{◌≡◌, ◌∷◌, [], None, Some, MatchOption, IfSome, ◌≤◌};
ghost use Rattle.std.specs.Option.{option_copied, option_map};
ghost use Rattle.std.specs.Str.{bytes_eq};
ghost use Rattle.sdp_format.specs.Bytes.{begins_with, lines, split_lines_left, attribute, at_most};
ghost use Rattle.st_format.specs.Words.{number};
ghost use Rattle.sdp_format.specs.Sections.{video_sections, section_lines};
ghost use Rattle.sdp_format.specs.Reading.{media_of, first_attribute, is_raw90000};
ghost use Rattle.sdp_format.specs.ReadLeg.{section_at};

use crate::sdp::VideoSection;
use crate::text::{cut, trim, trim_end};
use st_format::{read_number, without_carriage_return};

/// Whether a text is a word, its case as it is.
pub(crate) fn is_word(text: &[u8], word: &[u8]) -> bool
    ensures { result ≡ bytes_eq text.now word.now }
{
    text == word
}

pub(crate) fn begins(word: &[u8], text: &[u8]) -> bool
    ensures { result ≡ begins_with word.now text.now }
{
    text.starts_with(word)
}

/// The first line of a text, and what is left behind it.
#[tactic(auto, using(crate::proofs::Parts::next_lines))]
pub(crate) fn next_line(text: &[u8]) -> (&[u8], Option<&[u8]>)
    ensures { lines text.now ≡ result.0.now ∷ split_lines_left (option_copied result.1) }
{
    let (line, rest) = cut(text, b'\n');
    (without_carriage_return(line), rest)
}

pub(crate) fn next_video<'a>(left: Option<&'a [u8]>) -> Option<VideoSection<'a>>
    ensures { let sections = video_sections (split_lines_left (option_copied left.entry)) in
        MatchOption result (sections ≡ []) (λ s. sections
        ≡ section_at s ∷ video_sections (split_lines_left (option_copied s.left))) }
{
    let mut rest = left;
    while let Some(text) = rest {
        let (media, more) = next_line(text);
        if begins(b"m=video ", media) {
            return Some(VideoSection { media, left: more });
        }
        rest = more;
    }
    None
}

/// What follows the word, this number and a space.
#[tactic(auto, unfolding(crate::specs::Bytes::attribute))]
fn attribute<'a>(word: &[u8], wanted: u8, line: &'a [u8]) -> Option<&'a [u8]>
    ensures { option_copied result ≡ attribute word.now wanted line.now }
{
    if !begins(word, line) {
        return None;
    }
    let (digits, rest) = cut(&line[word.len()..], b' ');
    match read_number(digits) {
        Some(found) if found == wanted as u32 => rest,
        _ => None,
    }
}

/// What follows them in the first line of the section that has them, and what is left behind that
/// line.
pub(crate) fn attribute_line<'a>(
    word: &[u8],
    wanted: u8,
    left: Option<&'a [u8]>,
) -> Option<(&'a [u8], Option<&'a [u8]>)>
    ensures { option_map (λ l. l.0.now) result
        ≡ first_attribute word.now wanted (section_lines
        (split_lines_left (option_copied left.entry))) }
{
    let mut rest = left;
    while let Some(text) = rest {
        let (line, more) = next_line(text);
        if begins(b"m=", line) {
            return None;
        }
        if let Some(found) = attribute(word, wanted, line) {
            return Some((found, more));
        }
        rest = more;
    }
    None
}

/// What follows them in the first line of the section that has them.
pub(crate) fn first_attribute<'a>(
    word: &[u8],
    wanted: u8,
    left: Option<&'a [u8]>,
) -> Option<&'a [u8]>
    ensures { option_copied result
        ≡ first_attribute word.now wanted (section_lines
        (split_lines_left (option_copied left.entry))) }
{
    match attribute_line(word, wanted, left) {
        Some((found, _)) => Some(found),
        None => None,
    }
}

fn small_number(text: &[u8], limit: u32) -> Option<u32>
    ensures value { result ≡ at_most limit (number text.now) }
    ensures limit { IfSome result (λ v. v ≤ limit) }
{
    match read_number(text) {
        Some(value) if value <= limit => Some(value),
        _ => None,
    }
}

/// Whether an rtpmap says raw video at 90 kHz, in any case.
#[tactic(auto, unfolding(crate::specs::Reading::is_raw90000))]
pub(crate) fn is_raw90000(text: &[u8]) -> bool
    ensures { result ≡ is_raw90000 text.now }
{
    trim(text).eq_ignore_ascii_case(b"raw/90000")
}

#[tactic(auto, using(crate::proofs::Parts::next_part), unfolding(crate::specs::Reading::media_of))]
pub(crate) fn media_of(line: &[u8]) -> Option<(u16, u8)>
    ensures value { result ≡ media_of line.now }
    ensures limit { IfSome result (λ m. m.1 ≤ 127) }
{
    let (word, rest) = cut(trim_end(line), b' ');
    let (port, rest) = cut(rest?, b' ');
    let (profile, rest) = cut(rest?, b' ');
    let (payload_type, rest) = cut(rest?, b' ');
    if rest.is_some() || !is_word(word, b"m=video") || !is_word(profile, b"RTP/AVP") {
        return None;
    }
    let port = small_number(port, 65535)?;
    let payload_type = small_number(payload_type, 127)?;
    Some((port as u16, payload_type as u8))
}
