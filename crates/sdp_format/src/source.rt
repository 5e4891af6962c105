//! Where the datagrams of a section come from.
ghost use Rattle.std.specs.Prelude.{◌≡◌, ◌≢◌, ◌↔◌, ◌++◌, ℕ, IsTrue, List, MatchOption, Some};
ghost use Rattle.std.specs.Option.{option_copied};
ghost use Rattle.sdp_format.specs.Bytes.{lines, split_lines_left};
ghost use Rattle.sdp_format.specs.Destinations.{IsDestination, IsFilter, IsFirstFilter};
ghost use Rattle.sdp_format.specs.Destinations.{IsSourceAddress};
ghost use Rattle.sdp_format.specs.Destinations.{IsSourceOf, filter_word};
ghost use Rattle.sdp_format.specs.ReadLeg.{section_at};
ghost use Rattle.sdp_format.specs.Sections.{section_lines};
ghost use Rattle.flow.specs.FlowText.{Finds};

use crate::lines::{begins, is_word, next_line};
use crate::sdp::VideoSection;
use crate::text::{after_word, cut, trim_end};
use std::net::{IpAddr, Ipv4Addr, Ipv6Addr};

/// The text behind the words of a line that includes sources of datagrams to an address.
fn after_filter_word(text: &[u8], address: IpAddr) -> Option<&[u8]>
    ensures { MatchOption result ((rest : List ℕ) → text.now ≢ filter_word address ++ rest)
        (λ rest. text.now ≡ filter_word address ++ rest.now) }
{
    match address {
        IpAddr::V4(_) => after_word(text, b"a=source-filter: incl IN IP4 "),
        IpAddr::V6(_) => after_word(text, b"a=source-filter: incl IN IP6 "),
    }
}

/// Whether a text is an address, or stands for any.
fn is_destination(text: &[u8], address: IpAddr) -> bool
    ensures { IsTrue result ↔ IsDestination text.now address }
{
    if is_word(text, b"*") {
        return true;
    }
    match IpAddr::parse_ascii(text) {
        Ok(found) => found == address,
        Err(_) => false,
    }
}

/// The sources that a line includes of datagrams to an address.
fn sources_in(line: &[u8], address: IpAddr) -> Option<&[u8]>
    ensures { MatchOption result ((sources : List ℕ) → IsFilter line.now address sources → ⊥)
        (λ sources. IsFilter line.now address sources.now) }
{
    let rest = after_filter_word(trim_end(line), address)?;
    let (destination, sources) = cut(rest, b' ');
    if is_destination(destination, address) {
        sources
    } else {
        None
    }
}

/// The sources that the first line of a section includes which includes any, or the first of the
/// session where this is the text from its first line on.
fn first_sources(left: Option<&[u8]>, address: IpAddr) -> Option<&[u8]>
    ensures { IsFirstFilter (section_lines (split_lines_left (option_copied left.entry))) address
        (option_copied result) }
{
    let mut rest = left;
    while let Some(text) = rest {
        let (line, more) = next_line(text);
        if begins(b"m=", line) {
            return None;
        }
        if let Some(sources) = sources_in(line, address) {
            return Some(sources);
        }
        rest = more;
    }
    None
}

/// The sources that count for a section: its own, or else those of the session.
fn sources_of<'a>(text: &'a [u8], section: VideoSection<'a>, address: IpAddr) -> Option<&'a [u8]>
    ensures { IsFirstFilter ((section_at section.entry).lines ++ section_lines (lines text.now))
        address (option_copied result) }
{
    match first_sources(section.left, address) {
        Some(sources) => Some(sources),
        None => first_sources(Some(text), address),
    }
}

/// Reads a text that is one address, of the type of another.
fn read_source(text: &[u8], address: IpAddr) -> Option<IpAddr>
    ensures { Finds (IsSourceAddress address) text.now result }
{
    match address {
        IpAddr::V4(_) => match Ipv4Addr::parse_ascii(text) {
            Ok(source) => Some(IpAddr::V4(source)),
            Err(_) => None,
        },
        IpAddr::V6(_) => match Ipv6Addr::parse_ascii(text) {
            Ok(source) => Some(IpAddr::V6(source)),
            Err(_) => None,
        },
    }
}

pub(crate) fn source_of<'a>(
    text: &'a [u8],
    section: VideoSection<'a>,
    address: IpAddr,
) -> Option<IpAddr>
    ensures { IsSourceOf (lines text.now) (section_at section.entry) (Some address) result }
{
    match sources_of(text, section, address) {
        Some(sources) => read_source(sources, address),
        None => None,
    }
}
