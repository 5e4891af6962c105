//! Where the video of a text is sent to, and where from.
ghost use Rattle.std.specs.Prelude.{◌≡◌, ◌↔◌, ◌∷◌, [], Err, List, Ok};
ghost use Rattle.std.specs.Option.{option_copied};
ghost use Rattle.sdp_format.specs.Bytes.{lines, split_lines_left};
ghost use Rattle.sdp_format.specs.Destinations.{AreFlows, IsConnection, IsFlowFault};
ghost use Rattle.sdp_format.specs.Destinations.{IsFlowOf, IsFlowsFault, SectionsFault};
ghost use Rattle.sdp_format.specs.Destinations.{SectionsFlows, connection_of, first_connection};
ghost use Rattle.sdp_format.specs.Destinations.{flows_seen};
ghost use Rattle.sdp_format.specs.ReadLeg.{section_at};
ghost use Rattle.sdp_format.specs.Sections.{section_lines};
ghost use Rattle.flow.specs.FlowText.{Finds};
ghost use Rattle.flow.specs.declared.flows.Flow.{Flow as Place};
ghost use Rattle.sdp_format.specs.declared.flows_fault.FlowsFault.{FlowsFault as Fault};

use crate::flows_fault::FlowsFault;
use crate::lines::{begins, media_of, next_line, next_video};
use crate::sdp::VideoSection;
use crate::source::source_of;
use crate::text::{after_word, cut, trim_end};
use arrayvec::ArrayVec;
use flow::Flow;
use std::net::{IpAddr, Ipv4Addr, Ipv6Addr};

/// The first line `c=` of a section, or of the session where this is the text from its first line
/// on.
fn first_connection(left: Option<&[u8]>) -> Option<&[u8]>
    ensures { option_copied result
        ≡ first_connection (section_lines (split_lines_left (option_copied left.entry))) }
{
    let mut rest = left;
    while let Some(text) = rest {
        let (line, more) = next_line(text);
        if begins(b"m=", line) {
            return None;
        }
        if begins(b"c=", line) {
            return Some(line);
        }
        rest = more;
    }
    None
}

fn connection_of<'a>(text: &'a [u8], section: VideoSection<'a>) -> Option<&'a [u8]>
    ensures { option_copied result
        ≡ connection_of (lines text.now) (section_at section.entry) }
{
    match first_connection(section.left) {
        Some(line) => Some(line),
        None => first_connection(Some(text)),
    }
}

/// The address that a line `c=` names.
fn read_connection(line: &[u8]) -> Option<IpAddr>
    ensures { Finds IsConnection line.now result }
{
    let (text, _) = cut(trim_end(line), b'/');
    if let Some(address) = after_word(text, b"c=IN IP4 ") {
        match Ipv4Addr::parse_ascii(address) {
            Ok(address) => Some(IpAddr::V4(address)),
            Err(_) => None,
        }
    } else if let Some(address) = after_word(text, b"c=IN IP6 ") {
        match Ipv6Addr::parse_ascii(address) {
            Ok(address) => Some(IpAddr::V6(address)),
            Err(_) => None,
        }
    } else {
        None
    }
}

/// Where a section is sent to, and where from: the port alone, where no address is said for it.
fn flow_of<'a>(text: &'a [u8], section: VideoSection<'a>) -> Result<Flow, FlowsFault>
    ensures flow { (f : Place) → (IsFlowOf (lines text.now) (section_at section.entry) f
        ↔ (result ≡ Ok f)) }
    ensures fault { (e : Fault) → (IsFlowFault (lines text.now) (section_at section.entry) e
        ↔ (result ≡ Err e)) }
{
    let Some((port, _)) = media_of(section.media) else {
        return Err(FlowsFault::BadMediaLine);
    };
    let Some(line) = connection_of(text, section) else {
        return Ok(Flow {
            interface: None,
            source: None,
            address: None,
            port,
        });
    };
    match read_connection(line) {
        Some(address) => Ok(Flow {
            interface: None,
            source: source_of(text, section, address),
            address: Some(address),
            port,
        }),
        None => Err(FlowsFault::BadConnection),
    }
}

/// Where the section of a text of one is sent to.
fn one<'a>(text: &'a [u8], section: VideoSection<'a>) -> Result<ArrayVec<Flow, 2>, FlowsFault>
    ensures flows { (flows : List Place)
        → (SectionsFlows (lines text.now) (section_at section.entry ∷ []) flows
        ↔ (flows_seen result ≡ Ok flows)) }
    ensures fault { (e : Fault)
        → (SectionsFault (lines text.now) (section_at section.entry ∷ []) e
        ↔ (flows_seen result ≡ Err e)) }
{
    let flow = flow_of(text, section)?;
    let mut flows = ArrayVec::new();
    flows.push(flow);
    Ok(flows)
}

/// Where the sections of a text of two are sent to.
fn two<'a>(
    text: &'a [u8],
    first: VideoSection<'a>,
    second: VideoSection<'a>,
) -> Result<ArrayVec<Flow, 2>, FlowsFault>
    ensures flows { (flows : List Place) → (SectionsFlows (lines text.now)
        (section_at first.entry ∷ section_at second.entry ∷ []) flows
        ↔ (flows_seen result ≡ Ok flows)) }
    ensures fault { (e : Fault) → (SectionsFault (lines text.now)
        (section_at first.entry ∷ section_at second.entry ∷ []) e
        ↔ (flows_seen result ≡ Err e)) }
{
    let flow = flow_of(text, first)?;
    let second_flow = flow_of(text, second)?;
    let mut flows = ArrayVec::new();
    flows.push(flow);
    flows.push(second_flow);
    Ok(flows)
}

/// Reads where the video of an SDP text is sent to and comes from (RFC 8866, 5.7 and 5.14; RFC
/// 4570, 3): a flow for each of its one or two video sections, in the order of the text, which
/// [`crate::read_sdp`] sees too; the first is path A's, the second path B's.
///
/// The port is that of the section's line `m=`. The address is that of the section's first line
/// `c=`, else of the session's, the first that stands before the first section of any kind; where
/// there is none of both, the flow names no address. Such a line is `c=IN IP4 ADDRESS` or `c=IN
/// IP6 ADDRESS`, with spaces and tabs at its end; what follows from its first `/` on, a time to
/// live or a count, is passed over.
///
/// The source is the one that the section's first line `a=source-filter` includes for that address,
/// else the session's first. Such a line is `a=source-filter: incl IN IP4 DESTINATION SOURCE`, or
/// `IP6` where the address is of IPv6, with spaces and tabs at its end; the destination is the
/// address or `*`. Where the line that counts has several sources, or a host's name, the flow names
/// no source. A line of another form is passed over.
///
/// The error is the first fault of the text: `NoVideo`, `TooManyLegs`, then `BadMediaLine` and
/// `BadConnection` of the first section, and those of the second. `BadConnection` comes where the
/// line `c=` that counts isn't of that form, as with a host's name.
pub fn read_flows(text: &[u8]) -> Result<ArrayVec<Flow, 2>, FlowsFault>
    ensures flows { (flows : List Place) → (AreFlows (lines text.now) flows
        ↔ (flows_seen result ≡ Ok flows)) }
    ensures fault { (e : Fault) → (IsFlowsFault (lines text.now) e
        ↔ (flows_seen result ≡ Err e)) }
{
    let Some(first) = next_video(Some(text)) else {
        return Err(FlowsFault::NoVideo);
    };
    let Some(second) = next_video(first.left) else {
        return one(text, first);
    };
    if next_video(second.left).is_some() {
        return Err(FlowsFault::TooManyLegs);
    }
    two(text, first, second)
}
