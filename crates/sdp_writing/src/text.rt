//! The lines of a text.
ghost use Rattle.std.specs.Prelude.{◌≡◌, ◌∷◌, ◌++◌, [], IfSome, OnOk};
ghost use Rattle.std.specs.Net.Addr.{IsIpv4Addr, IsIpv6Addr, MatchIp, ipv4_octets, ipv6_segments};
ghost use Rattle.sdp_writing.specs.Lines.{ended, text_of};
ghost use Rattle.sdp_writing.specs.Written.{connection_line, connection_lines, leg_lines};
ghost use Rattle.sdp_writing.specs.Written.{lifetime_text, map_line, media_line, session_lines};
ghost use Rattle.sdp_writing.specs.Written.{IsTold};

use flow::Flow;
use std::alloc::{AllocError, Allocator};
use std::net::{IpAddr, Ipv4Addr, Ipv6Addr};

/// Puts a line and its end, CR and LF (RFC 8866, 5), behind a text.
pub(crate) fn add_line<A: Allocator>(text: &mut Vec<u8, A>, line: &[u8]) -> Result<(), AllocError>
    ensures { OnOk result (text.new.items ≡ text.old.items ++ ended line.now) }
{
    text.extend_from_slice(line)?;
    text.extend_from_slice(b"\r\n")?;
    Ok(())
}

/// `/64` where an address of IPv4 begins as a multicast one does (RFC 8866, 5.7), else nothing.
fn lifetime(first: u8) -> &'static str
    ensures { result.now ≡ lifetime_text first }
{
    if first >= 224 && first <= 239 {
        "/64"
    } else {
        ""
    }
}

/// An address's octets. A caller's proof learns here that they are octets.
fn octets_of(address: Ipv4Addr) -> [u8; 4]
    ensures octets { result ≡ ipv4_octets address }
    ensures address { IsIpv4Addr address }
{
    address.octets()
}

/// An address's segments. A caller's proof learns here that each has 16 bits.
fn segments_of(address: Ipv6Addr) -> [u16; 8]
    ensures segments { result ≡ ipv6_segments address }
    ensures address { IsIpv6Addr address }
{
    address.segments()
}

/// Puts the line of an address of IPv4 behind a text.
fn add_ipv4<A: Allocator + Copy>(
    alloc: A,
    text: &mut Vec<u8, A>,
    address: Ipv4Addr,
) -> Result<(), AllocError>
    ensures line { OnOk result
        (text.new.items ≡ text.old.items ++ ended (connection_line (IpAddr.V4 address))) }
    ensures address { IsIpv4Addr address }
{
    let [first, ..] = octets_of(address);
    let line = format!(in alloc; "c=IN IP4 {address}{}", lifetime(first))?;
    add_line(text, line.as_bytes())
}

/// Puts the line of an address behind a text, where there is one, as `Display` spells it: so a text
/// is a function of values, and not of words.
fn add_connection<A: Allocator + Copy>(
    alloc: A,
    text: &mut Vec<u8, A>,
    address: Option<IpAddr>,
) -> Result<(), AllocError>
    ensures lines { OnOk result
        (text.new.items ≡ text.old.items ++ text_of (connection_lines address)) }
    ensures address { IfSome address (λ a. MatchIp a IsIpv4Addr IsIpv6Addr) }
{
    match address {
        None => Ok(()),
        Some(IpAddr::V4(address)) => add_ipv4(alloc, text, address),
        Some(IpAddr::V6(address)) => {
            let _segments = segments_of(address);
            let line = format!(in alloc; "c=IN IP6 {address}")?;
            add_line(text, line.as_bytes())
        }
    }
}

/// Puts the section of a leg behind a text, with the line of its parameters and its name.
pub(crate) fn add_leg<A: Allocator + Copy>(
    alloc: A,
    text: &mut Vec<u8, A>,
    payload_type: u8,
    parameters: &[u8],
    leg: Flow,
    name: &str,
) -> Result<(), AllocError>
    ensures lines { OnOk result (text.new.items ≡ text.old.items
        ++ text_of (leg_lines payload_type parameters.now leg name.now)) }
    ensures flow { OnOk result (IsTold leg) }
{
    let port = leg.port;
    let media = format!(in alloc; "m=video {port} RTP/AVP {payload_type}")?;
    add_line(text, media.as_bytes())?;
    add_connection(alloc, text, leg.address)?;
    let map = format!(in alloc; "a=rtpmap:{payload_type} raw/90000")?;
    add_line(text, map.as_bytes())?;
    add_line(text, parameters)?;
    let name = format!(in alloc; "a=mid:{name}")?;
    add_line(text, name.as_bytes())
}

/// Puts the lines that stand before all sections behind a text.
pub(crate) fn add_session<A: Allocator + Copy>(text: &mut Vec<u8, A>) -> Result<(), AllocError>
    ensures { OnOk result (text.new.items ≡ text.old.items ++ text_of session_lines) }
{
    add_line(text, b"v=0")?;
    add_line(text, b"o=- 0 0 IN IP4 127.0.0.1")?;
    add_line(text, b"s=-")?;
    add_line(text, b"t=0 0")
}
