//! Flows as texts.
ghost use Rattle.std.specs.Prelude.{◌≡◌, ◌↔◌, ◌∷◌, ◌++◌, ℕ, All, List, MatchOption, Some, codes};
ghost use Rattle.std.specs.Option.{option_copied};
ghost use Rattle.flow.specs.FlowText.{Finds, IsFlowText, IsHost, IsOther, IsPort, SpellsPlace};
ghost use Rattle.flow.specs.FlowText.{SpellsEnds, ends_text, flow_text, host_text};

use crate::flows::Flow;
use interface_name::InterfaceName;
use st_format::read_number;
use std::fmt;
use std::net::{IpAddr, Ipv4Addr, Ipv6Addr};

/// A port: one to ten decimal digits whose value is at most 65,535.
fn read_port(text: &[u8]) -> Option<u16>
    ensures { Finds IsPort text.now result }
{
    let value = read_number(text)?;
    u16::try_from(value).ok()
}

/// What stands in square brackets, where a text is that.
fn in_brackets(text: &[u8]) -> Option<&[u8]>
    ensures { (inside : List ℕ) → ((text.now ≡ codes "[" ++ inside ++ codes "]")
        ↔ (option_copied result ≡ Some inside)) }
{
    match text {
        [b'[', inside @ .., b']'] => Some(inside),
        _ => None,
    }
}

/// An IPv4 address, or an IPv6 address in square brackets.
fn read_host(text: &[u8]) -> Option<IpAddr>
    ensures { Finds IsHost text.now result }
{
    if let Ok(address) = Ipv4Addr::parse_ascii(text) {
        return Some(IpAddr::V4(address));
    }
    let inside = in_brackets(text)?;
    match Ipv6Addr::parse_ascii(inside) {
        Ok(address) => Some(IpAddr::V6(address)),
        Err(_) => None,
    }
}

/// The text before the last mark and the text behind it; none where it has no mark.
fn split_at_last(text: &[u8], mark: u8) -> Option<(&[u8], &[u8])>
    ensures { MatchOption result (All (IsOther mark) text.now)
        (λ p. (text.now ≡ p.0.now ++ mark ∷ p.1.now) × All (IsOther mark) p.1.now) }
{
    let mut rest = text;
    while let Some((last, less)) = rest.split_last() {
        if *last == mark {
            return Some((less, &text[rest.len()..]));
        }
        rest = less;
    }
    None
}

/// Where datagrams are sent to: a port, or an address, a colon and a port.
fn read_place(text: &[u8]) -> Option<(Option<IpAddr>, u16)>
    ensures { Finds SpellsPlace text.now result }
{
    match split_at_last(text, b':') {
        Some((host, port)) => {
            let address = read_host(host)?;
            let port = read_port(port)?;
            Some((Some(address), port))
        }
        None => {
            let port = read_port(text)?;
            Some((None, port))
        }
    }
}

/// Where datagrams come from, if that is named, and where they are sent to: a place, or an address,
/// a `>` and a place.
fn read_ends(text: &[u8]) -> Option<(Option<IpAddr>, (Option<IpAddr>, u16))>
    ensures { Finds SpellsEnds text.now result }
{
    match split_at_last(text, b'>') {
        Some((host, rest)) => {
            let source = read_host(host)?;
            let place = read_place(rest)?;
            Some((Some(source), place))
        }
        None => {
            let place = read_place(text)?;
            Some((None, place))
        }
    }
}

/// Reads a flow: `PORT`, as `5004`, or `ADDRESS:PORT`, as `239.1.1.1:5004` and `[ff3e::1]:5004`
/// (square brackets: RFC 3986, 3.2.2; IPv6 addresses: RFC 4291, 2.2), and in front of either may
/// stand `SOURCE>`, as in `192.0.2.1>239.1.1.1:5004` and `[fe80::1]>[ff3e::1]:5004`, and in front
/// of all `INTERFACE@`, as in `eth0@239.1.1.1:5004` and `eth0@192.0.2.1>5004`. A port is one to ten
/// decimal digits, of which zeros may lead, of a value up to 65,535. An IPv4 address is four
/// numbers without leading zeros. An interface is a name as [`InterfaceName::read`] reads it. Any
/// other text is none, also one whose address has a zone, as `[fe80::1%eth0]:5004`, or is a host's
/// name.
pub fn read_flow(text: &[u8]) -> Option<Flow>
    ensures { Finds IsFlowText text.now result }
{
    match split_at_last(text, b'@') {
        Some((name, rest)) => {
            let interface = InterfaceName::read(name)?;
            let ends = read_ends(rest)?;
            Some(Flow {
                interface: Some(interface),
                source: ends.0,
                address: ends.1.0,
                port: ends.1.1,
            })
        }
        None => {
            let ends = read_ends(text)?;
            Some(Flow {
                interface: None,
                source: ends.0,
                address: ends.1.0,
                port: ends.1.1,
            })
        }
    }
}

/// An address as a flow's text has it, IPv6 addresses in square brackets.
#[derive(Clone, Copy)]
struct Host(IpAddr);

impl fmt::Display for Host {
    ghost output = { λ h. Some (host_text h.0) };

    fn fmt<W: fmt::Write>(&self, f: &mut fmt::Formatter<W>) -> fmt::Result {
        match self.0 {
            IpAddr::V4(address) => write!(f, "{address}"),
            IpAddr::V6(address) => write!(f, "[{address}]"),
        }
    }
}

/// The ends of a flow: where its datagrams come from, if that is named, and where they are sent to.
#[derive(Clone, Copy)]
struct Ends<'a>(&'a Flow);

impl fmt::Display for Ends<'_> {
    ghost output = { λ e. Some (ends_text e.0.now) };

    fn fmt<W: fmt::Write>(&self, f: &mut fmt::Formatter<W>) -> fmt::Result {
        let port = self.0.port;
        match (self.0.source, self.0.address) {
            (None, None) => write!(f, "{port}"),
            (None, Some(to)) => write!(f, "{}:{port}", Host(to)),
            (Some(from), None) => write!(f, "{}>{port}", Host(from)),
            (Some(from), Some(to)) => write!(f, "{}>{}:{port}", Host(from), Host(to)),
        }
    }
}

/// As [`read_flow`] reads it: `5004`, `239.1.1.1:5004`, `[ff3e::1]:5004`,
/// `192.0.2.1>239.1.1.1:5004`, `eth0@239.1.1.1:5004`, IPv6 addresses as RFC 5952 has them.
impl fmt::Display for Flow {
    ghost output = { λ f. Some (flow_text f) };

    fn fmt<W: fmt::Write>(&self, f: &mut fmt::Formatter<W>) -> fmt::Result {
        let ends = Ends(self);
        match self.interface {
            None => write!(f, "{ends}"),
            Some(name) => write!(f, "{name}@{ends}"),
        }
    }
}
