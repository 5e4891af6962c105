//! A text, and that it reads back.
ghost use Rattle.std.specs.Prelude.{◌≡◌, IfOk, IfSome, OnOk};
ghost use Rattle.sdp_writing.specs.Written.{IsTold};
ghost use Rattle.sdp_format.specs.Canonical.{canonical_line};
ghost use Rattle.sdp_format.specs.Views.{description};
ghost use Rattle.sdp_writing.specs.Lines.{text_of};
ghost use Rattle.sdp_writing.specs.Written.{IsTextOf, ports, sdp_lines, told_legs};

use crate::text::{add_leg, add_line, add_session};
use flow::Flow;
use sdp_format::{Sdp, fmtp_text};
use std::alloc::{AllocError, Allocator};

/// The text of a stream of this payload type, with this line of its parameters.
fn written<A: Allocator + Copy>(
    alloc: A,
    payload_type: u8,
    parameters: &[u8],
    a: Flow,
    b: Option<Flow>,
) -> Result<Vec<u8, A>, AllocError>
    ensures lines { IfOk result
        (λ text. text.items ≡ text_of (sdp_lines payload_type parameters.now a b)) }
    ensures a { OnOk result (IsTold a) }
    ensures b { OnOk result (IfSome b IsTold) }
{
    let mut text = Vec::new(alloc);
    add_session(&mut text)?;
    match b {
        None => add_leg(alloc, &mut text, payload_type, parameters, a, "A")?,
        Some(b) => {
            add_line(&mut text, b"a=group:DUP A B")?;
            add_leg(alloc, &mut text, payload_type, parameters, a, "A")?;
            add_leg(alloc, &mut text, payload_type, parameters, b, "B")?;
        }
    }
    Ok(text)
}

/// Writes the SDP text of a stream that goes to one leg or to two (RFC 8866; RFC 7104, 4): a
/// section for each, path A's first, with the address and the port of the leg, and the canonical
/// fmtp line of what is said. What [`sdp_format::read_sdp`] reads of the text is what was said, and
/// what [`sdp_format::read_flows`] reads of it are the legs without their sources and interfaces,
/// which no line tells.
///
/// A leg without an address has no line `c=`. A multicast address of IPv4 has a time to live of 64.
/// Each line ends with CR and LF.
///
/// The only error is that a growth was refused.
pub fn write_sdp<A: Allocator + Copy>(
    alloc: A,
    sdp: &Sdp,
    a: Flow,
    b: Option<Flow>,
) -> Result<Vec<u8, A>, AllocError>
    requires { sdp.now.ports.items ≡ ports a b }
    ensures text { IfOk result (λ text. text.items ≡ text_of
        (sdp_lines sdp.now.payload_type (canonical_line (description sdp.now).leg) a b)) }
    ensures says { IfOk result
        (λ text. IsTextOf text.items (description sdp.now) (told_legs a b)) }
{
    match fmtp_text(alloc, sdp) {
        Ok(line) => written(alloc, sdp.payload_type, &line, a, b),
        Err(_) => Err(AllocError),
    }
}
