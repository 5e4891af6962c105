//! IPv6 addresses as text (RFC 5952).
ghost use Rattle.std.specs.Prelude.{◌≡◌, ◌≤◌, ◌+◌, ◌*◌, ◌++◌, length};
ghost use Rattle.std.specs.Net.Addr.{ipv6_segments};
ghost use Rattle.std.specs.Net.Text.{hex_groups_text, ipv6_text};
ghost use Rattle.std.specs.Net.Text as text_of;
ghost use Rattle.arrayvec.specs.ArrayString.{array_string_len};

use crate::add_ipv4;
use crate::groups::add_groups;
use arrayvec::ArrayString;
use std::net::Ipv6Addr;
use text_line::add;

/// Adds an IPv6 address. One that holds an IPv4 address ends in its text.
pub(crate) fn add_ipv6<const N: usize>(text: &mut ArrayString<N>, address: Ipv6Addr)
    requires { array_string_len text.old + 40 ≤ N }
    ensures text { text.new.bytes ≡ text.old.bytes ++ ipv6_text (ipv6_segments address) }
    ensures room { array_string_len text.new ≤ array_string_len text.old + 40 }
{
    match address.to_ipv4_mapped() {
        Some(mapped) => {
            add(text, "::ffff:");
            add_ipv4(text, mapped);
        }
        None => add_compressed(text, &address.segments()),
    }
}

/// Adds segments with the longest run of zeros as `::`, of two such runs the first, where the run
/// is of two segments or more.
#[tactic(auto, unfolding(std::specs::Net::Text::hex_groups_text))]
fn add_compressed<const N: usize>(text: &mut ArrayString<N>, segments: &[u16])
    requires { array_string_len text.old + 5 * length segments.now ≤ N }
    ensures text { text.new.bytes ≡ text.old.bytes ++ hex_groups_text segments.now }
    ensures room { array_string_len text.new ≤ array_string_len text.old + 5 * length segments.now }
{
    let (start, len) = longest_zero_run(segments);
    if len > 1 {
        add_groups(text, &segments[..start]);
        add(text, "::");
        add_groups(text, &segments[start + len..]);
    } else {
        add_groups(text, segments);
    }
}

/// The start and the length of the longest run of zeros, the first one of that length.
fn longest_zero_run(segments: &[u16]) -> (usize, usize)
    ensures value { result ≡ text_of.longest_zero_run segments.now }
    ensures within { result.0 + result.1 ≤ length segments.now }
{
    let mut start = segments.len();
    let mut len = 0;
    let mut run = 0;
    for i in (0..segments.len()).rev() {
        run = if segments[i] == 0 { run + 1 } else { 0 };
        if run >= len {
            start = i;
            len = run;
        }
    }
    (start, len)
}
