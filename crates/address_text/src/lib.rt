//! IP addresses and socket addresses as text, gathered on the stack in pieces: what `Display`
//! writes of them. Whoever adds one shows that the text has the room, so that no line with an
//! address fails for want of it.
#![tactic(auto)]

ghost use Rattle.std.specs.Prelude.{◌≡◌, ◌≤◌, ◌+◌, ◌++◌, length};
ghost use Rattle.std.specs.Net.Addr.{ipv4_octets};
ghost use Rattle.std.specs.Net.Text.{ip_text, ipv4_text, scope_text, socket_text, socket_v4_text};
ghost use Rattle.std.specs.Net.Text.{socket_v6_text};
ghost use Rattle.arrayvec.specs.ArrayString.{array_string_len};

mod groups;
mod hex;
mod ipv6;

use arrayvec::ArrayString;
use ipv6::add_ipv6;
use itoa::{Buffer, Integer};
use std::net::{IpAddr, Ipv4Addr, SocketAddr, SocketAddrV4, SocketAddrV6};
use text_line::add;

/// Adds an address and its port to a text that has the room, as in `239.1.1.1:5004` and
/// `[fe80::1%2]:5004`: at most 64 octets.
pub fn add_socket<const N: usize>(text: &mut ArrayString<N>, address: SocketAddr)
    requires { array_string_len text.old + 64 ≤ N }
    ensures text { text.new.bytes ≡ text.old.bytes ++ socket_text address }
    ensures room { array_string_len text.new ≤ array_string_len text.old + 64 }
{
    match address {
        SocketAddr::V4(address) => add_socket_v4(text, address),
        SocketAddr::V6(address) => add_socket_v6(text, address),
    }
}

/// Adds an address to a text that has the room, as in `239.1.1.1` and `ff3e::1` (IPv6: RFC 5952):
/// at most 45 octets.
pub fn add_ip<const N: usize>(text: &mut ArrayString<N>, address: IpAddr)
    requires { array_string_len text.old + 45 ≤ N }
    ensures text { text.new.bytes ≡ text.old.bytes ++ ip_text address }
    ensures room { array_string_len text.new ≤ array_string_len text.old + 45 }
{
    match address {
        IpAddr::V4(address) => add_ipv4(text, address),
        IpAddr::V6(address) => add_ipv6(text, address),
    }
}

/// Adds an IPv4 address and its port, a colon between: at most 21 of the 64 octets.
fn add_socket_v4<const N: usize>(text: &mut ArrayString<N>, address: SocketAddrV4)
    requires { array_string_len text.old + 64 ≤ N }
    ensures text { text.new.bytes ≡ text.old.bytes ++ socket_v4_text address }
    ensures room { array_string_len text.new ≤ array_string_len text.old + 64 }
{
    add_ipv4(text, *address.ip());
    add_decimal(text, ":", address.port());
}

/// Adds an IPv6 address with its scope in square brackets, and its port.
fn add_socket_v6<const N: usize>(text: &mut ArrayString<N>, address: SocketAddrV6)
    requires { array_string_len text.old + 64 ≤ N }
    ensures text { text.new.bytes ≡ text.old.bytes ++ socket_v6_text address }
    ensures room { array_string_len text.new ≤ array_string_len text.old + 64 }
{
    add(text, "[");
    add_ipv6(text, *address.ip());
    add_scope(text, address.scope_id());
    add_decimal(text, "]:", address.port());
}

/// Adds the scope of an IPv6 address behind a `%`; nothing of the scope 0.
fn add_scope<const N: usize>(text: &mut ArrayString<N>, scope: u32)
    requires { array_string_len text.old + 11 ≤ N }
    ensures text { text.new.bytes ≡ text.old.bytes ++ scope_text scope }
    ensures room { array_string_len text.new ≤ array_string_len text.old + 11 }
{
    if scope != 0 {
        add_decimal(text, "%", scope);
    }
}

/// Adds an IPv4 address as four decimal numbers with dots between: at most 15 octets.
pub(crate) fn add_ipv4<const N: usize>(text: &mut ArrayString<N>, address: Ipv4Addr)
    requires { array_string_len text.old + 15 ≤ N }
    ensures text { text.new.bytes ≡ text.old.bytes ++ ipv4_text (ipv4_octets address) }
    ensures room { array_string_len text.new ≤ array_string_len text.old + 15 }
{
    let [a, b, c, d] = address.octets();
    add_decimal(text, "", a);
    add_decimal(text, ".", b);
    add_decimal(text, ".", c);
    add_decimal(text, ".", d);
}

/// Adds a word and a number in decimal digits, at most as many as its type needs.
fn add_decimal<I: Integer, const N: usize>(text: &mut ArrayString<N>, word: &str, number: I)
    requires { array_string_len text.old + (length word.now + I.MAX_STR_LEN) ≤ N }
    ensures text { text.new.bytes ≡ text.old.bytes ++ (word.now ++ I.text number) }
    ensures room { array_string_len text.new
        ≤ array_string_len text.old + (length word.now + I.MAX_STR_LEN) }
{
    let mut digits = Buffer::new();
    add(text, word);
    add(text, digits.format(number));
}
