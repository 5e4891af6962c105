//! Texts of addresses of a link (RFC 4007, 11), which no recording has. Those of others are in the
//! program's tests.
use crate::checks::met;
use address_text::add_socket;
use arrayvec::ArrayString;
use std::net::{Ipv6Addr, SocketAddr, SocketAddrV6};
use std::process::Abort;

#[test]
fn of_a_link(rt: HostRuntime) {
    let local = Ipv6Addr::new(0xfe80, 0, 0, 0, 0, 0, 0, 1);
    let mut text = ArrayString::<64>::new();
    add_socket(&mut text, SocketAddr::V6(SocketAddrV6::new(local, 9, 0, 2)));
    met(&rt, text.as_str() == "[fe80::1%2]:9");
}
