//! Where a datagram was sent to.
ghost use Rattle.std.specs.Prelude.{◌≡◌};
ghost use Rattle.inspect_engine.specs.Arrivals.{IsAddress, destination_at};

use std::net::{IpAddr, Ipv4Addr, Ipv6Addr, SocketAddr};

/// The destination of an address, 4 octets of IPv4 or 16 of IPv6, and a port.
pub(crate) fn destination_of(address: &[u8], port: u16) -> SocketAddr
    requires { IsAddress address.now }
    ensures { result ≡ destination_at address.now port }
{
    if address.len() == 4 {
        let mut octets = [0u8; 4];
        octets.copy_from_slice(address);
        return SocketAddr::new(IpAddr::V4(Ipv4Addr::from_octets(octets)), port);
    }
    let mut octets = [0u8; 16];
    octets.copy_from_slice(address);
    SocketAddr::new(IpAddr::V6(Ipv6Addr::from_octets(octets)), port)
}
