//! Flows, and the path of a datagram.
ghost use Rattle.std.specs.Prelude.{◌≡◌, ◌↔◌, IsTrue};
ghost use Rattle.flow.specs.Flow.{IsInFlow, IsOnePlace, address_octets, has_flow, is_address};
ghost use Rattle.flow.specs.Flow.{is_at, is_flow_to, is_named, path_to};

use interface_name::InterfaceName;
use st_format::Path;
use std::net::IpAddr;

/// Where the datagrams of a path are sent to, where they come from, and where they are taken: a UDP
/// port (RFC 768), and the address, the source and the interface where these are named. The
/// default, port 0 with none of them, is what arrays are filled with.
#[derive(Clone, Copy, Debug, Default, PartialEq, Eq)]
pub struct Flow {
    /// The interface that they are taken at; `None` where any will do.
    pub interface: Option<InterfaceName>,
    /// The address that they come from; `None` where any will do.
    pub source: Option<IpAddr>,
    /// The address that they are sent to; `None` where any will do.
    pub address: Option<IpAddr>,
    /// The UDP port that they are sent to (RFC 768).
    pub port: u16,
}

/// The flows of the two paths, each where it is taken.
#[derive(Clone, Copy, Debug, PartialEq, Eq)]
pub struct Flows {
    pub a: Option<Flow>,
    pub b: Option<Flow>,
}

fn is_address(address: IpAddr, octets: &[u8]) -> bool
    ensures { result ≡ is_address address octets.now }
{
    match address {
        IpAddr::V4(address) => address.octets().as_slice() == octets,
        IpAddr::V6(address) => address.octets().as_slice() == octets,
    }
}

fn is_named(address: Option<IpAddr>, octets: &[u8]) -> bool
    ensures { result ≡ is_named address octets.now }
{
    match address {
        Some(address) => is_address(address, octets),
        None => true,
    }
}

/// Whether an interface, or none that is known, is the one that is named, where one is named.
fn is_at(named: &Option<InterfaceName>, interface: &Option<InterfaceName>) -> bool
    ensures { result ≡ is_at named.now interface.now }
{
    match (named, interface) {
        (None, _) => true,
        (Some(_), None) => false,
        (Some(name), Some(other)) => name == other,
    }
}

impl Flow {
    /// Whether a datagram is of this flow that was taken at an interface, or at none that is known,
    /// and is sent from a source to a destination, each the 4 octets of an IPv4 address or the 16
    /// of an IPv6 address, and to a port: exactly where the port is the flow's, and the
    /// destination, the source and the interface are too, each if the flow names one.
    pub fn has(
        &self,
        interface: &Option<InterfaceName>,
        source: &[u8],
        destination: &[u8],
        port: u16,
    ) -> bool
        ensures words { IsTrue result
            ↔ IsInFlow interface.now source.now destination.now port self.now }
        // The same as a test.
        ensures exact { result ≡ has_flow self.now interface.now source.now destination.now port }
    {
        self.port == port
            && is_named(self.address, destination)
            && is_named(self.source, source)
            && is_at(&self.interface, interface)
    }
}

/// Whether a datagram is of this flow; of no flow none is.
fn is_flow_to(
    flow: &Option<Flow>,
    interface: &Option<InterfaceName>,
    source: &[u8],
    destination: &[u8],
    port: u16,
) -> bool
    ensures { result ≡ is_flow_to flow.now interface.now source.now destination.now port }
{
    match flow {
        Some(flow) => flow.has(interface, source, destination, port),
        None => false,
    }
}

impl Flows {
    /// The path of a datagram that was taken at an interface, or at none that is known, from a
    /// source to a destination and a port: A where A's flow has it, else B where B's has it.
    pub fn path_of(
        &self,
        interface: &Option<InterfaceName>,
        source: &[u8],
        destination: &[u8],
        port: u16,
    ) -> Option<Path>
        ensures { result ≡ path_to self.now interface.now source.now destination.now port }
    {
        if is_flow_to(&self.a, interface, source, destination, port) {
            Some(Path::A)
        } else if is_flow_to(&self.b, interface, source, destination, port) {
            Some(Path::B)
        } else {
            None
        }
    }

    /// Whether both flows are there and are the same. Then they don't tell the paths.
    pub fn is_one_place(&self) -> bool
        ensures { IsTrue result ↔ IsOnePlace self.now }
    {
        match (self.a, self.b) {
            (Some(a), Some(b)) => a == b,
            _ => false,
        }
    }
}
