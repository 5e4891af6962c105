//! Numbers in octets of either order.
ghost use Rattle.std.specs.Prelude.{◌≡◌, ◌≤◌, ◌+◌, length};
ghost use Rattle.pcap_file.specs.Orders.{long_at, short_at};

/// Which octet of a number comes first.
#[derive(Clone, Copy, Debug, PartialEq, Eq)]
pub enum ByteOrder {
    /// The most significant.
    Big,
    /// The least significant.
    Little,
}

/// The number in the two octets behind the first `at`.
pub(crate) fn short_at(order: ByteOrder, octets: &[u8], at: usize) -> u16
    requires { at + 2 ≤ length octets.now }
    ensures { result ≡ short_at order at octets.now }
{
    let pair = [octets[at], octets[at + 1]];
    match order {
        ByteOrder::Big => u16::from_be_bytes(pair),
        ByteOrder::Little => u16::from_le_bytes(pair),
    }
}

/// The number in the four octets behind the first `at`.
pub(crate) fn long_at(order: ByteOrder, octets: &[u8], at: usize) -> u32
    requires { at + 4 ≤ length octets.now }
    ensures { result ≡ long_at order at octets.now }
{
    let four = [octets[at], octets[at + 1], octets[at + 2], octets[at + 3]];
    match order {
        ByteOrder::Big => u32::from_be_bytes(four),
        ByteOrder::Little => u32::from_le_bytes(four),
    }
}
