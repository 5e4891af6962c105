//! Numbers in octets, most significant octet first.
ghost use Rattle.std.specs.Prelude.{◌≡◌, ◌≤◌, ◌+◌, length};
ghost use Rattle.pcap_file.specs.Parts.{number_16};

/// The number in the two octets behind the first `at`, most significant first.
pub fn number_16(octets: &[u8], at: usize) -> u16
    requires { at + 2 ≤ length octets.now }
    ensures { result ≡ number_16 at octets.now }
{
    u16::from_be_bytes([octets[at], octets[at + 1]])
}
