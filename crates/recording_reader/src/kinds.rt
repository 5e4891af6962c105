//! Which octets begin a recording.
ghost use Rattle.std.specs.Prelude.{◌≡◌};
ghost use Rattle.recording_reader.specs.Kinds.{is_magic};

/// Whether these octets, the first four of a file or all that it has, are those that a recording
/// begins with.
pub(crate) fn is_magic(octets: &[u8]) -> bool
    ensures { result ≡ is_magic octets.now }
{
    octets == [0xa1, 0xb2, 0xc3, 0xd4].as_slice()
        || octets == [0xd4, 0xc3, 0xb2, 0xa1].as_slice()
        || octets == [0xa1, 0xb2, 0x3c, 0x4d].as_slice()
        || octets == [0x4d, 0x3c, 0xb2, 0xa1].as_slice()
        || octets == [0x0a, 0x0d, 0x0d, 0x0a].as_slice()
}
