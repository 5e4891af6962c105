//! The paths of a capture that is written.
ghost use Rattle.std.specs.Prelude.{◌≡◌};
ghost use Rattle.media_file.specs.Writer.{width};

/// By which paths a datagram is written: a record for each.
#[derive(Clone, Copy, Debug, PartialEq, Eq)]
pub enum Paths {
    OnlyA,
    OnlyB,
    Both,
}

impl Paths {
    /// How many records a datagram has.
    pub(crate) fn width(self) -> u64
        ensures { result ≡ width self }
    {
        match self {
            Paths::OnlyA | Paths::OnlyB => 1,
            Paths::Both => 2,
        }
    }
}
