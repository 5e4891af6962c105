//! A file that may be read twice, and what is remembered of it.
ghost use Rattle.capture_runs.specs.Replaying.{IsReplay};
ghost use Rattle.devices.specs.Passed.{file_gave};

use devices::FileSource;

/// Whether what a file gives is remembered.
#[derive(Clone, Copy)]
pub enum Keeping {
    /// It isn't: where the file is read again it is opened again.
    No,
    /// It is, in memory, and is given again before the rest of the file.
    Yes,
    /// It was, up to where memory was wanted.
    Lost,
}

/// A file that is read, or read a second time. What was remembered of it comes first, and then what
/// the file gives.
#[derive(Drop)]
pub struct Replayed<'a> {
    pub(crate) rt: &'a HostRuntime,
    pub(crate) name: &'a str,
    pub(crate) file: FileSource<'a>,
    pub(crate) memory: Vec<u8>,
    /// How many of the octets in memory were given.
    pub(crate) at: usize,
    pub(crate) keeping: Keeping,
    /// Whether this reading began.
    pub(crate) is_begun: bool,
    /// Whether the last call told the end.
    pub(crate) is_ended: bool,
    ghost replay: { IsReplay (file_gave file) memory.items at keeping },
}
