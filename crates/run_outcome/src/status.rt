//! How a run ended.
ghost use Rattle.std.specs.Prelude.{◌≡◌};
ghost use Rattle.run_outcome.specs.Status.{status_number};

/// How a run of the program ended (own).
#[derive(Clone, Copy, Debug, PartialEq, Eq)]
pub enum Status {
    /// All that was asked for was done.
    Done = 0,
    /// Words, a script, a text or a file was refused, which a line told.
    Refused = 1,
    /// The words of the command line were no command.
    CommandLine = 2,
    /// A device failed, standard error among them.
    Device = 3,
    /// Memory was wanted, and there was none.
    Memory = 4,
}

impl Status {
    /// The exit status, 0 to 4.
    pub fn number(self) -> u8
        ensures { result ≡ status_number self }
    {
        self as u8
    }
}
