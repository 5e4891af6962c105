//! A file that was written into a directory, as only proofs read it.
ghost use Rattle.std.specs.Prelude.{◌≡◌};

use crate::history::History;

/// A file that has its name. It takes no memory.
#[derive(Drop)]
pub struct Filed {
    /// The octets of the name.
    pub name: History,
    /// The octets that the file took, in order.
    pub took: History,
}

impl Filed {
    /// The file of this name that took this.
    pub(crate) fn new(name: &str, took: History) -> Filed
        ensures name { result.name.octets ≡ name.now }
        ensures took { result.took ≡ took }
    {
        let mut noted = History::new();
        noted.note(name.as_bytes());
        Filed { name: noted, took }
    }
}
