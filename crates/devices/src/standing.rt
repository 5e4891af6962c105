//! Where the reading of a device stands, and how the writing of one went: what is told where it
//! fails.
use std::io;

/// Where the reading of a file or of standard input stands.
#[derive(Clone, Copy)]
pub struct Reading<'a> {
    pub name: &'a str,
    /// How many octets were read: the place where the reading stands.
    pub octet: u64,
    /// Whether it begins as what gzip packs.
    pub is_packed: bool,
    /// Why it failed, where it did.
    pub fault: Option<io::Error>,
}

/// How the writing of a file or of standard output went.
#[derive(Clone, Copy)]
pub struct Writing<'a> {
    pub name: &'a str,
    pub has_failed: bool,
    /// Why it failed, where the system said so.
    pub fault: Option<io::Error>,
    /// The file that holds what was written and is not whole, if one does.
    pub left: Option<&'a str>,
}
