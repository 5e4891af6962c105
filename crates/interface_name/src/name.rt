//! A name of an interface: a value of one size, that is copied as a number is.
ghost use Rattle.std.specs.Prelude.{◌≡◌, ◌↔◌, ◌≤◌, Some, length};
ghost use Rattle.std.specs.List.{list_all};
ghost use Rattle.interface_name.specs.Name.{IsName, filled, is_name_octet, name_of, name_text};
ghost use Rattle.interface_name.specs.Name.{shown};
ghost use Rattle.interface_name.specs.declared.name.InterfaceName.{InterfaceName as Name};

use std::fmt;

/// How many octets a name has at most. The names of Linux and of BSD have fewer than 16, and those
/// of Windows, as `\Device\NPF_{..}` with a UUID, have 50.
pub const MOST: usize = 64;

/// The name of an interface: 1 to 64 characters of ASCII that print (RFC 20), besides space, `>`
/// and `@`, which words of commands have around names.
#[derive(Clone, Copy, Debug, PartialEq, Eq)]
pub struct InterfaceName {
    /// The octets of the name, and zeros behind them.
    octets: [u8; 64],
}

fn is_name_octet(octet: u8) -> bool
    ensures { result ≡ is_name_octet octet }
{
    b'!' <= octet && octet <= b'~' && octet != b'>' && octet != b'@'
}

fn are_name_octets(text: &[u8]) -> bool
    ensures { result ≡ list_all is_name_octet text.now }
{
    for octet in text {
        if !is_name_octet(*octet) {
            return false;
        }
    }
    true
}

fn filled(text: &[u8]) -> [u8; 64]
    requires { length text.now ≤ 64 }
    ensures { result ≡ filled text.now }
{
    let mut octets = [0u8; 64];
    octets[..text.len()].copy_from_slice(text);
    octets
}

impl InterfaceName {
    /// The name that a text is; none where it has no octet, more than 64, or one that a name can't
    /// have.
    pub fn read(text: &[u8]) -> Option<InterfaceName>
        ensures words { (name : Name) → (IsName text.now name ↔ (result ≡ Some name)) }
        // The same by a test.
        ensures exact { result ≡ name_of text.now }
    {
        if text.is_empty() || text.len() > MOST || !are_name_octets(text) {
            return None;
        }
        Some(InterfaceName {
            octets: filled(text),
        })
    }
}

/// An octet of a name, or nothing for one behind it.
#[derive(Clone, Copy)]
struct Shown(u8);

impl fmt::Display for Shown {
    ghost output = { λ s. Some (shown s.0) };

    fn fmt<W: fmt::Write>(&self, f: &mut fmt::Formatter<W>) -> fmt::Result {
        if !is_name_octet(self.0) {
            return Ok(());
        }
        write!(f, "{}", char::from(self.0))
    }
}

/// As [`InterfaceName::read`] reads it.
impl fmt::Display for InterfaceName {
    ghost output = { λ n. Some (name_text n) };

    fn fmt<W: fmt::Write>(&self, f: &mut fmt::Formatter<W>) -> fmt::Result {
        for octet in self.octets.as_slice() {
            write!(f, "{}", Shown(*octet))?;
        }
        Ok(())
    }
}
