//! A header gathered on the stack.
ghost use Rattle.std.specs.Prelude.{◌≡◌, ◌≤◌, ◌+◌, ◌++◌, [], length};
ghost use Rattle.std.specs.Fmt.{decimal};

use itoa::Buffer;
use std::marker::Model;

/// Room for any header that is written.
pub(crate) const ROOM: usize = 512;

/// Text that is put together.
#[derive(Drop)]
pub(crate) struct Line {
    room: [u8; ROOM],
    filled: usize,
}

impl Model for Line {
    ghost use Rattle.std.specs.Prelude.{◌≤◌, List, ℕ, length, take};

    ghost Value = { List ℕ };

    ghost view = { λ a. take a.filled a.room };

    ghost invariant = { λ a. a.filled ≤ length a.room };
}

impl Line {
    /// A line in which nothing is put yet.
    pub(crate) fn new() -> Line
        ensures { result ≡ [] }
    {
        Line {
            room: [0; ROOM],
            filled: 0,
        }
    }

    /// What was put together so far.
    pub(crate) fn text(&self) -> &[u8]
        ensures { result.now ≡ self.now }
    {
        &self.room[..self.filled]
    }

    /// Adds a word, for which its callers show that there is room.
    pub(crate) fn add(&mut self, word: &[u8])
        requires { length self.old + length word.now ≤ ROOM }
        ensures text { self.new ≡ self.old ++ word.now }
        ensures long { length self.new ≡ length self.old + length word.now }
    {
        let end = self.filled + word.len();
        self.room[self.filled..end].copy_from_slice(word);
        self.filled = end;
    }

    /// Adds a word and a number in decimal digits.
    pub(crate) fn add_number(&mut self, word: &[u8], number: u32)
        requires { length self.old + (length word.now + 40) ≤ ROOM }
        ensures text { self.new ≡ self.old ++ (word.now ++ decimal number) }
        ensures short { length self.new ≤ length self.old + (length word.now + 40) }
    {
        let mut digits = Buffer::new();
        self.add(word);
        self.add(digits.format(number).as_bytes());
    }
}
