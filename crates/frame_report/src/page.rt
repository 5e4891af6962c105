//! Text gathered on the stack, on its way to a sink.
ghost use Rattle.std.specs.Prelude.{◌≡◌, ◌≤◌, ◌+◌, ◌++◌, [], OnErr, OnOk, length};
ghost use Rattle.st_format.specs.Device.{CountsFaults};
ghost use Rattle.frame_report.specs.Gathers.{Gathers, TakesPart, TakesText, numbered_word, told_of};

use itoa::Buffer;
use st_format::{ByteSink, DeviceFault, write_whole};
use std::marker::Model;

/// How many octets are gathered before a sink is asked to take them.
pub(crate) const GATHERED: usize = 4096;

/// Room for any line, with 40 octets for each of its numbers.
pub(crate) const LINE: usize = 512;

/// Text that waits for a sink: a line is put behind it, and where that may have no place, what
/// waits is written first.
#[derive(Drop)]
pub(crate) struct Page {
    room: [u8; GATHERED],
    filled: usize,
}

impl Model for Page {
    ghost use Rattle.std.specs.Prelude.{◌≤◌, List, ℕ, length, take};

    // What waits
    ghost Value = { List ℕ };

    ghost view = { λ a. take a.filled a.room };

    ghost invariant = { λ a. a.filled ≤ length a.room };
}

impl Page {
    /// A page on which nothing waits.
    pub(crate) fn new() -> Page
        ensures { result ≡ [] }
    {
        Page {
            room: [0; GATHERED],
            filled: 0,
        }
    }

    /// Writes what waits where a line may have no place behind it: so pages are of whole lines.
    pub(crate) fn make_room<K: ByteSink>(&mut self, sink: &mut K) -> Result<(), DeviceFault>
        ensures room { OnOk result (length self.new + LINE ≤ GATHERED) }
        ensures ok { OnOk result
            (Gathers (told_of K.took K.held sink.old) (told_of K.took K.held sink.new) self.old
            self.new []) }
        ensures fault { OnErr result
            (TakesPart (told_of K.took K.held sink.old) (told_of K.took K.held sink.new) self.old) }
        ensures counted { CountsFaults (K.failures sink.old) (K.failures sink.new) result }
    {
        if self.filled + LINE <= GATHERED {
            return Ok(());
        }
        self.write(sink)
    }

    /// Writes what waits; then nothing does.
    pub(crate) fn write<K: ByteSink>(&mut self, sink: &mut K) -> Result<(), DeviceFault>
        ensures empty { OnOk result (self.new ≡ []) }
        ensures ok { OnOk result
            (TakesText (told_of K.took K.held sink.old) (told_of K.took K.held sink.new) self.old) }
        ensures fault { OnErr result
            (TakesPart (told_of K.took K.held sink.old) (told_of K.took K.held sink.new) self.old) }
        ensures counted { CountsFaults (K.failures sink.old) (K.failures sink.new) result }
    {
        write_whole(sink, &self.room[..self.filled])?;
        self.filled = 0;
        Ok(())
    }

    /// Adds a word behind what waits; there is room for it.
    pub(crate) fn add(&mut self, word: &[u8])
        requires { length self.old + length word.now ≤ GATHERED }
        ensures { self.new ≡ self.old ++ word.now }
    {
        let end = self.filled + word.len();
        self.room[self.filled..end].copy_from_slice(word);
        self.filled = end;
    }

    /// Adds a word and a number in decimal digits.
    pub(crate) fn add_number(&mut self, word: &[u8], number: u64)
        requires { length self.old + (length word.now + 40) ≤ GATHERED }
        ensures text { self.new ≡ self.old ++ numbered_word word.now number }
        ensures short { length self.new ≤ length self.old + (length word.now + 40) }
    {
        let mut digits = Buffer::new();
        self.add(word);
        self.add(digits.format(number).as_bytes());
    }
}
