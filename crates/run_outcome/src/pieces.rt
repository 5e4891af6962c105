//! What lines have in common: room for all that is added to them, and the names of faults.
ghost use Rattle.std.specs.Prelude.{◌≡◌, ◌≤◌, ◌+◌, ◌++◌, length};
ghost use Rattle.arrayvec.specs.ArrayString.{array_string_len};
ghost use Rattle.run_outcome.specs.Telling.{numbered_name};

use arrayvec::ArrayString;
use text_line::{add, add_number};

/// Room for any line of output or of a fault, in octets: at most five numbers, of at most 20 digits
/// each, and words.
pub(crate) const LINE: usize = 160;

/// Adds a word, a number, a space and the name of a fault to a text that has the room.
pub(crate) fn add_fault(text: &mut ArrayString<LINE>, word: &str, number: u8, name: &str)
    requires name { length name.now ≤ 32 }
    requires room { array_string_len text.old + (length word.now + 53) ≤ LINE }
    ensures text { text.new.bytes ≡ text.old.bytes ++ numbered_name word.now number name.now }
    ensures room { array_string_len text.new ≤ array_string_len text.old + (length word.now + 53) }
{
    add_number(text, word, u64::from(number));
    add(text, " ");
    add(text, name);
}
