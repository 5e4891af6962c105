//! Lines as text, gathered on the stack in pieces: words, and numbers in decimal digits. Whoever
//! adds a piece shows that the text has the room, so that no line fails for want of it.
#![tactic(auto)]

ghost use Rattle.std.specs.Prelude.{◌≡◌, ◌≤◌, ◌+◌, ◌++◌, length};
ghost use Rattle.std.specs.Fmt.{decimal};
ghost use Rattle.arrayvec.specs.ArrayString.{array_string_len};

use arrayvec::ArrayString;
use itoa::Buffer;

/// Adds a word and a number in decimal digits, at most 20 of them, to a text that has the room.
pub fn add_number<const N: usize>(text: &mut ArrayString<N>, word: &str, number: u64)
    requires { array_string_len text.old + (length word.now + 20) ≤ N }
    ensures text { text.new.bytes ≡ text.old.bytes ++ (word.now ++ decimal number) }
    ensures room { array_string_len text.new ≤ array_string_len text.old + (length word.now + 20) }
{
    let mut digits = Buffer::new();
    add(text, word);
    add(text, digits.format(number));
}

/// Adds a word to a text. The room is asked for, so no word is cut or refused.
pub fn add<const N: usize>(text: &mut ArrayString<N>, word: &str)
    requires { array_string_len text.old + length word.now ≤ N }
    ensures text { text.new.bytes ≡ text.old.bytes ++ word.now }
    ensures len { array_string_len text.new ≡ array_string_len text.old + length word.now }
{
    match text.try_push_str(word) {
        Ok(()) => (),
        Err(_) => unreachable!(),
    }
}
