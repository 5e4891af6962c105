//! A segment in hex digits.
ghost use Rattle.std.specs.Prelude.{◌≡◌, ◌≤◌, ◌<◌, ◌+◌, ◌++◌, IsAscii};
ghost use Rattle.std.specs.Char.{digit_char};
ghost use Rattle.std.specs.Net.Text.{hex};
ghost use Rattle.std.specs.Net.Text as text_of;
ghost use Rattle.arrayvec.specs.ArrayString.{array_string_len};

use arrayvec::ArrayString;
use std::str;
use text_line::add;

/// Adds a segment in lower-case hex digits, without leading zeros.
#[tactic(auto, unfolding(std::specs::Net::Text::hex))]
pub(crate) fn add_hex<const N: usize>(text: &mut ArrayString<N>, segment: u16)
    requires { array_string_len text.old + 4 ≤ N }
    ensures text { text.new.bytes ≡ text.old.bytes ++ hex segment }
    ensures room { array_string_len text.new ≤ array_string_len text.old + 4 }
{
    let digits = [
        hex_digit(segment / 0x1000),
        hex_digit(segment / 0x100 % 16),
        hex_digit(segment / 0x10 % 16),
        hex_digit(segment % 16),
    ];
    match str::from_utf8(&digits[leading_zero_digits(segment)..]) {
        Ok(digits) => add(text, digits),
        Err(_) => unreachable!(),
    }
}

/// The lower-case hex digit of a value.
fn hex_digit(value: u16) -> u8
    requires { value < 16 }
    ensures value { result ≡ digit_char value }
    ensures ascii { result < 128 }
{
    if value < 10 {
        b'0' + value as u8
    } else {
        b'a' + (value - 10) as u8
    }
}

/// How many of a segment's four hex digits are leading zeros, the last digit apart.
fn leading_zero_digits(segment: u16) -> usize
    ensures value { result ≡ text_of.leading_zero_digits segment }
    ensures within { result < 4 }
{
    match segment {
        0x1000.. => 0,
        0x100.. => 1,
        0x10.. => 2,
        _ => 3,
    }
}
