//! Numbers as pieces of a text: with zeros first, in seconds, and with two digits behind the point.
ghost use Rattle.std.specs.Prelude.{◌≡◌, ◌≤◌, ◌+◌, ◌++◌, replicate};
ghost use Rattle.arrayvec.specs.ArrayString.{array_string_len};
ghost use Rattle.recording_counts.specs.FlowLines.{hundredths_text, moment_text, wide};

use arrayvec::ArrayString;
use itoa::Buffer;
use text_line::{add, add_number};

/// Adds a time, in nanoseconds since 1970, in seconds with nine digits behind the point.
pub(crate) fn add_moment<const N: usize>(text: &mut ArrayString<N>, time: u64)
    requires { array_string_len text.old + 41 ≤ N }
    ensures text { text.new.bytes ≡ text.old.bytes ++ moment_text time }
    ensures room { array_string_len text.new ≤ array_string_len text.old + 41 }
{
    add_number(text, "", time / 1_000_000_000);
    add(text, ".");
    add_wide(text, 9, time % 1_000_000_000);
}

/// Adds a number of hundredths, with two digits behind the point.
pub(crate) fn add_hundredths<const N: usize>(text: &mut ArrayString<N>, number: u128)
    requires { array_string_len text.old + 61 ≤ N }
    ensures text { text.new.bytes ≡ text.old.bytes ++ hundredths_text number }
    ensures room { array_string_len text.new ≤ array_string_len text.old + 61 }
{
    let mut digits = Buffer::new();
    add(text, digits.format(number / 100));
    add(text, ".");
    add_wide(text, 2, (number % 100) as u64);
}

/// Adds a number in so many digits at least, zeros first.
fn add_wide<const N: usize>(text: &mut ArrayString<N>, digits: usize, number: u64)
    requires digits { digits ≤ 20 }
    requires room { array_string_len text.old + 20 ≤ N }
    ensures text { text.new.bytes ≡ text.old.bytes ++ wide digits number }
    ensures room { array_string_len text.new ≤ array_string_len text.old + 20 }
{
    let mut buffer = Buffer::new();
    let shown = buffer.format(number);
    add_zeros(text, digits.saturating_sub(shown.len()));
    add(text, shown);
}

fn add_zeros<const N: usize>(text: &mut ArrayString<N>, count: usize)
    requires { array_string_len text.old + count ≤ N }
    ensures text { text.new.bytes ≡ text.old.bytes ++ replicate count 48 }
    ensures room { array_string_len text.new ≡ array_string_len text.old + count }
{
    for _ in 0..count {
        add(text, "0");
    }
}
