//! Values as text, each added to a line that has the room.
ghost use Rattle.std.specs.Prelude.{◌≡◌, ◌≤◌, ◌+◌, ◌*◌, ◌++◌, codes, length, replicate};
ghost use Rattle.std.specs.Fmt.{decimal};
ghost use Rattle.std.specs.List.{flat_map};
ghost use Rattle.arrayvec.specs.ArrayString.{array_string_len};
ghost use Rattle.recording_counts.specs.FlowJson.{truth_json};
ghost use Rattle.st_format.specs.Forms.{path_text};
ghost use Rattle.stream_inspection.specs.Values.{commas_text, null_signed, null_text, signed_text};
ghost use Rattle.stream_inspection.specs.Values.{wide_number, wide_signed, wide_text, yes_text};

use crate::text::LINE;
use arrayvec::ArrayString;
use itoa::Buffer;
use st_format::Path;
use text_line::{add, add_number};

/// Adds a number in a column of thirteen, or `-` where there is none: at most 20 octets.
pub(crate) fn add_wide(text: &mut ArrayString<LINE>, number: Option<u64>)
    requires { array_string_len text.old + 20 ≤ LINE }
    ensures text { text.new.bytes ≡ text.old.bytes ++ wide_text number }
    ensures room { array_string_len text.new ≤ array_string_len text.old + 20 }
{
    match number {
        Some(number) => add_padded(text, number),
        None => add(text, "            -"),
    }
}

/// Adds a number in a column of thirteen: at most 20 octets.
fn add_padded(text: &mut ArrayString<LINE>, number: u64)
    requires { array_string_len text.old + 20 ≤ LINE }
    ensures text { text.new.bytes ≡ text.old.bytes ++ wide_number number }
    ensures room { array_string_len text.new ≤ array_string_len text.old + 20 }
{
    let mut buffer = Buffer::new();
    let digits = buffer.format(number);
    add_spaces(text, 13usize.saturating_sub(digits.len()));
    add(text, digits);
}

fn add_spaces(text: &mut ArrayString<LINE>, count: usize)
    requires { array_string_len text.old + count ≤ LINE }
    ensures text { text.new.bytes ≡ text.old.bytes ++ replicate count 32 }
    ensures len { array_string_len text.new ≡ array_string_len text.old + count }
{
    for _ in 0..count {
        add(text, " ");
    }
}

/// Adds a word and a number, or `null` where there is none: at most 20 octets behind the word.
pub(crate) fn add_null(text: &mut ArrayString<LINE>, word: &str, number: Option<u64>)
    requires { array_string_len text.old + (length word.now + 20) ≤ LINE }
    ensures text { text.new.bytes ≡ text.old.bytes ++ (word.now ++ null_text number) }
    ensures room { array_string_len text.new ≤ array_string_len text.old + (length word.now + 20) }
{
    match number {
        Some(number) => add_number(text, word, number),
        None => {
            add(text, word);
            add(text, "null");
        }
    }
}

/// Adds a number less 2^64: at most 41 octets.
fn add_signed(text: &mut ArrayString<LINE>, number: u128)
    requires { array_string_len text.old + 41 ≤ LINE }
    ensures text { text.new.bytes ≡ text.old.bytes ++ signed_text number }
    ensures room { array_string_len text.new ≤ array_string_len text.old + 41 }
{
    let mut buffer = Buffer::new();
    let above = number.saturating_sub(1 << 64);
    let below = (1u128 << 64).saturating_sub(number);
    if below > 0 {
        add(text, "-");
        add(text, buffer.format(below));
    } else {
        add(text, buffer.format(above));
    }
}

/// Adds a skew in a row of columns, behind a space, or `-` where there is none: at most 42 octets.
pub(crate) fn add_skew(text: &mut ArrayString<LINE>, skew: Option<u128>)
    requires { array_string_len text.old + 42 ≤ LINE }
    ensures text { text.new.bytes ≡ text.old.bytes ++ wide_signed skew }
    ensures room { array_string_len text.new ≤ array_string_len text.old + 42 }
{
    match skew {
        Some(skew) => {
            add(text, " ");
            add_signed(text, skew);
        }
        None => add(text, " -"),
    }
}

/// Adds a word and a skew, or `null` where there is none: at most 41 octets behind the word.
pub(crate) fn add_null_skew(text: &mut ArrayString<LINE>, word: &str, skew: Option<u128>)
    requires { array_string_len text.old + (length word.now + 41) ≤ LINE }
    ensures text { text.new.bytes ≡ text.old.bytes ++ (word.now ++ null_signed skew) }
    ensures room { array_string_len text.new ≤ array_string_len text.old + (length word.now + 41) }
{
    add(text, word);
    match skew {
        Some(skew) => add_signed(text, skew),
        None => add(text, "null"),
    }
}

/// Whether it is so, in a column of thirteen.
pub(crate) fn yes_word(yes: bool) -> &'static str
    ensures text { result.now ≡ yes_text yes }
    ensures short { length result.now ≤ 13 }
{
    if yes {
        "          yes"
    } else {
        "           no"
    }
}

/// Whether it is so, as JSON says it.
pub(crate) fn truth_word(truth: bool) -> &'static str
    ensures text { result.now ≡ truth_json truth }
    ensures short { length result.now ≤ 5 }
{
    if truth { "true" } else { "false" }
}

pub(crate) fn path_word(path: Path) -> &'static str
    ensures text { result.now ≡ path_text path }
    ensures short { length result.now ≤ 1 }
{
    match path {
        Path::A => "A",
        Path::B => "B",
    }
}

/// Adds numbers with commas between: at most 21 octets for each.
pub(crate) fn add_commas(text: &mut ArrayString<LINE>, numbers: &[u32])
    requires { array_string_len text.old + 21 * length numbers.now ≤ LINE }
    ensures text { text.new.bytes ≡ text.old.bytes ++ commas_text numbers.now }
    ensures room { array_string_len text.new
        ≤ array_string_len text.old + 21 * length numbers.now }
{
    let [first, rest @ ..] = numbers else {
        return;
    };
    add_number(text, "", u64::from(*first));
    add_behind(text, rest);
}

/// Adds numbers, each behind a comma: at most 21 octets for each.
fn add_behind(text: &mut ArrayString<LINE>, numbers: &[u32])
    requires { array_string_len text.old + 21 * length numbers.now ≤ LINE }
    ensures text { text.new.bytes
        ≡ text.old.bytes ++ flat_map (λ y. codes "," ++ decimal y) numbers.now }
    ensures room { array_string_len text.new
        ≤ array_string_len text.old + 21 * length numbers.now }
{
    for number in numbers {
        add_number(text, ",", u64::from(*number));
    }
}
