//! Groups of hex digits with colons between them.
ghost use Rattle.std.specs.Prelude.{◌≡◌, ◌≤◌, ◌+◌, ◌*◌, ◌++◌, length};
ghost use Rattle.std.specs.Net.Text.{groups_text};
ghost use Rattle.arrayvec.specs.ArrayString.{array_string_len};

use crate::hex::add_hex;
use arrayvec::ArrayString;
use text_line::add;

/// Adds segments in hex digits with colons between them, at most five octets for each.
pub(crate) fn add_groups<const N: usize>(text: &mut ArrayString<N>, segments: &[u16])
    requires { array_string_len text.old + 5 * length segments.now ≤ N }
    ensures text { text.new.bytes ≡ text.old.bytes ++ groups_text segments.now }
    ensures room { array_string_len text.new ≤ array_string_len text.old + 5 * length segments.now }
{
    if let [first, rest @ ..] = segments {
        add_hex(text, *first);
        for segment in rest {
            add(text, ":");
            add_hex(text, *segment);
        }
    }
}
