//! The words that a receiver is opened by, looked at before memory is wanted.
ghost use Rattle.std.specs.Prelude.{ℕ, List, IsFalse, IsTrue};
ghost use Rattle.run_outcome.specs.Timestamps.{AreTimestamps};

use st_format::{read_number, split_once};

/// Whether a text is timestamps parted by commas.
pub(crate) fn are_timestamps(text: &[u8]) -> bool
    ensures is { IsTrue result → (ts : List ℕ) × AreTimestamps text.now ts }
    ensures none { IsFalse result → (ts : List ℕ) → AreTimestamps text.now ts → ⊥ }
{
    let mut rest = text;
    while let Some((first, more)) = split_once(rest, b',') {
        let Some(_) = read_number(first) else {
            return false;
        };
        rest = more;
    }
    let Some(_) = read_number(rest) else {
        return false;
    };
    true
}
