//! The text of a fill.
ghost use Rattle.std.specs.Prelude.{◌<◌, ℕ, slice_index, IfNone, IfSome};
ghost use Rattle.receiver_engines.specs.FillText.{IsFillText};
ghost use Rattle.receiver_engines.specs.Inputs.{AreValues};
ghost use Rattle.run_outcome.specs.Timestamps.{IsNumberOf};

use st_format::{read_number, split_once};

/// The values that a text says, one for each component: three numbers of 16 bits, parted by commas.
/// Any other text is none.
pub fn read_fill(text: &[u8]) -> Option<[u16; 3]>
    ensures is { IfSome result (λ fill. IsFillText text.now (slice_index fill 0)
        (slice_index fill 1) (slice_index fill 2)) }
    ensures values { IfSome result (λ fill. AreValues fill) }
    ensures none { IfNone result ((a b c : ℕ) → a < 65536 → b < 65536 → c < 65536
        → IsFillText text.now a b c → ⊥) }
{
    let (first, rest) = split_once(text, b',')?;
    let (second, third) = split_once(rest, b',')?;
    Some([read_value(first)?, read_value(second)?, read_value(third)?])
}

/// A number of 16 bits, in decimal digits: a component's value.
fn read_value(text: &[u8]) -> Option<u16>
    ensures is { IfSome result (λ n. IsNumberOf text.now n) }
    ensures none { IfNone result ((n : ℕ) → n < 65536 → IsNumberOf text.now n → ⊥) }
{
    let number = read_number(text)?;
    if number <= 65_535 {
        Some(number as u16)
    } else {
        None
    }
}
