//! The text of a source.
ghost use Rattle.std.specs.Prelude.{ℕ, Option, IfNone, IfSome};
ghost use Rattle.run_outcome.specs.Sources.{IsSourceText};

use st_format::read_number;

/// The number of the one source to take datagrams of, or none for `any`.
pub fn read_source(text: &[u8]) -> Option<Option<u32>>
    ensures is { IfSome result (λ source. IsSourceText text.now source) }
    ensures none { IfNone result ((source : Option ℕ) → IsSourceText text.now source → ⊥) }
{
    if text == b"any".as_slice() {
        return Some(None);
    }
    Some(Some(read_number(text)?))
}
