//! Timestamps parted by commas.
ghost use Rattle.std.specs.Prelude.{ℕ, List, IfNone, IfOk, IfSome};
ghost use Rattle.run_outcome.specs.Timestamps.{AreTimestamps};

use st_format::{read_number, split_once};
use std::alloc::{AllocError, Allocator};

/// Timestamps parted by commas, and none where the text isn't of that form.
///
/// `AllocError` comes only where the allocator refused the memory for them.
pub fn read_timestamps<A: Allocator>(
    alloc: A,
    text: &[u8],
) -> Result<Option<Vec<u32, A>>, AllocError>
    ensures is { IfOk result (λ window. IfSome window (λ w. AreTimestamps text.now w.items)) }
    ensures none { IfOk result (λ window. IfNone window ((said : List ℕ)
        → AreTimestamps text.now said → ⊥)) }
{
    let mut timestamps = Vec::new(alloc);
    let mut rest = text;
    while let Some((first, more)) = split_once(rest, b',') {
        let Some(timestamp) = read_number(first) else {
            return Ok(None);
        };
        timestamps.push(timestamp)?;
        rest = more;
    }
    let Some(timestamp) = read_number(rest) else {
        return Ok(None);
    };
    timestamps.push(timestamp)?;
    Ok(Some(timestamps))
}
