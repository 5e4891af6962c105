//! Tables of counts: a list, and an index of where each key's count stands in it.
ghost use Rattle.std.specs.Prelude.{◌≡◌, ◌++◌, ◌∷◌, [], Some, OnErr, OnOk, length};
ghost use Rattle.std.specs.BTreeMap.{Updates};

use std::alloc::{AllocError, Allocator};
use std::collections::BTreeMap;

/// Puts a count behind the others, and where it stands into the index.
///
/// # Errors
///
/// That memory was wanted. Both are then what they were.
pub(crate) fn append<K: Ord + Drop, C: Drop, A: Allocator + Clone>(
    counts: &mut Vec<C, A>,
    places: &mut BTreeMap<K, usize, A>,
    key: K,
    count: C,
) -> Result<(), AllocError>
    ensures counted { OnOk result (counts.new.items ≡ counts.old.items ++ count ∷ []) }
    ensures indexed { OnOk result
        (Updates K.cmp places.old places.new key (Some (length counts.old.items))) }
    ensures counts { OnErr result (counts.new.items ≡ counts.old.items) }
    ensures places { OnErr result (places.new.entries ≡ places.old.entries) }
{
    let place = counts.len();
    counts.push(count)?;
    if places.insert(key, place).is_err() {
        counts.pop();
        return Err(AllocError);
    }
    Ok(())
}
