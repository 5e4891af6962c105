//! The items of an fmtp line by their names, and what they say.
ghost use Rattle.std.specs.Prelude.{◌≡◌, ◌++◌, ◌∷◌, [], None, Some, IfOk, IfErr, OnOk, Err, Ok};
ghost use Rattle.std.specs.Prelude.{◌⊎◌, true, false, not, ◌||◌, if◌then◌else◌};
ghost use Rattle.std.specs.Option.{option_copied};
ghost use Rattle.std.specs.Str.{bytes_eq};
ghost use Rattle.sdp_format.specs.Naming.{items, has_double, value_of, has_name, text_of};
ghost use Rattle.sdp_format.specs.Naming.{required_names, is_known, known_items};
ghost use Rattle.sdp_format.specs.Reading.{GivesUnlessMemory, lacks_item, is_interlaced};
ghost use Rattle.sdp_format.specs.Views.{Slice, item_of, items_in, is_met};
ghost use Rattle.sdp_format.specs.declared.fault.SdpFault.TheVariants.{NoMemory, DoubleParameter};

use crate::fault::SdpFault;
use crate::items::{Parameter, next_item};
use crate::lines::is_word;
use indexmap::IndexMap;
use std::alloc::Allocator;
use std::collections::BTreeSet;
use std::hash::{BuildHasherDefault, FoldHasher};

/// The values of the items whose names are known, by name.
pub(crate) type Parameters<'a, A> = IndexMap<&'a [u8], &'a [u8], BuildHasherDefault<FoldHasher>, A>;

/// Whether an item of this name says something of the video: the eight required names, and three
/// that may be missing.
#[tactic(auto, unfolding(crate::specs::Naming::is_known))]
fn is_known(name: &[u8]) -> bool
    ensures { result ≡ is_known name.now }
{
    is_word(name, b"sampling")
        || is_word(name, b"width")
        || is_word(name, b"height")
        || is_word(name, b"exactframerate")
        || is_word(name, b"depth")
        || is_word(name, b"colorimetry")
        || is_word(name, b"PM")
        || is_word(name, b"SSN")
        || is_word(name, b"RANGE")
        || is_word(name, b"interlace")
        || is_word(name, b"segmented")
}

/// Puts an item to those that were met, and tells whether none of them has its name. The map has
/// few names, whatever a text has. All others, which a sender may choose so that a hash takes them
/// to one place, stand in an ordered set, whose cost no choice of names can raise.
fn put<'a, A: Allocator + Copy>(
    known: &mut Parameters<'a, A>,
    others: &mut BTreeSet<&'a [u8], A>,
    item: Parameter<'a>,
) -> Result<bool, SdpFault>
    ensures new { IfOk result (λ is_new. is_new
        ≡ not (is_met known.old others.old item.entry.name)) }
    ensures kept { OnOk result (is_met known.old others.old item.entry.name ≡ false
        → items_in known.new ≡ items_in known.old ++ known_items (item_of item.entry ∷ [])) }
    ensures met { OnOk result (is_met known.old others.old item.entry.name ≡ false
        → (q : Slice) → is_met known.new others.new q
        ≡ (bytes_eq item.entry.name.now q.now || is_met known.old others.old q)) }
    ensures no_memory { IfErr result (λ e. e ≡ NoMemory) }
{
    if is_known(item.name) {
        Ok(known.insert(item.name, item.value)?.is_none())
    } else {
        Ok(others.insert(item.name)?)
    }
}

/// Puts an item to those that were met, unless one of them has its name.
fn meet<'a, A: Allocator + Copy>(
    known: &mut Parameters<'a, A>,
    others: &mut BTreeSet<&'a [u8], A>,
    item: Parameter<'a>,
) -> Result<(), SdpFault>
    ensures single { OnOk result (is_met known.old others.old item.entry.name ≡ false) }
    ensures kept { OnOk result
        (items_in known.new ≡ items_in known.old ++ known_items (item_of item.entry ∷ [])) }
    ensures met { OnOk result ((q : Slice) → is_met known.new others.new q
        ≡ (bytes_eq item.entry.name.now q.now || is_met known.old others.old q)) }
    ensures double { IfErr result (λ e. (e ≡ NoMemory)
        ⊎ ((e ≡ DoubleParameter) × (is_met known.old others.old item.entry.name ≡ true))) }
{
    if !put(known, others, item)? {
        return Err(SdpFault::DoubleParameter);
    }
    Ok(())
}

/// The items of known names in their order, unless two of all items have one name.
pub(crate) fn parameters_of<'a, A: Allocator + Copy>(
    alloc: A,
    text: &'a [u8],
) -> Result<Parameters<'a, A>, SdpFault>
    ensures { GivesUnlessMemory items_in result
        (if has_double (items text.now) then Err DoubleParameter
        else Ok (known_items (items text.now))) }
{
    let mut known = IndexMap::new(alloc);
    let mut others = BTreeSet::new(alloc);
    let mut rest = Some(text);
    while let Some((item, more)) = next_item(rest) {
        meet(&mut known, &mut others, item)?;
        rest = more;
    }
    Ok(known)
}

pub(crate) fn value_of<'a, A: Allocator>(list: &Parameters<'a, A>, name: &[u8]) -> Option<&'a [u8]>
    ensures { option_copied result ≡ value_of name.now (items_in list.now) }
{
    list.get(name).copied()
}

pub(crate) fn has<A: Allocator>(list: &Parameters<'_, A>, name: &[u8]) -> bool
    ensures { result ≡ has_name (items_in list.now) name.now }
{
    value_of(list, name).is_some()
}

/// The value of a name, or nothing.
pub(crate) fn text_of<'a, A: Allocator>(list: &Parameters<'a, A>, name: &[u8]) -> &'a [u8]
    ensures { result.now ≡ text_of name.now (items_in list.now) }
{
    match value_of(list, name) {
        Some(value) => value,
        None => b"",
    }
}

pub(crate) fn is_missing<A: Allocator>(list: &Parameters<'_, A>) -> bool
    ensures { result ≡ lacks_item (items_in list.now) }
{
    !(has(list, b"sampling")
        && has(list, b"width")
        && has(list, b"height")
        && has(list, b"exactframerate")
        && has(list, b"depth")
        && has(list, b"colorimetry")
        && has(list, b"PM")
        && has(list, b"SSN"))
}

/// Whether an item says that the video is not progressive.
pub(crate) fn is_interlaced<A: Allocator>(list: &Parameters<'_, A>) -> bool
    ensures { result ≡ is_interlaced (items_in list.now) }
{
    has(list, b"interlace") || has(list, b"segmented")
}
