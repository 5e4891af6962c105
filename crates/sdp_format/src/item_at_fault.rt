//! The item of an fmtp line that has a fault.
ghost use Rattle.std.specs.Prelude.{◌≤◌, IfSome, length};

use crate::fault::SdpFault;
use crate::items::{Parameter, is_bad, next_item};
use crate::lines::is_word;
use crate::text::{after_last, octets_before, trim_end, trim_front};
use st_format::split_once;

/// An item that begins behind more octets of its line's items isn't looked for: whether a name
/// stands twice takes time with the square of that.
const SEARCHED: usize = 4096;

fn is_named(items: &[u8], name: &[u8]) -> bool {
    let mut rest = Some(items);
    while let Some((item, more)) = next_item(rest) {
        if is_word(item.name, name) {
            return true;
        }
        rest = more;
    }
    false
}

fn has_fault(fault: SdpFault, item: Parameter<'_>, earlier: &[u8]) -> bool {
    match fault {
        SdpFault::BadParameter => is_bad(item),
        SdpFault::DoubleParameter => is_named(earlier, item.name),
        SdpFault::UnsupportedSampling => is_word(item.name, b"sampling"),
        SdpFault::UnsupportedDepth => is_word(item.name, b"depth"),
        SdpFault::Interlaced => {
            is_word(item.name, b"interlace") || is_word(item.name, b"segmented")
        }
        SdpFault::UnsupportedPacking => is_word(item.name, b"PM"),
        SdpFault::BadSsn => is_word(item.name, b"SSN"),
        _ => false,
    }
}

/// How many octets of these items stand before the end of the first of them that has a fault.
fn end_of_item(items: &[u8], fault: SdpFault) -> Option<usize>
    ensures { IfSome result (λ end. end ≤ length items.now) }
{
    let mut earlier = 0;
    let mut rest = Some(items);
    while let Some((item, more)) = next_item(rest) {
        let end = octets_before(items, more);
        if earlier >= SEARCHED {
            return None;
        }
        if has_fault(fault, item, &items[..earlier]) {
            return Some(end);
        }
        earlier = end;
        rest = more;
    }
    None
}

/// The first item of an fmtp line that has a fault, where it is an item that has it: how many
/// octets of the line stand before it, and before its end.
#[tactic(auto, using(crate::proofs::Trims::front_shorter, crate::proofs::Trims::end_shorter))]
pub(crate) fn item_at_fault(line: &[u8], fault: SdpFault) -> Option<(usize, usize)>
    ensures ordered { IfSome result (λ item. item.0 ≤ item.1) }
    ensures within { IfSome result (λ item. item.1 ≤ length line.now) }
{
    let (_, items) = split_once(line, b' ')?;
    let end = end_of_item(items, fault)?;
    let behind = trim_front(&items[after_last(&items[..end], b';')..end]);
    let start = line.len() - items.len() + (end - behind.len());
    Some((start, start + trim_end(behind).len()))
}
