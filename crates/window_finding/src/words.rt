//! The words for the first timestamps that come, and the words for a window of them.
ghost use Rattle.std.specs.Prelude.{◌≡◌, ◌<◌, ◌++◌, ℕ, IfNone, IfOk, IfSome, OnOk, decimal, length};
ghost use Rattle.run_outcome.specs.Timestamps.{AreTimestamps};
ghost use Rattle.window_finding.specs.Words.{AsksFirst};

use itoa::Buffer;
use path_receiver::MOST_TIMESTAMPS;
use st_format::{read_number, split_once};
use std::alloc::{AllocError, Allocator};

/// How many of the first timestamps a text asks for: 16 by `all`, and the number from 1 to 16 that
/// stands behind `first:`. None by any other text.
pub fn read_first(text: &[u8]) -> Option<u32>
    ensures is { IfSome result (λ count. AsksFirst text.now count) }
    ensures none { IfNone result ((count : ℕ) → AsksFirst text.now count → ⊥) }
{
    let most = MOST_TIMESTAMPS as u32;
    if text == b"all".as_slice() {
        return Some(most);
    }
    let (word, number) = split_once(text, b':')?;
    if word != b"first".as_slice() {
        return None;
    }
    let count = read_number(number)?;
    if count == 0 || count > most {
        return None;
    }
    Some(count)
}

/// Timestamps as a text, with commas between.
pub fn spell_timestamps<A: Allocator>(alloc: A, window: &[u32]) -> Result<Vec<u8, A>, AllocError>
    requires { 0 < length window.now }
    ensures { IfOk result (λ text. AreTimestamps text.items window.now) }
{
    let mut text = Vec::new(alloc);
    put_number(&mut text, window[0])?;
    for timestamp in &window[1..] {
        text.push(b',')?;
        put_number(&mut text, *timestamp)?;
    }
    Ok(text)
}

fn put_number<A: Allocator>(text: &mut Vec<u8, A>, number: u32) -> Result<(), AllocError>
    ensures { OnOk result (text.new.items ≡ text.old.items ++ decimal number) }
{
    let mut buffer = Buffer::new();
    text.extend_from_slice(buffer.format(number).as_bytes())
}
