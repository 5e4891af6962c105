//! What a line of a script of `rehearse` says.
ghost use Rattle.std.specs.Prelude.{◌≡◌, ◌≤◌, ℕ, List, IfNone, IfOk, IfSome};
ghost use Rattle.st_format.specs.declared.path.Path.{Path as ByPath};
ghost use Rattle.st_format.specs.Forms.{path_text};
ghost use Rattle.packet_plan.specs.declared.stamp.Stamp.{Stamp as AStamp};
ghost use Rattle.path_merge.specs.declared.schedule.event.Event.{Event as AnEvent};
ghost use Rattle.run_outcome.specs.Timestamps.{IsNumberOf};
ghost use Rattle.script_engines.specs.RehearsalForms.{AreArrival, AreReceiverAndNumber, AreStamp};
ghost use Rattle.script_engines.specs.RehearsalForms.{AreTwoReceivers, IsCountLine, IsEventLine};
ghost use Rattle.script_engines.specs.RehearsalForms.{IsNumberLine};
ghost use Rattle.script_engines.specs.RehearsalForms.{IsStampLine, IsWindowLine};

use crate::line::{read_payload_type, read_two, read_window};
use packet_plan::Stamp;
use path_merge::Event;
use run_outcome::after_word;
use st_format::{Path, read_number, split_once};
use std::alloc::{AllocError, Allocator};

/// What a line `stamp PT FIRST TIMESTAMP SSRC` says.
pub(crate) fn read_stamp_line(text: &[u8]) -> Option<Stamp>
    ensures range { IfSome result (λ stamp. stamp.payload_type ≤ 127) }
    ensures is { IfSome result (λ stamp. IsStampLine text.now stamp) }
    ensures none { IfNone result ((stamp : AStamp) → IsStampLine text.now stamp → ⊥) }
{
    let rest = after_word(text, b"stamp ")?;
    read_stamp(rest)
}

/// The four numbers behind the word `stamp`.
fn read_stamp(text: &[u8]) -> Option<Stamp>
    ensures range { IfSome result (λ stamp. stamp.payload_type ≤ 127) }
    ensures is { IfSome result (λ stamp. AreStamp text.now stamp) }
    ensures none { IfNone result ((stamp : AStamp) → AreStamp text.now stamp → ⊥) }
{
    let (payload_type, rest) = split_once(text, b' ')?;
    let (first, rest) = split_once(rest, b' ')?;
    let (timestamp, ssrc) = read_two(rest)?;
    Some(Stamp {
        payload_type: read_payload_type(payload_type)?,
        first: read_number(first)?,
        timestamp,
        ssrc,
    })
}

/// What a line of a word, its space and a number says.
pub(crate) fn read_number_line(text: &[u8], word: &[u8]) -> Option<u32>
    ensures is { IfSome result (λ n. IsNumberLine text.now word.now n) }
    ensures none { IfNone result ((n : ℕ) → IsNumberLine text.now word.now n → ⊥) }
{
    let rest = after_word(text, word)?;
    let number = read_number(rest)?;
    Some(number)
}

/// What a line `receivers N` says: up to 255.
pub(crate) fn read_count_line(text: &[u8]) -> Option<u8>
    ensures is { IfSome result (λ n. IsCountLine text.now n) }
    ensures none { IfNone result ((n : ℕ) → IsCountLine text.now n → ⊥) }
{
    let rest = after_word(text, b"receivers ")?;
    read_receiver(rest)
}

/// What a line `window WINDOW` says, and none where it isn't of its form.
pub(crate) fn read_window_line<A: Allocator>(
    alloc: A,
    text: &[u8],
) -> Result<Option<Vec<u32, A>>, AllocError>
    ensures is { IfOk result (λ window. IfSome window (λ w. IsWindowLine text.now w.items)) }
    ensures none { IfOk result (λ window. IfNone window ((said : List ℕ)
        → IsWindowLine text.now said → ⊥)) }
{
    match after_word(text, b"window ") {
        Some(rest) => read_window(alloc, rest),
        None => Ok(None),
    }
}

/// What a line of an event says, where it is of a form.
pub(crate) fn read_event(text: &[u8]) -> Option<Event>
    ensures is { IfSome result (λ event. IsEventLine text.now event) }
    ensures none { IfNone result ((event : AnEvent) → IsEventLine text.now event → ⊥) }
{
    if text == b"send".as_slice() {
        return Some(Event::Send);
    }
    if let Some(rest) = after_word(text, b"arrive ") {
        let (to, path, number) = read_arrival(rest)?;
        return Some(Event::Arrive(to, path, number));
    }
    if let Some(rest) = after_word(text, b"slide ") {
        let (at, next) = read_receiver_and_number(rest)?;
        return Some(Event::Slide(at, next));
    }
    let rest = after_word(text, b"merge ")?;
    let (into, from) = read_receivers(rest)?;
    Some(Event::Merge(into, from))
}

/// A receiver, a path and a number.
fn read_arrival(text: &[u8]) -> Option<(u8, Path, u32)>
    ensures is { IfSome result (λ p. AreArrival text.now p.0 p.1 p.2) }
    ensures none { IfNone result ((to : ℕ) (path : ByPath) (number : ℕ)
        → AreArrival text.now to path number → ⊥) }
{
    let (to, rest) = split_once(text, b' ')?;
    let (path, number) = split_once(rest, b' ')?;
    Some((read_receiver(to)?, read_path(path)?, read_number(number)?))
}

fn read_receiver_and_number(text: &[u8]) -> Option<(u8, u32)>
    ensures is { IfSome result (λ p. AreReceiverAndNumber text.now p.0 p.1) }
    ensures none { IfNone result ((receiver n : ℕ) → AreReceiverAndNumber text.now receiver n → ⊥) }
{
    let (receiver, number) = split_once(text, b' ')?;
    Some((read_receiver(receiver)?, read_number(number)?))
}

fn read_receivers(text: &[u8]) -> Option<(u8, u8)>
    ensures is { IfSome result (λ p. AreTwoReceivers text.now p.0 p.1) }
    ensures none { IfNone result ((into from : ℕ) → AreTwoReceivers text.now into from → ⊥) }
{
    let (into, from) = split_once(text, b' ')?;
    Some((read_receiver(into)?, read_receiver(from)?))
}

/// A receiver's number: up to 255.
fn read_receiver(text: &[u8]) -> Option<u8>
    ensures range { IfSome result (λ n. n ≤ 255) }
    ensures is { IfSome result (λ n. IsNumberOf text.now n) }
    ensures none { IfNone result ((n : ℕ) → n ≤ 255 → IsNumberOf text.now n → ⊥) }
{
    let number = read_number(text)?;
    if number <= 255 {
        Some(number as u8)
    } else {
        None
    }
}

fn read_path(text: &[u8]) -> Option<Path>
    ensures is { IfSome result (λ path. text.now ≡ path_text path) }
    ensures none { IfNone result ((path : ByPath) → text.now ≡ path_text path → ⊥) }
{
    match text {
        b"A" => Some(Path::A),
        b"B" => Some(Path::B),
        _ => None,
    }
}
