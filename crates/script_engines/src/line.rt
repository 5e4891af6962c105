//! What a line of a script says.
ghost use Rattle.std.specs.Prelude.{◌≡◌, ◌≤◌, ◌<◌, ℕ, List, Option, length, take, IfNone};
ghost use Rattle.std.specs.Prelude.{IfOk, IfSome};
ghost use Rattle.script_engines.specs.Forms.{AreFormat, AreFour, AreHeightAndRate, AreOpening};
ghost use Rattle.script_engines.specs.Forms.{AreTwo};
ghost use Rattle.script_engines.specs.Forms.{IsFormatLine, IsOctetsText, IsOpenLine, IsRateText};
ghost use Rattle.script_engines.specs.Forms.{IsWindowText, IsTraceLine};
ghost use Rattle.run_outcome.specs.Timestamps.{IsNumberOf};
ghost use Rattle.st_format.specs.Pgroup.{bits_of};

use crate::digits::decodes;
use run_outcome::{after_word, read_source, read_timestamps};
use st_format::{Depth, Path, Sampling, read_number, split_once};
use std::alloc::{AllocError, Allocator};

/// A line `format S B W H N/D`.
#[derive(Clone, Copy)]
pub(crate) struct FormatLine {
    pub sampling: Sampling,
    pub depth: Depth,
    pub width: u32,
    pub height: u32,
    pub n: u32,
    pub d: u32,
}

/// A line `open PT SSRC WINDOW`.
#[derive(Clone, Copy)]
pub(crate) struct OpenLine<'a> {
    pub payload_type: u8,
    pub ssrc: Option<u32>,
    pub window: &'a [u8],
    ghost in_range: { payload_type ≤ 127 },
}

/// A line of `trace` behind those two.
#[derive(Clone, Copy)]
pub(crate) enum TraceLine<'a> {
    /// `A HEX` or `B HEX`.
    Datagram(Path, &'a [u8]),
    /// `slide TS`: the window moves on to this timestamp.
    Slide(u32),
    /// `numbers FIRST COUNT`: from now on the numbers of kept datagrams are noted.
    Numbers(u32, u32),
    /// `cell TS ROW COL COMP`.
    Cell(SamplePlace),
}

/// A sample of a frame: a timestamp, a row, a column and a component.
#[derive(Clone, Copy)]
pub(crate) struct SamplePlace {
    pub timestamp: u32,
    pub row: u32,
    pub column: u32,
    pub component: u32,
}

pub(crate) fn read_format_line(text: &[u8]) -> Option<FormatLine>
    ensures is { IfSome result (λ line. IsFormatLine text.now line) }
    ensures none { IfNone result ((line : FormatLine) → IsFormatLine text.now line → ⊥) }
{
    let rest = after_word(text, b"format ")?;
    read_format_fields(rest)
}

/// The six fields behind the word `format`. A depth that is none is at fault as an empty field is;
/// other numbers that no format has are of the form, and `Format::new` refuses them.
fn read_format_fields(text: &[u8]) -> Option<FormatLine>
    ensures is { IfSome result (λ line. AreFormat text.now line) }
    ensures none { IfNone result ((line : FormatLine) → AreFormat text.now line → ⊥) }
{
    let (sampling, rest) = split_once(text, b' ')?;
    let (depth, rest) = split_once(rest, b' ')?;
    let (width, rest) = split_once(rest, b' ')?;
    let (height, n, d) = read_height_and_rate(rest)?;
    Some(FormatLine {
        sampling: Sampling::of_word(sampling)?,
        depth: read_depth(depth)?,
        width: read_number(width)?,
        height,
        n,
        d,
    })
}

/// A height and a rate, parted by a space.
fn read_height_and_rate(text: &[u8]) -> Option<(u32, u32, u32)>
    ensures is { IfSome result (λ p. AreHeightAndRate text.now p.0 p.1 p.2) }
    ensures none { IfNone result ((height n d : ℕ) → AreHeightAndRate text.now height n d → ⊥) }
{
    let (height, rate) = split_once(text, b' ')?;
    let (n, d) = read_rate(rate)?;
    Some((read_number(height)?, n, d))
}

/// Two numbers, parted by a stroke.
fn read_rate(text: &[u8]) -> Option<(u32, u32)>
    ensures is { IfSome result (λ p. IsRateText text.now p.0 p.1) }
    ensures none { IfNone result ((n d : ℕ) → IsRateText text.now n d → ⊥) }
{
    let (n, d) = split_once(text, b'/')?;
    Some((read_number(n)?, read_number(d)?))
}

fn read_depth(text: &[u8]) -> Option<Depth>
    ensures is { IfSome result (λ depth. IsNumberOf text.now (bits_of depth)) }
    ensures none { IfNone result ((depth : Depth) → IsNumberOf text.now (bits_of depth) → ⊥) }
{
    match read_number(text)? {
        8 => Some(Depth::D8),
        10 => Some(Depth::D10),
        12 => Some(Depth::D12),
        16 => Some(Depth::D16),
        _ => None,
    }
}

/// What a line `open` says; its window is text yet, since reading that takes memory.
pub(crate) fn read_open_line(text: &[u8]) -> Option<OpenLine<'_>>
    ensures is { IfSome result (λ line.
        IsOpenLine text.now line.payload_type line.ssrc line.window.now) }
    ensures none { IfNone result ((payload_type : ℕ) (ssrc : Option ℕ) (window : List ℕ)
        → IsOpenLine text.now payload_type ssrc window → ⊥) }
{
    let rest = after_word(text, b"open ")?;
    read_opening(rest)
}

/// The three fields behind the word `open`.
fn read_opening(text: &[u8]) -> Option<OpenLine<'_>>
    ensures is { IfSome result (λ line.
        AreOpening text.now line.payload_type line.ssrc line.window.now) }
    ensures none { IfNone result ((payload_type : ℕ) (ssrc : Option ℕ) (window : List ℕ)
        → AreOpening text.now payload_type ssrc window → ⊥) }
{
    let (payload_type, rest) = split_once(text, b' ')?;
    let (ssrc, window) = split_once(rest, b' ')?;
    Some(OpenLine {
        payload_type: read_payload_type(payload_type)?,
        ssrc: read_source(ssrc)?,
        window,
    })
}

/// A payload type: up to 127, as it has 7 bits (RFC 3550, 5.1).
pub(crate) fn read_payload_type(text: &[u8]) -> Option<u8>
    ensures range { IfSome result (λ n. n ≤ 127) }
    ensures is { IfSome result (λ n. IsNumberOf text.now n) }
    ensures none { IfNone result ((n : ℕ) → n ≤ 127 → IsNumberOf text.now n → ⊥) }
{
    let number = read_number(text)?;
    if number <= 127 {
        Some(number as u8)
    } else {
        None
    }
}

/// The timestamps of a window, and none where the text isn't of its form.
pub(crate) fn read_window<A: Allocator>(
    alloc: A,
    text: &[u8],
) -> Result<Option<Vec<u32, A>>, AllocError>
    ensures is { IfOk result (λ window. IfSome window (λ w. IsWindowText text.now w.items)) }
    ensures none { IfOk result (λ window. IfNone window ((said : List ℕ)
        → IsWindowText text.now said → ⊥)) }
{
    if text == b"-".as_slice() {
        return Ok(Some(Vec::new(alloc)));
    }
    read_timestamps(alloc, text)
}

/// What a line behind the first two says, where it is of a form.
pub(crate) fn read_trace_line(text: &[u8]) -> Option<TraceLine<'_>>
    ensures is { IfSome result (λ line. IsTraceLine text.now line) }
    ensures none { IfNone result ((line : TraceLine) → IsTraceLine text.now line → ⊥) }
{
    if let Some(digits) = after_word(text, b"A ") {
        return Some(TraceLine::Datagram(Path::A, digits));
    }
    if let Some(digits) = after_word(text, b"B ") {
        return Some(TraceLine::Datagram(Path::B, digits));
    }
    if let Some(rest) = after_word(text, b"slide ") {
        return Some(TraceLine::Slide(read_number(rest)?));
    }
    if let Some(rest) = after_word(text, b"numbers ") {
        let (first, count) = read_two(rest)?;
        return Some(TraceLine::Numbers(first, count));
    }
    let rest = after_word(text, b"cell ")?;
    Some(TraceLine::Cell(read_place(rest)?))
}

/// Two numbers, parted by a space.
pub(crate) fn read_two(text: &[u8]) -> Option<(u32, u32)>
    ensures is { IfSome result (λ p. AreTwo text.now p.0 p.1) }
    ensures none { IfNone result ((m n : ℕ) → AreTwo text.now m n → ⊥) }
{
    let (first, second) = split_once(text, b' ')?;
    Some((read_number(first)?, read_number(second)?))
}

/// The four numbers behind the word `cell`.
fn read_place(text: &[u8]) -> Option<SamplePlace>
    ensures is { IfSome result (λ place. AreFour text.now place) }
    ensures none { IfNone result ((place : SamplePlace) → AreFour text.now place → ⊥) }
{
    let (timestamp, rest) = split_once(text, b' ')?;
    let (row, rest) = split_once(rest, b' ')?;
    let (column, component) = read_two(rest)?;
    Some(SamplePlace {
        timestamp: read_number(timestamp)?,
        row: read_number(row)?,
        column,
        component,
    })
}

/// Reads the octets of a datagram to the front of `octets`, and answers how many they are.
pub(crate) fn read_octets(text: &[u8], octets: &mut [u8]) -> Option<usize>
    ensures within { IfSome result (λ n. n ≤ length octets.new) }
    ensures room { length octets.new ≡ length octets.old }
    ensures is { IfSome result (λ n. IsOctetsText text.now (take n octets.new)) }
    ensures none { IfNone result ((said : List ℕ) → length said ≤ length octets.old
        → IsOctetsText text.now said → ⊥) }
{
    if text == b"-".as_slice() {
        return Some(0);
    }
    let n = text.len() / 2;
    if n == 0 || n > octets.len() {
        return None;
    }
    if decodes(text, &mut octets[..n]) {
        Some(n)
    } else {
        None
    }
}
