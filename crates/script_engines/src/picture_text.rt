//! A picture as hexadecimal digits of its packed octets.
ghost use Rattle.std.specs.Prelude.{◌≡◌, ◌≤◌, ℕ, List, Ok, IfNone, IfOk, IfSome, length};
ghost use Rattle.hex.specs.Hex.{decode_of};
ghost use Rattle.pgroup_pack.specs.Packing.{Agree};
ghost use Rattle.st_format.specs.Pgroup.{bits_of};
ghost use Rattle.st_format.specs.Picture.{IsPicture};
ghost use Rattle.st_format.specs.Position.{sample_count};
ghost use Rattle.st_format.specs.Samples.{Spells};
ghost use Rattle.script_engines.specs.RehearsalForms.{IsPictureText};

use crate::digits::decodes;
use pgroup_pack::unpack;
use st_format::{Depth, Format, Picture};
use std::alloc::{AllocError, Allocator};

/// The picture of a format whose packed octets these digits are (RFC 4175, 4.3), and none where
/// they aren't those of just as many octets as it has.
pub(crate) fn read_picture<A: Allocator + Copy>(
    alloc: A,
    format: Format,
    digits: &[u8],
) -> Result<Option<Picture<A>>, AllocError>
    ensures format { IfOk result (λ said. IfSome said (λ p. p.format ≡ format)) }
    ensures is { IfOk result (λ said. IfSome said (λ p. IsPictureText digits.now p)) }
    ensures whole { IfOk result (λ said. IfSome said (λ p. IsPicture p)) }
    ensures none { IfOk result (λ said. IfNone said ((octets : List ℕ)
        → Agree format (length octets) (sample_count format) → decode_of digits.now ≡ Ok octets
        → ⊥)) }
{
    let count = packed_octets(format);
    if digits.len() != 2 * count {
        return Ok(None);
    }
    let mut octets = Vec::from_elem(alloc, 0u8, count)?;
    if !decodes(digits, octets.as_mut_slice()) {
        return Ok(None);
    }
    Ok(Some(unpacked(alloc, format, octets.as_slice())?))
}

/// How many octets the pgroups of a picture take: a text of digits has twice as many.
fn packed_octets(format: Format) -> usize
    ensures agree { Agree format result (sample_count format) }
    ensures most { result ≤ 536870912 }
{
    let count = format.sample_count();
    match format.depth() {
        Depth::D8 => count,
        Depth::D10 => count / 4 * 5,
        Depth::D12 => count / 2 * 3,
        Depth::D16 => count * 2,
    }
}

/// The picture whose packed octets these are.
fn unpacked<A: Allocator>(alloc: A, format: Format, octets: &[u8]) -> Result<Picture<A>, AllocError>
    requires { Agree format (length octets.now) (sample_count format) }
    ensures format { IfOk result (λ p. p.format ≡ format) }
    ensures spells { IfOk result (λ p. Spells (bits_of format.depth) octets.now p.samples) }
    ensures whole { IfOk result (λ p. IsPicture p) }
{
    let mut samples = Vec::from_elem(alloc, 0u16, format.sample_count())?;
    unpack(&format, octets, samples.as_mut_slice());
    Ok(Picture::from_samples(format, samples))
}
