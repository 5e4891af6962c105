//! The one fmtp line of what a text says.
ghost use Rattle.std.specs.Prelude.{◌≡◌, ◌++◌, MatchResult, IfOk, codes, decimal};
ghost use Rattle.sdp_format.specs.declared.fault.SdpFault.TheVariants.{NoMemory};
ghost use Rattle.sdp_format.specs.Canonical.{canonical_line, divisor_text};
ghost use Rattle.sdp_format.specs.Canonical.{range_text};
ghost use Rattle.sdp_format.specs.Views.{description};
ghost use Rattle.sdp_format.specs.Back.{ReadsBack};
ghost use Rattle.st_format.specs.Fields.{fields_of};
ghost use Rattle.st_format.specs.Words.{sampling_text};
ghost use Rattle.st_format.specs.Forms.{depth_text};

use crate::fault::SdpFault;
use crate::sdp::{Range, Sdp};
use st_format::{Depth, Format};
use std::alloc::Allocator;

fn depth_text(depth: Depth) -> &'static [u8]
    ensures { result.now ≡ depth_text depth }
{
    match depth {
        Depth::D8 => b"8",
        Depth::D10 => b"10",
        Depth::D12 => b"12",
        Depth::D16 => b"16",
    }
}

fn range_text(range: Range) -> &'static [u8]
    ensures { result.now ≡ range_text range }
{
    match range {
        Range::Narrow => b"",
        Range::FullProtect => b"; RANGE=FULLPROTECT",
        Range::Full => b"; RANGE=FULL",
    }
}

fn add<A: Allocator + Copy>(text: &mut Vec<u8, A>, piece: &[u8]) -> Result<(), SdpFault>
    ensures { MatchResult result (λ _. text.new.items ≡ text.old.items ++ piece.now)
        (λ e. e ≡ NoMemory) }
{
    text.extend_from_slice(piece)?;
    Ok(())
}

fn add_item<A: Allocator + Copy>(
    text: &mut Vec<u8, A>,
    name: &[u8],
    value: &[u8],
) -> Result<(), SdpFault>
    ensures { MatchResult result
        (λ _. text.new.items ≡ text.old.items ++ name.now ++ value.now)
        (λ e. e ≡ NoMemory) }
{
    add(text, name)?;
    add(text, value)
}

/// Puts an item behind a text whose value is a number, in decimal digits.
fn add_number<A: Allocator + Copy>(
    alloc: A,
    text: &mut Vec<u8, A>,
    name: &[u8],
    number: u32,
) -> Result<(), SdpFault>
    ensures { MatchResult result
        (λ _. text.new.items ≡ text.old.items ++ name.now ++ decimal number)
        (λ e. e ≡ NoMemory) }
{
    let digits = format!(in alloc; "{number}")?;
    add_item(text, name, digits.as_bytes())
}

/// Puts `/D` behind a rate whose divisor is not 1.
fn add_divisor<A: Allocator + Copy>(
    alloc: A,
    text: &mut Vec<u8, A>,
    number: u32,
) -> Result<(), SdpFault>
    ensures { MatchResult result (λ _. text.new.items ≡ text.old.items ++ divisor_text number)
        (λ e. e ≡ NoMemory) }
{
    if number == 1 {
        return Ok(());
    }
    let digits = format!(in alloc; "/{number}")?;
    add(text, digits.as_bytes())
}

fn add_format<A: Allocator + Copy>(
    alloc: A,
    text: &mut Vec<u8, A>,
    format: &Format,
) -> Result<(), SdpFault>
    ensures { MatchResult result
        (λ _. text.new.items ≡ text.old.items
        ++ codes " sampling=" ++ sampling_text (fields_of format.now).sampling
        ++ codes "; width=" ++ decimal (fields_of format.now).width
        ++ codes "; height=" ++ decimal (fields_of format.now).height
        ++ codes "; exactframerate=" ++ decimal (fields_of format.now).n
        ++ divisor_text (fields_of format.now).d
        ++ codes "; depth=" ++ depth_text (fields_of format.now).depth)
        (λ e. e ≡ NoMemory) }
{
    add_item(text, b" sampling=", format.sampling.word())?;
    add_number(alloc, text, b"; width=", format.width)?;
    add_number(alloc, text, b"; height=", format.height)?;
    add_number(alloc, text, b"; exactframerate=", format.n)?;
    add_divisor(alloc, text, format.d)?;
    add_item(text, b"; depth=", depth_text(format.depth))
}

/// The whole line, item by item in one order.
#[tactic(auto, unfolding(crate::specs::Canonical::canonical_line))]
fn written<A: Allocator + Copy>(alloc: A, sdp: &Sdp) -> Result<Vec<u8, A>, SdpFault>
    ensures { MatchResult result (λ v. v.items ≡ canonical_line (description sdp.now).leg)
        (λ e. e ≡ NoMemory) }
{
    let mut text = Vec::new(alloc);
    add_number(alloc, &mut text, b"a=fmtp:", sdp.payload_type as u32)?;
    add_format(alloc, &mut text, &sdp.format)?;
    add_item(&mut text, b"; colorimetry=", sdp.colorimetry.as_slice())?;
    add_item(
        &mut text,
        b"; PM=2110GPM; SSN=ST2110-20:2017",
        range_text(sdp.range),
    )?;
    Ok(text)
}

/// The canonical fmtp line of what a text says, without a line end (SMPTE ST 2110-20, SDP). A text
/// of one or two video sections that have it as their fmtp line reads back as the same payload
/// type, format, range and colorimetry.
///
/// The only error is `NoMemory`, where a growth was refused.
pub fn fmtp_text<A: Allocator + Copy>(alloc: A, sdp: &Sdp) -> Result<Vec<u8, A>, SdpFault>
    ensures line { MatchResult result (λ v. v.items ≡ canonical_line (description sdp.now).leg)
        (λ e. e ≡ NoMemory) }
    ensures back { IfOk result (λ v. ReadsBack v.items (description sdp.now).leg) }
{
    written(alloc, sdp)
}
