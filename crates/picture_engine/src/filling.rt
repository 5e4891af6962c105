//! What a frame is settled with: the values of a text, black, or a picture that is held.
ghost use Rattle.std.specs.Prelude.{◌≡◌, ◌↔◌, ◌∷◌, ◌*◌, ◌-◌, ◌^◌, ◌≤◌, ◌<◌, []};
ghost use Rattle.std.specs.Prelude.{IfErr, IfOk, IsTrue, OnOk};
ghost use Rattle.std.specs.List.{AllByRecursion};
ghost use Rattle.picture_engine.specs.Views.{IsFillOf, LacksFill, black, settled_with};
ghost use Rattle.receiver_engines.specs.Inputs.{IsFill, IsHeldFor};
ghost use Rattle.receiver_engines.specs.Refused.{HasNoFill};
ghost use Rattle.run_outcome.specs.Fault.{Accounts};
ghost use Rattle.st_format.specs.Pgroup.{bits_of};
ghost use Rattle.st_format.specs.Picture.{FitsDepth, IsPicture};

use frame_assembly::{Base, Frame};
use receiver_engines::read_fill;
use run_outcome::{Fault, Refusal};
use st_format::{Depth, Format, Picture, Sampling};
use std::alloc::{AllocError, Allocator, Global};

/// The value of each component that stands for what a frame lacks: black's where there is no text.
/// A text that says none is refused, and so is a value above the greatest of the frame's depth.
pub(crate) fn fitting_fill<A: Allocator>(
    text: Option<&[u8]>,
    frame: &Frame<A>,
) -> Result<[u16; 3], Fault>
    ensures is { IfOk result (λ fill. IsFillOf text.entry fill frame.now) }
    ensures fits { IfOk result (λ fill. AllByRecursion (FitsDepth frame.now.format) fill) }
    ensures refused { IfErr result (λ f. (f ≡ Fault.Refused Refusal.FrameFill)
        × LacksFill text.entry frame.now) }
    ensures failures { Accounts result [] }
{
    match text {
        None => Ok(black(&frame.format())),
        Some(text) => said_fill(text, frame),
    }
}

/// The values that a text says, which fit the frame's depth.
fn said_fill<A: Allocator>(text: &[u8], frame: &Frame<A>) -> Result<[u16; 3], Fault>
    ensures is { IfOk result (λ fill. IsFill fill text.now (frame.now ∷ [])) }
    ensures fits { IfOk result (λ fill. AllByRecursion (FitsDepth frame.now.format) fill) }
    ensures refused { IfErr result (λ f. (f ≡ Fault.Refused Refusal.FrameFill)
        × HasNoFill text.now (frame.now ∷ [])) }
    ensures failures { Accounts result [] }
{
    let Some(fill) = read_fill(text) else {
        return Err(Fault::Refused(Refusal::FrameFill));
    };
    if !fits(fill, &frame.format()) {
        return Err(Fault::Refused(Refusal::FrameFill));
    }
    Ok(fill)
}

/// Whether three values fit the depth of a format, as each component's does.
fn fits(fill: [u16; 3], format: &Format) -> bool
    ensures { IsTrue result ↔ AllByRecursion (FitsDepth format.now) fill }
{
    let most = format.max_value();
    fill[0] <= most && fill[1] <= most && fill[2] <= most
}

/// Black of narrow range of a format: the value of each component, Y, Cb and Cr or R, G and B
/// (SMPTE ST 2110-20, RANGE).
pub fn black(format: &Format) -> [u16; 3]
    ensures is { result ≡ black format.now }
    ensures fits { AllByRecursion (FitsDepth format.now) result }
{
    let scale = scale(format.depth);
    match format.sampling {
        Sampling::Ycc422 | Sampling::Ycc444 => [16 * scale, 128 * scale, 128 * scale],
        Sampling::Rgb => [16 * scale, 16 * scale, 16 * scale],
    }
}

/// What a value of 8 bits is times at a depth: at most 256.
fn scale(depth: Depth) -> u16
    ensures is { result ≡ 2 ^ (bits_of depth - 8) }
    ensures most { result ≤ 256 }
    ensures some { 0 < result }
    ensures whole { 256 * result ≡ 2 ^ bits_of depth }
{
    match depth {
        Depth::D8 => 1,
        Depth::D10 => 4,
        Depth::D12 => 16,
        Depth::D16 => 256,
    }
}

/// Finds that a held picture, where there is one, has the frame's format.
pub(crate) fn check_held<A: Allocator>(
    held: &Option<Picture<A>>,
    frame: &Frame<A>,
) -> Result<(), Fault>
    ensures is { OnOk result (IsHeldFor held.now (frame.now ∷ [])) }
    ensures refused { IfErr result (λ f. (f ≡ Fault.Refused Refusal.FrameHold)
        × (IsHeldFor held.now (frame.now ∷ []) → ⊥)) }
    ensures failures { Accounts result [] }
{
    if let Some(picture) = held {
        if !picture.format().same(&frame.format()) {
            return Err(Fault::Refused(Refusal::FrameHold));
        }
    }
    Ok(())
}

/// A frame as a picture: what it lacks has the values of the picture that is held, or of the fill
/// where none is.
///
/// `AllocError` comes only where the allocator refused the memory for the picture.
pub(crate) fn settled<A: Allocator + Copy>(
    alloc: A,
    frame: &Frame<A>,
    fill: [u16; 3],
    held: &Option<Picture<A>>,
) -> Result<Picture<A>, AllocError>
    requires fill { AllByRecursion (FitsDepth frame.now.format) fill }
    requires held { IsHeldFor held.now (frame.now ∷ []) }
    ensures settled { IfOk result (λ p. p ≡ settled_with held.now fill frame.now) }
    ensures whole { IfOk result (λ p. IsPicture p) }
{
    match held {
        None => frame.settle(alloc, Base::<Global>::Fill(fill)),
        Some(picture) => frame.settle(alloc, Base::Hold(picture)),
    }
}
