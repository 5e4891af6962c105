//! What a job is given: the frames of one timestamp, each with what its samples without a value
//! get.
ghost use Rattle.std.specs.Prelude.{◌≡◌, ◌↔◌, ◌<◌, [], map, set, slice_index, vec_len};
ghost use Rattle.std.specs.Prelude.{IfErr, IfOk, IsTrue, OnOk};
ghost use Rattle.std.specs.List.{AllByRecursion};
ghost use Rattle.run_outcome.specs.Fault.{Accounts, IfRefused};
ghost use Rattle.run_outcome.specs.Refusing.{OfRefusal};
ghost use Rattle.key_mix.specs.Sending.{HasBase, input_formats, settled_inputs};
ghost use Rattle.receiver_engines.specs.FillText.{IsFillText};
ghost use Rattle.receiver_engines.specs.Inputs.{AreLentAt, AreValues, FitsLent, IsHeldFor};
ghost use Rattle.receiver_engines.specs.Inputs.{filled_input, frames_lent, held_input};
ghost use Rattle.receiver_engines.specs.Inputs.{raster_formats};
ghost use Rattle.receiver_engines.specs.Inputs.{settled_frames};
ghost use Rattle.receiver_engines.specs.Refused.{HasNoFill, LacksFrame};
ghost use Rattle.st_format.specs.Picture.{FitsDepth};

use crate::fill_text::read_fill;
use frame_assembly::{Base, Frame};
use key_mix::JobInput;
use path_receiver::Receiver;
use run_outcome::{Fault, Refusal};
use st_format::{Format, Picture};
use std::alloc::Allocator;

/// Each receiver's frame of a timestamp. One whose window hasn't it is refused.
pub fn frames_at<'a, A: Allocator + Copy>(
    alloc: A,
    receivers: &'a [Receiver<A>],
    timestamp: u32,
) -> Result<Vec<&'a Frame<A>, A>, Fault>
    ensures are { IfOk result (λ v. AreLentAt v.items timestamp receivers.now) }
    ensures refused { IfErr result (λ f. OfRefusal f
        (λ r. (r ≡ Refusal.ProcessFrame) × LacksFrame timestamp receivers.now)) }
    ensures failures { Accounts result [] }
{
    let mut frames = Vec::new(alloc);
    for receiver in receivers {
        let Some(frame) = receiver.frame(timestamp) else {
            return Err(Fault::Refused(Refusal::ProcessFrame));
        };
        match frames.push(frame) {
            Ok(()) => {}
            Err(_) => return Err(Fault::Memory),
        }
    }
    Ok(frames)
}

/// The value of each component that a text says. A text that says none is refused, and so is a
/// value above the greatest of a frame's depth.
pub fn fill_for<A: Allocator>(text: &[u8], frames: &[&Frame<A>]) -> Result<[u16; 3], Fault>
    ensures is { IfOk result (λ fill. IsFillText text.now (slice_index fill 0)
        (slice_index fill 1) (slice_index fill 2)) }
    ensures values { IfOk result (λ fill. AreValues fill) }
    ensures fits { IfOk result (λ fill. FitsLent fill frames.now) }
    ensures refused { IfErr result (λ f. (f ≡ Fault.Refused Refusal.ProcessFill)
        × HasNoFill text.now (frames_lent frames.now)) }
    ensures failures { Accounts result [] }
{
    let Some(fill) = read_fill(text) else {
        return Err(Fault::Refused(Refusal::ProcessFill));
    };
    for frame in frames {
        if !fits(fill, frame.format()) {
            return Err(Fault::Refused(Refusal::ProcessFill));
        }
    }
    Ok(fill)
}

/// Whether three values fit the depth of a format, as each component's does.
fn fits(fill: [u16; 3], format: Format) -> bool
    ensures { IsTrue result ↔ AllByRecursion (FitsDepth format) fill }
{
    let most = format.max_value();
    fill[0] <= most && fill[1] <= most && fill[2] <= most
}

/// Finds that a held picture, where there is one, has the format of the first frame.
pub fn check_held<A: Allocator>(
    held: &Option<Picture<A>>,
    frames: &[&Frame<A>],
) -> Result<(), Fault>
    ensures is { OnOk result (IsHeldFor held.now (frames_lent frames.now)) }
    ensures refused { IfErr result (λ f. (f ≡ Fault.Refused Refusal.ProcessHold)
        × (IsHeldFor held.now (frames_lent frames.now) → ⊥)) }
    ensures failures { Accounts result [] }
{
    if let (Some(picture), Some(frame)) = (held, frames.first()) {
        if !picture.format().same(&frame.format()) {
            return Err(Fault::Refused(Refusal::ProcessHold));
        }
    }
    Ok(())
}

/// Each frame with its base: the first with what is held, where something is, and the others with
/// the fill.
pub fn inputs_of<'a, A: Allocator + Copy>(
    alloc: A,
    frames: &[&'a Frame<A>],
    fill: [u16; 3],
    held: &'a Option<Picture<A>>,
) -> Result<Vec<JobInput<'a, A>, A>, Fault>
    requires fill { FitsLent fill frames.now }
    requires held { IsHeldFor held.now (frames_lent frames.now) }
    ensures settled { IfOk result (λ v. settled_inputs v.items
        ≡ settled_frames held.now fill (frames_lent frames.now)) }
    ensures bases { IfOk result (λ v. AllByRecursion HasBase v.items) }
    ensures formats { IfOk result (λ v. input_formats v.items
        ≡ raster_formats (frames_lent frames.now)) }
    ensures unrefused { IfErr result (λ f. IfRefused f ⊥) }
    ensures failures { Accounts result [] }
{
    let inputs = filled_inputs(alloc, frames, fill)?;
    let Some(picture) = held else {
        return Ok(inputs);
    };
    if frames.is_empty() {
        return Ok(inputs);
    }
    Ok(with_held(inputs, frames[0], picture))
}

/// Inputs of which the first is this frame with a held picture: the others have the fill.
fn with_held<'a, A: Allocator + Copy>(
    mut inputs: Vec<JobInput<'a, A>, A>,
    frame: &'a Frame<A>,
    picture: &'a Picture<A>,
) -> Vec<JobInput<'a, A>, A>
    requires { 0 < vec_len inputs }
    ensures { result.items ≡ set inputs.entry.items 0 (held_input frame.entry picture.entry) }
{
    inputs[0] = JobInput {
        frame,
        base: Base::Hold(picture),
    };
    inputs
}

/// An input for each frame, all with the one fill. Only memory can fail.
fn filled_inputs<'a, A: Allocator + Copy>(
    alloc: A,
    frames: &[&'a Frame<A>],
    fill: [u16; 3],
) -> Result<Vec<JobInput<'a, A>, A>, Fault>
    ensures filled { IfOk result (λ v. v.items ≡ map (filled_input fill) frames.now) }
    ensures unrefused { IfErr result (λ f. IfRefused f ⊥) }
    ensures failures { Accounts result [] }
{
    let mut inputs = Vec::new(alloc);
    for frame in frames {
        let input = JobInput {
            frame: *frame,
            base: Base::Fill(fill),
        };
        match inputs.push(input) {
            Ok(()) => {}
            Err(_) => return Err(Fault::Memory),
        }
    }
    Ok(inputs)
}
