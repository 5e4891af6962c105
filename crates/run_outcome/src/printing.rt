//! Printing what a run says.
ghost use Rattle.std.specs.Prelude.{◌≡◌, ◌++◌, ◌∷◌, [], IfErr, OnErr, OnOk};
ghost use Rattle.st_format.specs.Device.{GrowsPart};
ghost use Rattle.run_outcome.specs.Fault.{Accounts, IfRefused, counts};
ghost use Rattle.run_outcome.specs.Frames.{frame_line_at, frame_lines};
ghost use Rattle.run_outcome.specs.Line.{line_text};

use crate::fault::Fault;
use crate::line::{Line, ended};
use path_receiver::Receiver;
use st_format::{ByteSink, write_whole};
use std::alloc::Allocator;

/// Prints a line for the frame of each timestamp of a receiver's window.
pub fn print_frames<A: Allocator, O: ByteSink>(
    receiver: &Receiver<A>,
    output: &mut O,
) -> Result<(), Fault>
    ensures printed { OnOk result
        (O.took output.new ≡ O.took output.old ++ frame_lines receiver.now) }
    ensures cut { OnErr result
        (GrowsPart (O.took output.old) (O.took output.new) (frame_lines receiver.now)) }
    ensures device { IfErr result (λ f. f ≡ Fault.Device) }
    ensures unrefused { IfErr result (λ f. IfRefused f ⊥) }
    ensures failures { Accounts result (counts (O.failures output.old) (O.failures output.new)
        ∷ []) }
{
    for timestamp in receiver.window() {
        print_frame(receiver, *timestamp, output)?;
    }
    Ok(())
}

/// Prints the line of a receiver's frame of a timestamp, where it has one.
fn print_frame<A: Allocator, O: ByteSink>(
    receiver: &Receiver<A>,
    timestamp: u32,
    output: &mut O,
) -> Result<(), Fault>
    ensures printed { OnOk result
        (O.took output.new ≡ O.took output.old ++ frame_line_at receiver.now timestamp) }
    ensures cut { OnErr result
        (GrowsPart (O.took output.old) (O.took output.new)
        (frame_line_at receiver.now timestamp)) }
    ensures device { IfErr result (λ f. f ≡ Fault.Device) }
    ensures unrefused { IfErr result (λ f. IfRefused f ⊥) }
    ensures failures { Accounts result (counts (O.failures output.old) (O.failures output.new)
        ∷ []) }
{
    let Some(frame) = receiver.frame(timestamp) else {
        return Ok(());
    };
    let counts = frame.counts();
    print(Line::Frame(timestamp, counts), output)
}

/// Prints a line and its end by one call, so that lines of several runs into one pipe stay whole.
/// Nothing else than the device fails: no memory is wanted.
pub fn print<O: ByteSink>(line: Line, output: &mut O) -> Result<(), Fault>
    ensures printed { OnOk result
        (O.took output.new ≡ O.took output.old ++ (line_text line ++ 10 ∷ [])) }
    // Where the device failed, a first part of it.
    ensures cut { OnErr result
        (GrowsPart (O.took output.old) (O.took output.new) (line_text line ++ 10 ∷ [])) }
    ensures device { IfErr result (λ f. f ≡ Fault.Device) }
    ensures unrefused { IfErr result (λ f. IfRefused f ⊥) }
    ensures failures { Accounts result (counts (O.failures output.old) (O.failures output.new)
        ∷ []) }
{
    write_whole(output, ended(line).as_bytes())?;
    Ok(())
}
