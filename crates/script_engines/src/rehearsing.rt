//! The engine of `rehearse`.
ghost use Rattle.std.specs.Prelude.{◌≡◌, ◌≤◌, ◌⊎◌, ◌∷◌, ◌++◌, [], false, length, IfErr, IfOk};
ghost use Rattle.std.specs.Prelude.{OnErr, OnOk};
ghost use Rattle.st_format.specs.Device.{GrowsPart};
ghost use Rattle.st_format.specs.History.{GrewFrom};
ghost use Rattle.run_outcome.specs.Fault.{Accounts, IfRefused, counts};
ghost use Rattle.run_outcome.specs.Refusing.{OfRefusal};
ghost use Rattle.script_engines.specs.Reading.{DoesScript, IsRefusedFor, ReadsScript};
ghost use Rattle.script_engines.specs.Rehearsal.{said_by};
ghost use Rattle.script_engines.specs.Rehearsed.{IsRefusedScript, IsUnplayed, PlaysSaid, Rehearses};
ghost use Rattle.script_engines.specs.Rehearsed.{RehearsesPart};
ghost use Rattle.script_engines.specs.Rehearsed.{handed_line, handed_text, receiver_lines};
ghost use Rattle.script_engines.specs.Rehearsed.{receivers_text};

use crate::rehearsal::{Rehearsal, read_rehearsal};
use crate::script::{Script, read_script};
use packet_plan::Plan;
use path_merge::{Handed, Played, play};
use path_receiver::Receiver;
use run_outcome::{Fault, Line, LineFault, print, print_frames};
use st_format::{ByteSink, ByteSource};
use std::alloc::Allocator;

/// Plays the schedule that the source gives as a script.
///
/// The script is read whole; then it is planned and played, and a line is printed to `output` for
/// each frame that was handed out, in order, and then for each receiver its number and a line for
/// the frame of each timestamp of its window.
///
/// # Errors
///
/// A refusal where the script, its format, its plan or its schedule is refused, and nothing is
/// printed then; and else that a device failed or memory was wanted.
pub fn rehearse<A, S, O>(alloc: A, source: &mut S, output: &mut O) -> Result<(), Fault>
where
    A: Allocator + Copy,
    S: ByteSource,
    O: ByteSink,
    ensures failures { Accounts result (counts (S.failures source.old) (S.failures source.new)
        ∷ counts (O.failures output.old) (O.failures output.new) ∷ []) }
    ensures read { ReadsScript result (S.gave source.old) (S.gave source.new) (S.ended source.new) }
    ensures grown { GrewFrom (S.gave source.old) (S.gave source.new) }
    ensures rehearses { OnOk result (DoesScript (Rehearses A) (S.gave source.old)
        (S.gave source.new) (S.ended source.new) (O.took output.old) (O.took output.new)) }
    ensures refusal { IfErr result (λ f. OfRefusal f (IsRefusedFor IsRefusedScript
        (S.gave source.old) (S.gave source.new) (S.ended source.new))) }
    ensures nothing { IfErr result (λ f. IfRefused f (O.took output.new ≡ O.took output.old)) }
    // Where a device failed or memory was wanted, nothing or a first part of it is printed.
    ensures cut { OnErr result ((O.took output.new ≡ O.took output.old)
        ⊎ DoesScript (RehearsesPart A) (S.gave source.old) (S.gave source.new)
        (S.ended source.new) (O.took output.old) (O.took output.new)) }
{
    let script = read_script(alloc, source)?;
    rehearse_script(alloc, &script, output)
}

/// Plays the lines of a script, and prints what came of it.
fn rehearse_script<A: Allocator + Copy, O: ByteSink>(
    alloc: A,
    script: &Script<A>,
    output: &mut O,
) -> Result<(), Fault>
    requires { length script.now.octets.items ≤ 16777216 }
    ensures failures { Accounts result (counts (O.failures output.old) (O.failures output.new)
        ∷ []) }
    ensures whole { OnOk result (script.now.is_cut ≡ false) }
    ensures rehearses { OnOk result
        (Rehearses A script.now.octets.items (O.took output.old) (O.took output.new)) }
    ensures refusal { IfErr result (λ f. OfRefusal f (λ r.
        IsRefusedScript script.now.octets.items script.now.is_cut (Fault.Refused r))) }
    ensures nothing { IfErr result (λ f. IfRefused f (O.took output.new ≡ O.took output.old)) }
    ensures cut { OnErr result ((O.took output.new ≡ O.took output.old)
        ⊎ ((script.now.is_cut ≡ false)
        × RehearsesPart A script.now.octets.items (O.took output.old) (O.took output.new))) }
{
    let rehearsal = read_rehearsal(alloc, script)?;
    let played = play_rehearsal(alloc, &rehearsal)?;
    print_handed(played.handed.as_slice(), output)?;
    print_receivers(played.receivers.as_slice(), output)
}

/// Plans a rehearsal for its format and its greatest packet, and plays it by that plan.
fn play_rehearsal<A: Allocator + Copy>(
    alloc: A,
    rehearsal: &Rehearsal<A>,
) -> Result<Played<A>, Fault>
    requires { rehearsal.now.head.stamp.payload_type ≤ 127 }
    ensures failures { Accounts result [] }
    ensures plays { IfOk result (λ played. PlaysSaid played (said_by rehearsal.now)) }
    ensures unplayed { IfErr result (λ fault. IsUnplayed fault (said_by rehearsal.now)) }
{
    let head = &rehearsal.head;
    let plan = match Plan::new(alloc, head.format, head.max_octets) {
        Ok(plan) => plan,
        Err(fault) => return Err(LineFault::Plan(fault).refused_at(head.max_line)),
    };
    plan.facts();
    let played = play(
        alloc,
        &plan,
        rehearsal.pictures.as_slice(),
        head.stamp,
        head.window.as_slice(),
        head.receivers,
        rehearsal.events.as_slice(),
    );
    match played {
        Ok(played) => Ok(played),
        Err(fault) => Err(LineFault::Play(fault).refused_at(rehearsal.line_of(fault))),
    }
}

/// Prints a line for each frame that was handed out.
fn print_handed<A: Allocator, O: ByteSink>(
    handed: &[Handed<A>],
    output: &mut O,
) -> Result<(), Fault>
    ensures failures { Accounts result (counts (O.failures output.old) (O.failures output.new)
        ∷ []) }
    ensures unrefused { IfErr result (λ f. IfRefused f ⊥) }
    ensures printed { OnOk result
        (O.took output.new ≡ O.took output.old ++ handed_text handed.now) }
    ensures cut { OnErr result
        (GrowsPart (O.took output.old) (O.took output.new) (handed_text handed.now)) }
{
    for out in handed {
        print_out(out, output)?;
    }
    Ok(())
}

/// Prints the line of a frame that was handed out.
fn print_out<A: Allocator, O: ByteSink>(out: &Handed<A>, output: &mut O) -> Result<(), Fault>
    ensures failures { Accounts result (counts (O.failures output.old) (O.failures output.new)
        ∷ []) }
    ensures unrefused { IfErr result (λ f. IfRefused f ⊥) }
    ensures printed { OnOk result
        (O.took output.new ≡ O.took output.old ++ handed_line out.now) }
    ensures cut { OnErr result
        (GrowsPart (O.took output.old) (O.took output.new) (handed_line out.now)) }
{
    let counts = out.frame.counts();
    print(Line::HandedOut(out.receiver, out.timestamp, counts), output)
}

/// Prints the number of each receiver, and a line for each of its frames.
fn print_receivers<A: Allocator, O: ByteSink>(
    receivers: &[Receiver<A>],
    output: &mut O,
) -> Result<(), Fault>
    ensures failures { Accounts result (counts (O.failures output.old) (O.failures output.new)
        ∷ []) }
    ensures unrefused { IfErr result (λ f. IfRefused f ⊥) }
    ensures printed { OnOk result
        (O.took output.new ≡ O.took output.old ++ receivers_text receivers.now) }
    ensures cut { OnErr result
        (GrowsPart (O.took output.old) (O.took output.new) (receivers_text receivers.now)) }
{
    for (number, receiver) in receivers.iter().enumerate() {
        print_receiver(number, receiver, output)?;
    }
    Ok(())
}

/// Prints the number of a receiver, and a line for each of its frames.
fn print_receiver<A: Allocator, O: ByteSink>(
    number: usize,
    receiver: &Receiver<A>,
    output: &mut O,
) -> Result<(), Fault>
    ensures failures { Accounts result (counts (O.failures output.old) (O.failures output.new)
        ∷ []) }
    ensures unrefused { IfErr result (λ f. IfRefused f ⊥) }
    ensures printed { OnOk result
        (O.took output.new ≡ O.took output.old ++ receiver_lines (number, receiver.now)) }
    ensures cut { OnErr result
        (GrowsPart (O.took output.old) (O.took output.new)
        (receiver_lines (number, receiver.now))) }
{
    print(Line::Receiver(number), output)?;
    print_frames(receiver, output)
}
