//! Printing what a tally counts.
ghost use Rattle.std.specs.Prelude.{◌≡◌, ◌∷◌, ◌++◌, [], IfErr, OnErr, OnOk};
ghost use Rattle.std.specs.List.{flat_map};
ghost use Rattle.st_format.specs.Device.{GrowsPart};
ghost use Rattle.run_outcome.specs.Fault.{Accounts, IfRefused, counts};
ghost use Rattle.path_receiver.specs.Answers.{all_refusals};
ghost use Rattle.capture_engines.specs.Printed.{counted_line, refusal_line, tally_text};

use path_receiver::{REFUSAL_COUNT, Tally, refusal_at};
use run_outcome::{Fault, Line, print};
use st_format::ByteSink;

/// Prints how many datagrams were refused, for each reason that came, and how many were outside the
/// window.
pub(crate) fn print_tally<O: ByteSink>(tally: &Tally, output: &mut O) -> Result<(), Fault>
    ensures printed { OnOk result
        (O.took output.new ≡ O.took output.old ++ tally_text tally.now) }
    ensures cut { OnErr result
        (GrowsPart (O.took output.old) (O.took output.new) (tally_text tally.now)) }
    ensures device { IfErr result (λ f. f ≡ Fault.Device) }
    ensures unrefused { IfErr result (λ f. IfRefused f ⊥) }
    ensures failures { Accounts result (counts (O.failures output.old) (O.failures output.new)
        ∷ []) }
{
    print_refusals(&tally.refused, output)?;
    print_counted(Line::OutsideCount(tally.outside), tally.outside, output)
}

/// Prints how often each refusal came that came, of the counts of all.
fn print_refusals<O: ByteSink>(refused: &[u64; REFUSAL_COUNT], output: &mut O) -> Result<(), Fault>
    ensures printed { OnOk result (O.took output.new ≡ O.took output.old
        ++ flat_map (refusal_line refused.now) all_refusals) }
    ensures cut { OnErr result (GrowsPart (O.took output.old) (O.took output.new)
        (flat_map (refusal_line refused.now) all_refusals)) }
    ensures device { IfErr result (λ f. f ≡ Fault.Device) }
    ensures unrefused { IfErr result (λ f. IfRefused f ⊥) }
    ensures failures { Accounts result (counts (O.failures output.old) (O.failures output.new)
        ∷ []) }
{
    for place in 0..REFUSAL_COUNT {
        let count = refused[place];
        print_counted(Line::RefusedCount(refusal_at(place), count), count, output)?;
    }
    Ok(())
}

/// Prints a line where what it counts came at all.
fn print_counted<O: ByteSink>(line: Line, count: u64, output: &mut O) -> Result<(), Fault>
    ensures printed { OnOk result
        (O.took output.new ≡ O.took output.old ++ counted_line count line) }
    ensures cut { OnErr result
        (GrowsPart (O.took output.old) (O.took output.new) (counted_line count line)) }
    ensures device { IfErr result (λ f. f ≡ Fault.Device) }
    ensures unrefused { IfErr result (λ f. IfRefused f ⊥) }
    ensures failures { Accounts result (counts (O.failures output.old) (O.failures output.new)
        ∷ []) }
{
    if count == 0 {
        return Ok(());
    }
    print(line, output)
}
