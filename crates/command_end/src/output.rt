//! The place of the file that a command writes.
ghost use Rattle.std.specs.Prelude.{◌≡◌, ◌∷◌, [], IfErr, IsFalse, IsTrue, OnOk};
ghost use Rattle.devices.specs.Passed.{IsUnplaced, LeavesNoPart, file_took, writing_failures};
ghost use Rattle.run_outcome.specs.Fault.{Accounts, counts};
ghost use Rattle.run_outcome.specs.Refusing.{OfRefusal};
ghost use Rattle.run_outcome.specs.declared.refusal.Refusal.TheVariants.{OutputIsInput};

use devices::FileOutput;
use run_outcome::{Fault, Refusal, Writer};

/// Looks at the place of the file that a command writes, before anything is read. Nothing is
/// changed there.
///
/// # Errors
///
/// `OutputIsInput` where it is a file that is read, and else that it can't be written.
pub fn find_output(output: &mut FileOutput<'_>, is_input: bool, writer: Writer) -> Result<(), Fault>
    ensures took { file_took output.new ≡ file_took output.old }
    ensures unplaced { IsUnplaced output.old → IsUnplaced output.new }
    ensures rest { LeavesNoPart output.old → LeavesNoPart output.new }
    ensures apart { OnOk result (IsFalse is_input) }
    ensures refusal { IfErr result (λ f. OfRefusal f
        (λ r. (r ≡ OutputIsInput writer) × IsTrue is_input)) }
    ensures owed { Accounts result
        (counts (writing_failures output.old) (writing_failures output.new) ∷ []) }
{
    if is_input {
        return Err(Fault::Refused(Refusal::OutputIsInput(writer)));
    }
    output.find()?;
    Ok(())
}
