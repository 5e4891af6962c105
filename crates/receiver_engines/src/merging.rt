//! The engine of `merge` for two receivers' files, whose devices may be of two kinds.
ghost use Rattle.std.specs.Prelude.{◌≡◌, ◌∷◌, [], IfErr, IfOk, OnErr, OnOk};
ghost use Rattle.st_format.specs.History.{IsRead};
ghost use Rattle.run_outcome.specs.Fault.{Accounts, IfRefused, counts};
ghost use Rattle.receiver_engines.specs.Merging.{JoinsFirst, MergesFiles, PrintsMerged, PrintsMergedPart};
ghost use Rattle.receiver_engines.specs.Merging.{Saves};
ghost use Rattle.run_outcome.specs.States.{SavesPart};
ghost use Rattle.receiver_engines.specs.MergeRefused.{IsMergeRefusal};
ghost use Rattle.run_outcome.specs.Refusing.{OfRefusal};

use crate::merging_all::join;
use crate::states::read_receiver;
use path_receiver::Receiver;
use run_outcome::{Fault, print_frames, save_state};
use st_format::{ByteSink, ByteSource};
use std::alloc::Allocator;

/// Merges two receivers that were written as files.
///
/// The receivers of `left` and of `right` are read, and the right one is merged into the left. A
/// line for the frame of each timestamp is printed to `output`, and then the merged receiver is
/// written to `state`.
///
/// # Errors
///
/// A refusal where a file is refused or the two are opened unlike, before anything is printed
/// or written to `state`; and else that a device failed or memory was wanted.
pub fn merge<A, L, R, K, O>(
    alloc: A,
    left: &mut L,
    right: &mut R,
    state: &mut K,
    output: &mut O,
) -> Result<(), Fault>
where
    A: Allocator + Copy,
    L: ByteSource,
    R: ByteSource,
    K: ByteSink,
    O: ByteSink,
    ensures saved { OnOk result (Saves (K.took state.old) (K.took state.new)) }
    ensures merged { OnOk result
        (MergesFiles (IsRead (L.gave left.old) (L.gave left.new) (L.ended left.new))
        (IsRead (R.gave right.old) (R.gave right.new) (R.ended right.new))
        (K.took state.old) (K.took state.new)) }
    ensures printed { OnOk result
        (PrintsMerged (IsRead (L.gave left.old) (L.gave left.new) (L.ended left.new))
        (IsRead (R.gave right.old) (R.gave right.new) (R.ended right.new))
        (O.took output.old) (O.took output.new)) }
    // Where it fails, the merged receiver isn't all written.
    ensures part { OnErr result (SavesPart
        (JoinsFirst (IsRead (L.gave left.old) (L.gave left.new) (L.ended left.new))
        (IsRead (R.gave right.old) (R.gave right.new) (R.ended right.new)))
        (K.took state.old) (K.took state.new)) }
    // Nothing was printed then; or the lines of the merged receiver, or a first part of them, since
    // the output failed.
    ensures shown { OnErr result (PrintsMergedPart O.took O.failures
        (JoinsFirst (IsRead (L.gave left.old) (L.gave left.new) (L.ended left.new))
        (IsRead (R.gave right.old) (R.gave right.new) (R.ended right.new)))
        output.old output.new) }
    // All of each file was read, up to its end.
    ensures ended { OnOk result (L.ended left.new × R.ended right.new) }
    ensures refused { IfErr result (λ f. IfRefused f (state.new ≡ state.old)) }
    ensures quiet { IfErr result (λ f. IfRefused f (output.new ≡ output.old)) }
    // So memory is wanted.
    ensures memory { IfErr result (λ f. f ≡ Fault.Memory
        → (state.new ≡ state.old) × (output.new ≡ output.old)) }
    ensures refusal { IfErr result (λ f. OfRefusal f
        (IsMergeRefusal (IsRead (L.gave left.old) (L.gave left.new) (L.ended left.new))
        (IsRead (R.gave right.old) (R.gave right.new) (R.ended right.new)))) }
    ensures failures { Accounts result (counts (L.failures left.old) (L.failures left.new)
        ∷ counts (R.failures right.old) (R.failures right.new)
        ∷ counts (K.failures state.old) (K.failures state.new)
        ∷ counts (O.failures output.old) (O.failures output.new) ∷ []) }
{
    let merged = merge_both(alloc, left, right)?;
    print_frames(&merged, output)?;
    save_state(&merged, state)
}

/// Reads two receivers, and merges the second into the first.
fn merge_both<A: Allocator + Copy, L: ByteSource, R: ByteSource>(
    alloc: A,
    left: &mut L,
    right: &mut R,
) -> Result<Receiver<A>, Fault>
    ensures joined { IfOk result (λ m. JoinsFirst
        (IsRead (L.gave left.old) (L.gave left.new) (L.ended left.new))
        (IsRead (R.gave right.old) (R.gave right.new) (R.ended right.new)) m) }
    ensures ended { OnOk result (L.ended left.new × R.ended right.new) }
    ensures refusal { IfErr result (λ f. OfRefusal f
        (IsMergeRefusal (IsRead (L.gave left.old) (L.gave left.new) (L.ended left.new))
        (IsRead (R.gave right.old) (R.gave right.new) (R.ended right.new)))) }
    ensures failures { Accounts result (counts (L.failures left.old) (L.failures left.new)
        ∷ counts (R.failures right.old) (R.failures right.new) ∷ []) }
{
    let mut merged = read_receiver(alloc, left)?;
    join(alloc, &mut merged, right)?;
    Ok(merged)
}
