//! The engine of `merge` for any number of receivers' files.
ghost use Rattle.std.specs.Prelude.{◌≡◌, ◌<◌, ◌∷◌, [], ℕ, All, IfErr, IfOk, OnErr, OnOk};
ghost use Rattle.std.specs.Prelude.{length, slice_index_or, sum_by};
ghost use Rattle.std.specs.List.{zip};
ghost use Rattle.st_format.specs.History.{IsRead};
ghost use Rattle.run_outcome.specs.Fault.{Accounts, IfRefused, counts};
ghost use Rattle.run_outcome.specs.Moments.{WasRead};
ghost use Rattle.run_outcome.specs.Refusing.{OfRefusal};
ghost use Rattle.receiver_engines.specs.MergeAllRefused.{IsJoinRefusal, IsMergeAllRefusal};
ghost use Rattle.receiver_engines.specs.MergeAllRefused.{StopsMerge};
ghost use Rattle.receiver_engines.specs.MergedAll.{JoinsAll, JoinsEach, JoinsOne, MergesAll};
ghost use Rattle.receiver_engines.specs.MergedAll.{PrintsAll};
ghost use Rattle.receiver_engines.specs.Merging.{IsAgain, PrintsMergedPart, Saves, merged_state};
ghost use Rattle.run_outcome.specs.States.{SavesPart};
ghost use Rattle.run_outcome.specs.declared.refusal.Refusal.TheVariants.{MergeUnlike};

use crate::states::read_receiver;
use path_receiver::Receiver;
use run_outcome::{Fault, Refusal, print_frames, save_state};
use st_format::{ByteSink, ByteSource};
use std::alloc::Allocator;

/// Merges receivers that were written as files.
///
/// The receiver of `first` is read. Then those of `others` are read and merged into it, one after
/// the other: there is memory for two of them at a time. A line for the frame of each timestamp is
/// printed to `output`, and then the merged receiver is written to `state`.
///
/// # Errors
///
/// The first refusal, where a file is refused or is opened unlike the first, before anything is
/// printed or written to `state`; and else that a device failed or memory was wanted.
pub fn merge_all<A, S, K, O>(
    alloc: A,
    first: &mut S,
    others: &mut [S],
    state: &mut K,
    output: &mut O,
) -> Result<(), Fault>
where
    A: Allocator + Copy,
    S: ByteSource,
    K: ByteSink,
    O: ByteSink,
    ensures len { length others.new ≡ length others.old }
    ensures saved { OnOk result (Saves (K.took state.old) (K.took state.new)) }
    ensures merged { OnOk result
        (MergesAll (IsRead (S.gave first.old) (S.gave first.new) (S.ended first.new))
        (WasRead S.gave S.ended) (zip others.old others.new)
        (K.took state.old) (K.took state.new)) }
    ensures printed { OnOk result
        (PrintsAll (IsRead (S.gave first.old) (S.gave first.new) (S.ended first.new))
        (WasRead S.gave S.ended) (zip others.old others.new)
        (O.took output.old) (O.took output.new)) }
    // Where it fails, the merged receiver isn't all written.
    ensures part { OnErr result (SavesPart
        (JoinsAll (IsRead (S.gave first.old) (S.gave first.new) (S.ended first.new))
        (WasRead S.gave S.ended) (zip others.old others.new))
        (K.took state.old) (K.took state.new)) }
    // Nothing was printed then; or the lines of the merged receiver, or a first part of them, since
    // the output failed.
    ensures shown { OnErr result (PrintsMergedPart O.took O.failures
        (JoinsAll (IsRead (S.gave first.old) (S.gave first.new) (S.ended first.new))
        (WasRead S.gave S.ended) (zip others.old others.new)) output.old output.new) }
    // All of each file was read, up to its end.
    ensures ended { OnOk result (S.ended first.new × All S.ended others.new) }
    ensures refused { IfErr result (λ f. IfRefused f (state.new ≡ state.old)) }
    ensures quiet { IfErr result (λ f. IfRefused f (output.new ≡ output.old)) }
    // So memory is wanted.
    ensures memory { IfErr result (λ f. f ≡ Fault.Memory
        → (state.new ≡ state.old) × (output.new ≡ output.old)) }
    ensures refusal { IfErr result (λ f. OfRefusal f
        (IsMergeAllRefusal (IsRead (S.gave first.old) (S.gave first.new) (S.ended first.new))
        (WasRead S.gave S.ended) (zip others.old others.new))) }
    ensures failures { Accounts result (counts (S.failures first.old) (S.failures first.new)
        ∷ counts (sum_by S.failures others.old) (sum_by S.failures others.new)
        ∷ counts (K.failures state.old) (K.failures state.new)
        ∷ counts (O.failures output.old) (O.failures output.new) ∷ []) }
{
    let merged = join_all(alloc, first, others)?;
    print_frames(&merged, output)?;
    save_state(&merged, state)
}

/// Reads a receiver, and merges others into it.
fn join_all<A: Allocator + Copy, S: ByteSource>(
    alloc: A,
    first: &mut S,
    others: &mut [S],
) -> Result<Receiver<A>, Fault>
    ensures len { length others.new ≡ length others.old }
    ensures joined { IfOk result (λ m. JoinsAll
        (IsRead (S.gave first.old) (S.gave first.new) (S.ended first.new))
        (WasRead S.gave S.ended) (zip others.old others.new) m) }
    ensures ended { OnOk result (S.ended first.new × All S.ended others.new) }
    ensures refusal { IfErr result (λ f. OfRefusal f
        (IsMergeAllRefusal (IsRead (S.gave first.old) (S.gave first.new) (S.ended first.new))
        (WasRead S.gave S.ended) (zip others.old others.new))) }
    ensures failures { Accounts result (counts (S.failures first.old) (S.failures first.new)
        ∷ counts (sum_by S.failures others.old) (sum_by S.failures others.new) ∷ []) }
{
    let mut merged = read_receiver(alloc, first)?;
    join_each(alloc, &mut merged, others)?;
    Ok(merged)
}

/// Reads receivers, and merges them into one, one after the other.
fn join_each<A: Allocator + Copy, S: ByteSource>(
    alloc: A,
    merged: &mut Receiver<A>,
    others: &mut [S],
) -> Result<(), Fault>
    ensures len { length others.new ≡ length others.old }
    ensures joined { OnOk result (JoinsEach (WasRead S.gave S.ended) (zip others.old others.new)
        merged.old merged.new) }
    ensures ended { OnOk result (All S.ended others.new) }
    ensures refusal { IfErr result (λ f. OfRefusal f (λ r. StopsMerge merged.old
        (WasRead S.gave S.ended) (zip others.old others.new)
        (λ t. IsJoinRefusal merged.old t r))) }
    ensures failures { Accounts result (counts (sum_by S.failures others.old)
        (sum_by S.failures others.new) ∷ []) }
{
    for place in 0..others.len() {
        join_at(alloc, merged, others, place)?;
    }
    Ok(())
}

/// Reads the receiver at a place in the list, and merges it into one.
fn join_at<A: Allocator + Copy, S: ByteSource>(
    alloc: A,
    merged: &mut Receiver<A>,
    others: &mut [S],
    place: usize,
) -> Result<(), Fault>
    requires { place < length others.old }
    ensures len { length others.new ≡ length others.old }
    ensures behind { (k : ℕ) (s : S) → place < k
        → slice_index_or others.new k s ≡ slice_index_or others.old k s }
    ensures before { (k : ℕ) (s : S) → k < place
        → slice_index_or others.new k s ≡ slice_index_or others.old k s }
    ensures joined { OnOk result ((s : S) → JoinsOne (WasRead S.gave S.ended
        (slice_index_or others.old place s, slice_index_or others.new place s))
        merged.old merged.new) }
    ensures ended { OnOk result ((s : S) → S.ended (slice_index_or others.new place s)) }
    ensures refusal { IfErr result (λ f. (s : S) → OfRefusal f (IsJoinRefusal merged.old
        (WasRead S.gave S.ended
        (slice_index_or others.old place s, slice_index_or others.new place s)))) }
    ensures failures { Accounts result (counts (sum_by S.failures others.old)
        (sum_by S.failures others.new) ∷ []) }
{
    join(alloc, merged, &mut others[place])
}

/// Reads a receiver, and merges it into one. That stays as it was where the other isn't merged.
pub(crate) fn join<A: Allocator + Copy, S: ByteSource>(
    alloc: A,
    merged: &mut Receiver<A>,
    source: &mut S,
) -> Result<(), Fault>
    ensures joined { OnOk result (JoinsOne
        (IsRead (S.gave source.old) (S.gave source.new) (S.ended source.new))
        merged.old merged.new) }
    ensures stays { OnErr result (merged.new ≡ merged.old) }
    ensures ended { OnOk result (S.ended source.new) }
    ensures refusal { IfErr result (λ f. OfRefusal f (IsJoinRefusal merged.old
        (IsRead (S.gave source.old) (S.gave source.new) (S.ended source.new)))) }
    ensures failures { Accounts result (counts (S.failures source.old) (S.failures source.new)
        ∷ []) }
{
    let other = read_receiver(alloc, source)?;
    join_read(merged, &other)
}

/// Merges a receiver that was read into one, which stays as it was where the two are opened unlike.
fn join_read<A: Allocator>(merged: &mut Receiver<A>, other: &Receiver<A>) -> Result<(), Fault>
    ensures alike { OnOk result (merged.old.opening ≡ other.now.opening) }
    ensures joined { OnOk result (IsAgain (merged_state merged.old other.now) merged.new) }
    ensures stays { OnErr result (merged.new ≡ merged.old) }
    // No memory is asked for.
    ensures only { IfErr result (λ f. (f ≡ Fault.Refused MergeUnlike)
        × (merged.old.opening ≡ other.now.opening → ⊥)) }
    ensures failures { Accounts result [] }
{
    match merged.merge(other) {
        Ok(()) => Ok(()),
        Err(_) => Err(Fault::Refused(Refusal::MergeUnlike)),
    }
}
