//! Reading the files that are processed.
ghost use Rattle.std.specs.Prelude.{◌≡◌, ◌<◌, ◌∷◌, [], ℕ, length, slice_index_or, sum_by};
ghost use Rattle.std.specs.Prelude.{IfErr, IfOk};
ghost use Rattle.run_outcome.specs.Moments.{WasRead, pair};
ghost use Rattle.std.specs.List.{zip};
ghost use Rattle.run_outcome.specs.Fault.{Accounts, counts};
ghost use Rattle.receiver_engines.specs.Merging.{SaysReceiver};
ghost use Rattle.run_outcome.specs.Fault.{failures_in};
ghost use Rattle.run_outcome.specs.Refusing.{OfRefusal};
ghost use Rattle.receiver_engines.specs.Refused.{IsHeldRefusal, IsReceiversRefusal};
ghost use Rattle.receiver_engines.specs.States.{IsStateRefusal};
ghost use Rattle.receiver_engines.specs.Reading.{SayReceivers, SaysHeld};
ghost use Rattle.st_format.specs.History.{IsRead};

use crate::states::read_receiver;
use path_receiver::Receiver;
use run_outcome::{Fault, read_unpacked};
use st_format::{ByteSource, Picture};
use std::alloc::Allocator;

/// Reads the receivers of files, one after the other.
pub fn read_receivers<A: Allocator + Copy, S: ByteSource>(
    alloc: A,
    states: &mut [S],
) -> Result<Vec<Receiver<A>, A>, Fault>
    ensures len { length states.new ≡ length states.old }
    ensures say { IfOk result (λ v. SayReceivers (WasRead S.gave S.ended)
        (zip states.old states.new) v.items) }
    ensures refused { IfErr result (λ f. OfRefusal f
        (IsReceiversRefusal (WasRead S.gave S.ended) (zip states.old states.new))) }
    ensures failures { Accounts result (counts (sum_by S.failures states.old)
        (sum_by S.failures states.new) ∷ []) }
{
    let mut receivers = Vec::new(alloc);
    for place in 0..states.len() {
        let receiver = read_at(alloc, states, place)?;
        match receivers.push(receiver) {
            Ok(()) => {}
            Err(_) => return Err(Fault::Memory),
        }
    }
    Ok(receivers)
}

/// Reads the receiver of a place in the list.
fn read_at<A: Allocator + Copy, S: ByteSource>(
    alloc: A,
    states: &mut [S],
    place: usize,
) -> Result<Receiver<A>, Fault>
    requires { place < length states.old }
    ensures len { length states.new ≡ length states.old }
    ensures others { (k : ℕ) (s : S) → place < k
        → slice_index_or states.new k s ≡ slice_index_or states.old k s }
    ensures before { (k : ℕ) (s : S) → k < place
        → slice_index_or states.new k s ≡ slice_index_or states.old k s }
    ensures says { IfOk result (λ r. (s : S) → SaysReceiver
        (IsRead (S.gave (slice_index_or states.old place s))
        (S.gave (slice_index_or states.new place s))
        (S.ended (slice_index_or states.new place s))) r) }
    ensures refused { IfErr result (λ f. (s : S) → OfRefusal f (IsStateRefusal
        (IsRead (S.gave (slice_index_or states.old place s))
        (S.gave (slice_index_or states.new place s))
        (S.ended (slice_index_or states.new place s))))) }
    ensures failures { Accounts result (counts (sum_by S.failures states.old)
        (sum_by S.failures states.new) ∷ []) }
{
    read_receiver(alloc, &mut states[place])
}

/// Reads the picture that is to be held, if a file of one is named.
///
/// # Errors
///
/// As [`read_unpacked`] has them.
pub fn read_held<A: Allocator, S: ByteSource>(
    alloc: A,
    hold: &mut Option<S>,
) -> Result<Option<Picture<A>>, Fault>
    ensures says { IfOk result (λ held. SaysHeld (WasRead S.gave S.ended)
        (pair hold.old hold.new) held) }
    ensures refused { IfErr result (λ f. OfRefusal f
        (IsHeldRefusal (WasRead S.gave S.ended) (pair hold.old hold.new))) }
    ensures failures { Accounts result (counts (failures_in S.failures hold.old)
        (failures_in S.failures hold.new) ∷ []) }
{
    match hold {
        None => Ok(None),
        Some(source) => match read_unpacked(alloc, source) {
            Ok(picture) => Ok(Some(picture)),
            Err(fault) => Err(fault),
        },
    }
}
