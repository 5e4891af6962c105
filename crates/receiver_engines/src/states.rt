//! Receivers' files, whose faults are told as an engine tells them.
ghost use Rattle.std.specs.Prelude.{◌∷◌, [], IfErr, IfOk, OnOk};
ghost use Rattle.run_outcome.specs.Fault.{Accounts, counts};
ghost use Rattle.receiver_engines.specs.Merging.{GivesReceiver, IsAgain, SaysReceiver};
ghost use Rattle.run_outcome.specs.Refusing.{OfRefusal};
ghost use Rattle.st_format.specs.History.{GrewFrom, IsRead};
ghost use Rattle.receiver_engines.specs.States.{IsStateRefusal};
ghost use Rattle.path_receiver.specs.Frames.{State};

use path_receiver::Receiver;
use receiver_file::load_receiver;
use run_outcome::{Fault, of_state};
use st_format::ByteSource;
use std::alloc::Allocator;

/// Reads a receiver's file, up to the source's end. What the source gave is just that file.
///
/// # Errors
///
/// A refusal (`Refusal::State`) where the octets are no receiver's file, with its first fault; and
/// else that a device or the allocator failed.
pub fn read_receiver<A: Allocator + Copy, S: ByteSource>(
    alloc: A,
    source: &mut S,
) -> Result<Receiver<A>, Fault>
    ensures found { IfOk result (λ r. SaysReceiver
        (IsRead (S.gave source.old) (S.gave source.new) (S.ended source.new)) r) }
    ensures same { IfOk result (λ r. (s : State) → GivesReceiver
        (IsRead (S.gave source.old) (S.gave source.new) (S.ended source.new)) s
        → IsAgain s r) }
    ensures ended { OnOk result (S.ended source.new) }
    ensures refused { IfErr result (λ f. OfRefusal f (IsStateRefusal
        (IsRead (S.gave source.old) (S.gave source.new) (S.ended source.new)))) }
    ensures grown { GrewFrom (S.gave source.old) (S.gave source.new) }
    ensures failures { Accounts result (counts (S.failures source.old) (S.failures source.new)
        ∷ []) }
{
    match load_receiver(alloc, source) {
        Ok(receiver) => Ok(receiver),
        Err(fault) => Err(of_state(fault)),
    }
}
