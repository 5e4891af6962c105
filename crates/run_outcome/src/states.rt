//! Receivers' files, whose faults are told as an engine tells them.
ghost use Rattle.std.specs.Prelude.{◌≡◌, ◌∷◌, ◌++◌, [], IfErr, OnErr, OnOk};
ghost use Rattle.st_format.specs.Device.{GrowsPart};
ghost use Rattle.media_file.specs.StateFile.{state_text};
ghost use Rattle.receiver_file.specs.Saved.{IsWritable, kept_of};
ghost use Rattle.run_outcome.specs.Fault.{Accounts, IfRefused, counts};
ghost use Rattle.run_outcome.specs.declared.fault.Fault.TheVariants.{Device};

use crate::fault::{Fault, of_state};
use path_receiver::Receiver;
use receiver_file::save_receiver;
use st_format::ByteSink;
use std::alloc::Allocator;

/// Writes a receiver's file.
///
/// # Errors
///
/// That the device failed: it then has a first part of the file more than before, and not all.
pub fn save_state<A: Allocator, K: ByteSink>(
    receiver: &Receiver<A>,
    state: &mut K,
) -> Result<(), Fault>
    ensures whole { OnOk result
        (K.took state.new ≡ K.took state.old ++ state_text (kept_of receiver.now)) }
    ensures part { OnErr result
        (GrowsPart (K.took state.old) (K.took state.new) (state_text (kept_of receiver.now))) }
    ensures writable { IsWritable receiver.now }
    ensures refused { IfErr result (λ f. IfRefused f (state.new ≡ state.old)) }
    ensures unrefused { IfErr result (λ f. IfRefused f ⊥) }
    // No memory is asked for.
    ensures device { IfErr result (λ f. f ≡ Device) }
    ensures failures { Accounts result (counts (K.failures state.old) (K.failures state.new) ∷ []) }
{
    match save_receiver(state, receiver) {
        Ok(()) => Ok(()),
        Err(fault) => Err(of_state(fault)),
    }
}
