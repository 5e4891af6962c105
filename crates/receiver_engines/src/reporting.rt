//! The engine of `report`.
ghost use Rattle.std.specs.Prelude.{◌≡◌, ◌∷◌, [], IfErr, OnErr, OnOk};
ghost use Rattle.st_format.specs.History.{IsRead};
ghost use Rattle.run_outcome.specs.Fault.{Accounts, IfRefused, counts};
ghost use Rattle.receiver_engines.specs.States.{IsStateRefusal};
ghost use Rattle.run_outcome.specs.Refusing.{OfRefusal};
ghost use Rattle.receiver_engines.specs.Reporting.{Reports, ReportsPart};

use crate::states::read_receiver;
use frame_report::write_report;
use run_outcome::Fault;
use st_format::{ByteSink, ByteSource};
use std::alloc::Allocator;

/// Prints what a receiver lacks that was written as a file: its report is written to `output`.
///
/// # Errors
///
/// A refusal where the file is refused, before anything is written to `output`; and else that a
/// device failed or memory was wanted.
pub fn report<A, S, O>(alloc: A, state: &mut S, output: &mut O) -> Result<(), Fault>
where
    A: Allocator + Copy,
    S: ByteSource,
    O: ByteSink,
    ensures reported { OnOk result (Reports
        (IsRead (S.gave state.old) (S.gave state.new) (S.ended state.new))
        (O.took output.old) (O.took output.new)) }
    // Where it fails, the report isn't all written.
    ensures part { OnErr result (ReportsPart
        (IsRead (S.gave state.old) (S.gave state.new) (S.ended state.new))
        (O.took output.old) (O.took output.new)) }
    // All of the file was read, up to its end.
    ensures ended { OnOk result (S.ended state.new) }
    ensures refused { IfErr result (λ f. IfRefused f (output.new ≡ output.old)) }
    // Memory is wanted before anything is written.
    ensures memory { IfErr result (λ f. f ≡ Fault.Memory → output.new ≡ output.old) }
    ensures refusal { IfErr result (λ f. OfRefusal f (IsStateRefusal
        (IsRead (S.gave state.old) (S.gave state.new) (S.ended state.new)))) }
    ensures failures { Accounts result (counts (S.failures state.old) (S.failures state.new)
        ∷ counts (O.failures output.old) (O.failures output.new) ∷ []) }
{
    let receiver = read_receiver(alloc, state)?;
    match write_report(&receiver, output) {
        Ok(()) => Ok(()),
        Err(_) => Err(Fault::Device),
    }
}
