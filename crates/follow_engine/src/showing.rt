//! Showing a frame that leaves, and telling it.
ghost use Rattle.std.specs.Prelude.{◌≡◌, ◌∷◌, [], Err, IfErr, OnErr, OnOk};
ghost use Rattle.follow_engine.specs.Events.{Left};
ghost use Rattle.follow_engine.specs.Running.{TellsEvents, TellsSome};
ghost use Rattle.run_outcome.specs.Fault.{Accounts, IfRefused, counts};

use crate::line::{FollowLine, print};
use crate::pictures::PictureSink;
use frame_assembly::Frame;
use run_outcome::Fault;
use st_format::ByteSink;
use std::alloc::Allocator;

/// Shows a frame that leaves, and then prints its line, with how many datagrams came late since the
/// one before. Memory is wanted only where the pictures want it.
pub(crate) fn show_frame<A: Allocator, P: PictureSink, O: ByteSink>(
    timestamp: u32,
    frame: &Frame<A>,
    late: u64,
    pictures: &mut P,
    output: &mut O,
) -> Result<(), Fault>
    ensures told { OnOk result (TellsEvents P.takes pictures.old pictures.new
        (O.took output.old) (O.took output.new)
        (Left (record { timestamp = timestamp; frame = frame.now }) late ∷ [])) }
    ensures part { OnErr result (TellsSome P.takes P.fails pictures.old pictures.new
        (O.took output.old) (O.took output.new)
        (Left (record { timestamp = timestamp; frame = frame.now }) late ∷ [])) }
    ensures memory { result ≡ Err Fault.Memory → P.fails pictures.old
        (record { timestamp = timestamp; frame = frame.now }) pictures.new }
    ensures unrefused { IfErr result (λ f. IfRefused f ⊥) }
    ensures failures { Accounts result (counts (P.failures pictures.old)
        (P.failures pictures.new)
        ∷ counts (O.failures output.old) (O.failures output.new) ∷ []) }
{
    pictures.show(timestamp, frame)?;
    let counts = frame.counts();
    print(FollowLine::Left(timestamp, counts, late), output)
}
