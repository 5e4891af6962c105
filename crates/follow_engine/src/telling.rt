//! What is told at the end of a stream.
ghost use Rattle.std.specs.Prelude.{◌≡◌, ◌∷◌, ◌++◌, [], IfErr, IfOk, OnErr, OnOk};
ghost use Rattle.follow_engine.specs.Line.{ended_in};
ghost use Rattle.follow_engine.specs.Running.{running_of};
ghost use Rattle.follow_engine.specs.Shown.{GrowsSome};
ghost use Rattle.follow_engine.specs.Telling.{totals_of, totals_text, wanted};
ghost use Rattle.run_outcome.specs.Fault.{Accounts, IfRefused, counts};
ghost use Rattle.st_format.specs.Device.{GrowsPart};

use crate::line::{FollowLine, print};
use crate::running::Run;
use run_outcome::Fault;
use st_format::ByteSink;
use std::alloc::Allocator;

/// What became of a stream.
#[derive(Clone, Copy, Debug, PartialEq, Eq)]
pub struct FollowTotals {
    /// How many frames left.
    pub frames: u64,
    /// How many datagrams were kept.
    pub kept: u64,
    /// How many came late.
    pub late: u64,
    /// How many were too far ahead.
    pub far: u64,
    /// How many were refused.
    pub refused: u64,
}

/// Prints the totals of a stream; and where datagrams came late that more frames would have held,
/// how many frames.
pub(crate) fn tell_totals<A: Allocator, O: ByteSink>(
    run: &Run<A>,
    output: &mut O,
) -> Result<FollowTotals, Fault>
    ensures totals { IfOk result (λ t. t ≡ totals_of (running_of run.now)) }
    ensures printed { OnOk result (O.took output.new
        ≡ O.took output.old ++ totals_text (running_of run.now)) }
    ensures part { OnErr result (GrowsSome (O.took output.old) (O.took output.new)
        (totals_text (running_of run.now))) }
    ensures device { IfErr result (λ f. f ≡ Fault.Device) }
    ensures unrefused { IfErr result (λ f. IfRefused f ⊥) }
    ensures failures { Accounts result (counts (O.failures output.old) (O.failures output.new)
        ∷ []) }
{
    let totals = FollowTotals {
        frames: run.frames,
        kept: run.tally.kept,
        late: run.tally.late,
        far: run.tally.far,
        refused: run.tally.refused,
    };
    print(FollowLine::Totals(totals), output)?;
    let last = wanted(run.follower.size(), totals.late, run.need.frames());
    tell(last, output)?;
    Ok(totals)
}

/// The line of so many frames, where datagrams came late that these would have held, and more are
/// needed than there were.
fn wanted(size: usize, late: u64, need: usize) -> Option<FollowLine>
    ensures { result ≡ wanted size late need }
{
    if late == 0 {
        None
    } else if need <= size {
        None
    } else if need > 16 {
        Some(FollowLine::WantsMore)
    } else {
        Some(FollowLine::Wants(need))
    }
}

/// Prints a line, if there is one.
fn tell<O: ByteSink>(line: Option<FollowLine>, output: &mut O) -> Result<(), Fault>
    ensures printed { OnOk result (O.took output.new ≡ O.took output.old ++ ended_in line) }
    ensures part { OnErr result (GrowsPart (O.took output.old) (O.took output.new)
        (ended_in line)) }
    ensures device { IfErr result (λ f. f ≡ Fault.Device) }
    ensures unrefused { IfErr result (λ f. IfRefused f ⊥) }
    ensures failures { Accounts result (counts (O.failures output.old) (O.failures output.new)
        ∷ []) }
{
    match line {
        Some(line) => print(line, output),
        None => Ok(()),
    }
}
