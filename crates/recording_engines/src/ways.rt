//! By which flows recordings are taken among captures.
ghost use Rattle.std.specs.Prelude.{◌≡◌, ◌≢◌, ◌⊎◌, [], IfErr, IfOk, Ok, map};
ghost use Rattle.std.specs.Option.{option_copied};
ghost use Rattle.recording_engines.specs.Imported.{IsNoFlowRefusal};
ghost use Rattle.recording_engines.specs.Ways.{AreWaysBy, IsWays, SayWays};
ghost use Rattle.run_outcome.specs.Fault.{Accounts};
ghost use Rattle.run_outcome.specs.Refusing.{OfRefusal};

use crate::importing::{FlowWords, flows_each, flows_of};
use flow::Flows;
use run_outcome::{Fault, Refusal};
use std::alloc::{AllocError, Allocator};

/// The flows by which each of so many files is taken that is a recording, or the refusal that comes
/// where one is: those that `wanted` names, or else those of the SDP text `said`.
///
/// # Errors
///
/// `ImportFlow` where a word is no flow's, and that memory was wanted.
pub fn ways_each<A: Allocator + Copy>(
    alloc: A,
    wanted: FlowWords<'_>,
    said: Option<&[u8]>,
    count: usize,
) -> Result<Vec<Result<Flows, Refusal>, A>, Fault>
    ensures ways { IfOk result (λ each. AreWaysBy (option_copied wanted.entry.a)
        (option_copied wanted.entry.b) (option_copied said.entry) count each.items) }
    ensures refusal { IfErr result (λ f. OfRefusal f (λ r.
        IsNoFlowRefusal (option_copied wanted.entry.a) r
        ⊎ IsNoFlowRefusal (option_copied wanted.entry.b) r)) }
    // No memory is wanted for words that are refused.
    ensures memory { IfErr result (λ f. f ≡ Fault.Memory → SayWays (option_copied wanted.entry.a)
        (option_copied wanted.entry.b) (option_copied said.entry)) }
    ensures failures { Accounts result [] }
{
    let flows = match ways_of(wanted, said)? {
        Ok(flows) => flows,
        Err(refusal) => return Ok(vec![in alloc; Err(refusal); count]?),
    };
    match flows_each(alloc, flows, count) {
        Ok(each) => Ok(taken(alloc, &each)?),
        Err(Fault::Refused(refusal)) => Ok(vec![in alloc; Err(refusal); count]?),
        Err(fault) => Err(fault),
    }
}

/// The ways of files that are taken by these flows, none of them refused.
fn taken<A: Allocator>(
    alloc: A,
    each: &[Flows],
) -> Result<Vec<Result<Flows, Refusal>, A>, AllocError>
    ensures { IfOk result (λ v. v.items ≡ map (λ f. Ok f) each.now) }
{
    let mut ways = Vec::new(alloc);
    for flows in each {
        ways.push(Ok(*flows))?;
    }
    Ok(ways)
}

/// The flows of a run, or the refusal that comes where a recording needs them.
fn ways_of(wanted: FlowWords<'_>, said: Option<&[u8]>) -> Result<Result<Flows, Refusal>, Fault>
    ensures ways { IfOk result (λ w. IsWays (option_copied wanted.entry.a)
        (option_copied wanted.entry.b) (option_copied said.entry) w) }
    ensures refusal { IfErr result (λ f. OfRefusal f (λ r.
        IsNoFlowRefusal (option_copied wanted.entry.a) r
        ⊎ IsNoFlowRefusal (option_copied wanted.entry.b) r)) }
    // No memory is asked for.
    ensures unwanted { IfErr result (λ f. f ≢ Fault.Memory) }
    ensures failures { Accounts result [] }
{
    if wanted.a.is_some() || wanted.b.is_some() {
        return Ok(Ok(flows_of(wanted, &[])?));
    }
    let Some(said) = said else {
        return Ok(Err(Refusal::ReceiveNoSdp));
    };
    match flows_of(wanted, said) {
        Ok(flows) => Ok(Ok(flows)),
        Err(Fault::Refused(refusal)) => Ok(Err(refusal)),
        Err(fault) => Err(fault),
    }
}
