//! What the datagrams of a stream are to be.
ghost use Rattle.std.specs.Prelude.{◌≡◌, ◌∷◌, [], IfErr, IfOk, MatchOption, None, Some};
ghost use Rattle.std.specs.Option.{option_copied};
ghost use Rattle.capture_engines.specs.Received.{IsFrontRefusal, IsOpeningRefusal};
ghost use Rattle.run_outcome.specs.Fault.{Accounts};
ghost use Rattle.run_outcome.specs.Refusing.{OfRefusal};
ghost use Rattle.stream_inspection.specs.Aim.{AnnouncesTarget, IsBegunTarget, IsBeginRefusal};
ghost use Rattle.stream_inspection.specs.declared.target.Target.{Target as TargetValue};

use run_outcome::{Fault, Refusal};
use sdp_format::read_located;
use st_format::Format;
use std::alloc::Allocator;

/// What the datagrams of a stream are to be: of a format, and of a payload type (RFC 3550, 5.1).
#[derive(Clone, Copy)]
pub struct Target {
    pub format: Format,
    /// The payload type, at most 127.
    pub payload_type: u8,
}

/// By what a stream is looked for.
#[derive(Clone, Copy)]
pub enum Wanted {
    /// By what an SDP text says: that which is given, or, where none is, that of the first file.
    Said,
    /// By this format and payload type.
    Given(Target),
}

/// The format and the payload type that are wanted, where the files aren't to say them.
pub(crate) fn begin<A: Allocator + Copy>(
    alloc: A,
    wanted: Wanted,
    sdp: Option<&[u8]>,
) -> Result<Option<Target>, Fault>
    ensures begun { IfOk result (IsBegunTarget wanted (option_copied sdp.entry)) }
    ensures refusal { IfErr result (λ f. OfRefusal f
        (IsBeginRefusal wanted (option_copied sdp.entry))) }
    ensures failures { Accounts result [] }
{
    match wanted {
        Wanted::Given(target) => Ok(Some(target)),
        Wanted::Said => begin_by(alloc, sdp),
    }
}

/// Those that an SDP text says, where one is given.
fn begin_by<A: Allocator + Copy>(alloc: A, sdp: Option<&[u8]>) -> Result<Option<Target>, Fault>
    ensures begun { IfOk result (IsBegunTarget Wanted.Said (option_copied sdp.entry)) }
    ensures refusal { IfErr result (λ f. OfRefusal f
        (IsBeginRefusal Wanted.Said (option_copied sdp.entry))) }
    ensures failures { Accounts result [] }
{
    match sdp {
        None => Ok(None),
        Some(text) => match target_in(alloc, text) {
            Ok(target) => Ok(Some(target)),
            Err(fault) => Err(fault),
        },
    }
}

/// Those that an SDP text says.
fn target_in<A: Allocator + Copy>(alloc: A, text: &[u8]) -> Result<Target, Fault>
    ensures announced { IfOk result (λ t. AnnouncesTarget text.now t) }
    ensures refusal { IfErr result (λ f. OfRefusal f (IsOpeningRefusal (0 ∷ []) text.now)) }
    ensures failures { Accounts result [] }
{
    let said = read_located(alloc, text)?;
    Ok(Target {
        format: said.format,
        payload_type: said.payload_type,
    })
}

/// Those that were begun with, or else those that a file's text says, which are begun with then.
pub(crate) fn settle<A: Allocator + Copy>(
    alloc: A,
    begun: &mut Option<Target>,
    text: &[u8],
) -> Result<Target, Fault>
    ensures settled { IfOk result (λ t. begun.new ≡ Some t) }
    ensures kept { IfOk result (λ t. (s : TargetValue) → begun.old ≡ Some s → t ≡ s) }
    ensures announced { IfOk result (λ t. begun.old ≡ None → AnnouncesTarget text.now t) }
    ensures refusal { IfErr result (λ f. OfRefusal f (λ r. MatchOption begun.old
        (IsFrontRefusal (0 ∷ []) text.now r) (λ _. ⊥))) }
    ensures failures { Accounts result [] }
{
    if let Some(target) = begun {
        return Ok(*target);
    }
    if text.is_empty() {
        return Err(Fault::Refused(Refusal::ReceiveNoSdp));
    }
    let target = target_in(alloc, text)?;
    *begun = Some(target);
    Ok(target)
}
