//! The engine of `send --pt sdp`.
ghost use Rattle.std.specs.Prelude.{◌≡◌, ◌≤◌, ◌∷◌, [], true, IfErr, IfOk, IsSome, OnErr};
ghost use Rattle.std.specs.Prelude.{OnOk, length, sum_by};
ghost use Rattle.std.specs.Io.KnownBytes.{IsAtEnd};
ghost use Rattle.std.specs.List.{zip};
ghost use Rattle.run_outcome.specs.Moments.{WasRead};
ghost use Rattle.run_outcome.specs.Fault.{Accounts, IfRefused, counts, failures_in};
ghost use Rattle.run_outcome.specs.Refusing.{OfRefusal};
ghost use Rattle.run_outcome.specs.TextRefusals.{IsCaptureText};
ghost use Rattle.capture_engines.specs.Sent.{IsSendRefusal};
ghost use Rattle.capture_engines.specs.SentPart.{SendsSome};
ghost use Rattle.capture_engines.specs.Typed.{IsTypedBy, SendsTyped};
ghost use Rattle.run_outcome.specs.AtFault.{PrintedAtFault};
ghost use Rattle.st_format.specs.Device.{Failed};

use crate::sender::Sending;
use crate::sending::{read_said, send_pictures};
use run_outcome::{Fault, Line, print};
use sdp_format::read_located;
use st_format::{ByteSink, ByteSource};
use std::alloc::Allocator;

/// Sends pictures into a capture, as [`crate::send`] does, with the payload type that the SDP text
/// of `sdp` says: that of `wanted` has no meaning.
///
/// # Errors
///
/// As [`crate::send`].
pub fn send_typed<A, S, K, O>(
    alloc: A,
    wanted: Sending,
    sdp: &mut Option<S>,
    pictures: &mut [S],
    sink: &mut K,
    output: &mut O,
) -> Result<(), Fault>
where
    A: Allocator + Copy,
    S: ByteSource,
    K: ByteSink,
    O: ByteSink,
    requires given { IsSome sdp.old }
    requires empty { IsAtEnd (K.held sink.old) }
    // What is written is the capture of the SDP text that was read, and of the datagrams of all
    // pictures that were read, with the payload type that the text says.
    ensures sent { OnOk result (SendsTyped S.gave S.ended wanted sdp.old sdp.new
        pictures.old pictures.new (K.took sink.old) (K.took sink.new)
        (O.took output.old) (O.took output.new)) }
    // Where it fails, what was written is nothing; or all or a first part of such a capture, of the
    // pictures that were read before the fault.
    ensures part { OnErr result (SendsSome S.gave S.ended
        (Failed (K.failures sink.old) (K.failures sink.new)) true wanted sdp.old sdp.new
        pictures.old pictures.new (K.took sink.old) (K.took sink.new)) }
    // And nothing was printed; or a first part of the line, since the output failed.
    ensures printed { OnErr result (PrintedAtFault O.took O.failures (SendsTyped S.gave S.ended
        wanted sdp.old sdp.new pictures.old pictures.new (K.took sink.old) (K.took sink.new) [])
        output.old output.new) }
    // A refusal comes before anything is printed.
    ensures quiet { IfErr result (λ f. IfRefused f (output.new ≡ output.old)) }
    // So memory is wanted.
    ensures memory { IfErr result (λ f. f ≡ Fault.Memory → output.new ≡ output.old) }
    ensures failures { Accounts result (counts (failures_in S.failures sdp.old)
        (failures_in S.failures sdp.new) ∷ counts (sum_by S.failures pictures.old)
        (sum_by S.failures pictures.new) ∷ counts (K.failures sink.old) (K.failures sink.new)
        ∷ counts (O.failures output.old) (O.failures output.new) ∷ []) }
    // Of what was read the refusal is the first, as there.
    ensures refusal { IfErr result (λ f. OfRefusal f
        (IsSendRefusal wanted.max_octets (length pictures.old) sdp.old sdp.new
        (WasRead S.gave S.ended) (zip pictures.old pictures.new))) }
{
    let said = read_said(alloc, sdp, pictures.len())?;
    let typed = typed_by(alloc, wanted, &said)?;
    let sent = send_pictures(alloc, typed, &said, pictures, sink)?;
    print(Line::Sent(sent), output)
}

/// What is asked for, with the payload type that an SDP text says, which was read well before: so
/// it fails for want of memory alone.
pub fn typed_by<A: Allocator + Copy>(
    alloc: A,
    wanted: Sending,
    said: &[u8],
) -> Result<Sending, Fault>
    requires { IsCaptureText said.now }
    ensures typed { IfOk result (IsTypedBy wanted said.now) }
    ensures small { IfOk result (λ typed. typed.payload_type ≤ 127) }
    ensures size { IfOk result (λ typed. typed.max_octets ≡ wanted.max_octets) }
    ensures unrefused { IfErr result (λ f. IfRefused f ⊥) }
    ensures failures { Accounts result [] }
{
    let sdp = read_located(alloc, said)?;
    Ok(Sending {
        payload_type: sdp.payload_type,
        first: wanted.first,
        base: wanted.base,
        ssrc: wanted.ssrc,
        max_octets: wanted.max_octets,
        paths: wanted.paths,
    })
}
