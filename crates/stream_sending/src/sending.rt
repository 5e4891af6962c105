//! Sending a stream.
ghost use Rattle.std.specs.Prelude.{◌≡◌, ◌≤◌, ◌∷◌, [], length, IfErr, IfOk, IsSome, IsTrue};
ghost use Rattle.std.specs.Prelude.{OnErr, OnOk};
ghost use Rattle.std.specs.Io.KnownBytes.{IsAtEnd};
ghost use Rattle.st_format.specs.Device.{Failed};
ghost use Rattle.st_format.specs.History.{IsRead};
ghost use Rattle.run_outcome.specs.AtFault.{PrintedAtFault};
ghost use Rattle.run_outcome.specs.Fault.{Accounts, IfRefused, counts, failures_in};
ghost use Rattle.run_outcome.specs.Moments.{WasRead};
ghost use Rattle.run_outcome.specs.Refusing.{OfRefusal};
ghost use Rattle.run_outcome.specs.TextRefusals.{IsCaptureText};
ghost use Rattle.capture_engines.specs.Typed.{IsSentBy};
ghost use Rattle.stream_sending.specs.Sent.{IsFramesRefusal, IsSentStreamRefusal};
ghost use Rattle.stream_sending.specs.Sent.{SendsFrames, SendsStream};
ghost use Rattle.stream_sending.specs.SentPart.{SendsSomeFrames, SendsStreamUpTo};

use crate::frames::send_opened;
use capture_engines::{Sending, typed_by};
use convert_engine::of_form;
use picture_forms::StreamReader;
use run_outcome::{Fault, Line, print, read_if_given};
use st_format::{ByteSink, ByteSource};
use std::alloc::Allocator;

/// Sends the pictures of a YUV4MPEG2 stream into a capture, and prints `sent N` to `output`, how
/// many datagrams that are.
///
/// The SDP text of `sdp`, where there is one, is read first, and is the capture's text, which else
/// is empty. With `by_sdp` the payload type is that which it says, and that of `wanted` has no
/// meaning. The plan is made once the stream's head is read, and the capture begun once its first
/// frame is: of a stream without frames nothing is written. Each frame is read, in the memory of
/// the one before, and sent before the next. The k-th is the k-th frame, and the packets' numbers
/// run on. A `sink` that tells its octets holds none before.
///
/// # Errors
///
/// A refusal where the SDP is longer than 65,535 octets or refused, there is no such plan, the
/// stream's head or a frame is at fault, or there are more than 4,294,967,295 frames; and else that
/// a device failed or memory was wanted. What was sent before stands in the capture. Where it is
/// refused nothing is printed.
pub fn send_stream<A, S, K, O>(
    alloc: A,
    wanted: Sending,
    by_sdp: bool,
    sdp: &mut Option<S>,
    stream: &mut S,
    sink: &mut K,
    output: &mut O,
) -> Result<(), Fault>
where
    A: Allocator + Copy,
    S: ByteSource,
    K: ByteSink,
    O: ByteSink,
    requires payload_type { wanted.payload_type ≤ 127 }
    requires given { IsTrue by_sdp → IsSome sdp.old }
    requires empty { IsAtEnd (K.held sink.old) }
    // What is written is the capture of the SDP text that was read, and of the datagrams of all
    // pictures of the stream, which was read to its end; and it is printed how many those are.
    ensures sent { OnOk result (SendsStream S.gave S.ended by_sdp wanted sdp.old sdp.new
        (IsRead (S.gave stream.old) (S.gave stream.new) (S.ended stream.new))
        (K.took sink.old) (K.took sink.new) (O.took output.old) (O.took output.new)) }
    ensures ended { OnOk result (S.ended stream.new) }
    // Where it fails, what was written is all or a first part of such a capture, of the pictures of
    // all frames that were read before the fault, at most 4,294,967,295; of none, nothing.
    ensures part { OnErr result (SendsSomeFrames S.gave S.ended
        (Failed (K.failures sink.old) (K.failures sink.new)) by_sdp wanted sdp.old sdp.new
        (S.gave stream.old) (S.gave stream.new) (K.took sink.old) (K.took sink.new)) }
    // Where it fails nothing was printed; or a first part of the line, since the output failed.
    ensures printed { OnErr result (PrintedAtFault O.took O.failures (SendsStream S.gave S.ended
        by_sdp wanted sdp.old sdp.new
        (IsRead (S.gave stream.old) (S.gave stream.new) (S.ended stream.new))
        (K.took sink.old) (K.took sink.new) []) output.old output.new) }
    // A refusal comes before anything is printed.
    ensures quiet { IfErr result (λ f. IfRefused f (output.new ≡ output.old)) }
    // So memory is wanted.
    ensures memory { IfErr result (λ f. f ≡ Fault.Memory → output.new ≡ output.old) }
    ensures failures { Accounts result (counts (failures_in S.failures sdp.old)
        (failures_in S.failures sdp.new) ∷ counts (S.failures stream.old)
        (S.failures stream.new) ∷ counts (K.failures sink.old) (K.failures sink.new)
        ∷ counts (O.failures output.old) (O.failures output.new) ∷ []) }
    // Of what was read the refusal is the first: of the text; of the head; that there is no plan;
    // of the frames in their order, or that there are too many.
    ensures refusal { IfErr result (λ f. OfRefusal f (IsSentStreamRefusal wanted.max_octets
        sdp.old sdp.new (WasRead S.gave S.ended)
        (IsRead (S.gave stream.old) (S.gave stream.new) (S.ended stream.new)))) }
{
    let said = read_if_given(alloc, sdp)?;
    let sending = sending_by(alloc, wanted, by_sdp, &said)?;
    let sent = send_frames(alloc, sending, &said, stream, sink)?;
    print(Line::Sent(sent), output)
}

/// What is asked for, or the same with the payload type that a text says.
fn sending_by<A: Allocator + Copy>(
    alloc: A,
    wanted: Sending,
    by_sdp: bool,
    said: &[u8],
) -> Result<Sending, Fault>
    requires payload_type { wanted.payload_type ≤ 127 }
    requires text { IsTrue by_sdp → IsCaptureText said.now }
    ensures sent { IfOk result (IsSentBy by_sdp wanted said.now) }
    ensures small { IfOk result (λ sending. sending.payload_type ≤ 127) }
    ensures size { IfOk result (λ sending. sending.max_octets ≡ wanted.max_octets) }
    ensures unrefused { IfErr result (λ f. IfRefused f ⊥) }
    ensures failures { Accounts result [] }
{
    if by_sdp {
        return typed_by(alloc, wanted, said);
    }
    Ok(wanted)
}

/// Reads a stream and sends its pictures, and answers how many datagrams that are.
fn send_frames<A: Allocator + Copy, S: ByteSource, K: ByteSink>(
    alloc: A,
    wanted: Sending,
    said: &[u8],
    stream: &mut S,
    sink: &mut K,
) -> Result<u64, Fault>
    requires text { length said.now ≤ 65535 }
    requires payload_type { wanted.payload_type ≤ 127 }
    requires empty { IsAtEnd (K.held sink.old) }
    ensures sent { IfOk result (λ n. SendsFrames
        (IsRead (S.gave stream.old) (S.gave stream.new) (S.ended stream.new)) wanted said.now
        (K.took sink.old) (K.took sink.new) n) }
    ensures ended { OnOk result (S.ended stream.new) }
    ensures part { SendsStreamUpTo (Failed (K.failures sink.old) (K.failures sink.new)) wanted
        said.now (S.gave stream.old) (S.gave stream.new) (K.took sink.old) (K.took sink.new) }
    ensures refusal { IfErr result (λ f. OfRefusal f (IsFramesRefusal wanted.max_octets
        (IsRead (S.gave stream.old) (S.gave stream.new) (S.ended stream.new)))) }
    ensures failures { Accounts result (counts (S.failures stream.old) (S.failures stream.new)
        ∷ counts (K.failures sink.old) (K.failures sink.new) ∷ []) }
{
    let mut reader = match StreamReader::open(&mut *stream) {
        Ok(reader) => reader,
        Err(failed) => return Err(of_form(failed.0)),
    };
    let sent = send_opened(alloc, wanted, said, &mut reader, sink);
    let _ = reader.into_inner();
    sent
}
