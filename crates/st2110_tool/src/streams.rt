//! The engines of whole streams, each with its status.
ghost use Rattle.std.specs.Prelude.{◌≡◌, ◌≢◌, ◌≤◌, ◌⊎◌, ◌∷◌, ◌++◌, [], length};
ghost use Rattle.std.specs.Prelude.{IfErr, IsSome, IsTrue, OnErr, OnOk};
ghost use Rattle.std.specs.Io.KnownBytes.{IsAtEnd};
ghost use Rattle.std.specs.List.{zip};
ghost use Rattle.std.specs.Option.{option_copied};
ghost use Rattle.follow_engine.specs.Followed.{FollowsPart, FollowsWhole, StopsShort};
ghost use Rattle.follow_engine.specs.Opened.{AllClosedSides};
ghost use Rattle.follow_engine.specs.Refused.{IsFollowRefusal};
ghost use Rattle.follow_engine.specs.Sides.{SideRead};
ghost use Rattle.follow_engine.specs.declared.telling.FollowTotals.{FollowTotals as Totals};
ghost use Rattle.run_outcome.specs.AtFault.{PrintedAtFault};
ghost use Rattle.run_outcome.specs.Fault.{Accounts, IfRefused, StatusBlames, counts, failures_in};
ghost use Rattle.run_outcome.specs.Moments.{WasRead};
ghost use Rattle.run_outcome.specs.Refusing.{OfRefusal, TellsRefusal};
ghost use Rattle.run_outcome.specs.Telling.{device_line, memory_line};
ghost use Rattle.side_by_side.specs.Sides.{failures_each};
ghost use Rattle.st_format.specs.Device.{Failed};
ghost use Rattle.st_format.specs.History.{IsRead};
ghost use Rattle.stream_sending.specs.Sent.{IsSentStreamRefusal, SendsStream};
ghost use Rattle.stream_sending.specs.SentPart.{SendsSomeFrames};

use capture_engines::{Seen, Sending};
use flow::Flows;
use follow_engine::{FollowAsked, PictureSink, follow_files};
use run_outcome::{Fault, Refusal, end};
use side_by_side::Side;
use st_format::{ByteSink, ByteSource};
use std::alloc::Allocator;
use stream_sending::send_stream;

/// What a stream is followed by, beside its files.
#[derive(Clone, Copy)]
pub struct FollowWanted<'a> {
    /// How many frames are in, of which source, and when they leave.
    pub asked: FollowAsked<'a>,
    /// The SDP text of the stream; where there is none, it is that of the first file.
    pub sdp: Option<&'a [u8]>,
    /// By which flows the file of each place is taken if it is a recording, or how it is refused
    /// then. A file of a place that isn't there is a capture.
    pub ways: &'a [Result<Flows, Refusal>],
}

/// Follows the stream that files have, as `follow_files` of `follow_engine`, whose words tell what
/// is shown to `pictures` and printed to `output`.
///
/// The status is 0; or 1 where, in this order, a word, the SDP text that is given, a file before
/// its records, the first file's text or the records of the file whose turn it is are refused,
/// behind what was printed and shown of those before the fault; 3 where a device failed, and 4
/// where the allocator refused memory. `faults` is told of it by one line.
pub fn run_follow<A, S, P, O, F>(
    alloc: A,
    wanted: FollowWanted<'_>,
    sides: &mut Vec<Side<A, S>, A>,
    seen: &mut [Seen],
    pictures: &mut P,
    output: &mut O,
    faults: &mut F,
) -> u8
where
    A: Allocator + Copy,
    S: ByteSource + Drop,
    P: PictureSink,
    O: ByteSink,
    F: ByteSink,
    requires { AllClosedSides sides.old.items }
    ensures range { (result ≡ 0) ⊎ (result ≡ 1) ⊎ (result ≡ 3) ⊎ (result ≡ 4) }
    ensures failures { StatusBlames result (counts (failures_each S.failures sides.old.items)
        (failures_each S.failures sides.new.items)
        ∷ counts (P.failures pictures.old) (P.failures pictures.new)
        ∷ counts (O.failures output.old) (O.failures output.new)
        ∷ counts (F.failures faults.old) (F.failures faults.new) ∷ []) }
    ensures len { length sides.new.items ≡ length sides.old.items }
    // What was read of the files is all of them, up to their ends; what is shown are the frames of
    // their stream, and what is printed tells of those.
    ensures followed { result ≡ 0 → (totals : Totals) × FollowsWhole wanted.entry.asked
        (option_copied wanted.entry.sdp) wanted.entry.ways.now
        (SideRead S.gave S.ended) (zip sides.old.items sides.new.items) P.takes
        pictures.old pictures.new (O.took output.old) (O.took output.new) totals }
    // What is told is the first refusal that speaks against the words and the files.
    ensures told { result ≡ 1 → TellsRefusal (IsFollowRefusal wanted.entry.asked.frames
        wanted.entry.asked.ssrc.now (option_copied wanted.entry.sdp) wanted.entry.ways.now
        (SideRead S.gave S.ended) (zip sides.old.items sides.new.items))
        (F.took faults.old) (F.took faults.new) }
    // Then nothing was printed or shown, or all of what came before it.
    ensures before { result ≡ 1 → StopsShort wanted.entry.asked
        (option_copied wanted.entry.sdp) wanted.entry.ways.now (SideRead S.gave S.ended)
        (zip sides.old.items sides.new.items) P.takes
        pictures.old pictures.new (O.took output.old) (O.took output.new) }
    // Unless the status is 0, it is a first part of what is printed and shown.
    ensures part { result ≢ 0 → FollowsPart wanted.entry.asked
        (option_copied wanted.entry.sdp) wanted.entry.ways.now (SideRead S.gave S.ended)
        (zip sides.old.items sides.new.items) P.takes P.fails
        pictures.old pictures.new (O.took output.old) (O.took output.new) }
    ensures silent { result ≡ 0 → faults.new ≡ faults.old }
    ensures blamed { result ≡ 3 → Failed (F.failures faults.old) (F.failures faults.new)
        ⊎ (F.took faults.new ≡ F.took faults.old ++ device_line) }
    ensures memory { result ≡ 4 → F.took faults.new ≡ F.took faults.old ++ memory_line }
{
    let outcome = follow_all(alloc, wanted, sides, seen, pictures, output);
    end(outcome, faults)
}

/// Follows, and leaves the totals to what is printed.
fn follow_all<A, S, P, O>(
    alloc: A,
    wanted: FollowWanted<'_>,
    sides: &mut Vec<Side<A, S>, A>,
    seen: &mut [Seen],
    pictures: &mut P,
    output: &mut O,
) -> Result<(), Fault>
where
    A: Allocator + Copy,
    S: ByteSource + Drop,
    P: PictureSink,
    O: ByteSink,
    requires { AllClosedSides sides.old.items }
    ensures len { length sides.new.items ≡ length sides.old.items }
    ensures followed { OnOk result ((totals : Totals) × FollowsWhole wanted.entry.asked
        (option_copied wanted.entry.sdp) wanted.entry.ways.now
        (SideRead S.gave S.ended) (zip sides.old.items sides.new.items) P.takes
        pictures.old pictures.new (O.took output.old) (O.took output.new) totals) }
    ensures refusal { IfErr result (λ f. OfRefusal f (IsFollowRefusal wanted.entry.asked.frames
        wanted.entry.asked.ssrc.now (option_copied wanted.entry.sdp) wanted.entry.ways.now
        (SideRead S.gave S.ended) (zip sides.old.items sides.new.items))) }
    ensures before { IfErr result (λ f. IfRefused f (StopsShort wanted.entry.asked
        (option_copied wanted.entry.sdp) wanted.entry.ways.now (SideRead S.gave S.ended)
        (zip sides.old.items sides.new.items) P.takes
        pictures.old pictures.new (O.took output.old) (O.took output.new))) }
    ensures part { OnErr result (FollowsPart wanted.entry.asked
        (option_copied wanted.entry.sdp) wanted.entry.ways.now (SideRead S.gave S.ended)
        (zip sides.old.items sides.new.items) P.takes P.fails
        pictures.old pictures.new (O.took output.old) (O.took output.new)) }
    ensures failures { Accounts result (counts (failures_each S.failures sides.old.items)
        (failures_each S.failures sides.new.items)
        ∷ counts (P.failures pictures.old) (P.failures pictures.new)
        ∷ counts (O.failures output.old) (O.failures output.new) ∷ []) }
{
    follow_files(
        alloc,
        wanted.asked,
        wanted.sdp,
        sides,
        wanted.ways,
        seen,
        pictures,
        output,
    )?;
    Ok(())
}

/// Sends the pictures of a YUV4MPEG2 stream into a capture, and prints `sent N` to `output`, how
/// many datagrams that are; as `send_stream` of `stream_sending`, whose words tell what is written.
///
/// The status is 0; or 1 where the SDP is longer than 65,535 octets (`send 3`) or refused, the
/// stream's head is at fault, there is no such plan, a frame is at fault or there are more than
/// 4,294,967,295 (`send 2`), and then nothing is printed; 3 where a device failed, and 4 where the
/// allocator refused memory. `faults` is told of it by one line. What was sent before a fault
/// stands in the capture. A `sink` that tells its octets holds none before.
pub fn run_send_stream<A, S, K, O, F>(
    alloc: A,
    wanted: Sending,
    by_sdp: bool,
    sdp: &mut Option<S>,
    stream: &mut S,
    sink: &mut K,
    output: &mut O,
    faults: &mut F,
) -> u8
where
    A: Allocator + Copy,
    S: ByteSource,
    K: ByteSink,
    O: ByteSink,
    F: ByteSink,
    requires payload_type { wanted.payload_type ≤ 127 }
    requires given { IsTrue by_sdp → IsSome sdp.old }
    requires empty { IsAtEnd (K.held sink.old) }
    ensures range { (result ≡ 0) ⊎ (result ≡ 1) ⊎ (result ≡ 3) ⊎ (result ≡ 4) }
    ensures failures { StatusBlames result (counts (failures_in S.failures sdp.old)
        (failures_in S.failures sdp.new) ∷ counts (S.failures stream.old)
        (S.failures stream.new) ∷ counts (K.failures sink.old) (K.failures sink.new)
        ∷ counts (O.failures output.old) (O.failures output.new)
        ∷ counts (F.failures faults.old) (F.failures faults.new) ∷ []) }
    // What is written is the capture of the SDP text that was read, and of the datagrams of all
    // pictures of the stream, which was read to its end; and it is printed how many those are.
    ensures sent { result ≡ 0 → SendsStream S.gave S.ended by_sdp wanted sdp.old sdp.new
        (IsRead (S.gave stream.old) (S.gave stream.new) (S.ended stream.new))
        (K.took sink.old) (K.took sink.new) (O.took output.old) (O.took output.new) }
    ensures ended { result ≡ 0 → S.ended stream.new }
    // Unless the status is 0, what was written is all or a first part of such a capture, of the
    // pictures of all frames that were read before the fault, at most 4,294,967,295; of none,
    // nothing.
    ensures part { result ≢ 0 → SendsSomeFrames S.gave S.ended
        (Failed (K.failures sink.old) (K.failures sink.new)) by_sdp wanted sdp.old sdp.new
        (S.gave stream.old) (S.gave stream.new) (K.took sink.old) (K.took sink.new) }
    // And nothing was printed, or a first part of the line, since the output failed.
    ensures printed { result ≢ 0 → PrintedAtFault O.took O.failures (SendsStream S.gave S.ended
        by_sdp wanted sdp.old sdp.new
        (IsRead (S.gave stream.old) (S.gave stream.new) (S.ended stream.new))
        (K.took sink.old) (K.took sink.new) []) output.old output.new }
    ensures quiet { result ≡ 1 → output.new ≡ output.old }
    // What is told is the first refusal that speaks against the text and the stream.
    ensures told { result ≡ 1 → TellsRefusal (IsSentStreamRefusal wanted.max_octets
        sdp.old sdp.new (WasRead S.gave S.ended)
        (IsRead (S.gave stream.old) (S.gave stream.new) (S.ended stream.new)))
        (F.took faults.old) (F.took faults.new) }
    ensures silent { result ≡ 0 → faults.new ≡ faults.old }
    ensures blamed { result ≡ 3 → Failed (F.failures faults.old) (F.failures faults.new)
        ⊎ (F.took faults.new ≡ F.took faults.old ++ device_line) }
    ensures wanted { result ≡ 4 → output.new ≡ output.old }
    ensures memory { result ≡ 4 → F.took faults.new ≡ F.took faults.old ++ memory_line }
{
    let outcome = send_stream(alloc, wanted, by_sdp, sdp, stream, sink, output);
    end(outcome, faults)
}
