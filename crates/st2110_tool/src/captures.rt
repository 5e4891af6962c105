//! The engines of captures, each with its status.
ghost use Rattle.std.specs.Prelude.{◌≡◌, ◌≢◌, ◌+◌, ◌++◌, ◌≤◌, ◌<◌, ◌⊎◌, ◌∷◌, [], length, sum_by};
ghost use Rattle.std.specs.Prelude.{Option, false};
ghost use Rattle.std.specs.Io.KnownBytes.{IsAtEnd};
ghost use Rattle.std.specs.List.{zip};
ghost use Rattle.run_outcome.specs.Moments.{WasRead, pair};
ghost use Rattle.st_format.specs.Device.{Failed};
ghost use Rattle.st_format.specs.History.{IsRead};
ghost use Rattle.run_outcome.specs.Fault.{StatusBlames, counts, failures_in};
ghost use Rattle.run_outcome.specs.Refusing.{TellsRefusal};
ghost use Rattle.run_outcome.specs.States.{SavesPart};
ghost use Rattle.capture_engines.specs.Sent.{IsSendRefusal};
ghost use Rattle.capture_engines.specs.Sending.{SendsAll};
ghost use Rattle.capture_engines.specs.SentPart.{SendsSome};
ghost use Rattle.run_outcome.specs.AtFault.{PrintedAtFault};
ghost use Rattle.run_outcome.specs.Telling.{device_line, memory_line};
ghost use Rattle.capture_engines.specs.Received.{IsReceiveRefusal, SayOpening};
ghost use Rattle.capture_engines.specs.Receiving.{SavesShown, ShowsPart};
ghost use Rattle.capture_engines.specs.Taking.{IsReceiverOfRun, Receives};
ghost use Rattle.capture_engines.specs.Migrating.{LeavesAt, LeavesOff, PrintsMigrated, passed};
ghost use Rattle.capture_engines.specs.MigrateRefused.{IsMigrateRefusal};
ghost use Rattle.run_outcome.specs.Text.{GivesText};
ghost use Rattle.run_outcome.specs.TextRefusals.{SaysCaptureText};
ghost use Rattle.capture_engines.specs.Looped.{IsLoopRefusal};
ghost use Rattle.capture_engines.specs.Looping.{Loops};

use capture_engines::{Looping, Sending, Wanted, loop_back, migrate, receive, send};
use run_outcome::end;
use st_format::{ByteSink, ByteSource, DatagramLink};
use std::alloc::Allocator;

/// Sends pictures, one after the other, into a capture, and prints `sent N` to `output`, how many
/// datagrams that are.
///
/// The SDP text of `sdp`, where there is one, is read first, and is the capture's text, which else
/// is empty. Each picture is read and sent before the next. The plan is made, and then the capture
/// begun, once the first is read. The k-th picture is the k-th frame, and the packets' numbers run
/// on. Without pictures nothing is written.
///
/// The status is 0; or 1 where there are more than 10,000 pictures (`send 2`, before anything is
/// read), the SDP is longer than 65,535 octets (`send 3`) or refused, there is no such plan, or a
/// picture is refused or is of another format than the first (`send 1`); 3 where a device failed,
/// and 4 where the allocator refused memory. `faults` is told of it by one line. What was sent
/// before a fault stands in the capture. A `sink` that tells its octets holds none before.
pub fn run_send<A, S, K, O, F>(
    alloc: A,
    wanted: Sending,
    sdp: &mut Option<S>,
    pictures: &mut [S],
    sink: &mut K,
    output: &mut O,
    faults: &mut F,
) -> u8
where
    A: Allocator + Copy,
    S: ByteSource,
    K: ByteSink,
    O: ByteSink,
    F: ByteSink,
    requires payload_type { wanted.payload_type ≤ 127 }
    requires empty { IsAtEnd (K.held sink.old) }
    ensures range { (result ≡ 0) ⊎ (result ≡ 1) ⊎ (result ≡ 3) ⊎ (result ≡ 4) }
    ensures failures { StatusBlames result (counts (failures_in S.failures sdp.old)
        (failures_in S.failures sdp.new)
        ∷ counts (sum_by S.failures pictures.old) (sum_by S.failures pictures.new)
        ∷ counts (K.failures sink.old) (K.failures sink.new)
        ∷ counts (O.failures output.old) (O.failures output.new)
        ∷ counts (F.failures faults.old) (F.failures faults.new) ∷ []) }
    // What is written is the capture of the SDP text that was read and of the datagrams of all
    // pictures that were read, each source to its end, in their order: of the k-th as frame k, the
    // packets' numbers running on. It is printed how many those are.
    ensures sent { result ≡ 0 → SendsAll S.gave S.ended wanted sdp.old sdp.new
        pictures.old pictures.new (K.took sink.old) (K.took sink.new)
        (O.took output.old) (O.took output.new) }
    // At status 1 a refusal of the words or the files was told by its line.
    ensures told { result ≡ 1
        → TellsRefusal (IsSendRefusal wanted.max_octets (length pictures.old) sdp.old sdp.new
        (WasRead S.gave S.ended) (zip pictures.old pictures.new))
        (F.took faults.old) (F.took faults.new) }
    // Unless the status is 0, what was written is nothing; or all or a first part of such a
    // capture, of the pictures that were read before the fault.
    ensures part { result ≢ 0 → SendsSome S.gave S.ended
        (Failed (K.failures sink.old) (K.failures sink.new)) false wanted sdp.old sdp.new
        pictures.old pictures.new (K.took sink.old) (K.took sink.new) }
    // And nothing was printed, or a first part of the line, since the output failed.
    ensures printed { result ≢ 0 → PrintedAtFault O.took O.failures (SendsAll S.gave S.ended wanted
        sdp.old sdp.new pictures.old pictures.new (K.took sink.old) (K.took sink.new) [])
        output.old output.new }
    ensures quiet { result ≡ 1 → output.new ≡ output.old }
    ensures silent { result ≡ 0 → faults.new ≡ faults.old }
    ensures blamed { result ≡ 3 → Failed (F.failures faults.old) (F.failures faults.new)
        ⊎ (F.took faults.new ≡ F.took faults.old ++ device_line) }
    ensures wanted { result ≡ 4 → output.new ≡ output.old }
    ensures memory { result ≡ 4 → F.took faults.new ≡ F.took faults.old ++ memory_line }
{
    let outcome = send(alloc, wanted, sdp, pictures, sink, output);
    end(outcome, faults)
}

/// Takes the datagrams of captures into one receiver.
///
/// The receiver is opened by the SDP text of `sdp`, of at most 16,777,216 octets, or, where there
/// is none, by that of the first capture. Then the captures' datagrams are taken, one capture after
/// the other. `delivered N` is printed to `output`, then, where they are wanted, how many datagrams
/// were refused for which reason, and then a line for the frame of each timestamp. Last the
/// receiver is written to `state`.
///
/// The status is 0; or 1 where a word, the SDP, the opening or a capture is refused, 3 where a
/// device failed, and 4 where the allocator refused memory, which `faults` is told by one line.
/// Nothing is printed or written to `state` where the status is 1 or 4.
pub fn run_receive<A, S, K, O, F>(
    alloc: A,
    wanted: Wanted<'_>,
    sdp: &mut Option<S>,
    captures: &mut [S],
    state: &mut K,
    output: &mut O,
    faults: &mut F,
) -> u8
where
    A: Allocator + Copy,
    S: ByteSource,
    K: ByteSink,
    O: ByteSink,
    F: ByteSink,
    ensures range { (result ≡ 0) ⊎ (result ≡ 1) ⊎ (result ≡ 3) ⊎ (result ≡ 4) }
    ensures failures { StatusBlames result (counts (failures_in S.failures sdp.old)
        (failures_in S.failures sdp.new)
        ∷ counts (sum_by S.failures captures.old) (sum_by S.failures captures.new)
        ∷ counts (K.failures state.old) (K.failures state.new)
        ∷ counts (O.failures output.old) (O.failures output.new)
        ∷ counts (F.failures faults.old) (F.failures faults.new) ∷ []) }
    // What is printed is of the receiver that is written.
    ensures saved { result ≡ 0 → SavesShown wanted.entry.tells_refusals
        (O.took output.old) (O.took output.new) (K.took state.old) (K.took state.new) }
    // What is written is the file of a receiver of the window and the source that are asked for,
    // and of the format and the payload type that the SDP text says, which holds the Frames of all
    // datagrams of the captures that were read; and what is printed counts those.
    ensures taken { result ≡ 0 → Receives wanted.entry.window.now wanted.entry.ssrc.now
        (pair sdp.old sdp.new) (WasRead S.gave S.ended) (zip captures.old captures.new)
        wanted.entry.tells_refusals
        (O.took output.old) (O.took output.new) (K.took state.old) (K.took state.new) }
    // Unless the status is 0, the receiver isn't all written.
    ensures part { result ≢ 0 → SavesPart (IsReceiverOfRun wanted.entry.window.now
        wanted.entry.ssrc.now (pair sdp.old sdp.new) (WasRead S.gave S.ended)
        (zip captures.old captures.new)) (K.took state.old) (K.took state.new) }
    // Nor is anything printed then but lines of such a receiver, or a first part of them, since the
    // output failed.
    ensures printed { result ≢ 0 → ShowsPart O.took O.failures wanted.entry.tells_refusals
        (IsReceiverOfRun wanted.entry.window.now wanted.entry.ssrc.now (pair sdp.old sdp.new)
        (WasRead S.gave S.ended) (zip captures.old captures.new)) output.old output.new }
    ensures refused { result ≡ 1 → state.new ≡ state.old }
    ensures quiet { result ≡ 1 → output.new ≡ output.old }
    // At status 1 a refusal of the words or the files was told by its line.
    ensures told { result ≡ 1
        → TellsRefusal (IsReceiveRefusal wanted.entry.window.now wanted.entry.ssrc.now
        (pair sdp.old sdp.new) (WasRead S.gave S.ended) (zip captures.old captures.new))
        (F.took faults.old) (F.took faults.new) }
    ensures silent { result ≡ 0 → faults.new ≡ faults.old }
    ensures blamed { result ≡ 3 → Failed (F.failures faults.old) (F.failures faults.new)
        ⊎ (F.took faults.new ≡ F.took faults.old ++ device_line) }
    // Memory is wanted before anything is printed or written, and where the words are no refusal.
    ensures wanted { result ≡ 4 → (state.new ≡ state.old) × (output.new ≡ output.old)
        × SayOpening wanted.entry.window.now wanted.entry.ssrc.now }
    ensures memory { result ≡ 4 → F.took faults.new ≡ F.took faults.old ++ memory_line }
{
    let outcome = receive(alloc, wanted, sdp, captures, state, output);
    end(outcome, faults)
}

/// Writes a capture of version 01 as one of version 02 with an SDP text, and prints `records N` to
/// `output`.
///
/// The SDP is read first. The status is 0; or 1 where the SDP is longer than 65,535 octets
/// (`migrate 1`) or refused, or the capture is, which has at most 16,777,216 records; 3 where a
/// device failed, and 4 where the allocator refused memory. `faults` is told of it by one line.
pub fn run_migrate<A, D, S, K, O, F>(
    alloc: A,
    sdp: &mut D,
    source: &mut S,
    sink: &mut K,
    output: &mut O,
    faults: &mut F,
) -> u8
where
    A: Allocator + Copy,
    D: ByteSource,
    S: ByteSource,
    K: ByteSink,
    O: ByteSink,
    F: ByteSink,
    ensures range { (result ≡ 0) ⊎ (result ≡ 1) ⊎ (result ≡ 3) ⊎ (result ≡ 4) }
    ensures failures { StatusBlames result (counts (D.failures sdp.old) (D.failures sdp.new)
        ∷ counts (S.failures source.old) (S.failures source.new)
        ∷ counts (K.failures sink.old) (K.failures sink.new)
        ∷ counts (O.failures output.old) (O.failures output.new)
        ∷ counts (F.failures faults.old) (F.failures faults.new) ∷ []) }
    ensures migrated { result ≡ 0 → PrintsMigrated
        (GivesText 65535 (D.gave sdp.old) (D.gave sdp.new) (D.ended sdp.new))
        (S.gave source.old) (S.gave source.new) (S.ended source.new)
        (K.took sink.old) (K.took sink.new) (O.took output.old) (O.took output.new) }
    // The text describes a video.
    ensures described { result ≡ 0 → SaysCaptureText
        (IsRead (D.gave sdp.old) (D.gave sdp.new) (D.ended sdp.new)) }
    // What is told is the first refusal that speaks against the text and the capture, and the
    // capture was written up to it.
    ensures told { result ≡ 1
        → TellsRefusal (λ r. IsMigrateRefusal
        (IsRead (D.gave sdp.old) (D.gave sdp.new) (D.ended sdp.new))
        (IsRead (S.gave source.old) (S.gave source.new) (S.ended source.new)) r
        × LeavesAt r (GivesText 65535 (D.gave sdp.old) (D.gave sdp.new) (D.ended sdp.new))
        (S.ended source.new)
        (passed (S.gave source.old) (S.failures source.old)
        (K.took sink.old) (K.failures sink.old))
        (passed (S.gave source.new) (S.failures source.new)
        (K.took sink.new) (K.failures sink.new)))
        (F.took faults.old) (F.took faults.new) }
    ensures left { result ≢ 0
        → LeavesOff (GivesText 65535 (D.gave sdp.old) (D.gave sdp.new) (D.ended sdp.new))
        (S.ended source.new)
        (passed (S.gave source.old) (S.failures source.old)
        (K.took sink.old) (K.failures sink.old))
        (passed (S.gave source.new) (S.failures source.new)
        (K.took sink.new) (K.failures sink.new)) }
    // Nothing was printed then, or a first part of the line, since the output failed.
    ensures printed { result ≢ 0 → PrintedAtFault O.took O.failures (PrintsMigrated
        (GivesText 65535 (D.gave sdp.old) (D.gave sdp.new) (D.ended sdp.new))
        (S.gave source.old) (S.gave source.new) (S.ended source.new)
        (K.took sink.old) (K.took sink.new) []) output.old output.new }
    ensures quiet { result ≡ 1 → output.new ≡ output.old }
    ensures silent { result ≡ 0 → faults.new ≡ faults.old }
    ensures blamed { result ≡ 3 → Failed (F.failures faults.old) (F.failures faults.new)
        ⊎ (F.took faults.new ≡ F.took faults.old ++ device_line) }
    ensures wanted { result ≡ 4 → output.new ≡ output.old }
    ensures memory { result ≡ 4 → F.took faults.new ≡ F.took faults.old ++ memory_line }
{
    let outcome = migrate(alloc, sdp, source, sink, output);
    end(outcome, faults)
}

/// Sends a picture over a link, and takes what comes out of it into a receiver.
///
/// The picture's datagrams are put into the link, one after the other, with payload type 96, number
/// 0, timestamp 0 and source 1. After each of them one turn of the link is taken; a quiet one
/// changes nothing. The run ends once all are sent and looked for, or at the limit of turns.
/// `sent N` and `delivered N` are printed to `output`, and then a line for the frame.
///
/// The status is 0; or 1 where the picture is refused or there is no such plan, 3 where a device
/// failed, and 4 where the allocator refused memory. `faults` is told of it by one line. Then
/// nothing was printed to `output`, but where `output` failed.
pub fn run_loop<A, S, L, O, F>(
    alloc: A,
    wanted: Looping,
    picture: &mut S,
    link: &mut L,
    output: &mut O,
    faults: &mut F,
) -> u8
where
    A: Allocator + Copy,
    S: ByteSource,
    L: DatagramLink,
    O: ByteSink,
    F: ByteSink,
    ensures range { (result ≡ 0) ⊎ (result ≡ 1) ⊎ (result ≡ 3) ⊎ (result ≡ 4) }
    ensures failures { StatusBlames result (counts (S.failures picture.old) (S.failures picture.new)
        ∷ counts (L.DatagramSink.failures link.old) (L.DatagramSink.failures link.new)
        ∷ counts (O.failures output.old) (O.failures output.new)
        ∷ counts (F.failures faults.old) (F.failures faults.new) ∷ []) }
    // However it ends, no more turns are taken than the limit: the link delivers no more datagrams.
    ensures turns { L.DatagramSource.delivered link.new
        ≤ L.DatagramSource.delivered link.old + wanted.limit }
    // The datagrams of the picture that was read were put into the link, up to the limit, and what
    // is printed is that of a receiver which holds the Frames of what came of it.
    ensures looped { result ≡ 0 → Loops wanted.max_octets wanted.limit
        (IsRead (S.gave picture.old) (S.gave picture.new) (S.ended picture.new))
        (record {
          took = L.DatagramSink.took link.old;
          came = L.DatagramSource.came link.old;
          delivered = L.DatagramSource.delivered link.old;
        })
        (record {
          took = L.DatagramSink.took link.new;
          came = L.DatagramSource.came link.new;
          delivered = L.DatagramSource.delivered link.new;
        })
        (O.took output.old) (O.took output.new) }
    // At status 1 the picture's refusal, or that of its plan, was told by its line.
    ensures told { result ≡ 1 → TellsRefusal (IsLoopRefusal wanted.max_octets
        (IsRead (S.gave picture.old) (S.gave picture.new) (S.ended picture.new)))
        (F.took faults.old) (F.took faults.new) }
    // Unless the status is 0, nothing was printed, or a first part of the lines, since the output
    // failed.
    ensures printed { result ≢ 0 → PrintedAtFault O.took O.failures
        (Loops wanted.max_octets wanted.limit
        (IsRead (S.gave picture.old) (S.gave picture.new) (S.ended picture.new))
        (record {
          took = L.DatagramSink.took link.old;
          came = L.DatagramSource.came link.old;
          delivered = L.DatagramSource.delivered link.old;
        })
        (record {
          took = L.DatagramSink.took link.new;
          came = L.DatagramSource.came link.new;
          delivered = L.DatagramSource.delivered link.new;
        }) []) output.old output.new }
    // At status 1 nothing was put into the link.
    ensures apart { result ≡ 1 → link.new ≡ link.old }
    ensures quiet { result ≡ 1 → output.new ≡ output.old }
    ensures silent { result ≡ 0 → faults.new ≡ faults.old }
    ensures blamed { result ≡ 3 → Failed (F.failures faults.old) (F.failures faults.new)
        ⊎ (F.took faults.new ≡ F.took faults.old ++ device_line) }
    ensures wanted { result ≡ 4 → output.new ≡ output.old }
    ensures memory { result ≡ 4 → F.took faults.new ≡ F.took faults.old ++ memory_line }
{
    let outcome = loop_back(alloc, wanted, picture, link, output);
    end(outcome, faults)
}
