//! The engine of `send`.
ghost use Rattle.std.specs.Prelude.{◌≡◌, ◌+◌, ◌≤◌, ◌<◌, ◌∷◌, [], false, IfErr, IfOk, OnErr, OnOk};
ghost use Rattle.std.specs.Prelude.{drop, length, sum_by, take, vec_len};
ghost use Rattle.std.specs.Io.KnownBytes.{IsAtEnd};
ghost use Rattle.std.specs.List.{zip};
ghost use Rattle.packet_plan.specs.Plan.{IsSize};
ghost use Rattle.run_outcome.specs.Moments.{WasRead};
ghost use Rattle.run_outcome.specs.Fault.{Accounts, IfRefused, counts, failures_in};
ghost use Rattle.run_outcome.specs.Refusing.{OfRefusal};
ghost use Rattle.run_outcome.specs.declared.fault.Fault.TheVariants.{Refused};
ghost use Rattle.run_outcome.specs.declared.refusal.Refusal.TheVariants.{SendPictures};
ghost use Rattle.capture_engines.specs.Sent.{FirstIs, FirstSays, IsSaidRefusal, IsPicturesRefusal};
ghost use Rattle.capture_engines.specs.Sent.{IsRestRefusal, IsSendRefusal};
ghost use Rattle.run_outcome.specs.Pictures.{IsPictureRefusal, SaysPicture};
ghost use Rattle.run_outcome.specs.TextRefusals.{SaysText};
ghost use Rattle.capture_engines.specs.Sending.{IsPlanOf, SendsAll, SendsEach, SendsFirstAndRest};
ghost use Rattle.capture_engines.specs.Sending.{SendsPictures, SendsRest};
ghost use Rattle.capture_engines.specs.SentPart.{SendsFirstAndPart, SendsSome, SendsUpTo};
ghost use Rattle.capture_engines.specs.SentPart.{StopsBehind};
ghost use Rattle.run_outcome.specs.AtFault.{PrintedAtFault};
ghost use Rattle.st_format.specs.Device.{Failed};
ghost use Rattle.st_format.specs.Picture.{IsPicture};

use crate::sender::{Sender, Sending};
use media_file::CaptureWriter;
use packet_plan::Plan;
use pgroup_pack::PackedPicture;
use run_outcome::{Fault, Line, Refusal, of_capture, print, read_if_given, read_packed, room};
use st_format::{ByteSink, ByteSource};
use std::alloc::Allocator;

/// The greatest number of pictures (own).
const PICTURES: usize = 10_000;

/// Sends pictures, one after the other, into a capture, and prints `sent N` to `output`, how many
/// datagrams that are.
///
/// The SDP text of `sdp`, where there is one, is read first, and is the capture's text, which else
/// is empty. Each picture is read and sent before the next. The plan is made, and then the capture
/// begun, once the first is read. The k-th picture is the k-th frame, and the packets' numbers run
/// on. Without pictures nothing is written. A `sink` that tells its octets holds none before.
///
/// # Errors
///
/// A refusal where there are more than 10,000 pictures (before anything is read), the SDP is longer
/// than 65,535 octets or refused, there is no such plan, or a picture is refused or is of another
/// format than the first; and else that a device failed or memory was wanted. What was sent before
/// stands in the capture. Where it is refused nothing is printed.
pub fn send<A, S, K, O>(
    alloc: A,
    wanted: Sending,
    sdp: &mut Option<S>,
    pictures: &mut [S],
    sink: &mut K,
    output: &mut O,
) -> Result<(), Fault>
where
    A: Allocator + Copy,
    S: ByteSource,
    K: ByteSink,
    O: ByteSink,
    requires payload_type { wanted.payload_type ≤ 127 }
    requires empty { IsAtEnd (K.held sink.old) }
    // What is written is the capture of the SDP text that was read, and of the datagrams of all
    // pictures that were read, of which each source was read to its end; and it is printed how many
    // those are.
    ensures sent { OnOk result (SendsAll S.gave S.ended wanted sdp.old sdp.new
        pictures.old pictures.new (K.took sink.old) (K.took sink.new)
        (O.took output.old) (O.took output.new)) }
    // Where it fails, what was written is nothing; or all or a first part of such a capture, of the
    // pictures that were read before the fault.
    ensures part { OnErr result (SendsSome S.gave S.ended
        (Failed (K.failures sink.old) (K.failures sink.new)) false wanted sdp.old sdp.new
        pictures.old pictures.new (K.took sink.old) (K.took sink.new)) }
    // And nothing was printed; or a first part of the line, since the output failed.
    ensures printed { OnErr result (PrintedAtFault O.took O.failures (SendsAll S.gave S.ended wanted
        sdp.old sdp.new pictures.old pictures.new (K.took sink.old) (K.took sink.new) [])
        output.old output.new) }
    // A refusal comes before anything is printed.
    ensures quiet { IfErr result (λ f. IfRefused f (output.new ≡ output.old)) }
    // So memory is wanted.
    ensures memory { IfErr result (λ f. f ≡ Fault.Memory → output.new ≡ output.old) }
    ensures failures { Accounts result (counts (failures_in S.failures sdp.old)
        (failures_in S.failures sdp.new) ∷ counts (sum_by S.failures pictures.old)
        (sum_by S.failures pictures.new) ∷ counts (K.failures sink.old) (K.failures sink.new)
        ∷ counts (O.failures output.old) (O.failures output.new) ∷ []) }
    // Of what was read the refusal is the first: that there are too many pictures; of the text; of
    // the pictures in their order, all before the refused one being of one format that has a plan.
    ensures refusal { IfErr result (λ f. OfRefusal f
        (IsSendRefusal wanted.max_octets (length pictures.old) sdp.old sdp.new
        (WasRead S.gave S.ended) (zip pictures.old pictures.new))) }
{
    let said = read_said(alloc, sdp, pictures.len())?;
    let sent = send_pictures(alloc, wanted, &said, pictures, sink)?;
    print(Line::Sent(sent), output)
}

/// Refuses more pictures than are sent. No file is looked at.
///
/// # Errors
///
/// `SendPictures` where there are more than 10,000.
pub fn check_pictures(pictures: usize) -> Result<(), Fault>
    ensures few { OnOk result (pictures ≤ 10000) }
    ensures refusal { IfErr result (λ f. OfRefusal f
        (λ r. (r ≡ SendPictures) × (10000 < pictures))) }
    // No memory is asked for.
    ensures only { IfErr result (λ f. f ≡ Refused SendPictures) }
    ensures failures { Accounts result [] }
{
    if pictures > PICTURES {
        return Err(Fault::Refused(Refusal::SendPictures));
    }
    Ok(())
}

/// Finds that there are few pictures, and reads the capture's text.
pub(crate) fn read_said<A: Allocator + Copy, S: ByteSource>(
    alloc: A,
    sdp: &mut Option<S>,
    pictures: usize,
) -> Result<Vec<u8, A>, Fault>
    ensures few { IfOk result (λ _. pictures ≤ 10000) }
    ensures text { IfOk result (λ said. vec_len said ≤ 65535) }
    ensures says { IfOk result (λ said. SaysText S.gave S.ended sdp.old sdp.new said.items) }
    ensures refusal { IfErr result (λ f. OfRefusal f
        (IsSaidRefusal pictures sdp.old sdp.new (WasRead S.gave S.ended))) }
    ensures failures { Accounts result (counts (failures_in S.failures sdp.old)
        (failures_in S.failures sdp.new) ∷ []) }
{
    check_pictures(pictures)?;
    read_if_given(alloc, sdp)
}

/// Sends all pictures, and answers how many datagrams that are.
pub(crate) fn send_pictures<A: Allocator + Copy, S: ByteSource, K: ByteSink>(
    alloc: A,
    wanted: Sending,
    said: &[u8],
    pictures: &mut [S],
    sink: &mut K,
) -> Result<u64, Fault>
    requires text { length said.now ≤ 65535 }
    requires few { length pictures.old ≤ 10000 }
    requires payload_type { wanted.payload_type ≤ 127 }
    requires empty { IsAtEnd (K.held sink.old) }
    ensures sent { IfOk result (λ n. SendsPictures (WasRead S.gave S.ended) wanted said.now
        pictures.old pictures.new (K.took sink.old) (K.took sink.new) n) }
    ensures part { OnErr result (SendsUpTo (WasRead S.gave S.ended)
        (Failed (K.failures sink.old) (K.failures sink.new)) wanted said.now
        pictures.old pictures.new (K.took sink.old) (K.took sink.new)) }
    ensures refusal { IfErr result (λ f. OfRefusal f
        (IsPicturesRefusal wanted.max_octets (WasRead S.gave S.ended)
        (zip pictures.old pictures.new))) }
    ensures failures { Accounts result (counts (sum_by S.failures pictures.old)
        (sum_by S.failures pictures.new)
        ∷ counts (K.failures sink.old) (K.failures sink.new) ∷ []) }
{
    if pictures.is_empty() {
        return Ok(0);
    }
    let mut buf = room(alloc)?;
    let (picture, plan) = read_first(alloc, wanted.max_octets, pictures)?;
    send_first_and_rest(wanted, said, plan, picture, pictures, sink, &mut buf)
}

/// Begins the capture, sends the first picture, which was read, and those behind it, and answers
/// how many datagrams were sent.
fn send_first_and_rest<A: Allocator, S: ByteSource, K: ByteSink>(
    wanted: Sending,
    said: &[u8],
    plan: Plan<A>,
    picture: PackedPicture<A>,
    pictures: &mut [S],
    sink: &mut K,
    buf: &mut [u8],
) -> Result<u64, Fault>
    requires text { length said.now ≤ 65535 }
    requires few { length pictures.old ≤ 10000 }
    requires payload_type { wanted.payload_type ≤ 127 }
    requires alike { picture.format ≡ plan.format }
    requires limits { IsSize wanted.max_octets plan.format }
    requires planned { IsPlanOf wanted.max_octets plan }
    requires whole { IsPicture picture }
    requires empty { IsAtEnd (K.held sink.old) }
    requires room { length buf.old ≡ 65535 }
    ensures front { take 1 pictures.new ≡ take 1 pictures.old }
    ensures sent { IfOk result (λ n. SendsFirstAndRest (WasRead S.gave S.ended) wanted said.now
        picture (drop 1 pictures.old) (drop 1 pictures.new) (K.took sink.old) (K.took sink.new)
        n) }
    ensures part { OnErr result (SendsFirstAndPart (WasRead S.gave S.ended)
        (Failed (K.failures sink.old) (K.failures sink.new)) wanted said.now picture
        (drop 1 pictures.old) (drop 1 pictures.new) (K.took sink.old) (K.took sink.new)) }
    ensures refusal { IfErr result (λ f. OfRefusal f
        (IsRestRefusal plan.format (WasRead S.gave S.ended)
        (zip (drop 1 pictures.old) (drop 1 pictures.new)))) }
    ensures failures { Accounts result (counts (sum_by S.failures pictures.old)
        (sum_by S.failures pictures.new)
        ∷ counts (K.failures sink.old) (K.failures sink.new) ∷ []) }
{
    let writer = match CaptureWriter::open(&mut *sink, wanted.paths, said) {
        Ok(writer) => writer,
        Err(failed) => return Err(of_capture(failed.0)),
    };
    let mut sender = Sender::new(plan, writer, wanted);
    let sent = send_each(&mut sender, picture, pictures, buf);
    let _ = sender.into_sink();
    sent
}

/// Sends the first picture, and those behind it, and answers how many datagrams were sent.
fn send_each<A: Allocator, S: ByteSource, K: ByteSink>(
    sender: &mut Sender<A, K>,
    picture: PackedPicture<A>,
    pictures: &mut [S],
    buf: &mut [u8],
) -> Result<u64, Fault>
    requires few { length pictures.old ≤ 10000 }
    requires room { length buf.old ≡ 65535 }
    requires stands { sender.old.writer.place.failed ≡ false }
    requires alike { picture.format ≡ sender.old.plan.format }
    ensures front { take 1 pictures.new ≡ take 1 pictures.old }
    ensures sent { OnOk result (SendsEach (WasRead S.gave S.ended) K.took picture
        (drop 1 pictures.old) (drop 1 pictures.new) sender.old sender.new) }
    ensures part { OnErr result (StopsBehind (WasRead S.gave S.ended) K.took
        (Failed (K.failures sender.old.writer.sink) (K.failures sender.new.writer.sink)) 0
        (picture ∷ []) (drop 1 pictures.old) (drop 1 pictures.new) sender.old sender.new) }
    ensures count { IfOk result (λ n. n ≡ sender.new.sent) }
    ensures refusal { IfErr result (λ f. OfRefusal f
        (IsRestRefusal sender.old.plan.format (WasRead S.gave S.ended)
        (zip (drop 1 pictures.old) (drop 1 pictures.new)))) }
    ensures failures { Accounts result (counts (sum_by S.failures pictures.old)
        (sum_by S.failures pictures.new) ∷ counts (K.failures sender.old.writer.sink)
        (K.failures sender.new.writer.sink) ∷ []) }
    ensures names { K.names sender.new.writer.sink ≡ K.names sender.old.writer.sink }
{
    sender.send(&picture, 0, buf)?;
    send_rest(sender, pictures, picture.into_octets(), buf)
}

/// Reads the first picture, and makes a plan for pictures of its format.
fn read_first<A: Allocator + Copy, S: ByteSource>(
    alloc: A,
    max_octets: u32,
    pictures: &mut [S],
) -> Result<(PackedPicture<A>, Plan<A>), Fault>
    requires { 0 < length pictures.old }
    ensures len { length pictures.new ≡ length pictures.old }
    ensures behind { drop 1 pictures.new ≡ drop 1 pictures.old }
    ensures alike { IfOk result (λ first. first.0.format ≡ first.1.format) }
    ensures limits { IfOk result (λ first. IsSize max_octets first.1.format) }
    ensures planned { IfOk result (λ first. IsPlanOf max_octets first.1) }
    ensures whole { IfOk result (λ first. IsPicture first.0) }
    ensures shows { IfOk result
        (λ first. FirstIs (λ s. SaysPicture (WasRead S.gave S.ended s) first.0)
        (zip pictures.old pictures.new)) }
    ensures says { IfOk result (λ first. FirstSays (WasRead S.gave S.ended) first.1.format
        (zip pictures.old pictures.new)) }
    ensures refusal { IfErr result (λ f. OfRefusal f
        (IsPicturesRefusal max_octets (WasRead S.gave S.ended)
        (zip pictures.old pictures.new))) }
    ensures failures { Accounts result (counts (sum_by S.failures pictures.old)
        (sum_by S.failures pictures.new) ∷ []) }
{
    let picture = read_at(pictures, 0, Vec::new(alloc))?;
    let plan = Plan::new(alloc, picture.format(), max_octets)?;
    plan.facts();
    Ok((picture, plan))
}

/// Reads and sends the pictures behind the first, each in the memory of the one before it, and
/// answers how many datagrams were sent.
fn send_rest<A: Allocator, S: ByteSource, K: ByteSink>(
    sender: &mut Sender<A, K>,
    pictures: &mut [S],
    mut room: Vec<u8, A>,
    buf: &mut [u8],
) -> Result<u64, Fault>
    requires few { length pictures.old ≤ 10000 }
    requires room { length buf.old ≡ 65535 }
    requires stands { sender.old.writer.place.failed ≡ false }
    ensures front { take 1 pictures.new ≡ take 1 pictures.old }
    ensures sent { OnOk result (SendsRest (WasRead S.gave S.ended) K.took
        (drop 1 pictures.old) (drop 1 pictures.new) sender.old sender.new) }
    ensures part { OnErr result (StopsBehind (WasRead S.gave S.ended) K.took
        (Failed (K.failures sender.old.writer.sink) (K.failures sender.new.writer.sink)) 1 []
        (drop 1 pictures.old) (drop 1 pictures.new) sender.old sender.new) }
    ensures count { IfOk result (λ n. n ≡ sender.new.sent) }
    ensures refusal { IfErr result (λ f. OfRefusal f
        (IsRestRefusal sender.old.plan.format (WasRead S.gave S.ended)
        (zip (drop 1 pictures.old) (drop 1 pictures.new)))) }
    ensures failures { Accounts result (counts (sum_by S.failures pictures.old)
        (sum_by S.failures pictures.new) ∷ counts (K.failures sender.old.writer.sink)
        (K.failures sender.new.writer.sink) ∷ []) }
    ensures names { K.names sender.new.writer.sink ≡ K.names sender.old.writer.sink }
{
    for place in 1..pictures.len() {
        let picture = read_at(pictures, place, room)?;
        sender.send(&picture, place as u32, buf)?;
        room = picture.into_octets();
    }
    Ok(sender.sent)
}

/// Reads the picture of a place into this memory.
fn read_at<A: Allocator, S: ByteSource>(
    pictures: &mut [S],
    place: usize,
    room: Vec<u8, A>,
) -> Result<PackedPicture<A>, Fault>
    requires { place < length pictures.old }
    ensures len { length pictures.new ≡ length pictures.old }
    ensures before { take place pictures.new ≡ take place pictures.old }
    ensures behind { drop (place + 1) pictures.new ≡ drop (place + 1) pictures.old }
    ensures shows { IfOk result
        (λ p. FirstIs (λ s. SaysPicture (WasRead S.gave S.ended s) p)
        (zip (drop place pictures.old) (drop place pictures.new))) }
    ensures says { IfOk result (λ p. FirstSays (WasRead S.gave S.ended) p.format
        (zip (drop place pictures.old) (drop place pictures.new))) }
    ensures refusal { IfErr result (λ f. OfRefusal f
        (λ r. FirstIs (λ s. IsPictureRefusal (WasRead S.gave S.ended s) r)
        (zip (drop place pictures.old) (drop place pictures.new)))) }
    ensures failures { Accounts result (counts (sum_by S.failures pictures.old)
        (sum_by S.failures pictures.new) ∷ []) }
{
    read_packed(&mut pictures[place], room)
}
