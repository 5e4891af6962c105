//! The pictures of a stream, one after the other.
ghost use Rattle.std.specs.Prelude.{◌≡◌, ◌≤◌, ◌<◌, ◌∷◌, [], false, length, IfErr, IfOk, IfSome};
ghost use Rattle.std.specs.Prelude.{OnErr, OnOk};
ghost use Rattle.std.specs.Io.KnownBytes.{IsAtEnd};
ghost use Rattle.st_format.specs.Device.{Failed};
ghost use Rattle.st_format.specs.Given.{GavePart};
ghost use Rattle.st_format.specs.Picture.{IsPicture};
ghost use Rattle.capture_engines.specs.Sending.{IsPlanOf};
ghost use Rattle.packet_plan.specs.Plan.{IsSize};
ghost use Rattle.picture_forms.specs.Frames.{frame_walk};
ghost use Rattle.picture_forms.specs.declared.streams.Standing.TheVariants.{Reads};
ghost use Rattle.run_outcome.specs.Fault.{Accounts, IfRefused, counts};
ghost use Rattle.run_outcome.specs.Refusing.{OfRefusal};
ghost use Rattle.stream_sending.specs.Reading.{GaveNextFrame, IsNextRefusal, IsOpenedRefusal};
ghost use Rattle.stream_sending.specs.Reading.{IsFramesReadRefusal, SendsBehind, SendsFirst};
ghost use Rattle.stream_sending.specs.Reading.{SendsFirstSome, SendsOpened, SendsOpenedSome};
ghost use Rattle.stream_sending.specs.Reading.{StopsFrames};

use capture_engines::{Sender, Sending};
use convert_engine::of_form;
use media_file::CaptureWriter;
use packet_plan::Plan;
use picture_forms::StreamReader;
use run_outcome::{Fault, Refusal, of_capture, room};
use st_format::{ByteSink, ByteSource, Format, Picture};
use std::alloc::Allocator;

/// Sends the pictures of a stream whose head was read, and answers how many datagrams that are. The
/// capture is begun once the first is read, so of none nothing is written.
pub(crate) fn send_opened<A: Allocator + Copy, S: ByteSource, K: ByteSink>(
    alloc: A,
    wanted: Sending,
    said: &[u8],
    reader: &mut StreamReader<S>,
    sink: &mut K,
) -> Result<u64, Fault>
    requires text { length said.now ≤ 65535 }
    requires payload_type { wanted.payload_type ≤ 127 }
    requires reads { reader.old.standing ≡ Reads }
    requires empty { IsAtEnd (K.held sink.old) }
    ensures sent { IfOk result (λ n. SendsOpened wanted said.now reader.old.format
        (S.gave reader.old.source) (S.gave reader.new.source) (S.ended reader.new.source)
        (K.took sink.old) (K.took sink.new) n) }
    ensures part { OnErr result (SendsOpenedSome
        (Failed (K.failures sink.old) (K.failures sink.new)) wanted said.now reader.old.format
        (S.gave reader.old.source) (S.gave reader.new.source)
        (K.took sink.old) (K.took sink.new)) }
    ensures refusal { IfErr result (λ f. OfRefusal f (IsOpenedRefusal wanted.max_octets
        reader.old.format (S.gave reader.old.source) (S.gave reader.new.source)
        (S.ended reader.new.source))) }
    ensures failures { Accounts result (counts (S.failures reader.old.source)
        (S.failures reader.new.source)
        ∷ counts (K.failures sink.old) (K.failures sink.new) ∷ []) }
    ensures names { S.names reader.new.source ≡ S.names reader.old.source }
{
    let format = reader.format();
    let plan = Plan::new(alloc, format, wanted.max_octets)?;
    plan.facts();
    let blank = blank_picture(alloc, format)?;
    let mut buf = room(alloc)?;
    match next_picture(reader, blank)? {
        Some(first) => send_from(wanted, said, plan, reader, first, sink, &mut buf),
        None => Ok(0),
    }
}

/// A picture of a format whose samples are all 0: the memory of those that are read.
fn blank_picture<A: Allocator>(alloc: A, format: Format) -> Result<Picture<A>, Fault>
    ensures format { IfOk result (λ p. p.format ≡ format) }
    ensures unrefused { IfErr result (λ f. IfRefused f ⊥) }
    ensures failures { Accounts result [] }
{
    match Picture::new(alloc, format, [0, 0, 0]) {
        Ok(picture) => Ok(picture),
        Err(_) => Err(Fault::Memory),
    }
}

/// Reads the next picture in the memory of the last one; none where the stream has ended.
fn next_picture<A: Allocator, S: ByteSource>(
    reader: &mut StreamReader<S>,
    last: Picture<A>,
) -> Result<Option<Picture<A>>, Fault>
    requires reads { reader.old.standing ≡ Reads }
    requires alike { last.format ≡ reader.old.format }
    ensures format { reader.new.format ≡ reader.old.format }
    ensures reads { IfOk result (λ o. IfSome o (λ _. reader.new.standing ≡ Reads)) }
    ensures gave { IfOk result (λ o. GaveNextFrame reader.old.format (S.gave reader.old.source)
        (S.gave reader.new.source) (S.ended reader.new.source) o) }
    ensures refusal { IfErr result (λ f. OfRefusal f (IsNextRefusal reader.old.format
        (S.gave reader.old.source) (S.gave reader.new.source) (S.ended reader.new.source))) }
    ensures gave_part { IfErr result (λ _. GavePart (frame_walk reader.old.format)
        (S.gave reader.old.source) (S.gave reader.new.source)) }
    ensures failures { Accounts result (counts (S.failures reader.old.source)
        (S.failures reader.new.source) ∷ []) }
    ensures names { S.names reader.new.source ≡ S.names reader.old.source }
{
    match reader.next_picture(last) {
        Ok(read) => Ok(read),
        Err(fault) => Err(of_form(fault)),
    }
}

/// Begins the capture, sends the first picture, which was read, and those behind it, and answers
/// how many datagrams were sent.
fn send_from<A: Allocator, S: ByteSource, K: ByteSink>(
    wanted: Sending,
    said: &[u8],
    plan: Plan<A>,
    reader: &mut StreamReader<S>,
    first: Picture<A>,
    sink: &mut K,
    buf: &mut [u8],
) -> Result<u64, Fault>
    requires text { length said.now ≤ 65535 }
    requires payload_type { wanted.payload_type ≤ 127 }
    requires reads { reader.old.standing ≡ Reads }
    requires alike { first.format ≡ plan.format }
    requires format { first.format ≡ reader.old.format }
    requires limits { IsSize wanted.max_octets plan.format }
    requires planned { IsPlanOf wanted.max_octets plan }
    requires whole { IsPicture first }
    requires empty { IsAtEnd (K.held sink.old) }
    requires room { length buf.old ≡ 65535 }
    ensures sent { IfOk result (λ n. SendsFirst wanted said.now reader.old.format first
        (S.gave reader.old.source) (S.gave reader.new.source) (S.ended reader.new.source)
        (K.took sink.old) (K.took sink.new) n) }
    ensures part { OnErr result (SendsFirstSome
        (Failed (K.failures sink.old) (K.failures sink.new)) wanted said.now reader.old.format first
        (S.gave reader.old.source) (S.gave reader.new.source)
        (K.took sink.old) (K.took sink.new)) }
    ensures refusal { IfErr result (λ f. OfRefusal f (IsFramesReadRefusal 4294967295
        reader.old.format (S.gave reader.old.source) (S.gave reader.new.source)
        (S.ended reader.new.source))) }
    ensures failures { Accounts result (counts (S.failures reader.old.source)
        (S.failures reader.new.source)
        ∷ counts (K.failures sink.old) (K.failures sink.new) ∷ []) }
    ensures names { S.names reader.new.source ≡ S.names reader.old.source }
{
    let writer = match CaptureWriter::open(&mut *sink, wanted.paths, said) {
        Ok(writer) => writer,
        Err(failed) => return Err(of_capture(failed.0)),
    };
    let mut sender = Sender::new(plan, writer, wanted);
    let sent = send_each(&mut sender, reader, first, buf);
    let _ = sender.into_sink();
    sent
}

/// Sends a picture, and those behind it, each read in the memory of the one before, and answers how
/// many datagrams were sent.
fn send_each<A: Allocator, S: ByteSource, K: ByteSink>(
    sender: &mut Sender<A, K>,
    reader: &mut StreamReader<S>,
    mut picture: Picture<A>,
    buf: &mut [u8],
) -> Result<u64, Fault>
    requires room { length buf.old ≡ 65535 }
    requires stands { sender.old.writer.place.failed ≡ false }
    requires reads { reader.old.standing ≡ Reads }
    requires alike { picture.format ≡ sender.old.plan.format }
    requires format { picture.format ≡ reader.old.format }
    ensures sent { OnOk result (SendsBehind K.took reader.old.format picture
        (S.gave reader.old.source) (S.gave reader.new.source) (S.ended reader.new.source)
        sender.old sender.new) }
    ensures part { OnErr result (StopsFrames K.took
        (Failed (K.failures sender.old.writer.sink) (K.failures sender.new.writer.sink))
        reader.old.format picture (S.gave reader.old.source) (S.gave reader.new.source)
        sender.old sender.new) }
    ensures count { IfOk result (λ n. n ≡ sender.new.sent) }
    ensures refusal { IfErr result (λ f. OfRefusal f (IsFramesReadRefusal 4294967295
        reader.old.format (S.gave reader.old.source) (S.gave reader.new.source)
        (S.ended reader.new.source))) }
    ensures failures { Accounts result (counts (S.failures reader.old.source)
        (S.failures reader.new.source) ∷ counts (K.failures sender.old.writer.sink)
        (K.failures sender.new.writer.sink) ∷ []) }
    ensures read_names { S.names reader.new.source ≡ S.names reader.old.source }
    ensures names { K.names sender.new.writer.sink ≡ K.names sender.old.writer.sink }
{
    for place in 0..u32::MAX {
        sender.send(&picture, place, buf)?;
        match next_picture(reader, picture)? {
            Some(next) => picture = next,
            None => return Ok(sender.sent),
        }
    }
    Err(Fault::Refused(Refusal::SendPictures))
}
