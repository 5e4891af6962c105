//! `send` of a stream over the devices of this machine.
ghost use Rattle.std.specs.Prelude.{◌≡◌, ◌∷◌, ◌≤◌, ⊤, [], IfErr, IfSome, IsFalse, OnErr, OnOk};
ghost use Rattle.std.specs.Prelude.{◌&&◌, is_some};
ghost use Rattle.command_end.specs.InTurn.{IsInTurn};
ghost use Rattle.devices.specs.Passed.{FileRead, IsInPlace, IsUnplaced, file_ended, file_failures};
ghost use Rattle.devices.specs.Passed.{file_gave, file_took, output_failures, output_took};
ghost use Rattle.devices.specs.Passed.{writing_failures};
ghost use Rattle.run_outcome.specs.Fault.{Accounts, IfRefused, counts, failures_in};
ghost use Rattle.run_outcome.specs.Moments.{WasRead};
ghost use Rattle.run_outcome.specs.Refusing.{OfRefusal};
ghost use Rattle.run_outcome.specs.declared.refusal.Writer.TheVariants.{Send};
ghost use Rattle.st_format.specs.Device.{Failed};
ghost use Rattle.stream_sending.specs.Sent.{IsSentStreamRefusal, SendsStream};
ghost use Rattle.stream_sending.specs.SentPart.{SendsSomeFrames};

use crate::sending::{is_typed, sending};
use capture_engines::Sending;
use command_end::{Command, Devices, Hints, Ran, find_output};
use command_line::SendWords;
use devices::{
    FileOutput, FileSource, Meter, OutputSink, Rest, Stream, named_file, one_is, reading_of,
};
use run_outcome::{Fault, Writer};
use stream_sending::send_stream;

/// Sends the pictures of a YUV4MPEG2 stream into a capture.
#[derive(Drop)]
pub struct SendStreamCommand<'a> {
    rt: &'a HostRuntime,
    pub wanted: Sending,
    /// Whether the payload type is that which the SDP says, where there is one.
    pub by_sdp: bool,
    pub sdp: Option<FileSource<'a>>,
    pub stream: FileSource<'a>,
    pub out: FileOutput<'a>,
    /// Whether that is one of the files that are read.
    pub is_input: bool,
    pub output: OutputSink<Stream>,
    ghost payload_type_bits: { wanted.payload_type ≤ 127 },
}

impl<'a> SendStreamCommand<'a> {
    /// The command of these words for the stream of this name, which is standard input where the
    /// name is `-`. Nothing is done yet. A meter is told how much is read of the stream.
    pub fn new(rt: &'a HostRuntime, words: &SendWords<'a>, name: &'a str, meter: &Meter) -> Self
        ensures { ⟦<SendStreamCommand<'a> as Command>⟧.is_new result }
    {
        let sdp = named_file(rt, words.sdp);
        let stream = FileSource::given(rt, name).metered(meter);
        let out = FileOutput::new(rt, words.out, Rest::Stays);
        let is_input = is_read(&out, &sdp, &stream);
        SendStreamCommand {
            rt,
            wanted: sending(words),
            by_sdp: words.by_sdp,
            sdp,
            stream,
            out,
            is_input,
            output: OutputSink::beside(rt, words.out).metered(meter),
        }
    }
}

/// Whether the capture is one of the files that are read.
fn is_read(out: &FileOutput<'_>, sdp: &Option<FileSource<'_>>, stream: &FileSource<'_>) -> bool {
    let file = out.identity();
    one_is(sdp, file) || stream.is(file)
}

/// Looks at the place of the capture, before anything is read, and sends.
fn send<'a>(
    rt: &HostRuntime,
    wanted: Sending,
    by_sdp: bool,
    sdp: &mut Option<FileSource<'a>>,
    stream: &mut FileSource<'a>,
    out: &mut FileOutput<'_>,
    is_input: bool,
    output: &mut OutputSink<Stream>,
) -> Result<(), Fault>
    requires payload_type { wanted.payload_type ≤ 127 }
    requires unplaced { IsUnplaced out.old }
    ensures sent { OnOk result (SendsStream file_gave file_ended (by_sdp && is_some sdp.old)
        wanted sdp.old sdp.new (FileRead stream.old stream.new) (file_took out.old)
        (file_took out.new) (output_took output.old) (output_took output.new)) }
    ensures ended { OnOk result (file_ended stream.new) }
    ensures part { OnErr result (SendsSomeFrames file_gave file_ended
        (Failed (writing_failures out.old) (writing_failures out.new))
        (by_sdp && is_some sdp.old) wanted sdp.old sdp.new (file_gave stream.old)
        (file_gave stream.new) (file_took out.old) (file_took out.new)) }
    ensures unplaced { IsUnplaced out.new }
    ensures apart { OnOk result (IsFalse is_input) }
    ensures refusal { IfErr result (λ f. OfRefusal f (IsInTurn Send is_input ⊤ (λ _. ⊥)
        (IsSentStreamRefusal wanted.max_octets sdp.old sdp.new (WasRead file_gave file_ended)
        (FileRead stream.old stream.new)))) }
    ensures quiet { IfErr result (λ f. IfRefused f
        (output_took output.new ≡ output_took output.old)) }
    ensures owed { Accounts result
        (counts (failures_in file_failures sdp.old) (failures_in file_failures sdp.new)
        ∷ counts (file_failures stream.old) (file_failures stream.new)
        ∷ counts (writing_failures out.old) (writing_failures out.new)
        ∷ counts (output_failures output.old) (output_failures output.new) ∷ []) }
{
    find_output(out, is_input, Writer::Send)?;
    let is_typed = is_typed(by_sdp, sdp);
    send_stream(
        rt.alloc(),
        wanted,
        is_typed,
        sdp,
        stream,
        &mut out.sink,
        output,
    )
}

impl<'a> Command for SendStreamCommand<'a> {
    ghost is_new = { λ c. IfSome c.sdp (λ f. file_gave f ≡ []) × (file_gave c.stream ≡ [])
        × (file_took c.out ≡ []) × IsUnplaced c.out × (output_took c.output ≡ []) };

    // What is written is the capture of the SDP text that was read and of the datagrams of all
    // pictures of the stream, which was read to its end, with the payload type that is asked for or
    // that the text says, and it is printed how many those are.
    ghost does = { λ old new. SendsStream file_gave file_ended (old.by_sdp && is_some old.sdp)
        old.wanted old.sdp new.sdp (FileRead old.stream new.stream) (file_took old.out)
        (file_took new.out) (output_took old.output) (output_took new.output)
        × file_ended new.stream };

    // Then nothing is printed.
    ghost is_refused = { λ old new r. IsInTurn Send old.is_input ⊤ (λ _. ⊥)
        (IsSentStreamRefusal old.wanted.max_octets old.sdp new.sdp
        (WasRead file_gave file_ended) (FileRead old.stream new.stream)) r
        × (output_took new.output ≡ output_took old.output) };

    ghost is_placed = { λ c. IsInPlace c.out × IsFalse c.is_input };

    ghost is_unplaced = { λ c. IsUnplaced c.out };

    // What was written then is all or a first part of such a capture, of the pictures of all frames
    // that were read before the fault, at most 4,294,967,295; of none, nothing.
    ghost leaves = { λ old new. SendsSomeFrames file_gave file_ended
        (Failed (writing_failures old.out) (writing_failures new.out))
        (old.by_sdp && is_some old.sdp) old.wanted old.sdp new.sdp (file_gave old.stream)
        (file_gave new.stream) (file_took old.out) (file_took new.out) };

    ghost owes = { λ old new outcome. Accounts outcome
        (counts (failures_in file_failures old.sdp) (failures_in file_failures new.sdp)
        ∷ counts (file_failures old.stream) (file_failures new.stream)
        ∷ counts (writing_failures old.out) (writing_failures new.out)
        ∷ counts (output_failures old.output) (output_failures new.output) ∷ []) };

    fn run(&mut self) -> Ran {
        let outcome = send(
            self.rt,
            self.wanted,
            self.by_sdp,
            &mut self.sdp,
            &mut self.stream,
            &mut self.out,
            self.is_input,
            &mut self.output,
        );
        self.output.clear();
        Ran {
            outcome,
            is_whole: self.out.settle(outcome.is_ok()),
        }
    }

    fn devices(&self) -> Devices<'_> {
        Devices {
            sdp: reading_of(&self.sdp),
            read: self.stream.begun(),
            written: Some(self.out.writing()),
            output: self.output.writing(),
            kept: None,
            hints: Hints::none(),
        }
    }
}
