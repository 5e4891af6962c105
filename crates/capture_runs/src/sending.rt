//! `send` over the devices of this machine.
ghost use Rattle.std.specs.Prelude.{◌≡◌, ◌∷◌, ◌≤◌, ◌<◌, [], All, IfErr, IfOk, IfSome, IsFalse};
ghost use Rattle.std.specs.Prelude.{OnErr, OnOk, ◌&&◌, is_some, length, sum_by};
ghost use Rattle.std.specs.List.{zip};
ghost use Rattle.capture_engines.specs.Typed.{SendsBy};
ghost use Rattle.capture_engines.specs.Sent.{IsSendRefusal};
ghost use Rattle.capture_engines.specs.SentPart.{SendsSome};
ghost use Rattle.command_end.specs.InTurn.{IsInTurn};
ghost use Rattle.devices.specs.Passed.{file_ended, file_failures, file_gave, file_took};
ghost use Rattle.devices.specs.Passed.{IsInPlace, IsUnplaced, output_failures, output_took};
ghost use Rattle.devices.specs.Passed.{writing_failures};
ghost use Rattle.run_outcome.specs.Fault.{Accounts, IfRefused, counts, failures_in};
ghost use Rattle.run_outcome.specs.Moments.{WasRead};
ghost use Rattle.run_outcome.specs.Refusing.{OfRefusal};
ghost use Rattle.run_outcome.specs.declared.refusal.Refusal.TheVariants.{SendPictures};
ghost use Rattle.run_outcome.specs.declared.refusal.Writer.TheVariants.{Send};
ghost use Rattle.st_format.specs.Device.{Failed};

use capture_engines::{Sending, check_pictures, send_typed};
use command_end::{Command, Devices, Hints, Ran, find_output};
use command_line::{NamedPaths, SendWords};
use devices::{
    FileOutput, FileSource, Meter, OutputSink, Rest, Stream, any_is, last_begun, metered_files,
    named_file, one_is, reading_of,
};
use media_file::Paths;
use run_outcome::{Fault, Writer};
use std::alloc::AllocError;

/// Sends pictures into a capture.
#[derive(Drop)]
pub struct SendCommand<'a> {
    rt: &'a HostRuntime,
    pub wanted: Sending,
    /// Whether the payload type is that which the SDP says, where there is one.
    pub by_sdp: bool,
    pub sdp: Option<FileSource<'a>>,
    pub pictures: Vec<FileSource<'a>>,
    pub out: FileOutput<'a>,
    /// Whether that is one of the files that are read.
    pub is_input: bool,
    pub output: OutputSink<Stream>,
    ghost payload_type_bits: { wanted.payload_type ≤ 127 },
}

impl<'a> SendCommand<'a> {
    /// The command of these words, of which nothing is done yet, or that there is no memory for its
    /// list of files. A meter is told how much is read of the pictures.
    pub fn new(
        rt: &'a HostRuntime,
        words: &SendWords<'a>,
        meter: &Meter,
    ) -> Result<Self, AllocError>
        ensures { IfOk result ⟦<SendCommand<'a> as Command>⟧.is_new }
    {
        let sdp = named_file(rt, words.sdp);
        let pictures = metered_files(rt, words.pictures.as_slice(), meter)?;
        let out = FileOutput::new(rt, words.out, Rest::Stays);
        let is_input = is_read(&out, &sdp, pictures.as_slice());
        Ok(SendCommand {
            rt,
            wanted: sending(words),
            by_sdp: words.by_sdp,
            sdp,
            pictures,
            out,
            is_input,
            output: OutputSink::beside(rt, words.out).metered(meter),
        })
    }
}

/// What `send` is asked for, beside its files.
pub(crate) fn sending(words: &SendWords<'_>) -> Sending
    ensures { result.payload_type ≤ 127 }
{
    Sending {
        payload_type: words.stamp.payload_type,
        first: words.stamp.first,
        base: words.stamp.base,
        ssrc: words.stamp.ssrc,
        max_octets: words.max_octets,
        paths: paths(words.paths),
    }
}

fn paths(named: NamedPaths) -> Paths {
    match named {
        NamedPaths::OnlyA => Paths::OnlyA,
        NamedPaths::OnlyB => Paths::OnlyB,
        NamedPaths::Both => Paths::Both,
    }
}

/// Whether the capture is one of the files that are read.
fn is_read(
    out: &FileOutput<'_>,
    sdp: &Option<FileSource<'_>>,
    pictures: &[FileSource<'_>],
) -> bool {
    let file = out.identity();
    one_is(sdp, file) || any_is(pictures, file)
}

/// Whether the payload type is that of the SDP.
pub(crate) fn is_typed(by_sdp: bool, sdp: &Option<FileSource<'_>>) -> bool
    ensures { result ≡ (by_sdp && is_some sdp.now) }
{
    by_sdp && sdp.is_some()
}

/// Looks at the words, and at the place of the capture, before anything is read, and sends.
fn send<'a>(
    rt: &HostRuntime,
    wanted: Sending,
    by_sdp: bool,
    sdp: &mut Option<FileSource<'a>>,
    pictures: &mut [FileSource<'a>],
    out: &mut FileOutput<'_>,
    is_input: bool,
    output: &mut OutputSink<Stream>,
) -> Result<(), Fault>
    requires payload_type { wanted.payload_type ≤ 127 }
    requires unplaced { IsUnplaced out.old }
    ensures len { length pictures.new ≡ length pictures.old }
    ensures sent { OnOk result (SendsBy (by_sdp && is_some sdp.old) file_gave file_ended wanted
        sdp.old sdp.new pictures.old pictures.new (file_took out.old) (file_took out.new)
        (output_took output.old) (output_took output.new)) }
    ensures part { OnErr result (SendsSome file_gave file_ended
        (Failed (writing_failures out.old) (writing_failures out.new))
        (by_sdp && is_some sdp.old) wanted sdp.old sdp.new pictures.old pictures.new
        (file_took out.old) (file_took out.new)) }
    ensures unplaced { IsUnplaced out.new }
    ensures apart { OnOk result (IsFalse is_input) }
    ensures refusal { IfErr result (λ f. OfRefusal f (IsInTurn Send is_input
        (length pictures.old ≤ 10000) (λ r. r ≡ SendPictures) (IsSendRefusal wanted.max_octets
        (length pictures.old) sdp.old sdp.new (WasRead file_gave file_ended)
        (zip pictures.old pictures.new)))) }
    ensures quiet { IfErr result (λ f. IfRefused f
        (output_took output.new ≡ output_took output.old)) }
    ensures owed { Accounts result
        (counts (failures_in file_failures sdp.old) (failures_in file_failures sdp.new)
        ∷ counts (sum_by file_failures pictures.old) (sum_by file_failures pictures.new)
        ∷ counts (writing_failures out.old) (writing_failures out.new)
        ∷ counts (output_failures output.old) (output_failures output.new) ∷ []) }
{
    check_pictures(pictures.len())?;
    find_output(out, is_input, Writer::Send)?;
    if is_typed(by_sdp, sdp) {
        return send_typed(rt.alloc(), wanted, sdp, pictures, &mut out.sink, output);
    }
    capture_engines::send(rt.alloc(), wanted, sdp, pictures, &mut out.sink, output)
}

impl<'a> Command for SendCommand<'a> {
    ghost is_new = { λ c. IfSome c.sdp (λ f. file_gave f ≡ [])
        × All (λ f. file_gave f ≡ []) c.pictures.items
        × (file_took c.out ≡ []) × IsUnplaced c.out × (output_took c.output ≡ []) };

    // What is written is the capture of the SDP text that was read and of the datagrams of all
    // pictures that were read, with the payload type that is asked for or that the text says, and
    // it is printed how many those are.
    ghost does = { λ old new. SendsBy (old.by_sdp && is_some old.sdp) file_gave file_ended
        old.wanted old.sdp new.sdp old.pictures.items new.pictures.items
        (file_took old.out) (file_took new.out) (output_took old.output)
        (output_took new.output) };

    // Then nothing is printed.
    ghost is_refused = { λ old new r. IsInTurn Send old.is_input
        (length old.pictures.items ≤ 10000) (λ x. x ≡ SendPictures)
        (IsSendRefusal old.wanted.max_octets (length old.pictures.items) old.sdp new.sdp
        (WasRead file_gave file_ended) (zip old.pictures.items new.pictures.items)) r
        × (output_took new.output ≡ output_took old.output) };

    ghost is_placed = { λ c. IsInPlace c.out × IsFalse c.is_input };

    ghost is_unplaced = { λ c. IsUnplaced c.out };

    // What was written then is nothing; or all or a first part of such a capture, of the pictures
    // that were read before the fault.
    ghost leaves = { λ old new. SendsSome file_gave file_ended
        (Failed (writing_failures old.out) (writing_failures new.out))
        (old.by_sdp && is_some old.sdp) old.wanted old.sdp new.sdp
        old.pictures.items new.pictures.items (file_took old.out) (file_took new.out) };

    ghost owes = { λ old new outcome. Accounts outcome
        (counts (failures_in file_failures old.sdp) (failures_in file_failures new.sdp)
        ∷ counts (sum_by file_failures old.pictures.items)
        (sum_by file_failures new.pictures.items)
        ∷ counts (writing_failures old.out) (writing_failures new.out)
        ∷ counts (output_failures old.output) (output_failures new.output) ∷ []) };

    fn run(&mut self) -> Ran {
        let outcome = send(
            self.rt,
            self.wanted,
            self.by_sdp,
            &mut self.sdp,
            self.pictures.as_mut_slice(),
            &mut self.out,
            self.is_input,
            &mut self.output,
        );
        self.output.clear();
        Ran {
            outcome,
            is_whole: self.out.settle(outcome.is_ok()),
        }
    }

    fn devices(&self) -> Devices<'_> {
        Devices {
            sdp: reading_of(&self.sdp),
            read: last_begun(&self.pictures),
            written: Some(self.out.writing()),
            output: self.output.writing(),
            kept: None,
            hints: Hints::none(),
        }
    }
}
