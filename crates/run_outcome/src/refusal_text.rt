//! What is printed of a refusal.
ghost use Rattle.std.specs.Prelude.{◌≡◌, ◌≤◌, ◌<◌, ◌++◌, codes, length};
ghost use Rattle.arrayvec.specs.ArrayString.{array_string_len};
ghost use Rattle.run_outcome.specs.RefusalText.{IsWorded, line_fault_text, output_text, play_text};
ghost use Rattle.run_outcome.specs.RefusalText.{refusal_text};
ghost use Rattle.run_outcome.specs.declared.refusal.Refusal.TheVariants.{Script};

use crate::pieces::{LINE, add_fault};
use crate::refusal::{Refusal, Writer};
use crate::script_line::LineFault;
use arrayvec::ArrayString;
use path_receiver::PlayFault;
use text_line::{add, add_number};

/// The line of a refusal with its end, which always has room.
pub(crate) fn line_of(refusal: Refusal) -> ArrayString<LINE>
    ensures { result.bytes ≡ codes "st2110: " ++ refusal_text refusal ++ codes "\n" }
{
    let mut text = ArrayString::<LINE>::new();
    add(&mut text, "st2110: ");
    add_refusal(&mut text, refusal);
    add(&mut text, "\n");
    text
}

/// What stands in the line of a refusal, without `st2110: ` and the end.
pub(crate) fn text_of(refusal: Refusal) -> ArrayString<LINE>
    ensures { result.bytes ≡ refusal_text refusal }
{
    let mut text = ArrayString::<LINE>::new();
    add_refusal(&mut text, refusal);
    text
}

/// What is printed of the fault of a script's line, but for the number of the line.
pub(crate) fn text_of_line(fault: LineFault) -> ArrayString<LINE>
    ensures { result.bytes ≡ line_fault_text fault }
{
    let mut text = ArrayString::<LINE>::new();
    add_line_fault(&mut text, fault);
    text
}

/// Adds what is printed of a refusal: its subject, its number and its name. There is room for an
/// end of line then.
fn add_refusal(text: &mut ArrayString<LINE>, refusal: Refusal)
    requires { array_string_len text.old ≤ 8 }
    ensures text { text.new.bytes ≡ text.old.bytes ++ refusal_text refusal }
    ensures room { array_string_len text.new < LINE }
{
    match refusal {
        Refusal::Script(line, fault) => add_script(text, line, fault),
        Refusal::OutputIsInput(writer) => add(text, of_output(writer)),
        Refusal::Sdp(at) => add_fault(text, "sdp ", at.fault.number(), at.fault.name()),
        Refusal::Flows(fault) => add_fault(text, "flows ", fault.number(), fault.name()),
        Refusal::Open(fault) => add_fault(text, "open ", fault.number(), fault.name()),
        Refusal::Plan(fault) => add_fault(text, "plan ", fault.number(), fault.name()),
        Refusal::Job(fault) => add_fault(text, "job ", fault.number(), fault.name()),
        Refusal::Capture(fault) => add_fault(text, "capture ", fault.number(), fault.name()),
        Refusal::Picture(fault) => add_fault(text, "picture ", fault.number(), fault.name()),
        Refusal::State(fault) => add_fault(text, "state ", fault.number(), fault.name()),
        Refusal::Recording(fault) => add_fault(text, "recording ", fault.number(), fault.name()),
        Refusal::Form(fault) => add_fault(text, "form ", fault.number(), fault.name()),
        _ => add(text, words_of(refusal)),
    }
}

/// Adds what is printed of a line of a script that is refused: of one that isn't of a form only its
/// number.
fn add_script(text: &mut ArrayString<LINE>, line: usize, fault: LineFault)
    requires { array_string_len text.old ≤ 8 }
    ensures text { text.new.bytes ≡ text.old.bytes ++ refusal_text (Script line fault) }
    ensures room { array_string_len text.new < LINE }
{
    match fault {
        LineFault::Form(_) => add_number(text, "script ", line as u64),
        _ => add_line_fault(text, fault),
    }
}

/// Adds what is printed of the fault of a script's line, but for the number of the line: of a form
/// only that it is a script's.
fn add_line_fault(text: &mut ArrayString<LINE>, fault: LineFault)
    requires { array_string_len text.old ≤ 8 }
    ensures text { text.new.bytes ≡ text.old.bytes ++ line_fault_text fault }
    ensures room { array_string_len text.new < LINE }
{
    match fault {
        LineFault::Form(_) => add(text, "script"),
        LineFault::Format(fault) => add_fault(text, "format ", fault.number(), fault.name()),
        LineFault::Open(fault) => add_fault(text, "open ", fault.number(), fault.name()),
        LineFault::Numbers(fault) => add_fault(text, "numbers ", fault.number(), fault.name()),
        LineFault::Plan(fault) => add_fault(text, "plan ", fault.number(), fault.name()),
        LineFault::Play(fault) => add_play(text, fault),
    }
}

/// Adds what is printed of a schedule that isn't played: behind the name of an event its place.
fn add_play(text: &mut ArrayString<LINE>, fault: PlayFault)
    requires { array_string_len text.old ≤ 8 }
    ensures text { text.new.bytes ≡ text.old.bytes ++ play_text fault }
    ensures room { array_string_len text.new < LINE }
{
    add_fault(text, "play ", fault.number(), fault.name());
    let PlayFault::BadEvent(place) = fault else {
        return;
    };
    add_number(text, " ", place as u64);
}

/// The text of a refusal that is words alone; nothing of any other.
fn words_of(refusal: Refusal) -> &'static str
    ensures words { IsWorded refusal → result.now ≡ refusal_text refusal }
    ensures short { length result.now ≤ 32 }
{
    match refusal {
        Refusal::MigrateSdp => "migrate 1 SdpTooLong",
        Refusal::ExportFlow => "export 1 BadFlow",
        Refusal::ReceiveWindow => "receive 1 BadWindowText",
        Refusal::ReceiveSource => "receive 2 BadSource",
        Refusal::ReceiveSdp => "receive 3 SdpTooLong",
        Refusal::ReceiveNoSdp => "receive 4 NoSdp",
        Refusal::SendFormats => "send 1 FormatsDiffer",
        Refusal::SendPictures => "send 2 TooManyPictures",
        Refusal::SendSdp => "send 3 SdpTooLong",
        Refusal::MergeUnlike => "merge 1 OpenedUnlike",
        Refusal::ProcessJob => "process 1 BadJob",
        Refusal::ProcessFrame => "process 2 NoFrame",
        Refusal::ProcessFill => "process 3 BadFill",
        Refusal::ProcessHold => "process 4 HoldDiffers",
        Refusal::ImportSdp => "import 1 SdpTooLong",
        Refusal::ImportFlow => "import 2 BadFlow",
        Refusal::ImportPlaces => "import 3 OnePlace",
        Refusal::ImportRecords => "import 4 TooManyRecords",
        Refusal::FollowFill => "follow 1 BadFill",
        Refusal::FrameTimestamp => "frame 1 NoFrame",
        Refusal::FrameFill => "frame 2 BadFill",
        Refusal::FrameHold => "frame 3 HoldDiffers",
        Refusal::FrameForm => "frame 4 WrongForm",
        Refusal::ConvertForm => "convert 1 WrongForm",
        _ => "",
    }
}

/// What is printed where this command's output is one of its inputs.
fn of_output(writer: Writer) -> &'static str
    ensures text { result.now ≡ output_text writer }
    ensures short { length result.now ≤ 32 }
{
    match writer {
        Writer::Migrate => "migrate 2 OutputIsInput",
        Writer::Send => "send 4 OutputIsInput",
        Writer::Receive => "receive 5 OutputIsInput",
        Writer::Process => "process 5 OutputIsInput",
        Writer::Import => "import 5 OutputIsInput",
        Writer::Export => "export 2 OutputIsInput",
        Writer::Follow => "follow 2 OutputIsInput",
        Writer::Picture => "frame 5 OutputIsInput",
        Writer::Convert => "convert 2 OutputIsInput",
    }
}
