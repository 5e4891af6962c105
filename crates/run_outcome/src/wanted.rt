//! What was wanted where words or files are refused.
ghost use Rattle.std.specs.Prelude.{◌≡◌, IfSome};
ghost use Rattle.run_outcome.specs.Wanted.{capture_wanted, file_wanted, flows_wanted};
ghost use Rattle.run_outcome.specs.Wanted.{picture_wanted, recording_wanted, refusal_wanted};

use crate::refusal::Refusal;
use media_file::FileFault;
use pcap_file::RecordingFault;
use picture_forms::FormFault;
use sdp_format::FlowsFault;

impl Refusal {
    /// What was wanted where this refusal comes, in words for a person.
    pub fn wanted(self) -> &'static str
        ensures { IfSome (refusal_wanted self) (λ text. result.now ≡ text) }
    {
        match self {
            Refusal::Script(_, fault) => fault.wanted(),
            Refusal::MigrateSdp | Refusal::SendSdp | Refusal::ImportSdp => "at most 65535 octets",
            Refusal::ExportFlow => "an address, a colon and a port, as 239.1.1.1:5004",
            Refusal::ReceiveWindow => "timestamps with commas between",
            Refusal::ReceiveSource => "a number or any",
            Refusal::ReceiveSdp => "at most 16777216 octets",
            Refusal::ReceiveNoSdp => "an SDP in the capture, or --sdp",
            Refusal::SendFormats => "a picture of the first one's format",
            Refusal::SendPictures => "at most 10000 pictures, of a stream 4294967295",
            Refusal::MergeUnlike => "a receiver that was opened as the left one",
            Refusal::ProcessJob => {
                "limit:nominal, limit:video, gain:G, ycc444, ycc422, wipe:columns:P:S, \
                 wipe:rows:P:S or key"
            }
            Refusal::ProcessFrame => "a timestamp of each receiver's window",
            Refusal::ProcessFill | Refusal::FollowFill | Refusal::FrameFill => {
                "three numbers with commas between, none above the greatest value of a frame"
            }
            Refusal::ProcessHold => "a picture of the first frame's format",
            Refusal::FrameTimestamp => "a timestamp of the receiver's window",
            Refusal::FrameHold => "a picture of the frame's format",
            Refusal::FrameForm | Refusal::ConvertForm => {
                "y4m for YCbCr, ppm for RGB, or a form of both: picture or raw"
            }
            Refusal::ImportFlow => "a port, or an address, a colon and a port",
            Refusal::ImportPlaces => "two recordings, the first of path A",
            Refusal::ImportRecords => "at most 16777216 datagrams of the flows",
            Refusal::OutputIsInput(_) => "the name of no file that is read",
            Refusal::Sdp(at) => at.fault.wanted(),
            Refusal::Flows(fault) => of_flows(fault),
            Refusal::Open(fault) => fault.wanted(),
            Refusal::Plan(fault) => fault.wanted(),
            Refusal::Job(fault) => fault.wanted(),
            Refusal::Capture(fault) => of_capture(fault),
            Refusal::Picture(fault) => of_kind(fault, "a picture, which begins S20PIC"),
            Refusal::State(fault) => of_kind(fault, "a receiver, which begins S20RCV"),
            Refusal::Recording(fault) => of_recording(fault),
            Refusal::Form(fault) => of_form(fault),
        }
    }
}

fn of_capture(fault: FileFault) -> &'static str
    ensures { result.now ≡ capture_wanted fault }
{
    match fault {
        FileFault::BadVersion => "version 01, or for receive 01 or 02",
        FileFault::BadField => "a path of 0 or 1",
        _ => of_kind(fault, "a capture, which begins S20CAP"),
    }
}

/// What was wanted of a file of a kind, which this text names.
fn of_kind(fault: FileFault, kind: &'static str) -> &'static str
    ensures { result.now ≡ file_wanted fault kind.now }
{
    match fault {
        FileFault::NoMemory => "more memory than there is",
        FileFault::Device => "a device that works",
        FileFault::BadName => kind,
        FileFault::BadVersion => "version 01",
        FileFault::Truncated => "more octets: the file ends before it is whole",
        FileFault::BadField => "a field with a value that there is",
        FileFault::TrailingBytes => "the end",
        FileFault::MixedGroup => "a mask of some of the pgroup's samples, each of them 0",
        FileFault::TooManyRecords => "the end, after at most 16777216 records",
    }
}

/// What was wanted of where an SDP's video is sent to.
fn of_flows(fault: FlowsFault) -> &'static str
    ensures { result.now ≡ flows_wanted fault }
{
    match fault {
        FlowsFault::NoVideo => "a section m=video",
        FlowsFault::TooManyLegs => "at most two sections m=video",
        FlowsFault::BadMediaLine => "m=video PORT RTP/AVP PT",
        FlowsFault::BadConnection => "c=IN IP4 ADDRESS or c=IN IP6 ADDRESS",
    }
}

/// What was wanted of a picture in a form of other tools.
fn of_form(fault: FormFault) -> &'static str
    ensures { result.now ≡ picture_wanted fault }
{
    match fault {
        FormFault::NoMemory => "more memory than there is",
        FormFault::Device => "a device that works",
        FormFault::BadMagic => "YUV4MPEG2 or P6",
        FormFault::BadHeader => "a header of the form's grammar",
        FormFault::UnsupportedForm => "progressive pictures of 4:2:2, 4:4:4 or RGB",
        FormFault::BadFormat => "a width, a height and a rate within the limits",
        FormFault::Truncated => "more octets: the file ends before it is whole",
        FormFault::ValueTooLarge => "a value of no more bits than a sample",
    }
}

/// What was wanted of a recording of another tool.
fn of_recording(fault: RecordingFault) -> &'static str
    ensures { result.now ≡ recording_wanted fault }
{
    match fault {
        RecordingFault::Device => "a device that works",
        RecordingFault::Truncated => "more octets: the recording ends before it is whole",
        RecordingFault::BadMagic => "a recording, which begins as pcap or pcapng",
        RecordingFault::BadVersion => "version 2.4 of pcap, or 1.0 of pcapng",
        RecordingFault::BadBlock => "a block whose lengths fit what it holds",
        RecordingFault::BadInterface => "an interface that the section describes",
        RecordingFault::TooManyInterfaces => "at most 64 interfaces of a section",
        RecordingFault::BadTime => "a time from 1970 on, below 2^64 ns",
        RecordingFault::PacketTooLong => "a packet of at most 1048576 octets",
        RecordingFault::TooManyBlocks => "the end, before the 2^64th record or block",
        RecordingFault::Packed => "a recording that gzip hasn't packed; zcat unpacks it",
    }
}
