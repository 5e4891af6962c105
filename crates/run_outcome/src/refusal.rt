//! Why a run is refused.
use crate::refusal_text::text_of;
use crate::script_line::LineFault;
use key_mix::JobFault;
use media_file::FileFault;
use packet_plan::PlanFault;
use path_receiver::OpenFault;
use pcap_file::RecordingFault;
use picture_forms::FormFault;
use sdp_format::{FlowsFault, Located};
use std::fmt;

/// A command that writes a file, which may be none of those that it reads.
#[derive(Clone, Copy)]
pub enum Writer {
    Migrate,
    Send,
    Receive,
    Process,
    Import,
    Export,
    Follow,
    Picture,
    Convert,
}

/// Why words, a text or files are refused.
#[derive(Clone, Copy)]
pub enum Refusal {
    /// The line of this number of a script is refused. Lines are counted from 1.
    Script(usize, LineFault),
    /// The text for a capture is longer than a capture's text may be.
    MigrateSdp,
    /// The words for a path are no flow to an address.
    ExportFlow,
    /// The window is no text of timestamps.
    ReceiveWindow,
    /// The source is neither a number nor `any`.
    ReceiveSource,
    /// The SDP text is longer than one that is read.
    ReceiveSdp,
    /// No SDP is given, and the first capture has none.
    ReceiveNoSdp,
    /// A picture's format is not that of the first.
    SendFormats,
    /// There are more than 10,000 pictures.
    SendPictures,
    /// The text for a capture is longer than a capture's text may be.
    SendSdp,
    /// The two receivers are opened unlike.
    MergeUnlike,
    /// The text is none of those of jobs.
    ProcessJob,
    /// A receiver's window hasn't the timestamp.
    ProcessFrame,
    /// The fill's text is that of no values, or one is above the greatest of a frame's depth.
    ProcessFill,
    /// The held picture's format is not that of the first frame.
    ProcessHold,
    /// The text for a capture is longer than a capture's text may be.
    ImportSdp,
    /// A flow's words aren't a port, or an address and a port.
    ImportFlow,
    /// Both paths have one flow, and there aren't two recordings to tell them by.
    ImportPlaces,
    /// Recordings have too many datagrams of the flows.
    ImportRecords,
    /// The file that this command is to write is one of those that it is to read, whatever its
    /// name. It is looked for behind the words, before any file is read.
    OutputIsInput(Writer),
    /// The fill's text is that of no values, or one is above the greatest of a frame's depth.
    FollowFill,
    /// The receiver's window hasn't the timestamp.
    FrameTimestamp,
    /// The fill's text is that of no values, or one is above the greatest of the frame's depth.
    FrameFill,
    /// The held picture's format is not that of the frame.
    FrameHold,
    /// The form doesn't hold pictures of the frame's sampling.
    FrameForm,
    /// The form doesn't hold pictures of the sampling that was read.
    ConvertForm,
    /// The SDP is refused, in a place of it where that is one's.
    Sdp(Located),
    /// The SDP doesn't say where its video is sent to.
    Flows(FlowsFault),
    /// The window is refused, so no receiver is opened with it.
    Open(OpenFault),
    /// The greatest size of a packet is refused.
    Plan(PlanFault),
    /// The job is refused for its pictures, or for its numbers.
    Job(JobFault),
    /// A capture is refused for its first fault.
    Capture(FileFault),
    /// A picture's file is refused.
    Picture(FileFault),
    /// A receiver's file is refused.
    State(FileFault),
    /// A recording of another tool is refused.
    Recording(RecordingFault),
    /// A picture in a form of other tools is refused.
    Form(FormFault),
}

impl fmt::Display for Refusal {
    ghost use Rattle.std.specs.Prelude.{Some};
    ghost use Rattle.run_outcome.specs.RefusalText.{refusal_text};

    ghost output = { λ refusal. Some (refusal_text refusal) };

    fn fmt<W: fmt::Write>(&self, f: &mut fmt::Formatter<W>) -> fmt::Result {
        f.write_str(text_of(*self).as_str())
    }
}
