//! Why a text doesn't say where its video is sent to.
ghost use Rattle.std.specs.Prelude.{◌≡◌};
ghost use Rattle.sdp_format.specs.FlowsFaults.{flows_fault_name, flows_fault_number};

use thiserror::Error;

/// The first fault that keeps the flows of a text from being read.
#[derive(Clone, Copy, Debug, PartialEq, Eq, Error)]
pub enum FlowsFault {
    /// No media section is a video section.
    #[error("no media section is a video section")]
    NoVideo = 1,
    /// More than two sections are.
    #[error("there are more than two video sections")]
    TooManyLegs = 2,
    /// A section's first line isn't `m=video PORT RTP/AVP PT`.
    #[error("a video section's first line isn't m=video PORT RTP/AVP PT")]
    BadMediaLine = 3,
    /// The `c=` line that counts for a section names no address.
    #[error("a section's c= line isn't c=IN IP4 ADDRESS or c=IN IP6 ADDRESS")]
    BadConnection = 4,
}

impl FlowsFault {
    /// The fault's number, 1 to 4, in the order in which faults are looked for.
    pub fn number(self) -> u8
        ensures { result ≡ flows_fault_number self }
    {
        self as u8
    }

    /// Its bare name, as the texts of the program have it.
    pub fn name(self) -> &'static str
        ensures { result.now ≡ flows_fault_name self }
    {
        match self {
            FlowsFault::NoVideo => "NoVideo",
            FlowsFault::TooManyLegs => "TooManyLegs",
            FlowsFault::BadMediaLine => "BadMediaLine",
            FlowsFault::BadConnection => "BadConnection",
        }
    }
}
