//! What a command knows of itself that tells more of a fault.
use media_file::FileFault;
use pcap_file::RecordingFault;
use run_outcome::Refusal;

/// What a command knows of itself that tells more of a fault.
#[derive(Clone, Copy)]
pub struct Hints {
    /// Whether it takes recordings of other tools where it takes captures.
    pub takes_recordings: bool,
    /// Whether words give the format of a stream, so that no SDP has to.
    pub has_format: bool,
    /// What is said of what came before the fault of a capture or a recording.
    pub sound: Option<&'static str>,
    /// What it asks memory for, where it is known.
    pub room: Option<Room>,
}

/// A receiver's frames, as it asks memory for them.
#[derive(Clone, Copy)]
pub struct Room {
    /// How many frames: one for each timestamp of the window.
    pub frames: usize,
    /// How many octets each takes, for its samples and its mark words.
    pub octets: u64,
}

impl Room {
    /// How many octets it takes in all, in millions, rounded down.
    pub(crate) fn megabytes(&self) -> u64 {
        self.octets.saturating_mul(self.frames as u64) / 1_000_000
    }
}

impl Hints {
    /// No hints: for a command that has no more to tell.
    pub fn none() -> Hints {
        Hints {
            takes_recordings: false,
            has_format: false,
            sound: None,
            room: None,
        }
    }

    /// What was wanted where a file isn't of a kind that the command takes: all kinds that it
    /// takes. A file of which nothing was read, at octet 0, is of none.
    pub(crate) fn kinds(&self, refusal: Refusal, octet: u64) -> Option<&'static str> {
        let is_empty = octet == 0;
        match refusal {
            Refusal::Capture(fault) if is_other(fault, is_empty) => Some(self.captures()),
            Refusal::Picture(fault) if is_other(fault, is_empty) => {
                Some("a picture, which begins S20PIC")
            }
            Refusal::State(fault) if is_other(fault, is_empty) => {
                Some("a receiver, which begins S20RCV")
            }
            Refusal::Recording(fault) if is_foreign(fault, is_empty) => {
                Some("a recording, which begins as pcap or pcapng")
            }
            _ => None,
        }
    }

    /// What was wanted where a refusal comes. Where the format is given, a recording lacks only
    /// where its datagrams go.
    pub(crate) fn wanted(&self, refusal: Refusal) -> &'static str {
        match refusal {
            Refusal::ReceiveNoSdp if self.has_format => "--a or --b, for a recording",
            _ => refusal.wanted(),
        }
    }

    /// What a command takes where it takes captures: these alone, or recordings of other tools too.
    fn captures(&self) -> &'static str {
        if self.takes_recordings {
            "a capture, which begins S20CAP, or a recording, which begins as pcap or pcapng"
        } else {
            "a capture, which begins S20CAP"
        }
    }
}

/// Whether a file of the project's is of another kind than is read.
fn is_other(fault: FileFault, is_empty: bool) -> bool {
    match fault {
        FileFault::BadName => true,
        FileFault::Truncated => is_empty,
        _ => false,
    }
}

/// Whether a file is no recording, or one that is packed.
fn is_foreign(fault: RecordingFault, is_empty: bool) -> bool {
    match fault {
        RecordingFault::BadMagic | RecordingFault::Packed => true,
        RecordingFault::Truncated => is_empty,
        _ => false,
    }
}
