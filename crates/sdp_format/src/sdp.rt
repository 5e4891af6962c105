//! What a text and its sections say.
ghost use Rattle.std.specs.Prelude.{◌≡◌, ◌≤◌, ◌<◌, Some, None, length};
ghost use Rattle.sdp_format.specs.declared.fault.SdpFault.TheVariants.{NoVideo};
ghost use Rattle.sdp_format.specs.Naming.{colorimetry as colours_in};

use crate::fault::SdpFault;
use arrayvec::ArrayVec;
use st_format::Format;

/// The range of the samples' values (SMPTE ST 2110-20, SDP, RANGE).
#[derive(Clone, Copy, Debug, PartialEq, Eq)]
pub enum Range {
    /// The nominal range; also where a text says nothing.
    Narrow,
    /// All values but those that are kept for timing references.
    FullProtect,
    /// All values, from 0 to the greatest of the depth.
    Full,
}

/// What a text says: a port for each of its one or two video sections, and what all of them say.
#[derive(Drop)]
pub struct Sdp {
    /// The port of each video section, in the order of the text.
    pub ports: ArrayVec<u16, 2>,
    /// The RTP payload type, up to 127.
    pub payload_type: u8,
    /// Sampling, depth, size and rate.
    pub format: Format,
    /// The range of the samples' values.
    pub range: Range,
    /// The name of the colorimetry: 1 to 32 printable ASCII bytes, none of them a semicolon.
    pub colorimetry: ArrayVec<u8, 32>,
    pub ghost has_port: { 0 < length ports.items },
    pub ghost small_type: { payload_type ≤ 127 },
    pub ghost named: { colours_in colorimetry.items ≡ Some colorimetry.items },
}

/// The port and the payload type of a section, and the text of its items.
#[derive(Clone, Copy)]
pub(crate) struct Listed<'a> {
    pub(crate) port: u16,
    pub(crate) payload_type: u8,
    pub(crate) text: &'a [u8],
    ghost small_type: { payload_type ≤ 127 },
}

/// What one section says.
#[derive(Drop)]
pub(crate) struct Leg {
    pub(crate) payload_type: u8,
    pub(crate) format: Format,
    pub(crate) range: Range,
    pub(crate) colorimetry: ArrayVec<u8, 32>,
    ghost small_type: { payload_type ≤ 127 },
    ghost named: { colours_in colorimetry.items ≡ Some colorimetry.items },
}

/// A video section: its first line, and what is left of the text behind that.
#[derive(Clone, Copy)]
pub(crate) struct VideoSection<'a> {
    pub(crate) media: &'a [u8],
    pub(crate) left: Option<&'a [u8]>,
}

/// Why a text is not read, and the section in which that was found, if it was in one.
#[derive(Clone, Copy)]
pub(crate) struct Stop<'a> {
    pub(crate) fault: SdpFault,
    pub(crate) section: Option<VideoSection<'a>>,
    ghost found: { section ≡ None → fault ≡ NoVideo },
}
