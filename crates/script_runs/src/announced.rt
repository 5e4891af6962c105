//! A stream of which an SDP text is written.
ghost use Rattle.std.specs.Prelude.{◌≤◌};

use flow::Flow;
use st_format::{Format, FormatFault};

/// A stream, as the words say it.
#[derive(Clone, Copy)]
pub struct AnnouncedStream {
    /// The format, or why there is none of these words.
    pub format: Result<Format, FormatFault>,
    pub payload_type: u8,
    /// Where the datagrams of path A go.
    pub a: Flow,
    /// Where those of path B go, where that is said.
    pub b: Option<Flow>,
    // RFC 3550, 5.1: it has 7 bits.
    pub ghost payload_type_bits: { payload_type ≤ 127 },
}
