//! What is told of captures, row by row.

use path_receiver::Refusal;
use recording_counts::{StreamKey, TimestampKey};
use st_format::Path;

/// What is told of a stream on one path.
#[derive(Clone, Copy)]
pub struct PathRow {
    pub key: StreamKey,
    pub path: Path,
    /// How many datagrams came.
    pub datagrams: u64,
    /// The lowest packet number of them.
    pub lowest: Option<u64>,
    /// The highest one.
    pub highest: Option<u64>,
    /// How many numbers between these never came.
    pub lost: u64,
    /// How many datagrams came with a number that had come before.
    pub repeated: u64,
    /// How many came for the first time, but behind a higher number.
    pub late: u64,
}

/// What is told of a stream on both paths. Numbers are looked at from the lowest one that came by
/// either path to the highest one.
#[derive(Clone, Copy)]
pub struct TogetherRow {
    pub key: StreamKey,
    /// How many numbers came by both paths.
    pub both: u64,
    /// How many never came by A.
    pub lost_by_a: u64,
    /// How many never came by B.
    pub lost_by_b: u64,
    /// How many came by neither.
    pub lost_by_both: u64,
}

/// What is told of a timestamp of a stream.
#[derive(Clone, Copy)]
pub struct TimestampRow {
    pub key: TimestampKey,
    /// How many datagrams came by A.
    pub by_a: u64,
    /// How many came by B.
    pub by_b: u64,
    /// Whether one came with the marker.
    pub marker: bool,
    /// How many ticks of 90 kHz it is behind the timestamp of the stream that came first before it.
    pub ticks: Option<u64>,
    /// The skew of the paths, in nanoseconds, and 2^64.
    pub skew: Option<u128>,
}

/// What is told of the skew of the paths, over the timestamps of which it is known: in nanoseconds,
/// and 2^64.
#[derive(Clone, Copy)]
pub struct SkewRow {
    /// Of how many timestamps it is known.
    pub timestamps: u64,
    pub least: Option<u128>,
    /// Half of the timestamps, or one more, have this or less.
    pub middle: Option<u128>,
    pub greatest: Option<u128>,
}

/// What is told in one line: the rows of streams, and what is counted beside them.
#[derive(Clone, Copy)]
pub enum Row {
    Path(PathRow),
    Together(TogetherRow),
    Timestamp(TimestampRow),
    Skew(SkewRow),
    /// A receiver refuses so many datagrams for this reason.
    Refused(Refusal, u64),
    /// So many datagrams are RTCP.
    Control(u64),
    /// No datagram of this payload type came.
    Nothing(u8),
}
