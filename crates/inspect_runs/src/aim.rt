//! What `inspect` tells, and what it reads for that.
use capture_runs::{Files, Replayed};
use std::snapshot::Snapshot;
use stream_inspection::Wanted;

/// What is told of files.
#[derive(Clone, Copy)]
pub enum Aim {
    /// Which flows recordings have.
    Flows,
    /// What came of the stream that is looked for so, in captures and recordings.
    Streams(Wanted),
}

/// The files that `inspect` reads, by what is told of them.
#[derive(Drop)]
pub struct Inspected<'a> {
    /// The files as they were looked at to find what is told, where that was done. Only proofs see
    /// them.
    pub looked: Snapshot<Vec<Replayed<'a>>>,
    /// The recordings of which flows are told.
    pub flows: Vec<Replayed<'a>>,
    /// The SDP, and the captures and recordings of which a stream is told.
    pub streams: Files<'a>,
}
