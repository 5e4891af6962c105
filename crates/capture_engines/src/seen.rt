//! What was seen of a file beside its datagrams.
ghost use Rattle.std.specs.Prelude.{◌≡◌, ◌<◌, ◌≤◌, ◌||◌, is_some, length, slice_set};
ghost use Rattle.capture_engines.specs.Seen.{came_by, either_by, is_lacking, no_file, seen_of};

use flow::Flow;
use recording_counts::LeftOut;
use recording_reader::DatagramReader;
use st_format::{ByteSource, Path};
use std::alloc::Allocator;

/// What was seen of the packets of a recording, or of several. It is for a person.
#[derive(Clone, Copy)]
pub struct Seen {
    /// Whether a datagram of path A's flow came, where that was asked for.
    pub a: Option<bool>,
    /// The same of path B.
    pub b: Option<bool>,
    /// How many packets were left out, by the reason.
    pub left_out: LeftOut,
}

impl Seen {
    /// Where nothing was looked at, and of captures.
    pub fn new() -> Seen
        ensures { result ≡ no_file }
    {
        Seen {
            a: None,
            b: None,
            left_out: LeftOut::new(),
        }
    }

    /// What a reader has seen of its file so far; of a capture nothing is told.
    pub fn of<A: Allocator, S: ByteSource>(reader: &DatagramReader<A, S>) -> Seen
        ensures { result ≡ seen_of reader.now }
    {
        if !reader.is_recording() {
            return Seen::new();
        }
        match reader.flows() {
            Some(flows) => Seen {
                a: came(flows.a, reader.has_path(Path::A)),
                b: came(flows.b, reader.has_path(Path::B)),
                left_out: reader.left_out(),
            },
            None => Seen::new(),
        }
    }

    /// Adds what was seen of another file.
    pub fn add(&mut self, other: &Seen)
        ensures a { self.new.a ≡ either_by self.old.a other.now.a }
        ensures b { self.new.b ≡ either_by self.old.b other.now.b }
    {
        self.a = either(self.a, other.a);
        self.b = either(self.b, other.b);
        self.left_out.add(&other.left_out);
    }

    /// Whether a recording was read.
    pub fn is_recording(&self) -> bool
        ensures { result ≡ (is_some self.now.a || is_some self.now.b) }
    {
        self.a.is_some() || self.b.is_some()
    }

    /// Whether a flow was asked for, and no datagram of it came.
    pub fn lacks_flow(&self) -> bool
        ensures { result ≡ (is_lacking self.now.a || is_lacking self.now.b) }
    {
        is_lacking(self.a) || is_lacking(self.b)
    }
}

/// Whether it was asked for, and none came.
fn is_lacking(came: Option<bool>) -> bool
    ensures { result ≡ is_lacking came }
{
    match came {
        Some(has_come) => !has_come,
        None => false,
    }
}

/// Notes at its place what was seen of a file, where there is such a place.
pub fn note_seen<A: Allocator, S: ByteSource>(
    seen: &mut [Seen],
    place: usize,
    reader: &DatagramReader<A, S>,
)
    ensures there { place < length seen.old
        → seen.new ≡ slice_set seen.old place (seen_of reader.now) }
    ensures past { length seen.old ≤ place → seen.new ≡ seen.old }
{
    if place < seen.len() {
        seen[place] = Seen::of(reader);
    }
}

/// Whether a datagram of a flow came, where it is asked for.
fn came(flow: Option<Flow>, has_come: bool) -> Option<bool>
    ensures { result ≡ came_by flow has_come }
{
    match flow {
        Some(_) => Some(has_come),
        None => None,
    }
}

/// Whether a flow came in one of two files, where it was asked for.
fn either(one: Option<bool>, other: Option<bool>) -> Option<bool>
    ensures { result ≡ either_by one other }
{
    match (one, other) {
        (Some(one), Some(other)) => Some(one || other),
        (Some(one), None) => Some(one),
        (None, other) => other,
    }
}
