//! A file of `import`: its source, or what reads it.
ghost use Rattle.std.specs.Prelude.{◌≡◌, ◌≤◌, ◌∷◌, [], None, Some, IfErr, IfSome, MatchOption};
ghost use Rattle.std.specs.Prelude.{OnOk, length};
ghost use Rattle.std.specs.Option.{option_map};
ghost use Rattle.recording_engines.specs.Files.{IsReading, ReadsFileOn, ReadsToFault, begun_of};
ghost use Rattle.recording_engines.specs.Files.{failures_by, is_recording_file, next_entry};
ghost use Rattle.recording_engines.specs.Files.{source_of};
ghost use Rattle.recording_reader.specs.FileReader.{record_seen};
ghost use Rattle.run_outcome.specs.Fault.{Accounts, counts};

use recording_reader::{DatagramReader, RecordView};
use run_outcome::{Fault, of_reading};
use st_format::ByteSource;
use std::alloc::Allocator;

/// A file that is read by the flows of the paths: a capture, or a recording of another tool, told
/// by its first octets.
#[derive(Drop)]
pub enum ImportFile<A: Allocator, S: ByteSource> {
    /// Its source, where it isn't opened yet.
    Closed(S),
    /// What reads it, one record ahead.
    Open(DatagramReader<A, S>),
    /// Neither, while it is opened.
    Taken,
}

impl<A: Allocator, S: ByteSource> ImportFile<A, S> {
    /// Its source; none while it is opened.
    pub fn source(&self) -> Option<&S>
        ensures { MatchOption result (source_of self.now ≡ None)
            (λ s. source_of self.now ≡ Some s.now) }
    {
        match self {
            ImportFile::Closed(source) => Some(source),
            ImportFile::Open(reader) => Some(reader.source()),
            ImportFile::Taken => None,
        }
    }

    /// Whether it is opened, and a recording of another tool.
    pub fn is_recording(&self) -> bool
        ensures { result ≡ is_recording_file self.now }
    {
        match self {
            ImportFile::Closed(_) => false,
            ImportFile::Open(reader) => reader.is_recording(),
            ImportFile::Taken => false,
        }
    }

    /// The record that its reader has at hand, where it has one; none before it is opened.
    pub(crate) fn next(&self) -> Option<RecordView<'_>>
        ensures seen { record_seen result ≡ next_entry self.now }
        ensures few { IfSome result (λ r. length r.octets.now ≤ 65535) }
    {
        match self {
            ImportFile::Closed(_) => None,
            ImportFile::Open(reader) => reader.record(),
            ImportFile::Taken => None,
        }
    }

    pub(crate) fn next_moment(&self) -> Option<u64>
        ensures { result ≡ option_map (λ e. e.moment) (next_entry self.now) }
    {
        match self {
            ImportFile::Closed(_) => None,
            ImportFile::Open(reader) => reader.moment(),
            ImportFile::Taken => None,
        }
    }

    /// Reads on behind the record that comes next, to the one behind it or to the end.
    ///
    /// # Errors
    ///
    /// The file's fault, where it has one before the next record, and that its source failed.
    #[tactic(auto, using(crate::proofs::Going::reading_on))]
    pub(crate) fn go_on(&mut self) -> Result<(), Fault>
        requires { IsReading self.old }
        ensures begun { begun_of self.new ≡ begun_of self.old }
        ensures read { OnOk result (ReadsFileOn self.old self.new) }
        ensures stopped { IfErr result (λ f. ReadsToFault f self.old self.new) }
        ensures failures { Accounts result (counts (failures_by S.failures self.old)
            (failures_by S.failures self.new) ∷ []) }
    {
        match self {
            ImportFile::Closed(_) => Ok(()),
            ImportFile::Open(reader) => match reader.advance() {
                Ok(_) => Ok(()),
                Err(fault) => Err(of_reading(fault)),
            },
            ImportFile::Taken => Ok(()),
        }
    }
}
