//! One of the files that are read side by side.
ghost use Rattle.std.specs.Prelude.{◌≡◌, ◌≤◌, ◌<◌, None, Some, IfErr, IfOk, MatchOption, OnErr};
ghost use Rattle.std.specs.Prelude.{OnOk};
ghost use Rattle.std.specs.Prelude.{IfSome, length, take};
ghost use Rattle.recording_engines.specs.Files.{HasKnownOctets, IsClosed, ended_by, failures_by};
ghost use Rattle.recording_engines.specs.Files.{gave_by, is_recording_file, next_entry, source_of};
ghost use Rattle.recording_reader.specs.FileReader.{IsSameFile, TellsTurn, fault_of};
ghost use Rattle.recording_reader.specs.FileReader.{octets_at_hand, record_seen};
ghost use Rattle.recording_reader.specs.Opening.{CountsOpening, IsByFlows, StopsOpening};
ghost use Rattle.side_by_side.specs.Side.{AccountsFor, GivesDatagram, IsNewSide, IsSoundSide};
ghost use Rattle.side_by_side.specs.Side.{IsUnfailed, IsUnfailedFile, ReadsFile, ReadsReader};
ghost use Rattle.side_by_side.specs.Side.{ComesToFault, ReadsSide, StopsReader, StopsSide};
ghost use Rattle.side_by_side.specs.Side.{begun_at};
ghost use Rattle.side_by_side.specs.Side.{closed_side, going_found};

use crate::going::Going;
use crate::steering::{Steering, stamp_of};
use flow::Flows;
use recording_engines::ImportFile;
use recording_reader::{DatagramReader, FileOpeningFault, ReadingFault, RecordView};
use st_format::{ByteSource, Turn};
use std::alloc::Allocator;
use std::mem;

/// One of the files that are read side by side: a capture, or a recording of another tool.
#[derive(Drop)]
pub struct Side<A: Allocator, S: ByteSource> {
    /// Its source, or what reads it.
    pub file: ImportFile<A, S>,
    /// When its next datagram goes.
    pub going: Going,
}

impl<A: Allocator, S: ByteSource> Side<A, S> {
    /// A file of this source, which isn't opened yet.
    pub fn closed(source: S) -> Side<A, S>
        ensures { result ≡ closed_side source }
    {
        Side {
            file: ImportFile::Closed(source),
            going: Going::Unread,
        }
    }

    /// Its source; none while it is opened.
    pub fn source(&self) -> Option<&S>
        ensures { MatchOption result (source_of self.now.file ≡ None)
            (λ s. source_of self.now.file ≡ Some s.now) }
    {
        self.file.source()
    }

    /// Whether it is opened, and a recording of another tool.
    pub fn is_recording(&self) -> bool
        ensures { result ≡ is_recording_file self.now.file }
    {
        self.file.is_recording()
    }

    /// Reads on to its next datagram, or to its end, where that isn't read yet. One that isn't
    /// opened has none.
    ///
    /// # Errors
    ///
    /// Its fault, where it has one before the next datagram; it stays there.
    #[tactic(auto, using(crate::proofs::Reading::read_stays))]
    pub(crate) fn read_on(&mut self, steering: Steering) -> Result<(), ReadingFault>
        requires { IsSoundSide steering self.old }
        ensures begun { begun_at self.new.file ≡ begun_at self.old.file }
        ensures read { OnOk result (ReadsSide steering self.old self.new) }
        ensures fault { IfErr result (λ f. StopsSide f self.old self.new) }
        ensures device { IsUnfailed self.old → AccountsFor result
            (failures_by S.failures self.old.file) (failures_by S.failures self.new.file) }
    {
        if self.going.is_read() {
            return Ok(());
        }
        self.read_unread(steering)
    }

    /// The same where that isn't read yet.
    fn read_unread(&mut self, steering: Steering) -> Result<(), ReadingFault>
        requires unread { self.old.going ≡ Going.Unread }
        ensures begun { begun_at self.new.file ≡ begun_at self.old.file }
        ensures read { OnOk result (ReadsSide steering self.old self.new) }
        ensures fault { IfErr result (λ f. StopsSide f self.old self.new) }
        ensures device { IsUnfailed self.old → AccountsFor result
            (failures_by S.failures self.old.file) (failures_by S.failures self.new.file) }
    {
        let going = read_file(steering, &mut self.file)?;
        self.going = going;
        Ok(())
    }

    /// The datagram that its reader has at hand, where it has one; none before it is opened.
    fn at_hand(&self) -> Option<RecordView<'_>>
        ensures seen { record_seen result
            ≡ next_entry self.now.file }
        ensures few { IfSome result (λ r. length r.octets.now ≤ 65535) }
    {
        match &self.file {
            ImportFile::Open(reader) => reader.record(),
            ImportFile::Closed(_) => None,
            ImportFile::Taken => None,
        }
    }

    /// The octets of the datagram at hand; none where there is none.
    pub(crate) fn octets(&self) -> &[u8]
        ensures octets { result.now ≡ octets_at_hand (next_entry self.now.file) }
        ensures few { length result.now ≤ 65535 }
    {
        match self.at_hand() {
            Some(record) => record.octets,
            None => &[],
        }
    }

    /// Tells the datagram at hand, and puts its octets at the front of `buf`, or tells the end
    /// where there is none.
    pub(crate) fn tell(&self, buf: &mut [u8]) -> Turn
        requires { 65535 ≤ length buf.old }
        ensures room { length buf.new ≡ length buf.old }
        ensures told { TellsTurn (next_entry self.now.file) result buf.new }
    {
        match self.at_hand() {
            Some(record) => {
                let count = record.octets.len();
                buf[..count].copy_from_slice(record.octets);
                Turn::Datagram(record.path, count)
            }
            None => Turn::End,
        }
    }

    /// Gives the datagram that it has at hand: what comes behind it is unread then. Its reader has
    /// it at hand until it is read on.
    pub(crate) fn give(&mut self)
        ensures given { GivesDatagram self.old self.new }
    {
        self.going = Going::Unread;
    }
}

impl<A: Allocator, S: ByteSource + Drop> Side<A, S> {
    /// Opens it: begins to read it, by flows where it is a recording, and answers how many octets
    /// its text has, which then stands at the front of `text`. Takes room for a record or a packet.
    ///
    /// # Errors
    ///
    /// As [`DatagramReader::open`]. It isn't opened then, and its source is as it is.
    pub fn open(
        &mut self,
        alloc: A,
        flows: Option<Flows>,
        text: &mut [u8],
    ) -> Result<usize, FileOpeningFault>
        requires closed { IsClosed self.old.file }
        requires text { 65535 ≤ length text.old }
        ensures room { length text.new ≡ length text.old }
        ensures opened { IfOk result (λ count. IsNewSide flows (gave_by S.gave self.old.file)
            (take count text.new) self.new) }
        ensures few { IfOk result (λ count. count < 65536) }
        ensures known { OnOk result (HasKnownOctets S.gave S.ended self.new.file) }
        ensures stays { OnErr result (IsClosed self.new.file) }
        ensures fault { IfErr result (λ f. StopsOpening flows (gave_by S.gave self.old.file)
            (gave_by S.gave self.new.file) (ended_by S.ended self.new.file) f) }
        ensures by_flows { IfErr result (λ f. IsByFlows flows f) }
        ensures counted { IfErr result (λ f. CountsOpening f
            (failures_by S.failures self.old.file) (failures_by S.failures self.new.file)) }
        ensures unfailed { OnOk result (failures_by S.failures self.new.file
            ≡ failures_by S.failures self.old.file) }
    {
        let ImportFile::Closed(source) = mem::replace(&mut self.file, ImportFile::Taken) else {
            return Ok(0);
        };
        let (file, opened) = open_source(alloc, flows, source, text);
        self.file = file;
        self.going = Going::Unread;
        opened
    }
}

/// A file of this source with its reader, and how many octets its text has; or with the source
/// alone, and why it isn't opened.
fn open_source<A: Allocator, S: ByteSource>(
    alloc: A,
    flows: Option<Flows>,
    source: S,
    text: &mut [u8],
) -> (ImportFile<A, S>, Result<usize, FileOpeningFault>)
    requires { 65535 ≤ length text.old }
    ensures room { length text.new ≡ length text.old }
    ensures opened { IfOk result.1 (λ count. IsNewSide flows (S.gave source)
        (take count text.new) (record { file = result.0; going = Going.Unread })) }
    ensures few { IfOk result.1 (λ count. count < 65536) }
    ensures known { OnOk result.1 (HasKnownOctets S.gave S.ended result.0) }
    ensures stays { OnErr result.1 (IsClosed result.0) }
    ensures fault { IfErr result.1 (λ f. StopsOpening flows (S.gave source)
        (gave_by S.gave result.0) (ended_by S.ended result.0) f) }
    ensures by_flows { IfErr result.1 (λ f. IsByFlows flows f) }
    ensures counted { IfErr result.1 (λ f. CountsOpening f
        (S.failures source) (failures_by S.failures result.0)) }
    ensures unfailed { OnOk result.1 (failures_by S.failures result.0 ≡ S.failures source) }
{
    match DatagramReader::open(alloc, flows, source, text) {
        Ok(reader) => {
            let count = reader.text_len();
            reader.history();
            (ImportFile::Open(reader), Ok(count))
        }
        Err((fault, source)) => (ImportFile::Closed(source), Err(fault)),
    }
}

/// Reads a file on to its next datagram, or to its end, and answers when that goes. One that isn't
/// opened has none.
#[tactic(auto, using(crate::proofs::Reading::file_begun))]
fn read_file<A: Allocator, S: ByteSource>(
    steering: Steering,
    file: &mut ImportFile<A, S>,
) -> Result<Going, ReadingFault>
    ensures begun { begun_at file.new ≡ begun_at file.old }
    ensures read { IfOk result (λ w. ReadsFile steering w file.old file.new) }
    ensures fault { IfErr result (λ f. ComesToFault f file.old file.new) }
    ensures device { IsUnfailedFile file.old → AccountsFor result
        (failures_by S.failures file.old) (failures_by S.failures file.new) }
{
    match file {
        ImportFile::Open(reader) => read_reader(steering, reader),
        ImportFile::Closed(_) => Ok(Going::Never),
        ImportFile::Taken => Ok(Going::Never),
    }
}

/// Reads on to a reader's next datagram, or to the end, and answers when that goes.
fn read_reader<A: Allocator, S: ByteSource>(
    steering: Steering,
    reader: &mut DatagramReader<A, S>,
) -> Result<Going, ReadingFault>
    ensures same { IsSameFile reader.old reader.new }
    ensures read { IfOk result (λ w. ReadsReader steering w reader.old reader.new) }
    ensures fault { IfErr result (λ f. StopsReader f reader.old reader.new) }
    ensures device { fault_of reader.old.standing ≡ None → AccountsFor result
        (S.failures reader.old.source) (S.failures reader.new.source) }
{
    match reader.advance() {
        Ok(is_one) => Ok(going_found(steering, is_one, reader.octets())),
        Err(fault) => Err(fault),
    }
}

/// When what was found goes: a datagram of these octets, or the end.
fn going_found(steering: Steering, is_one: bool, octets: &[u8]) -> Going
    ensures { result ≡ going_found steering is_one octets.now }
{
    if is_one {
        Going::of(stamp_of(steering, octets))
    } else {
        Going::Never
    }
}
