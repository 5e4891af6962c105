//! A file of datagrams as a source of datagrams.
ghost use Rattle.std.specs.Prelude.{◌≡◌, ◌≤◌, ◌<◌, ◌↔◌, ◌++◌, None, Some, Ok, Err, true, false};
ghost use Rattle.std.specs.Prelude.{IfErr, IfOk, IfSome, IsSome, OnErr, OnOk, MatchResult};
ghost use Rattle.std.specs.Prelude.{length, take};
ghost use Rattle.std.specs.Option.{option_map};
ghost use Rattle.recording_reader.specs.FileReader.{CountsDeviceAt, FindsFault, FindsRecord};
ghost use Rattle.recording_reader.specs.FileReader.{HasGivenFile, HasGivenRecords, IsExact};
ghost use Rattle.recording_reader.specs.FileReader.{IsNewFileReader, IsSameFile};
ghost use Rattle.recording_reader.specs.FileReader.{TellsNext, TellsTurn, fault_of, last_fault_of};
ghost use Rattle.recording_reader.specs.FileReader.{octets_at_hand, record_seen};
ghost use Rattle.recording_reader.specs.Files.{CountsReading, HaveFileRecords, datagrams_of};
ghost use Rattle.recording_reader.specs.Files.{has_path, source_fault};
ghost use Rattle.recording_reader.specs.Opening.{CountsOpening, IsByFlows, StopsOpening};
ghost use Rattle.recording_reader.specs.declared.fault.ReadingFault.{ReadingFault as Wrong};
ghost use Rattle.recording_reader.specs.declared.way.Standing.TheVariants.{Reads, Ended, Failed};
ghost use Rattle.st_format.specs.Device.{CountsFaults};
ghost use Rattle.st_format.specs.History.{GrewFrom, since};
ghost use Rattle.st_format.specs.Turns.{CountsTurn, IsEnd, IsWithin, TakesTurn, arrived};

use crate::came::Came;
use crate::fault::{FileOpeningFault, ReadingFault};
use crate::opening::begin;
use crate::record::read_record;
use crate::room::{RecordView, Room};
use crate::way::{FileKind, Standing};
use flow::Flows;
use media_file::FileFault;
use pcap_file::RecordingFault;
use recording_counts::LeftOut;
use st_format::{ByteSource, DatagramSource, Path, SourceFault, Turn};
use std::alloc::Allocator;
use std::marker::Model;
use std::snapshot::Snapshot;

/// Gives the datagrams of a file, one after the other, from a source of octets, which it owns; of
/// one that is lent, `&mut S`, it owns the loan. The file is a capture, or by its first four octets
/// a recording of another tool: of its packets those are given that are datagrams of the flows of
/// two paths, and others are left out, and counted by why.
///
/// [`DatagramReader::advance`] goes on to the next datagram and copies nothing: what it found is
/// borrowed where it lies, until the next call. [`DatagramSource::next`] puts it into a buffer: of
/// a recording it copies a datagram's octets once.
///
/// After the end it answers the end, and after a fault that fault: it then asks the source for
/// nothing more. As a source of datagrams it tells a fault of the file as one of the content, by
/// its number; [`DatagramReader::fault`] names it.
#[derive(Drop)]
pub struct DatagramReader<A: Allocator, S: ByteSource> {
    source: S,
    /// The source as it was before the file's first octet. Only proofs see it.
    opened: Snapshot<S>,
    /// The source as it was behind the last datagram. Only proofs see it.
    last: Snapshot<S>,
    flows: Option<Flows>,
    text_len: usize,
    way: FileKind,
    room: Room<A>,
    came: Came,
    standing: Standing,
    delivered: u64,
    failures: u64,
}

impl<A: Allocator, S: ByteSource> Model for DatagramReader<A, S> {
    ghost use Rattle.std.specs.Prelude.{vec_len};
    ghost use Rattle.recording_reader.specs.FileReader.{FileReader};
    ghost use Rattle.recording_reader.specs.Files.{records_of_file, text_of_file};
    ghost use Rattle.recording_reader.specs.Reading.{entry_there};
    ghost use Rattle.recording_reader.specs.Sound.{IsSound};
    ghost use Rattle.recording_reader.specs.Ways.{is_recording_way, left_out_by};
    ghost use Rattle.st_format.specs.History.{since};

    ghost Value = { FileReader S };

    ghost view = { λ r. record {
      source = r.source;
      before = record {
        gave = S.gave r.opened.value;
        to_give = S.to_give r.opened.value;
        failures = S.failures r.opened.value;
      };
      flows = r.flows;
      is_recording = is_recording_way r.way;
      text = text_of_file (since (S.gave r.opened.value) (S.gave r.last.value));
      standing = r.standing;
      records = records_of_file r.flows (since (S.gave r.opened.value) (S.gave r.last.value));
      at_hand = entry_there r.room.found r.room.octets.items;
      left_out = left_out_by r.way;
      delivered = r.delivered;
      failures = r.failures;
    } };

    ghost invariant = { λ r. IsSound r.way r.flows r.standing (S.gave r.opened.value)
        (S.gave r.source) (S.ended r.source)
        (text_of_file (since (S.gave r.opened.value) (S.gave r.last.value)))
        (records_of_file r.flows (since (S.gave r.opened.value) (S.gave r.last.value)))
        r.room.found (vec_len r.room.octets) r.came r.text_len };
}

impl<A: Allocator, S: ByteSource> DatagramReader<A, S> {
    /// Begins to read a file: reads what stands before all records. A recording is taken by the
    /// flows of the paths. The text of a capture then stands at the front of `text`, which has room
    /// for any, 65,535 octets; [`DatagramReader::text_len`] tells its length, 0 of a recording.
    /// What `text` holds behind it, or after a fault, is not said.
    ///
    /// Takes room for a capture's record, 65,535 octets, or for a recording's packet, 1,048,576,
    /// and none later.
    ///
    /// # Errors
    ///
    /// The fault, and the source as it then is. In this order:
    ///
    /// - `Reading(Capture(Device))`: the source failed within the first four octets.
    /// - `Reading(Capture(Truncated))`: there are fewer.
    /// - `NoFlows`: it is a recording, and `flows` are none.
    /// - `NoMemory`: the room was refused.
    /// - `Reading(Recording(f))` of a recording: `Device`, `Truncated`, `BadMagic` where a section
    ///   has no order, `BadVersion`, `BadBlock` where the lengths of the first block don't fit.
    /// - `Reading(Capture(f))` of all else: `Device`, `Truncated`, `BadName`, `BadVersion`.
    pub fn open(
        alloc: A,
        flows: Option<Flows>,
        mut source: S,
        text: &mut [u8],
    ) -> Result<DatagramReader<A, S>, (FileOpeningFault, S)>
        requires { 65535 ≤ length text.old }
        ensures room { length text.new ≡ length text.old }
        ensures reader { IfOk result (λ r. IsNewFileReader flows r) }
        ensures text { IfOk result (λ r. take (length r.text) text.new ≡ r.text) }
        ensures short { IfOk result (λ r. length r.text < 65536) }
        ensures before { IfOk result (λ r. r.before ≡ record {
          gave = S.gave source;
          to_give = S.to_give source;
          failures = S.failures source;
        }) }
        // By what was read the file's front has no fault; or it is at fault, by this one.
        ensures known { IfOk result (λ r. HasGivenFile S.gave S.ended r) }
        ensures fault { IfErr result
            (λ e. StopsOpening flows (S.gave source) (S.gave e.1) (S.ended e.1) e.0) }
        ensures by_flows { IfErr result (λ e. IsByFlows flows e.0) }
        ensures counted { MatchResult result (λ r. S.failures r.source ≡ S.failures source)
            (λ e. CountsOpening e.0 (S.failures source) (S.failures e.1)) }
        ensures names { MatchResult result (λ r. S.names r.source ≡ S.names source)
            (λ e. S.names e.1 ≡ S.names source) }
    {
        let opened = Snapshot::of(&source);
        match begin(alloc, flows, &mut source, text) {
            Ok(begun) => {
                let last = Snapshot::of(&source);
                Ok(DatagramReader {
                    source,
                    opened,
                    last,
                    flows,
                    text_len: begun.text_len,
                    way: begun.way,
                    room: begun.room,
                    came: Came::none(),
                    standing: Standing::Reads,
                    delivered: 0,
                    failures: 0,
                })
            }
            Err(fault) => Err((fault, source)),
        }
    }

    /// Goes on to the next datagram, and answers whether there is one. It is then at hand:
    /// [`DatagramReader::record`] and the like borrow it until the next call.
    ///
    /// # Errors
    ///
    /// The file's first fault, where it has one before the next datagram: all datagrams before it
    /// were given. `Device` comes only where the source failed in this call, or where it was the
    /// fault before.
    ///
    /// - `Capture` of a capture: `Device`; `Truncated` and `BadField` by what stands behind the
    ///   records.
    /// - `Recording` of a recording: `Device`, `Truncated`, `BadMagic`, `BadVersion`, `BadBlock`,
    ///   `BadInterface`, `TooManyInterfaces`, `BadTime`; `PacketTooLong` where a packet has more
    ///   than 1,048,576 octets; `TooManyBlocks`.
    pub fn advance(&mut self) -> Result<bool, ReadingFault>
        ensures found { IfOk result (λ is_one. FindsRecord is_one self.old self.new) }
        ensures fault { IfErr result (λ f. FindsFault f self.old self.new) }
        ensures device { self.old.standing ≡ Reads
            → CountsReading (S.failures self.old.source) (S.failures self.new.source) result }
        ensures counted { CountsFaults self.old.failures self.new.failures result }
        ensures same { IsSameFile self.old self.new }
        ensures names { S.names self.new.source ≡ S.names self.old.source }
        // After the end comes the end, and after a fault the same fault. The source is asked for
        // nothing.
        ensures ended { self.old.standing ≡ Ended
            → (result ≡ Ok false) × (self.new.source ≡ self.old.source) }
        ensures failed { (f : Wrong) → self.old.standing ≡ Failed f
            → (result ≡ Err f) × (self.new.source ≡ self.old.source) }
    {
        match self.standing {
            Standing::Ended => return Ok(false),
            Standing::Failed(fault) => {
                self.failures = self.failures.saturating_add(1);
                return Err(fault);
            }
            Standing::Reads => {}
        }
        match self.room.advance(&mut self.way, &mut self.source) {
            Ok(Some(path)) => {
                self.last = Snapshot::of(&self.source);
                self.came.note(path);
                self.delivered = self.delivered.saturating_add(1);
                Ok(true)
            }
            Ok(None) => {
                self.standing = Standing::Ended;
                Ok(false)
            }
            Err(fault) => {
                self.standing = Standing::Failed(fault);
                self.failures = self.failures.saturating_add(1);
                Err(fault)
            }
        }
    }

    /// The datagram at hand, with its path and its moment: the last one, where the last call found
    /// one.
    pub fn record(&self) -> Option<RecordView<'_>>
        ensures seen { record_seen result ≡ self.now.at_hand }
        ensures few { IfSome result (λ r. length r.octets.now ≤ 65535) }
    {
        self.room.record()
    }

    /// The path by which the datagram at hand came.
    pub fn path(&self) -> Option<Path>
        ensures { result ≡ option_map (λ e. e.path) self.now.at_hand }
    {
        self.room.path()
    }

    /// The moment of the datagram at hand. A recording's is nanoseconds since 1970, or 0 where it
    /// doesn't say one; a capture's is what its writer handed in.
    pub fn moment(&self) -> Option<u64>
        ensures { result ≡ option_map (λ e. e.moment) self.now.at_hand }
    {
        self.room.moment()
    }

    /// The octets of the datagram at hand; none where there is none.
    pub fn octets(&self) -> &[u8]
        ensures { result.now ≡ octets_at_hand self.now.at_hand }
    {
        self.room.octets()
    }

    /// How many octets the file's text has.
    pub fn text_len(&self) -> usize
        ensures { result ≡ length self.now.text }
    {
        self.text_len
    }

    /// Whether the file is a recording; else it is a capture.
    pub fn is_recording(&self) -> bool
        ensures { result ≡ self.now.is_recording }
    {
        self.way.is_recording()
    }

    /// The flows of the paths by which a recording is taken.
    pub fn flows(&self) -> Option<Flows>
        ensures { result ≡ self.now.flows }
    {
        self.flows
    }

    /// Whether a datagram came by a path so far.
    pub fn has_path(&self, path: Path) -> bool
        ensures { result ≡ has_path path self.now.records }
    {
        self.came.has(path)
    }

    /// The packets that were left out so far, by why; of a capture none.
    pub fn left_out(&self) -> LeftOut
        ensures { result ≡ self.now.left_out }
    {
        self.way.left_out()
    }

    /// The fault at which it stays, if it came to one.
    pub fn fault(&self) -> Option<ReadingFault>
        ensures { result ≡ fault_of self.now.standing }
    {
        match self.standing {
            Standing::Failed(fault) => Some(fault),
            _ => None,
        }
    }

    /// The source that it reads.
    pub fn source(&self) -> &S
        ensures { result.now ≡ self.now.source }
    {
        &self.source
    }

    /// By where the reader stands, what it gave is what the octets have that its source gave since
    /// it was opened, whatever is behind them. A caller's proof learns it from here; nothing is
    /// done.
    #[doc(hidden)]
    #[inline(always)]
    pub fn history(&self)
        ensures known { HasGivenFile S.gave S.ended self.now }
        // The octets that the source gave have these records, and no other.
        ensures given { IsExact self.now.standing → HaveFileRecords self.now.flows
            (since self.now.before.gave (S.gave self.now.source)) self.now.records
            self.now.left_out }
        // So have those of a capture, wherever the reader stands.
        ensures of_capture { self.now.is_recording ≡ false → HaveFileRecords self.now.flows
            (since self.now.before.gave (S.gave self.now.source)) self.now.records
            self.now.left_out }
        // Those octets begin with its front and the text of its records.
        ensures parts { self.now.is_recording ≡ false → HasGivenRecords S.gave S.ended self.now }
        // A recording is read by flows.
        ensures by_flows { self.now.is_recording ≡ true → IsSome self.now.flows }
        ensures grown { GrewFrom self.now.before.gave (S.gave self.now.source) }
    {
        let _failures = &self.failures;
    }

    /// Gives the source back, as it then is.
    pub fn into_inner(self) -> S
        ensures source { result ≡ self.source }
        ensures known { HasGivenFile S.gave S.ended self }
    {
        self.source
    }

    /// Tells the datagram at hand, and puts its octets at the front of `buf`, or tells the end
    /// where there is none.
    fn tell(&self, buf: &mut [u8]) -> Turn
        requires { 65535 ≤ length buf.old }
        ensures room { length buf.new ≡ length buf.old }
        ensures told { TellsTurn self.now.at_hand result buf.new }
    {
        match self.record() {
            Some(record) => {
                let count = record.octets.len();
                buf[..count].copy_from_slice(record.octets);
                Turn::Datagram(record.path, count)
            }
            None => Turn::End,
        }
    }

    /// Reads on to the next datagram, and copies it into `buf`. None is at hand then.
    fn copy_next(&mut self, buf: &mut [u8]) -> Result<Turn, ReadingFault>
        requires room { 65535 ≤ length buf.old }
        requires reads { self.old.standing ≡ Reads }
        ensures room { length buf.new ≡ length buf.old }
        ensures told { IfOk result (λ t. TellsNext t buf.new self.old self.new) }
        ensures fault { IfErr result (λ f. FindsFault f self.old self.new) }
        ensures device { CountsReading (S.failures self.old.source) (S.failures self.new.source)
            result }
        ensures counted { CountsFaults self.old.failures self.new.failures result }
        ensures same { IsSameFile self.old self.new }
        ensures names { S.names self.new.source ≡ S.names self.old.source }
    {
        match self.advance() {
            Ok(_) => {
                let turn = self.tell(buf);
                self.room.found = None;
                Ok(turn)
            }
            Err(fault) => Err(fault),
        }
    }

    /// Reads the next record of a capture into `buf`, where its octets stand from the front on.
    /// None is at hand then.
    fn read_next(&mut self, buf: &mut [u8]) -> Result<Turn, ReadingFault>
        requires room { 65535 ≤ length buf.old }
        requires reads { self.old.standing ≡ Reads }
        requires kind { self.old.is_recording ≡ false }
        ensures room { length buf.new ≡ length buf.old }
        ensures told { IfOk result (λ t. TellsNext t buf.new self.old self.new) }
        ensures fault { IfErr result (λ f. FindsFault f self.old self.new) }
        ensures device { CountsReading (S.failures self.old.source) (S.failures self.new.source)
            result }
        ensures counted { CountsFaults self.old.failures self.new.failures result }
        ensures same { IsSameFile self.old self.new }
        ensures names { S.names self.new.source ≡ S.names self.old.source }
    {
        self.room.found = None;
        match read_record(&mut self.source, buf) {
            Ok(Some(found)) => {
                self.last = Snapshot::of(&self.source);
                self.came.note(found.path);
                self.delivered = self.delivered.saturating_add(1);
                Ok(Turn::Datagram(found.path, found.end))
            }
            Ok(None) => {
                self.standing = Standing::Ended;
                Ok(Turn::End)
            }
            Err(fault) => {
                let wrong = ReadingFault::Capture(fault);
                self.standing = Standing::Failed(wrong);
                self.failures = self.failures.saturating_add(1);
                Err(wrong)
            }
        }
    }

    /// Tells the next datagram, whose octets then stand at the front of `buf`, or the end. None is
    /// at hand then. A capture's record is read there, and a recording's copied from its packet.
    fn take_next(&mut self, buf: &mut [u8]) -> Result<Turn, ReadingFault>
        requires { 65535 ≤ length buf.old }
        ensures room { length buf.new ≡ length buf.old }
        ensures told { IfOk result (λ t. TellsNext t buf.new self.old self.new) }
        ensures fault { IfErr result (λ f. FindsFault f self.old self.new) }
        ensures device { self.old.standing ≡ Reads
            → CountsReading (S.failures self.old.source) (S.failures self.new.source) result }
        ensures counted { CountsFaults self.old.failures self.new.failures result }
        ensures same { IsSameFile self.old self.new }
        ensures names { S.names self.new.source ≡ S.names self.old.source }
        ensures ended { self.old.standing ≡ Ended
            → (result ≡ Ok Turn.End) × (self.new.source ≡ self.old.source) }
        ensures failed { (f : Wrong) → self.old.standing ≡ Failed f
            → (result ≡ Err f) × (self.new.source ≡ self.old.source) }
    {
        match self.standing {
            Standing::Ended => return Ok(Turn::End),
            Standing::Failed(fault) => {
                self.failures = self.failures.saturating_add(1);
                return Err(fault);
            }
            Standing::Reads => {}
        }
        if self.is_recording() {
            return self.copy_next(buf);
        }
        self.read_next(buf)
    }
}

/// A fault as a source of datagrams tells it.
fn told(fault: ReadingFault) -> SourceFault
    ensures { result ≡ source_fault fault }
{
    match fault {
        ReadingFault::Capture(FileFault::Device) => SourceFault::Device,
        ReadingFault::Recording(RecordingFault::Device) => SourceFault::Device,
        ReadingFault::Capture(other) => SourceFault::Content(other.number()),
        ReadingFault::Recording(other) => SourceFault::Content(other.number()),
    }
}

impl<A: Allocator, S: ByteSource> DatagramSource for DatagramReader<A, S> {
    ghost turns = { λ _. None };

    ghost came = { λ r. datagrams_of r.records };

    ghost ended = { λ r. r.standing ≡ Ended };

    ghost delivered = { λ r. r.delivered };

    ghost failures = { λ r. r.failures };

    ghost last_fault = { λ r. last_fault_of r.standing };

    ghost before = { λ r. r.before };

    ghost names = { λ r. S.names r.source };

    /// Tells the next datagram, or the end. What was once the end or a fault stays it.
    fn next(&mut self, buf: &mut [u8]) -> Result<Turn, SourceFault>
        requires { 65535 ≤ length buf.old }
        ensures room { length buf.new ≡ length buf.old }
        ensures within { IfOk result (λ t. IsWithin t) }
        ensures turn { IfOk result (λ t. TakesTurn None None t buf.new) }
        ensures delivered { MatchResult result
            (λ t. CountsTurn t self.old.delivered self.new.delivered)
            (λ _. self.new.delivered ≡ self.old.delivered) }
        ensures counted { CountsFaults self.old.failures self.new.failures result }
        ensures last { IfErr result (λ e. last_fault_of self.new.standing ≡ Some e) }
        ensures blameless { OnOk result
            (last_fault_of self.new.standing ≡ last_fault_of self.old.standing) }
        ensures before { self.new.before ≡ self.old.before }
        ensures names { S.names self.new.source ≡ S.names self.old.source }
        ensures came { IfOk result (λ t. datagrams_of self.new.records
            ≡ datagrams_of self.old.records ++ arrived t buf.new) }
        ensures told { IfOk result (λ t. (self.new.standing ≡ Ended) ↔ IsEnd t) }
        ensures kept { OnErr result
            (datagrams_of self.new.records ≡ datagrams_of self.old.records) }

        // The datagram is that of the record which was found; none is at hand then.
        ensures found { IfOk result (λ t. TellsNext t buf.new self.old self.new) }
        // A fault is the one at which the reader stays.
        ensures fault { IfErr result
            (λ e. (f : Wrong) × (e ≡ source_fault f) × FindsFault f self.old self.new) }
        ensures same { IsSameFile self.old self.new }
        // A fault of the device comes only where the source failed in this call.
        ensures device { self.old.standing ≡ Reads → CountsDeviceAt self.new.standing
            (S.failures self.old.source) (S.failures self.new.source) }
        // After the end comes the end, and after a fault the same fault. The source is asked for
        // nothing.
        ensures ended { self.old.standing ≡ Ended
            → (result ≡ Ok Turn.End) × (self.new.source ≡ self.old.source) }
        ensures failed { (f : Wrong) → self.old.standing ≡ Failed f
            → (result ≡ Err (source_fault f)) × (self.new.standing ≡ Failed f)
            × (self.new.source ≡ self.old.source) }
    {
        match self.take_next(buf) {
            Ok(turn) => Ok(turn),
            Err(fault) => Err(told(fault)),
        }
    }
}
