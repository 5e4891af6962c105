//! Taking the datagrams of files into one receiver.
ghost use Rattle.std.specs.Prelude.{◌≡◌, ◌<◌, ◌∷◌, [], length, option_to_list, IfErr, IfOk, OnOk};
ghost use Rattle.capture_engines.specs.Files.{octets_of};
ghost use Rattle.capture_engines.specs.Received.{IsOpeningRefusal, Opens, WantsOpening};
ghost use Rattle.capture_engines.specs.Stopping.{IsReadingStop, IsWithinTaken};
ghost use Rattle.capture_engines.specs.Taking.{AnnouncesStream, TakesDatagrams};
ghost use Rattle.path_receiver.specs.Tallied.{Tallies};
ghost use Rattle.path_receiver.specs.Frames.{Holds};
ghost use Rattle.recording_reader.specs.FileReader.{IsSameFile};
ghost use Rattle.recording_reader.specs.declared.way.Standing.TheVariants.{Reads, Ended};
ghost use Rattle.run_outcome.specs.Fault.{Accounts, counts};
ghost use Rattle.run_outcome.specs.Refusing.{OfRefusal};

use media_file::{FileFault, MOST_RECORDS};
use path_receiver::{Observer, Receiver, Tally};
use recording_reader::DatagramReader;
use run_outcome::{Fault, of_capture, of_reading};
use sdp_format::read_located;
use st_format::{ByteSource, Path};
use std::alloc::Allocator;

/// A receiver, and what it was given.
#[derive(Drop)]
pub(crate) struct Intake<A: Allocator> {
    pub receiver: Receiver<A>,
    pub tally: Tally,
    /// How many datagrams were delivered.
    pub delivered: u64,
}

impl<A: Allocator + Copy> Intake<A> {
    /// A receiver of what an SDP text says, for a source and a window.
    pub fn open(alloc: A, sdp: &[u8], ssrc: Option<u32>, window: &[u32]) -> Result<Intake<A>, Fault>
        ensures window { IfOk result (λ s. s.receiver.opening.window ≡ window.now) }
        ensures ssrc { IfOk result (λ s. s.receiver.opening.ssrc ≡ ssrc) }
        // Its format and its payload type are those that the text says.
        ensures announced { IfOk result (λ s. AnnouncesStream sdp.now s.receiver.opening) }
        ensures holds { IfOk result (λ s. Holds s.receiver []) }
        ensures tallied { IfOk result (λ s. Tallies s.tally []) }
        ensures delivered { IfOk result (λ s. s.delivered ≡ 0) }
        ensures opens { OnOk result (Opens window.now sdp.now) }
        ensures refusal { IfErr result (λ f. OfRefusal f
            (IsOpeningRefusal window.now sdp.now)) }
        ensures memory { IfErr result (λ f. f ≡ Fault.Memory → WantsOpening window.now sdp.now) }
        ensures failures { Accounts result [] }
    {
        let said = read_located(alloc, sdp)?;
        let receiver = Receiver::open(alloc, said.format, said.payload_type, ssrc, window)?;
        Ok(Intake {
            receiver,
            tally: Tally::new(),
            delivered: 0,
        })
    }
}

impl<A: Allocator> Intake<A> {
    fn take(&mut self, path: Path, octets: &[u8])
        ensures { TakesDatagrams (octets.now ∷ []) self.old self.new }
    {
        let answer = self.receiver.take(path, octets);
        self.tally.note(answer);
        self.delivered = self.delivered.saturating_add(1);
    }

    fn take_at_hand<B: Allocator, S: ByteSource>(&mut self, reader: &DatagramReader<B, S>)
        ensures { TakesDatagrams (octets_of (option_to_list reader.now.at_hand)) self.old
            self.new }
    {
        if let Some(record) = reader.record() {
            self.take(record.path, record.octets);
        }
    }

    /// Takes all datagrams of a file whose reader has just been opened.
    ///
    /// A file that has not ended after 16,777,216 datagrams is refused, and so is one that is at
    /// fault; what it gave before is taken.
    pub fn take_records<B: Allocator, S: ByteSource>(
        &mut self,
        reader: &mut DatagramReader<B, S>,
    ) -> Result<(), Fault>
        requires reads { reader.old.standing ≡ Reads }
        requires none { reader.old.records ≡ [] }
        // After a fault too: the receiver has the datagrams of the records that were read.
        ensures taken { TakesDatagrams (octets_of reader.new.records) self.old self.new }
        ensures ended { OnOk result (reader.new.standing ≡ Ended) }
        ensures few { OnOk result (length reader.new.records < 16777216) }
        ensures stop { IfErr result
            (IsReadingStop reader.new.standing (length reader.new.records)) }
        ensures within { IsWithinTaken reader.new.standing (length reader.new.records) }
        ensures same { IsSameFile reader.old reader.new }
        ensures failures { Accounts result (counts (S.failures reader.old.source)
            (S.failures reader.new.source) ∷ []) }
        ensures names { S.names reader.new.source ≡ S.names reader.old.source }
    {
        for _ in 0..MOST_RECORDS {
            match reader.advance() {
                Ok(true) => self.take_at_hand(reader),
                Ok(false) => return Ok(()),
                Err(fault) => return Err(of_reading(fault)),
            }
        }
        Err(of_capture(FileFault::TooManyRecords))
    }
}
