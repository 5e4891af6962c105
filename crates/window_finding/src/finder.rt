//! Timestamps that come, and of which file's datagrams.
ghost use Rattle.std.specs.Prelude.{◌≡◌, ◌≤◌, ◌++◌, ◌∷◌, ◌↔◌, [], ℕ, List, IfErr, IfOk, IsTrue};
ghost use Rattle.std.specs.Prelude.{OnOk, length, take};
ghost use Rattle.std.specs.List.{cons_option};
ghost use Rattle.capture_engines.specs.Files.{octets_of};
ghost use Rattle.capture_engines.specs.Received.{IsOpeningRefusal};
ghost use Rattle.capture_engines.specs.Stopping.{IsWithinTaken};
ghost use Rattle.recording_reader.specs.FileReader.{IsSameFile};
ghost use Rattle.recording_reader.specs.declared.way.Standing.TheVariants.{Reads};
ghost use Rattle.run_outcome.specs.Fault.{Accounts, counts};
ghost use Rattle.run_outcome.specs.Refusing.{OfRefusal};
ghost use Rattle.window_finding.specs.Finding.{AnnouncesType};
ghost use Rattle.window_finding.specs.First.{distinct, first_timestamps, timestamp_in};
ghost use Rattle.window_finding.specs.Turns.{IsDone, IsStop};

use media_file::{FileFault, MOST_RECORDS};
use recording_reader::DatagramReader;
use rtp_header::read_rtp;
use run_outcome::{Fault, of_capture, of_reading};
use sdp_format::read_located;
use st_format::ByteSource;
use std::alloc::{AllocError, Allocator};

/// How many of the first timestamps are sought, and of which source.
#[derive(Clone, Copy)]
pub struct Sought {
    /// How many different timestamps.
    pub count: u32,
    /// The one source whose datagrams are looked at, where one is asked for.
    pub ssrc: Option<u32>,
}

/// Timestamps that came so far, each once, in the order in which they came.
#[derive(Drop)]
pub(crate) struct Finder<A: Allocator> {
    pub sought: Sought,
    pub payload_type: u8,
    pub window: Vec<u32, A>,
}

/// The timestamp of a datagram that has a header with this payload type, and this source where one
/// is asked for.
#[tactic(auto, unfolding(crate::specs::First::timestamp_in))]
fn timestamp_of(payload_type: u8, ssrc: Option<u32>, octets: &[u8]) -> Option<u32>
    ensures { timestamp_in payload_type ssrc octets.now ≡ cons_option result [] }
{
    let Ok(header) = read_rtp(octets) else {
        return None;
    };
    if header.payload_type != payload_type {
        return None;
    }
    if let Some(asked) = ssrc
        && asked != header.ssrc
    {
        return None;
    }
    Some(header.timestamp)
}

impl<A: Allocator + Copy> Finder<A> {
    /// Nothing was found yet, by the payload type that an SDP text says.
    pub fn open(alloc: A, sought: Sought, sdp: &[u8]) -> Result<Finder<A>, Fault>
        ensures sought { IfOk result (λ s. s.sought ≡ sought) }
        ensures announced { IfOk result (λ s. AnnouncesType sdp.now s.payload_type) }
        ensures none { IfOk result (λ s. s.window.items ≡ []) }
        ensures refusal { IfErr result (λ f. OfRefusal f (IsOpeningRefusal (0 ∷ []) sdp.now)) }
        ensures failures { Accounts result [] }
    {
        let said = read_located(alloc, sdp)?;
        Ok(Finder {
            sought,
            payload_type: said.payload_type,
            window: Vec::new(alloc),
        })
    }
}

impl<A: Allocator> Finder<A> {
    /// Whether as many were found as are sought.
    pub fn is_full(&self) -> bool
        ensures { IsTrue result ↔ (self.now.sought.count ≤ length self.now.window.items) }
    {
        self.window.len() >= self.sought.count as usize
    }

    /// Takes a timestamp, where it is new and more are sought.
    fn add(&mut self, timestamp: u32) -> Result<(), AllocError>
        ensures sought { self.new.sought ≡ self.old.sought }
        ensures payload_type { self.new.payload_type ≡ self.old.payload_type }
        ensures added { OnOk result ((ts : List ℕ)
            → self.old.window.items ≡ take self.old.sought.count (distinct ts)
            → self.new.window.items
            ≡ take self.old.sought.count (distinct (ts ++ timestamp ∷ []))) }
    {
        if self.is_full() || self.window.contains(&timestamp) {
            return Ok(());
        }
        self.window.push(timestamp)?;
        Ok(())
    }

    /// Takes the timestamp of a datagram, where it comes.
    fn note(&mut self, octets: &[u8]) -> Result<(), AllocError>
        ensures sought { self.new.sought ≡ self.old.sought }
        ensures payload_type { self.new.payload_type ≡ self.old.payload_type }
        ensures noted { OnOk result ((datagrams : List (List ℕ)) → self.old.window.items
            ≡ first_timestamps self.old.sought.count self.old.payload_type self.old.sought.ssrc
            datagrams → self.new.window.items
            ≡ first_timestamps self.old.sought.count self.old.payload_type self.old.sought.ssrc
            (datagrams ++ octets.now ∷ [])) }
    {
        match timestamp_of(self.payload_type, self.sought.ssrc, octets) {
            Some(timestamp) => self.add(timestamp),
            None => Ok(()),
        }
    }

    /// Takes the timestamps of a file whose reader has just been opened, until as many are found as
    /// are sought, or to its end.
    ///
    /// A file that has not ended after 16,777,216 datagrams, with fewer, is refused, and so is one
    /// that is at fault.
    pub fn find_in<B: Allocator, S: ByteSource>(
        &mut self,
        reader: &mut DatagramReader<B, S>,
    ) -> Result<(), Fault>
        requires reads { reader.old.standing ≡ Reads }
        requires none { reader.old.records ≡ [] }
        ensures sought { self.new.sought ≡ self.old.sought }
        ensures payload_type { self.new.payload_type ≡ self.old.payload_type }
        ensures done { OnOk result (IsDone reader.new.standing
            (self.old.sought.count ≤ length self.new.window.items)) }
        ensures found { OnOk result ((datagrams : List (List ℕ)) → self.old.window.items
            ≡ first_timestamps self.old.sought.count self.old.payload_type self.old.sought.ssrc
            datagrams → self.new.window.items
            ≡ first_timestamps self.old.sought.count self.old.payload_type self.old.sought.ssrc
            (datagrams ++ octets_of reader.new.records)) }
        ensures stop { IfErr result
            (IsStop reader.new.standing (length reader.new.records)) }
        ensures within { IsWithinTaken reader.new.standing (length reader.new.records) }
        ensures same { IsSameFile reader.old reader.new }
        ensures failures { Accounts result (counts (S.failures reader.old.source)
            (S.failures reader.new.source) ∷ []) }
        ensures names { S.names reader.new.source ≡ S.names reader.old.source }
    {
        for _ in 0..MOST_RECORDS {
            if self.is_full() {
                return Ok(());
            }
            match reader.advance() {
                Ok(true) => self.note(reader.octets())?,
                Ok(false) => return Ok(()),
                Err(fault) => return Err(of_reading(fault)),
            }
        }
        Err(of_capture(FileFault::TooManyRecords))
    }
}
