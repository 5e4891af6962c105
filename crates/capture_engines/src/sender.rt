//! Sending pictures into a capture.
ghost use Rattle.std.specs.Prelude.{◌≡◌, ◌≤◌, ◌⊎◌, ◌∷◌, [], false, length, IfErr, OnOk};
ghost use Rattle.packet_plan.specs.Sender.{stamp_of};
ghost use Rattle.run_outcome.specs.Fault.{Accounts, counts};
ghost use Rattle.run_outcome.specs.Refusing.{OfRefusal};
ghost use Rattle.run_outcome.specs.declared.fault.Fault.TheVariants.{Device, Refused};
ghost use Rattle.run_outcome.specs.declared.refusal.Refusal.TheVariants.{SendFormats};

use media_file::{CaptureWriter, Paths};
use packet_plan::{Plan, Raster, Stamp, send_frame};
use run_outcome::{Fault, Refusal};
use st_format::{ByteSink, Format};
use std::alloc::Allocator;

/// What `send` is asked for, beside its files.
#[derive(Clone, Copy)]
pub struct Sending {
    /// The payload type, at most 127.
    pub payload_type: u8,
    /// The number of the first packet; numbers run on modulo 2^32 (RFC 4175, 4.1).
    pub first: u32,
    /// The timestamp of the first picture, in ticks of a 90 kHz clock.
    pub base: u32,
    /// The synchronization source.
    pub ssrc: u32,
    /// The most octets of a packet, its RTP header among them: up to 9000.
    pub max_octets: u32,
    /// The paths by which each packet goes.
    pub paths: Paths,
}

/// A capture that pictures of one format are sent into, by one plan.
#[derive(Drop)]
pub struct Sender<A: Allocator, K: ByteSink> {
    plan: Plan<A>,
    pub writer: CaptureWriter<K>,
    wanted: Sending,
    /// The number of the next packet.
    next: u32,
    /// How many datagrams were sent.
    pub sent: u64,
    ghost payload_type: { wanted.payload_type ≤ 127 },
}

impl<A: Allocator, K: ByteSink> Sender<A, K> {
    ghost use Rattle.capture_engines.specs.SentPart.{StopsNext};
    ghost use Rattle.capture_engines.specs.Sending.{SendsNext, run_sender};

    /// Nothing was sent yet.
    pub fn new(plan: Plan<A>, writer: CaptureWriter<K>, wanted: Sending) -> Sender<A, K>
        requires { wanted.payload_type ≤ 127 }
        ensures writer { result.writer ≡ writer }
        ensures plan { result.plan ≡ plan }
        ensures wanted { result.wanted ≡ wanted }
        ensures next { result.next ≡ wanted.first }
        ensures sent { result.sent ≡ 0 }
    {
        Sender {
            plan,
            writer,
            wanted,
            next: wanted.first,
            sent: 0,
        }
    }

    /// Sends the picture of this place, whose samples are numbers or packed.
    ///
    /// # Errors
    ///
    /// `SendFormats` where it is of another format than the plan, and nothing is written; else that
    /// the sink failed, which has the records before the fault.
    pub fn send<R: Raster>(&mut self, picture: &R, place: u32, buf: &mut [u8]) -> Result<(), Fault>
        requires room { length buf.old ≡ 65535 }
        requires stands { self.old.writer.place.failed ≡ false }
        ensures room { length buf.new ≡ 65535 }
        ensures stands { OnOk result (self.new.writer.place.failed ≡ false) }
        ensures plan { self.new.plan ≡ self.old.plan }
        // The capture has the records of the picture's datagrams, as frame `place`.
        ensures sent { OnOk result
            (SendsNext K.took (R.values picture.now) place self.old self.new) }
        ensures refusal { IfErr result (λ f. OfRefusal f
            (λ r. (r ≡ SendFormats)
            × ((R.values picture.now).format ≡ self.old.plan.format → ⊥))) }
        // No memory is asked for.
        ensures others { IfErr result (λ f. (f ≡ Refused SendFormats) ⊎ (f ≡ Device)) }
        // Where the sink failed, the capture has a first part of these records.
        ensures part { IfErr result (StopsNext K.took K.failures (R.values picture.now) place
            self.old self.new) }
        ensures failures { Accounts result (counts (K.failures self.old.writer.sink)
            (K.failures self.new.writer.sink) ∷ []) }
        ensures names { K.names self.new.writer.sink ≡ K.names self.old.writer.sink }
    {
        let format = self.plan.format();
        if !picture.format().same(&format) {
            return Err(Fault::Refused(Refusal::SendFormats));
        }
        let stamp = self.stamp(&format, place);
        let count = self.plan.len();
        let Ok(next) = send_frame(&self.plan, picture, stamp, buf, &mut self.writer) else {
            return Err(Fault::Device);
        };
        self.next = next;
        self.sent = self.sent.saturating_add(u64::from(count));
        Ok(())
    }

    /// Gives the capture's sink back, as it then is.
    pub fn into_sink(self) -> K
        ensures { result ≡ self.writer.sink }
    {
        self.writer.into_inner()
    }

    /// The stamp of the picture of this place, whose packets go on from the next number.
    fn stamp(&self, format: &Format, place: u32) -> Stamp
        ensures value { result ≡ stamp_of (run_sender format.now self.now.wanted) place
            self.now.next }
        ensures payload_type { result.payload_type ≤ 127 }
    {
        Stamp {
            payload_type: self.wanted.payload_type,
            first: self.next,
            timestamp: format.timestamp(self.wanted.base, place),
            ssrc: self.wanted.ssrc,
        }
    }
}
