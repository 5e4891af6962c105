//! A capture as a sink of datagrams.
ghost use Rattle.std.specs.Prelude.{◌≡◌, ◌≤◌, ◌<◌, ◌+◌, ◌%◌, ◌^◌, ◌++◌, ◌∷◌, [], Some, length};
ghost use Rattle.std.specs.Prelude.{IfErr, IfOk, IsErr, OnErr, OnOk, MatchResult, false};
ghost use Rattle.std.specs.Io.KnownBytes.{Appends, IsAtEnd, Keeps};
ghost use Rattle.st_format.specs.Device.{AppendsPrefix, CountsFaults, CountsOne, GrowsPart};
ghost use Rattle.st_format.specs.Device.{KeepsAll, StaysUntold, TakesOne};
ghost use Rattle.st_format.specs.History.{GrewFrom, since};
ghost use Rattle.media_file.specs.Faults.{CountsFault, IsDevice};
ghost use Rattle.media_file.specs.Fronts.{front_text};
ghost use Rattle.media_file.specs.Records.{records_text};
ghost use Rattle.media_file.specs.Source.{IfTold};
ghost use Rattle.media_file.specs.Writer.{FailsDatagram, StandsWritten, TakesDatagram};
ghost use Rattle.media_file.specs.Writer.{entries_of, taken_of, took_of};
ghost use Rattle.media_file.specs.declared.front.Version.TheVariants.{Two};

use crate::fault::FileFault;
use crate::paths::Paths;
use crate::writing::{write_front, write_record};
use st_format::{ByteSink, DatagramSink, DeviceFault, Path, SinkFault};
use std::marker::Model;
use std::snapshot::Snapshot;

/// Writes a capture of the datagrams that it takes into a sink of octets, which it owns; of one
/// that is lent, `&mut K`, it owns the loan. For each datagram it writes a record by each of its
/// paths, whose moment is the record's index from 0, modulo 2^64.
///
/// After a fault it takes nothing more, and the sink is asked for nothing.
#[derive(Drop)]
pub struct CaptureWriter<K: ByteSink> {
    sink: K,
    /// The sink as it was before the capture. Only proofs see it.
    opened: Snapshot<K>,
    paths: Paths,
    text_len: usize,
    moment: u64,
    failed: bool,
    failures: u64,
}

impl<K: ByteSink> Model for CaptureWriter<K> {
    ghost use Rattle.std.specs.Prelude.{◌<◌, ◌^◌, Some};
    ghost use Rattle.st_format.specs.History.{GrewFrom, since};
    ghost use Rattle.media_file.specs.Writer.{StandsWritten, Writer};

    ghost Value = { Writer K };

    ghost view = { λ w. record {
      sink = w.sink;
      before = K.took w.opened.value;
      place =
          record { paths = w.paths; text_len = w.text_len; moment = w.moment; failed = w.failed };
      failures = w.failures;
    } };

    ghost invariant = { λ w. (w.moment < 2 ^ 64)
        × StandsWritten
        (record { paths = w.paths; text_len = w.text_len; moment = w.moment; failed = w.failed })
        (K.held w.sink)
        × GrewFrom (K.took w.opened.value) (K.took w.sink)
        × StandsWritten
        (record { paths = w.paths; text_len = w.text_len; moment = w.moment; failed = w.failed })
        (Some (since (K.took w.opened.value) (K.took w.sink))) };
}

/// Writes the records of a datagram, the first of this moment.
fn write_datagram<K: ByteSink>(
    sink: &mut K,
    paths: Paths,
    moment: u64,
    octets: &[u8],
) -> Result<(), DeviceFault>
    requires { length octets.now ≤ 65535 }
    ensures ok { OnOk result
        (Appends (K.held sink.old) (K.held sink.new)
        (records_text (entries_of paths moment octets.now))) }
    ensures fault { OnErr result
        (AppendsPrefix (K.held sink.old) (K.held sink.new)
        (records_text (entries_of paths moment octets.now))) }
    ensures untold { StaysUntold (K.held sink.old) (K.held sink.new) }
    ensures counted { CountsFaults (K.failures sink.old) (K.failures sink.new) result }
    ensures names { K.names sink.new ≡ K.names sink.old }
    ensures took { OnOk result (K.took sink.new
        ≡ K.took sink.old ++ records_text (entries_of paths moment octets.now)) }
    ensures part { OnErr result (GrowsPart (K.took sink.old) (K.took sink.new)
        (records_text (entries_of paths moment octets.now))) }
{
    match paths {
        Paths::OnlyA => write_record(sink, Path::A, moment, octets),
        Paths::OnlyB => write_record(sink, Path::B, moment, octets),
        Paths::Both => {
            write_record(sink, Path::A, moment, octets)?;
            write_record(sink, Path::B, moment.wrapping_add(1), octets)
        }
    }
}

impl<K: ByteSink> CaptureWriter<K> {
    /// Begins to write a capture with this text, of at most 65,535 octets, into a sink that holds
    /// nothing.
    ///
    /// # Errors
    ///
    /// `Device` where the sink failed, and the sink as it then is: it holds some first part of the
    /// front.
    pub fn open(mut sink: K, paths: Paths, text: &[u8]) -> Result<CaptureWriter<K>, (FileFault, K)>
        requires text { length text.now ≤ 65535 }
        requires empty { IsAtEnd (K.held sink) }
        ensures ok { IfOk result
            (λ w. Appends (K.held sink) (K.held w.sink) (front_text Two text.now)) }
        ensures place { IfOk result
            (λ w. w.place
            ≡ record { paths = paths; text_len = length text.now; moment = 0; failed = false }) }
        ensures tells { IfOk result
            (λ w. IfTold (K.held sink)
            (λ _. ⟦<CaptureWriter<K> as DatagramSink>⟧.taken w ≡ Some [])) }
        ensures failures { IfOk result (λ w. w.failures ≡ 0) }
        ensures fault { IfErr result
            (λ e. IsDevice e.0
            × AppendsPrefix (K.held sink) (K.held e.1) (front_text Two text.now)) }
        ensures counted { MatchResult result (λ w. K.failures w.sink ≡ K.failures sink)
            (λ e. CountsFault e.0 (K.failures sink) (K.failures e.1)) }
        ensures names { MatchResult result (λ w. K.names w.sink ≡ K.names sink)
            (λ e. K.names e.1 ≡ K.names sink) }
        ensures took { MatchResult result
            (λ w. K.took w.sink ≡ K.took sink ++ front_text Two text.now)
            (λ e. GrowsPart (K.took sink) (K.took e.1) (front_text Two text.now)) }
        ensures before { IfOk result (λ w. w.before ≡ K.took sink) }
        ensures new { IfOk result (λ w. ⟦<CaptureWriter<K> as DatagramSink>⟧.took w ≡ []) }
    {
        let opened = Snapshot::of(&sink);
        match write_front(&mut sink, text) {
            Ok(()) => Ok(CaptureWriter {
                sink,
                opened,
                paths,
                text_len: text.len(),
                moment: 0,
                failed: false,
                failures: 0,
            }),
            Err(fault) => Err((fault.into(), sink)),
        }
    }

    /// Gives the sink back, as it then is. After no fault it holds the capture of a text and of the
    /// datagrams that the writer took, if it tells what it holds.
    pub fn into_inner(self) -> K
        ensures sink { result ≡ self.sink }
        ensures whole { StandsWritten self.place (K.held result) }
        // The same holds of what the sink took since the writer began.
        ensures grew { GrewFrom self.before (K.took result) }
        ensures took { StandsWritten self.place (Some (since self.before (K.took result))) }
    {
        self.sink
    }

    /// One failure more, which is told of.
    fn fail(&mut self) -> Result<(), SinkFault>
        ensures fault { IsErr result }
        ensures sink { self.new.sink ≡ self.old.sink }
        ensures place { self.new.place ≡ self.old.place }
        ensures before { self.new.before ≡ self.old.before }
        ensures counted { CountsOne self.old.failures self.new.failures }
    {
        self.failures = self.failures.saturating_add(1);
        Err(SinkFault)
    }
}

impl<K: ByteSink> DatagramSink for CaptureWriter<K> {
    ghost taken = { λ w. taken_of w.place (K.held w.sink) };

    ghost took = { λ w. took_of w.place (since w.before (K.took w.sink)) };

    ghost failures = { λ w. w.failures };

    ghost takes = { λ old octets new.
        TakesDatagram K.held K.took K.failures K.names old octets new };

    ghost fails = { λ old octets new.
        FailsDatagram K.held K.took K.failures K.names old octets new };

    /// Writes the datagram's records, one for each of the writer's paths.
    fn put(&mut self, octets: &[u8]) -> Result<(), SinkFault>
        requires { length octets.now ≤ 65535 }
        ensures taken { OnOk result
            (TakesOne (taken_of self.old.place (K.held self.old.sink))
            (taken_of self.new.place (K.held self.new.sink)) octets.now) }
        ensures fault { OnErr result
            (KeepsAll (taken_of self.old.place (K.held self.old.sink))
            (taken_of self.new.place (K.held self.new.sink))) }
        ensures counted { CountsFaults self.old.failures self.new.failures result }
        ensures took { OnOk result
            (took_of self.new.place (since self.new.before (K.took self.new.sink))
            ≡ took_of self.old.place (since self.old.before (K.took self.old.sink))
            ++ octets.now ∷ []) }
        ensures kept { OnErr result
            (took_of self.new.place (since self.new.before (K.took self.new.sink))
            ≡ took_of self.old.place (since self.old.before (K.took self.old.sink))) }
        ensures before { self.new.before ≡ self.old.before }
        // What is written: all records of the datagram, or after a fault a first part of them. A
        // fault comes only where the sink failed in this call, or the writer had failed before.
        // After a fault nothing is written.
        ensures takes { OnOk result
            (TakesDatagram K.held K.took K.failures K.names self.old octets.now self.new) }
        ensures fails { OnErr result
            (FailsDatagram K.held K.took K.failures K.names self.old octets.now self.new) }
    {
        if self.failed {
            return self.fail();
        }
        match write_datagram(&mut self.sink, self.paths, self.moment, octets) {
            Ok(()) => {
                self.moment = self.moment.wrapping_add(self.paths.width());
                Ok(())
            }
            Err(_) => {
                self.failed = true;
                self.fail()
            }
        }
    }
}
