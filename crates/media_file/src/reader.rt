//! A capture as a source of datagrams.
ghost use Rattle.std.specs.Prelude.{◌≡◌, ◌≤◌, ◌<◌, ◌↔◌, ◌++◌, Some, Ok, Err, length, take};
ghost use Rattle.std.specs.Prelude.{IfErr, IfOk, IfSome, OnErr, OnOk, MatchOption, MatchResult};
ghost use Rattle.std.specs.Io.KnownBytes.{IsAtEnd};
ghost use Rattle.st_format.specs.Device.{CountsFaults, CountsOne};
ghost use Rattle.st_format.specs.History.{since};
ghost use Rattle.st_format.specs.Turns.{CountsTurn, IsEnd, IsWithin, TakesTurn, arrived, came_of};
ghost use Rattle.media_file.specs.Faults.{CountsDevice, CountsFault, IsOfFront};
ghost use Rattle.media_file.specs.Fields.{Fails, GaveFault};
ghost use Rattle.st_format.specs.Given.{GaveValue, Takes};
ghost use Rattle.media_file.specs.Fronts.{front_at};
ghost use Rattle.media_file.specs.Given.{GivesNone, HasGiven};
ghost use Rattle.media_file.specs.Reader.{CountsDeviceAt, GivesRecord, IsNewReader, StandsAfter};
ghost use Rattle.media_file.specs.Reader.{StandsAtFault, StandsRight, last_fault_of};
ghost use Rattle.media_file.specs.Reader.{dues_in, source_fault, turns_of};
ghost use Rattle.media_file.specs.Records.{entry_of, record_text};
ghost use Rattle.media_file.specs.Source.{FailsRecord, ReadsEnd, ReadsRecord};
ghost use Rattle.media_file.specs.declared.fault.FileFault.{FileFault};
ghost use Rattle.media_file.specs.declared.reader.Standing.TheVariants.{Reads, Ended, Failed};

use crate::fault::FileFault;
use crate::front::read_front;
use crate::record::RecordHead;
use crate::steps::{record_begins, record_rest};
use st_format::{ByteSource, DatagramSource, SourceFault, Turn};
use std::marker::Model;
use std::snapshot::Snapshot;

/// How far a reader has come.
#[derive(Clone, Copy)]
pub enum Standing {
    /// At the front of a record or at the end, which one isn't known.
    Reads,
    /// It has told the end, and tells it at each later call.
    Ended,
    /// It came to a fault, and tells it at each later call.
    Failed(FileFault),
}

/// Gives the datagrams of a capture, one record after the other, from a source of octets, which it
/// owns; of one that is lent, `&mut S`, it owns the loan.
///
/// After the end it answers the end, and after a fault that fault: it then asks the source for
/// nothing more.
#[derive(Drop)]
pub struct CaptureReader<S: ByteSource> {
    source: S,
    /// The source as it was when the records began. Only proofs see it.
    opened: Snapshot<S>,
    text_len: usize,
    standing: Standing,
    delivered: u64,
    failures: u64,
}

impl<S: ByteSource> Model for CaptureReader<S> {
    ghost use Rattle.media_file.specs.Fields.{Fails};
    ghost use Rattle.st_format.specs.Given.{Takes};
    ghost use Rattle.media_file.specs.Fronts.{front_at};
    ghost use Rattle.media_file.specs.Given.{HasGiven};
    ghost use Rattle.media_file.specs.Reader.{Reader, StandsRight};

    ghost Value = { Reader S };

    ghost view = { λ r. record {
      source = r.source;
      before = record {
        gave = S.gave r.opened.value;
        to_give = S.to_give r.opened.value;
        failures = S.failures r.opened.value;
      };
      text_len = r.text_len;
      standing = r.standing;
      delivered = r.delivered;
      failures = r.failures;
    } };

    ghost invariant = { λ r. StandsRight r.standing r.delivered
        (record {
          gave = S.gave r.opened.value;
          to_give = S.to_give r.opened.value;
          failures = S.failures r.opened.value;
        })
        (S.to_give r.source) (S.failures r.source)
        × HasGiven r.standing
        (record {
          gave = S.gave r.opened.value;
          to_give = S.to_give r.opened.value;
          failures = S.failures r.opened.value;
        })
        (S.to_give r.source) (S.gave r.source) (S.ended r.source) };
}

/// Reads the next record, or answers `None` at the end.
fn read_record<S: ByteSource>(
    source: &mut S,
    buf: &mut [u8],
) -> Result<Option<RecordHead>, FileFault>
    requires { 65535 ≤ length buf.old }
    ensures room { length buf.new ≡ length buf.old }
    ensures within { IfOk result (λ r. IfSome r (λ h. h.length < 65536)) }
    ensures read { IfOk result (λ r. MatchOption r
        (ReadsEnd (S.to_give source.old) (S.to_give source.new))
        (λ h. ReadsRecord (S.to_give source.old) (S.to_give source.new) (entry_of h buf.new))) }
    ensures fault { IfErr result (λ f. FailsRecord f (S.to_give source.old)) }
    ensures counted { CountsDevice (S.failures source.old) (S.failures source.new) result }
    ensures names { S.names source.new ≡ S.names source.old }
    ensures gave { IfOk result (λ r. MatchOption r
        ((S.gave source.new ≡ S.gave source.old) × S.ended source.new)
        (λ h. S.gave source.new ≡ S.gave source.old ++ record_text (entry_of h buf.new))) }
    ensures wrong { IfErr result (λ f. GivesNone f (S.to_give source.old) (S.to_give source.new)
        (S.gave source.old) (S.gave source.new)) }
    ensures cut { IfErr result (λ f. f ≡ FileFault.Truncated → S.ended source.new) }
{
    let Some(first) = record_begins(source)? else {
        return Ok(None);
    };
    Ok(Some(record_rest(source, first, buf)?))
}

impl<S: ByteSource> CaptureReader<S> {
    /// Begins to read a capture. Its text then stands at the front of `text`, which has room for
    /// any, 65,535 octets; `text_len` tells its length. What `text` holds behind it, or after a
    /// fault, is not said.
    ///
    /// # Errors
    ///
    /// The fault, and the source as it then is.
    ///
    /// - `Device`: the source failed.
    /// - `Truncated`: the octets end within name and version, or within the text.
    /// - `BadName`: it is no capture.
    /// - `BadVersion`: its version is neither 01 nor 02.
    pub fn open(mut source: S, text: &mut [u8]) -> Result<CaptureReader<S>, (FileFault, S)>
        requires { 65535 ≤ length text.old }
        ensures room { length text.new ≡ length text.old }
        ensures reader { IfOk result (λ r. IsNewReader r) }
        ensures text_len { IfOk result (λ r. r.text_len < 65536) }
        // The text, and what the source is left with, are those of the octets that it was to give,
        // and a fault is their first.
        ensures read { IfOk result
            (λ r. Takes front_at (S.to_give source) (S.to_give r.source)
            (take r.text_len text.new)) }
        ensures fault { IfErr result (λ e. IsOfFront e.0 × Fails front_at (S.to_give source) e.0) }
        // So it is of the octets that it gave, of every source, whatever is behind them.
        ensures gave { IfOk result (λ r. GaveValue front_at (S.gave source) (S.gave r.source)
            (take r.text_len text.new)) }
        ensures gave_wrong { IfErr result
            (λ e. GaveFault front_at (S.gave source) (S.gave e.1) (S.ended e.1) e.0) }
        ensures counted { MatchResult result (λ r. S.failures r.source ≡ S.failures source)
            (λ e. CountsFault e.0 (S.failures source) (S.failures e.1)) }
        // The records begin where the text ends.
        ensures before { IfOk result (λ r. r.before ≡ record {
          gave = S.gave r.source;
          to_give = S.to_give r.source;
          failures = S.failures r.source;
        }) }
        ensures names { MatchResult result (λ r. S.names r.source ≡ S.names source)
            (λ e. S.names e.1 ≡ S.names source) }
    {
        match read_front(&mut source, text) {
            Ok(text_len) => {
                let opened = Snapshot::of(&source);
                Ok(CaptureReader {
                    source,
                    opened,
                    text_len,
                    standing: Standing::Reads,
                    delivered: 0,
                    failures: 0,
                })
            }
            Err(fault) => Err((fault, source)),
        }
    }

    /// How many octets the capture's text has: at most 65,535.
    pub fn text_len(&self) -> usize
        ensures { result ≡ self.now.text_len }
    {
        self.text_len
    }

    /// By where the reader stands, its source gave whole records up to here, up to its end, or up
    /// to a fault. A caller's proof learns it from here; nothing is done.
    #[doc(hidden)]
    #[inline(always)]
    pub fn facts(&self)
        ensures { StandsRight self.now.standing self.now.delivered self.now.before
            (S.to_give self.now.source) (S.failures self.now.source) }
    {
        let _text_len = &self.text_len;
    }

    /// By where the reader stands, its source gave whole records since they began, and behind
    /// them nothing, or after a fault what is no record. A caller's proof learns it from here;
    /// nothing is done.
    #[doc(hidden)]
    #[inline(always)]
    pub fn history(&self)
        ensures { HasGiven self.now.standing self.now.before (S.to_give self.now.source)
            (S.gave self.now.source) (S.ended self.now.source) }
    {
        let _text_len = &self.text_len;
    }

    /// Gives the source back, as it then is: by where the reader stands it gave whole records up to
    /// here, up to its end, or up to a fault.
    pub fn into_inner(self) -> S
        ensures source { result ≡ self.source }
        ensures stands { StandsRight self.standing self.delivered self.before (S.to_give result)
            (S.failures result) }
        ensures gave { HasGiven self.standing self.before (S.to_give result) (S.gave result)
            (S.ended result) }
    {
        self.source
    }
}

/// A fault as a source of datagrams tells it: one of the content by its number.
fn told(fault: FileFault) -> SourceFault
    ensures { result ≡ source_fault fault }
{
    match fault {
        FileFault::Device => SourceFault::Device,
        other => SourceFault::Content(other.number()),
    }
}

impl<S: ByteSource> DatagramSource for CaptureReader<S> {
    ghost turns = { λ r. turns_of r.standing (S.to_give r.source) };

    ghost came = { λ r. came_of (dues_in (since r.before.gave (S.gave r.source))) };

    ghost ended = { λ r. r.standing ≡ Ended };

    ghost delivered = { λ r. r.delivered };

    ghost failures = { λ r. r.failures };

    ghost last_fault = { λ r. last_fault_of r.standing };

    ghost before = { λ r. r.before };

    ghost names = { λ r. S.names r.source };

    /// Tells the next record's datagram, or the end. What was once the end or a fault stays it.
    fn next(&mut self, buf: &mut [u8]) -> Result<Turn, SourceFault>
        requires { 65535 ≤ length buf.old }
        ensures room { length buf.new ≡ length buf.old }
        ensures within { IfOk result (λ t. IsWithin t) }
        ensures turn { IfOk result
            (λ t. TakesTurn (turns_of self.old.standing (S.to_give self.old.source))
            (turns_of self.new.standing (S.to_give self.new.source)) t buf.new) }
        ensures delivered { MatchResult result
            (λ t. CountsTurn t self.old.delivered self.new.delivered)
            (λ _. self.new.delivered ≡ self.old.delivered) }
        ensures counted { CountsFaults self.old.failures self.new.failures result }
        ensures last { IfErr result (λ e. last_fault_of self.new.standing ≡ Some e) }
        ensures blameless { OnOk result
            (last_fault_of self.new.standing ≡ last_fault_of self.old.standing) }
        ensures before { self.new.before ≡ self.old.before }
        ensures names { S.names self.new.source ≡ S.names self.old.source }
        ensures came { IfOk result
            (λ t. came_of (dues_in (since self.new.before.gave (S.gave self.new.source)))
            ≡ came_of (dues_in (since self.old.before.gave (S.gave self.old.source)))
            ++ arrived t buf.new) }
        ensures told { IfOk result (λ t. (self.new.standing ≡ Ended) ↔ IsEnd t) }
        ensures kept { OnErr result
            (came_of (dues_in (since self.new.before.gave (S.gave self.new.source)))
            ≡ came_of (dues_in (since self.old.before.gave (S.gave self.old.source)))) }

        // Each turn but the last is a record. The end comes only where no octet is left.
        ensures goes { IfOk result
            (λ t. StandsAfter t self.new.standing (S.to_give self.new.source)) }
        // A datagram is that of the record at the front of the octets to come.
        ensures given { self.old.standing ≡ Reads → IfOk result
            (λ t. GivesRecord t (S.to_give self.old.source) (S.to_give self.new.source)) }
        // A fault of the content is what is wrong at the front of the octets to come: all records
        // before it are delivered. One of the device comes only where the source failed in this
        // call.
        ensures fault { self.old.standing ≡ Reads
            → OnErr result (StandsAtFault self.new.standing (S.to_give self.old.source)) }
        ensures device { self.old.standing ≡ Reads
            → CountsDeviceAt self.new.standing (S.failures self.old.source)
            (S.failures self.new.source) }
        // After the end comes the end, and after a fault the same fault. The source is asked for
        // nothing.
        ensures ended { self.old.standing ≡ Ended → (result ≡ Ok Turn.End) × (self.new ≡ self.old) }
        ensures failed { (f : FileFault) → self.old.standing ≡ Failed f
            → (result ≡ Err (source_fault f)) × (self.new.standing ≡ Failed f)
            × (self.new.source ≡ self.old.source) }
        ensures text_len { self.new.text_len ≡ self.old.text_len }
    {
        match self.standing {
            Standing::Ended => return Ok(Turn::End),
            Standing::Failed(fault) => {
                self.failures = self.failures.saturating_add(1);
                return Err(told(fault));
            }
            Standing::Reads => {}
        }
        match read_record(&mut self.source, buf) {
            Ok(Some(head)) => {
                self.delivered = self.delivered.saturating_add(1);
                Ok(Turn::Datagram(head.path, head.length))
            }
            Ok(None) => {
                self.standing = Standing::Ended;
                Ok(Turn::End)
            }
            Err(fault) => {
                self.standing = Standing::Failed(fault);
                self.failures = self.failures.saturating_add(1);
                Err(told(fault))
            }
        }
    }
}
