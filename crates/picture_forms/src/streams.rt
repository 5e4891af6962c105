//! A YUV4MPEG2 stream, read picture by picture.
ghost use Rattle.std.specs.Prelude.{◌≡◌, ◌<◌, ◌++◌, ℕ, List, None, Some, Ok, Err, length, IfErr};
ghost use Rattle.std.specs.Prelude.{IfOk, MatchResult};
ghost use Rattle.st_format.specs.Fields.{fields_of};
ghost use Rattle.st_format.specs.Given.{GavePart, GaveValue, Takes};
ghost use Rattle.st_format.specs.History.{IsRead};
ghost use Rattle.st_format.specs.Picture.{IsPicture, Values};
ghost use Rattle.picture_forms.specs.Faults.{CountsDevice, CountsFault, IfContent, IsMachine};
ghost use Rattle.picture_forms.specs.Frames.{GaveFrame, TakesFrame, frame_walk};
ghost use Rattle.picture_forms.specs.Heads.{head_walk};
ghost use Rattle.picture_forms.specs.Layouts.{IsYcc, frame_text};
ghost use Rattle.picture_forms.specs.Streams.{standing_after};
ghost use Rattle.picture_forms.specs.Walks.{Fails, GaveFault};
ghost use Rattle.picture_forms.specs.declared.fault.FormFault.{FormFault as Fault};
ghost use Rattle.picture_forms.specs.declared.streams.Standing.TheVariants.{Reads, Ended, Failed};

use crate::fault::FormFault;
use crate::pictures::read_over;
use crate::y4m_head_reading::read_y4m_head;
use st_format::{ByteSource, Format, Picture};
use std::alloc::Allocator;
use std::marker::Model;

/// Where a reader stands in its stream.
#[derive(Clone, Copy)]
pub enum Standing {
    /// At the front of a frame or at the end, which one isn't known.
    Reads,
    /// At the end, at which it stays.
    Ended,
    /// At this fault, at which it stays.
    Failed(FormFault),
}

/// Gives the pictures of a YUV4MPEG2 stream, one after the other, from a source of octets, which it
/// owns; of one that is lent, `&mut S`, it owns the loan. Lines are read octet by octet, so give it
/// a source with a buffer.
///
/// After the end it answers the end, and after a fault that fault: it then asks the source for
/// nothing more.
#[derive(Drop)]
pub struct StreamReader<S: ByteSource> {
    source: S,
    format: Format,
    standing: Standing,
}

/// Where a reader stands after a call that answers this: it reads on after a picture.
fn standing_of<A: Allocator>(read: &Result<Option<Picture<A>>, FormFault>) -> Standing
    ensures { result ≡ standing_after read.now }
{
    match read {
        Ok(Some(_)) => Standing::Reads,
        Ok(None) => Standing::Ended,
        Err(fault) => Standing::Failed(*fault),
    }
}

impl<S: ByteSource> Model for StreamReader<S> {
    ghost use Rattle.picture_forms.specs.Layouts.{IsYcc};
    ghost use Rattle.picture_forms.specs.Streams.{Reader};

    ghost Value = { Reader S };

    ghost view = { λ r. record {
      source = r.source;
      format = r.format;
      standing = r.standing;
    } };

    ghost invariant = { λ r. IsYcc r.format.sampling };
}

impl<S: ByteSource> StreamReader<S> {
    /// Reads the head of a stream, as [`read_y4m_head`](crate::read_y4m_head) does.
    ///
    /// # Errors
    ///
    /// The fault, and the source as it then is.
    pub fn open(mut source: S) -> Result<StreamReader<S>, (FormFault, S)>
        ensures stands { IfOk result (λ r. r.standing ≡ Reads) }
        ensures ycc { IfOk result (λ r. IsYcc r.format.sampling) }
        ensures read { IfOk result
            (λ r. Takes head_walk (S.to_give source) (S.to_give r.source) (fields_of r.format)) }
        ensures fault { IfErr result (λ e. Fails head_walk (S.to_give source) e.0) }
        ensures gave { IfOk result
            (λ r. GaveValue head_walk (S.gave source) (S.gave r.source) (fields_of r.format)) }
        ensures gave_wrong { IfErr result
            (λ e. GaveFault head_walk (S.gave source) (S.gave e.1) (S.ended e.1) e.0) }
        // At any fault, the device's too, what was given is no head.
        ensures gave_part { IfErr result
            (λ e. GavePart head_walk (S.gave source) (S.gave e.1)) }
        ensures counted { MatchResult result (λ r. S.failures r.source ≡ S.failures source)
            (λ e. CountsFault e.0 (S.failures source) (S.failures e.1)) }
        ensures names { MatchResult result (λ r. S.names r.source ≡ S.names source)
            (λ e. S.names e.1 ≡ S.names source) }
    {
        match read_y4m_head(&mut source) {
            Ok(format) => Ok(StreamReader {
                source,
                format,
                standing: Standing::Reads,
            }),
            Err(fault) => Err((fault, source)),
        }
    }

    /// The format of its pictures, which are YCbCr.
    pub fn format(&self) -> Format
        ensures value { result ≡ self.now.format }
        ensures ycc { IsYcc self.now.format.sampling }
    {
        self.format
    }

    /// Reads the next picture into the samples of the last one, which has the same format: so no
    /// memory is taken. None where the stream has ended. Of the last one nothing is then left.
    ///
    /// Before the first picture give any of the format, as one of one colour.
    ///
    /// # Errors
    ///
    /// Those of [`read_y4m_frame`](crate::read_y4m_frame), without `NoMemory`.
    pub fn next_picture<A: Allocator>(
        &mut self,
        last: Picture<A>,
    ) -> Result<Option<Picture<A>>, FormFault>
        requires { last.format ≡ self.old.format }
        ensures format { self.new.format ≡ self.old.format }
        ensures stands { self.old.standing ≡ Reads
            → self.new.standing ≡ standing_after result }
        // What it reads is what `read_y4m_frame` reads.
        ensures found { self.old.standing ≡ Reads → IfOk result (λ o. TakesFrame self.old.format
            (S.to_give self.old.source) (S.to_give self.new.source) o) }
        ensures fault { self.old.standing ≡ Reads
            → IfErr result (λ f. Fails (frame_walk self.old.format) (S.to_give self.old.source) f) }
        ensures gave { self.old.standing ≡ Reads → IfOk result (λ o. GaveFrame self.old.format
            (S.gave self.old.source) (S.gave self.new.source) (S.ended self.new.source) o) }
        ensures gave_wrong { self.old.standing ≡ Reads
            → IfErr result (λ f. GaveFault (frame_walk self.old.format)
            (S.gave self.old.source) (S.gave self.new.source) (S.ended self.new.source) f) }
        // A fault of the content comes behind one octet of the frame at least: the end is none.
        ensures begun { self.old.standing ≡ Reads
            → IfErr result (λ f. IfContent f
            (length (S.gave self.old.source) < length (S.gave self.new.source))) }
        // At any fault, the device's too, what was given is no frame: a first part, or a wrong one.
        ensures gave_part { self.old.standing ≡ Reads
            → IfErr result (λ _. GavePart (frame_walk self.old.format)
            (S.gave self.old.source) (S.gave self.new.source)) }
        ensures counted { self.old.standing ≡ Reads
            → CountsDevice (S.failures self.old.source) (S.failures self.new.source) result }
        ensures names { S.names self.new.source ≡ S.names self.old.source }
        ensures only { self.old.standing ≡ Reads → (v : Values) (behind : List ℕ) → IsPicture v
            → v.format ≡ self.old.format
            → S.to_give self.old.source ≡ Some (frame_text v ++ behind)
            → MatchResult result (λ o. (o ≡ Some v) × (S.to_give self.new.source ≡ Some behind))
            IsMachine }
        ensures gave_only { self.old.standing ≡ Reads → (v : Values) (behind : List ℕ)
            → IsPicture v → v.format ≡ self.old.format
            → IsRead (S.gave self.old.source) (S.gave self.new.source) (S.ended self.new.source)
            (frame_text v ++ behind)
            → MatchResult result (λ o. (o ≡ Some v)
            × (S.gave self.new.source ≡ S.gave self.old.source ++ frame_text v)) IsMachine }
        // After the end comes the end, and after a fault the same fault. The source is asked for
        // nothing.
        ensures ended { self.old.standing ≡ Ended → (result ≡ Ok None) × (self.new ≡ self.old) }
        ensures failed { (f : Fault) → self.old.standing ≡ Failed f
            → (result ≡ Err f) × (self.new ≡ self.old) }
    {
        match self.standing {
            Standing::Ended => return Ok(None),
            Standing::Failed(fault) => return Err(fault),
            Standing::Reads => {}
        }
        let read = read_over(&mut self.source, last);
        self.standing = standing_of(&read);
        read
    }

    /// Gives the source back, as it then is.
    pub fn into_inner(self) -> S
        ensures { result ≡ self.source }
    {
        self.source
    }
}
