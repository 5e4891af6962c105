//! A sink of pictures that writes them.
ghost use Rattle.std.specs.Prelude.{◌≡◌, None};

use crate::filling::Filling;
use crate::settling::Settling;
use crate::writing::{write_next, write_next_planes};
use follow_engine::PictureSink;
use frame_assembly::Frame;
use run_outcome::Fault;
use st_format::{ByteSink, Format};
use std::alloc::{Allocator, Global};

/// Writes each frame that it is shown as a picture, into a sink of octets: of YCbCr as a frame of a
/// YUV4MPEG2 stream, whose line comes with the first one, and of RGB as a portable pixmap. A frame
/// of another format than the one before begins a stream anew.
///
/// The samples that a frame has no value for are filled. By a fill a frame of YCbCr is written by
/// its planes as it is settled, and takes no memory. Else memory is taken for the first frame, and
/// where pictures are held for the second, and then only where the format changes.
#[derive(Drop)]
pub struct FormSink<K: ByteSink + Drop, A: Allocator = Global> {
    /// What the octets go to.
    pub sink: K,
    /// The format of the stream that was begun.
    format: Option<Format>,
    settling: Settling<A>,
}

impl<K: ByteSink + Drop, A: Allocator + Copy> FormSink<K, A> {
    ghost use Rattle.std.specs.Prelude.{◌∷◌, [], IfErr, OnErr, OnOk};
    ghost use Rattle.frame_sinks.specs.Sinks.{FailsFrame, SinkTakes};
    ghost use Rattle.picture_forms.specs.Layouts.{IsYcc};
    ghost use Rattle.run_outcome.specs.Fault.{Accounts, IfRefused, counts};

    /// A sink that fills so, into which nothing is written yet. Values of a fill that are greater
    /// than a sample can be count as the greatest, and where none are given it is black. No memory
    /// is taken.
    pub fn new(alloc: A, filling: Filling, fill: Option<[u16; 3]>, sink: K) -> Self
        ensures sink { result.sink ≡ sink }
        ensures filling { result.settling.filling ≡ filling }
        ensures fill { result.settling.fill ≡ fill }
        ensures format { result.format ≡ None }
        ensures held { result.settling.held ≡ None }
    {
        FormSink {
            sink,
            format: None,
            settling: Settling::new(alloc, filling, fill),
        }
    }

    /// Writes a frame of which a picture is settled.
    fn show_picture<B: Allocator>(&mut self, timestamp: u32, frame: &Frame<B>) -> Result<(), Fault>
        ensures taken { OnOk result (SinkTakes K.took self.old
            (record { timestamp = timestamp; frame = frame.now }) self.new) }
        ensures failed { OnErr result (FailsFrame K.took self.old
            (record { timestamp = timestamp; frame = frame.now }) self.new) }
        ensures unrefused { IfErr result (λ f. IfRefused f ⊥) }
        ensures failures { Accounts result
            (counts (K.failures self.old.sink) (K.failures self.new.sink) ∷ []) }
    {
        let picture = self.settling.settle(frame)?;
        write_next(&mut self.sink, self.format, &picture)?;
        self.format = Some(picture.format());
        self.settling.keep(picture);
        Ok(())
    }

    /// Writes a frame, which is YCbCr, settled by the fill and by planes: no picture is made, and
    /// no memory is taken.
    fn show_planes<B: Allocator>(&mut self, timestamp: u32, frame: &Frame<B>) -> Result<(), Fault>
        requires ycc { IsYcc frame.now.format.sampling }
        requires filling { self.old.settling.filling ≡ Filling.Fill }
        requires held { self.old.settling.held ≡ None }
        ensures taken { OnOk result (SinkTakes K.took self.old
            (record { timestamp = timestamp; frame = frame.now }) self.new) }
        ensures failed { OnErr result (FailsFrame K.took self.old
            (record { timestamp = timestamp; frame = frame.now }) self.new) }
        ensures unrefused { IfErr result (λ f. IfRefused f ⊥) }
        ensures failures { Accounts result
            (counts (K.failures self.old.sink) (K.failures self.new.sink) ∷ []) }
    {
        let fill = self.settling.fill();
        write_next_planes(&mut self.sink, self.format, frame, fill)?;
        self.format = Some(frame.format());
        Ok(())
    }

    /// What the octets went to.
    pub fn into_sink(self) -> K
        ensures { result ≡ self.sink }
    {
        self.sink
    }
}

impl<K: ByteSink + Drop, A: Allocator + Copy> PictureSink for FormSink<K, A> {
    ghost use Rattle.frame_sinks.specs.Sinks.{FailsFrame, SinkTakes};

    ghost takes = { λ k h l. SinkTakes K.took k h l };

    ghost fails = { λ k h l. FailsFrame K.took k h l };

    ghost failures = { λ k. K.failures k.sink };

    fn show<B: Allocator>(&mut self, timestamp: u32, frame: &Frame<B>) -> Result<(), Fault> {
        if self.settling.goes_by_planes(&frame.format()) {
            self.show_planes(timestamp, frame)
        } else {
            self.show_picture(timestamp, frame)
        }
    }
}
