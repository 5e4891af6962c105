//! Frames that are settled one after the other.
ghost use Rattle.std.specs.Prelude.{◌≡◌, IfOk, IsTrue, None, Some, length};
ghost use Rattle.frame_assembly.specs.Settled.{IsBaseOf, settled_picture};
ghost use Rattle.frame_sinks.specs.Pictures.{held_by, picture_of};
ghost use Rattle.picture_forms.specs.Layouts.{IsYcc};
ghost use Rattle.st_format.specs.Picture.{IsPicture};
ghost use Rattle.st_format.specs.Position.{sample_count};

use crate::filling::{Filling, fill_of};
use crate::writing::has_format;
use frame_assembly::{Base, Frame};
use settled_forms::settle_all;
use st_format::{Format, Picture, Sampling};
use std::alloc::{AllocError, Allocator, Global};
use std::mem;

/// What frames are settled with, one after the other: a fill, or the picture before. Memory is
/// taken for the first picture, and where pictures are held for the second, and then only where
/// the format changes.
#[derive(Drop)]
pub struct Settling<A: Allocator = Global> {
    alloc: A,
    filling: Filling,
    /// The values of the fill, where they are given.
    fill: Option<[u16; 3]>,
    /// The picture that the next one is settled over.
    held: Option<Picture<A>>,
    /// Room for the samples of a picture, once there is some.
    room: Vec<u16, A>,
}

impl<A: Allocator + Copy> Settling<A> {
    /// Where no frame was settled yet. No memory is taken.
    pub(crate) fn new(alloc: A, filling: Filling, fill: Option<[u16; 3]>) -> Self
        ensures filling { result.filling ≡ filling }
        ensures fill { result.fill ≡ fill }
        ensures held { result.held ≡ None }
    {
        Settling {
            alloc,
            filling,
            fill,
            held: None,
            room: Vec::new(alloc),
        }
    }

    /// Whether a frame of this format needs no picture: it is YCbCr, so that it is written by
    /// planes as it is settled, and settled by the fill, so that no picture is kept of it.
    pub(crate) fn goes_by_planes(&self, format: &Format) -> bool
        ensures ycc { IsTrue result → IsYcc format.now.sampling }
        ensures filling { IsTrue result → self.now.filling ≡ Filling.Fill }
        ensures held { IsTrue result → self.now.held ≡ None }
    {
        is_ycc(format.sampling()) && self.is_filled()
    }

    /// Whether the next frame is settled by the fill, and no picture kept of it.
    fn is_filled(&self) -> bool
        ensures filling { IsTrue result → self.now.filling ≡ Filling.Fill }
        ensures held { IsTrue result → self.now.held ≡ None }
    {
        match self.filling {
            Filling::Fill => match &self.held {
                None => true,
                Some(_) => false,
            },
            Filling::Hold => false,
        }
    }

    /// The picture of the next frame.
    pub(crate) fn settle<B: Allocator>(
        &mut self,
        frame: &Frame<B>,
    ) -> Result<Picture<A>, AllocError>
        ensures picture { IfOk result
            (λ p. p ≡ picture_of self.old.fill self.old.held frame.now) }
        ensures filling { self.new.filling ≡ self.old.filling }
        ensures fill { self.new.fill ≡ self.old.fill }
        ensures held { self.new.held ≡ self.old.held }
    {
        let format = frame.format();
        let mut samples = self.take_room(&format)?;
        settle_next(frame, &self.held, self.fill, samples.as_mut_slice());
        Ok(Picture::from_samples(format, samples))
    }

    /// Room for the samples of a picture of this format: that of one before, where it is as long.
    fn take_room(&mut self, format: &Format) -> Result<Vec<u16, A>, AllocError>
        ensures room { IfOk result (λ v. length v.items ≡ sample_count format.now) }
        ensures filling { self.new.filling ≡ self.old.filling }
        ensures fill { self.new.fill ≡ self.old.fill }
        ensures held { self.new.held ≡ self.old.held }
    {
        let room = mem::replace(&mut self.room, Vec::new(self.alloc));
        let count = format.sample_count();
        if room.len() == count {
            return Ok(room);
        }
        Vec::from_elem(self.alloc, 0, count)
    }

    /// The values of the fill, where they are given.
    pub(crate) fn fill(&self) -> Option<[u16; 3]>
        ensures { result ≡ self.now.fill }
    {
        self.fill
    }

    /// Keeps a picture for the next one, or its room.
    pub(crate) fn keep(&mut self, picture: Picture<A>)
        ensures held { self.new.held ≡ held_by self.old.filling picture }
        ensures filling { self.new.filling ≡ self.old.filling }
        ensures fill { self.new.fill ≡ self.old.fill }
    {
        match self.filling {
            Filling::Fill => {
                self.held = None;
                self.room = picture.into_samples();
            }
            Filling::Hold => {
                let before = mem::replace(&mut self.held, Some(picture));
                if let Some(before) = before {
                    self.room = before.into_samples();
                }
            }
        }
    }
}

/// Settles a frame into `samples`, which has just the room: over this picture, where one of its
/// format is held, and else by the fill.
fn settle_next<A: Allocator, B: Allocator>(
    frame: &Frame<A>,
    held: &Option<Picture<B>>,
    fill: Option<[u16; 3]>,
    samples: &mut [u16],
)
    requires { length samples.old ≡ sample_count frame.now.format }
    ensures settled { samples.new ≡ (picture_of fill held.now frame.now).samples }
    ensures whole { IsPicture (record { format = frame.now.format; samples = samples.new }) }
{
    match held {
        Some(picture) => settle_held(frame, picture, fill, samples),
        None => settle_filled(frame, fill, samples),
    }
}

/// The same where a picture is held, which may be of another format.
fn settle_held<A: Allocator, B: Allocator>(
    frame: &Frame<A>,
    picture: &Picture<B>,
    fill: Option<[u16; 3]>,
    samples: &mut [u16],
)
    requires { length samples.old ≡ sample_count frame.now.format }
    ensures settled { samples.new ≡ (picture_of fill (Some picture.now) frame.now).samples }
    ensures whole { IsPicture (record { format = frame.now.format; samples = samples.new }) }
{
    if has_format(picture, frame) {
        settle_over(frame, Base::Hold(picture), samples);
    } else {
        settle_filled(frame, fill, samples);
    }
}

/// The same where none is held, or none of the frame's format: by the fill.
fn settle_filled<A: Allocator>(frame: &Frame<A>, fill: Option<[u16; 3]>, samples: &mut [u16])
    requires { length samples.old ≡ sample_count frame.now.format }
    ensures settled { samples.new ≡ (picture_of fill None frame.now).samples }
    ensures whole { IsPicture (record { format = frame.now.format; samples = samples.new }) }
{
    let fill = fill_of(fill, &frame.format());
    settle_over(frame, Base::<Global>::Fill(fill), samples);
}

/// Settles a frame with a base of its format: only then are the samples those of a picture.
fn settle_over<A: Allocator, B: Allocator>(frame: &Frame<A>, base: Base<'_, B>, samples: &mut [u16])
    requires base { IsBaseOf base frame.now.format }
    requires room { length samples.old ≡ sample_count frame.now.format }
    ensures settled { samples.new ≡ (settled_picture frame.now base.entry).samples }
    ensures whole { IsPicture (record { format = frame.now.format; samples = samples.new }) }
{
    frame.settled_facts(base);
    settle_all(frame, base, samples);
}

/// Whether pictures of this sampling have planes in a YUV4MPEG2 stream.
fn is_ycc(sampling: Sampling) -> bool
    ensures { IsTrue result → IsYcc sampling }
{
    match sampling {
        Sampling::Ycc422 | Sampling::Ycc444 => true,
        Sampling::Rgb => false,
    }
}
