//! A receiver: a frame for each timestamp of a window.
ghost use Rattle.std.specs.Prelude.{◌≡◌, ◌≢◌, ◌↔◌, ◌≤◌, ◌<◌, ◌+◌, ◌*◌, ◌++◌, ◌∷◌, ℕ, List, []};
ghost use Rattle.std.specs.Prelude.{length};
ghost use Rattle.std.specs.Prelude.{IfOk, IsErr, IsErrOf, IsSome, IsTrue, OnErr, OnOk, Err, Ok};
ghost use Rattle.std.specs.Prelude.{Some, slice_get};
ghost use Rattle.std.specs.List.{zip};
ghost use Rattle.std.specs.Option.{option_copied};
ghost use Rattle.st_format.specs.Cell.{join};
ghost use Rattle.st_format.specs.Member.{IsMember};
ghost use Rattle.st_format.specs.Offer.{cell_of};
ghost use Rattle.st_format.specs.Position.{IsPosition, Position};
ghost use Rattle.path_receiver.specs.Answers.{refusals_after, taken_at};
ghost use Rattle.path_receiver.specs.Frames.{Holds, IsReceiver, cell_in, frame_at, frames_of};
ghost use Rattle.path_receiver.specs.Frames.{joined_frames};
ghost use Rattle.path_receiver.specs.Grammar.{Datagram, IsFor, IsKept, IsOutside};
ghost use Rattle.path_receiver.specs.Offers.{AreOffersOf, offers};
ghost use Rattle.path_receiver.specs.Opening.{AreDifferent, IsWindow, IsWindowSize};
ghost use Rattle.path_receiver.specs.Refused.{IsRefusedDatagram};
ghost use Rattle.path_receiver.specs.Sliding.{slid_state, with_frame};
ghost use Rattle.path_receiver.specs.declared.answer.Refusal.{Refusal};

use crate::admitting::{admit, packet_number};
use crate::answer::{Refusal, Taken};
use crate::fault::{OpenFault, SlideFault};
use crate::joining::{blank_frames, join_frames};
use crate::listing::{Refusals, WindowFrames};
use crate::window::{MOST_TIMESTAMPS, check_window, has_timestamp, place_of};
use arrayvec::ArrayVec;
use circular_buffer::HeapCircularBuffer;
use frame_assembly::Frame;
use packet_numbers::OpenedUnlike;
use st_format::{Format, Path};
use std::alloc::{Allocator, Global};
use std::marker::Model;
use std::mem;

/// How many of the last refusals a receiver keeps (own).
const MOST_REFUSALS: usize = 64;

/// A receiver of datagrams by two paths: a frame for each timestamp of its window.
///
/// It takes the datagrams of one payload type, and of one source where it is pinned. What it holds
/// is the cells of all offers that it took, whatever their order, their paths and their repeats
/// (SMPTE ST 2022-7). It keeps the last 64 refusals.
#[derive(Drop)]
pub struct Receiver<A: Allocator = Global> {
    format: Format,
    payload_type: u8,
    ssrc: Option<u32>,
    window: ArrayVec<u32, MOST_TIMESTAMPS>,
    frames: Vec<Frame<A>, A>,
    refusals: HeapCircularBuffer<(Path, Refusal), A>,
}

impl<A: Allocator> Model for Receiver<A> {
    ghost use Rattle.std.specs.Prelude.{◌≡◌};
    ghost use Rattle.path_receiver.specs.Frames.{IsReceiver, State};
    ghost use Rattle.path_receiver.specs.Opening.{Opening};

    // What it was opened with, a frame for each timestamp of the window, and the last refusals
    ghost Value = { State };

    ghost view = { λ a. record {
      opening = record {
        format = a.format;
        payload_type = a.payload_type;
        ssrc = a.ssrc;
        window = a.window.items;
      };
      frames = a.frames.items;
      refusals = a.refusals.items;
    } };

    ghost invariant = { λ a. IsReceiver (record {
      opening = record {
        format = a.format;
        payload_type = a.payload_type;
        ssrc = a.ssrc;
        window = a.window.items;
      };
      frames = a.frames.items;
      refusals = a.refusals.items;
    }) × (a.refusals.capacity ≡ 64) };
}

impl<A: Allocator + Copy> Receiver<A> {
    /// A receiver that has taken nothing.
    ///
    /// `BadWindow` comes where the window has no timestamp or more than 16, `DoubleTimestamp` where
    /// one stands twice in it, and then `NoMemory` only where the allocator refused the memory for
    /// the frames or for the refusals. The payload type has 7 bits (RFC 3550, 5.1).
    pub fn open(
        alloc: A,
        format: Format,
        payload_type: u8,
        ssrc: Option<u32>,
        window: &[u32],
    ) -> Result<Receiver<A>, OpenFault>
        requires { payload_type ≤ 127 }
        ensures opening { IfOk result (λ r. r.opening ≡ record {
          format = format;
          payload_type = payload_type;
          ssrc = ssrc;
          window = window.now;
        }) }
        ensures holds { IfOk result (λ r. Holds r []) }
        ensures refusals { IfOk result (λ r. r.refusals ≡ []) }
        ensures receiver { IfOk result (λ r. IsReceiver r) }
        ensures size { IsErrOf result OpenFault.BadWindow ↔ (IsWindowSize (length window.now) → ⊥) }
        ensures double { IsErrOf result OpenFault.DoubleTimestamp
            ↔ (IsWindowSize (length window.now) × (AreDifferent window.now → ⊥)) }
    {
        check_window(window)?;
        Receiver::of_window(alloc, format, payload_type, ssrc, window)
    }

    /// The same, where the window is one: then only memory can fail.
    fn of_window(
        alloc: A,
        format: Format,
        payload_type: u8,
        ssrc: Option<u32>,
        window: &[u32],
    ) -> Result<Receiver<A>, OpenFault>
        requires payload_type { payload_type ≤ 127 }
        requires window { IsWindow window.now }
        ensures opening { IfOk result (λ r. r.opening ≡ record {
          format = format;
          payload_type = payload_type;
          ssrc = ssrc;
          window = window.now;
        }) }
        ensures holds { IfOk result (λ r. Holds r []) }
        ensures refusals { IfOk result (λ r. r.refusals ≡ []) }
        ensures receiver { IfOk result (λ r. IsReceiver r) }
        ensures memory { OnErr result (result ≡ Err OpenFault.NoMemory) }
    {
        let frames = blank_frames(alloc, format, window.len())?;
        let refusals = HeapCircularBuffer::with_capacity(alloc, MOST_REFUSALS)?;
        Ok(Receiver {
            format,
            payload_type,
            ssrc,
            window: timestamps(window),
            frames,
            refusals,
        })
    }
}

impl<A: Allocator> Receiver<A> {
    /// What is so of every receiver: a payload type of 7 bits, a window of 1 to 16 timestamps that
    /// differ, a frame of its format for each, and at most 64 refusals. A caller's proof learns it
    /// from here; nothing is done.
    #[doc(hidden)]
    #[inline(always)]
    pub fn facts(&self)
        ensures { IsReceiver self.now }
    {
        let _format = &self.format;
    }

    /// Takes a datagram that came by a path: joins what it offers to the frame of its timestamp,
    /// alike whichever path it was (SMPTE ST 2022-7).
    ///
    /// The first refusal is answered, in the order of their numbers. A refused datagram changes no
    /// frame; it is kept as one of the last 64 refusals, with its path. No memory is taken.
    pub fn take(&mut self, path: Path, octets: &[u8]) -> Result<Taken, Refusal>
        // In the words of the grammar: kept, outside and each refusal exactly where its condition
        // holds, and refused exactly where the octets are no datagram for this receiver.
        ensures kept { (number : ℕ) →
            (result ≡ Ok (Taken.Kept number)) ↔ IsKept octets.now self.old.opening number }
        ensures outside { (result ≡ Ok Taken.Outside) ↔ IsOutside octets.now self.old.opening }
        ensures refusal { (refusal : Refusal) →
            (result ≡ Err refusal) ↔ IsRefusedDatagram octets.now self.old.opening refusal }
        ensures others { IsErr result
            ↔ ((d : Datagram) → IsFor octets.now self.old.opening d → ⊥) }

        // The same as a walk, which tells the first refusal.
        ensures answer { result ≡ taken_at self.old.opening octets.now }

        // What stays, and the refusals.
        ensures opening { self.new.opening ≡ self.old.opening }
        ensures refused { OnErr result (self.new.frames ≡ self.old.frames) }
        ensures refusals { self.new.refusals ≡ refusals_after path result self.old.refusals }
        ensures receiver { IsReceiver self.new }

        // What the octets offer, by the grammar. Each cell afterwards is Join of the old one and
        // Cell of these offers, in lists and cell by cell, for kept, outside and refused datagrams
        // alike.
        ensures offered { AreOffersOf (offers self.old.opening octets.now)
            octets.now self.old.opening }
        ensures frames { self.new.frames
            ≡ joined_frames self.old.frames (frames_of self.old.opening (octets.now ∷ [])) }
        ensures cells { (ts : ℕ) (p : Position) →
            IsMember ts self.old.opening.window → IsPosition p self.old.opening.format →
            cell_in self.new ts p
            ≡ join (cell_in self.old ts p) (cell_of (offers self.old.opening octets.now) ts p) }

        // Where it holds the Frames of some datagrams, it then holds those of them and this one.
        ensures holds { (datagrams : List (List ℕ)) →
            Holds self.old datagrams → Holds self.new (datagrams ++ octets.now ∷ []) }
    {
        let taken = self.join(octets);
        self.keep_refusal(path, taken);
        taken
    }

    /// Joins what a datagram offers to the frame of its timestamp, where the window has that.
    #[tactic(auto, using(crate::proofs::Joined::frames_left_alone))]
    fn join(&mut self, octets: &[u8]) -> Result<Taken, Refusal>
        ensures answer { result ≡ taken_at self.old.opening octets.now }
        ensures opening { self.new.opening ≡ self.old.opening }
        ensures refused { OnErr result (self.new ≡ self.old) }
        ensures refusals { self.new.refusals ≡ self.old.refusals }
        ensures old { IsReceiver self.old }
        ensures frames { self.new.frames
            ≡ joined_frames self.old.frames (frames_of self.old.opening (octets.now ∷ [])) }
    {
        let datagram = admit(&self.format, self.payload_type, self.ssrc, octets)?;
        match place_of(self.window.as_slice(), datagram.header.timestamp) {
            None => Ok(Taken::Outside),
            Some(place) => {
                self.frames[place].put(&datagram.payload);
                let (extended, sequence) = (datagram.payload.extended, datagram.header.sequence);
                Ok(Taken::Kept(packet_number(extended, sequence)))
            }
        }
    }

    /// Keeps a refusal with its path; where there are 64 already, the buffer drops the oldest.
    fn keep_refusal(&mut self, path: Path, taken: Result<Taken, Refusal>)
        ensures opening { self.new.opening ≡ self.old.opening }
        ensures frames { self.new.frames ≡ self.old.frames }
        ensures refusals { self.new.refusals ≡ refusals_after path taken self.old.refusals }
        ensures receiver { IsReceiver self.new }
    {
        if let Err(refusal) = taken {
            self.refusals.push_back((path, refusal));
        }
    }

    /// Takes what another receiver holds: each cell is then Join of its own and the other's.
    ///
    /// `OpenedUnlike` comes where the two differ in format, payload type, pinned source or window.
    /// The refusals stay, and the other receiver is as it was. No memory is taken.
    pub fn merge<B: Allocator>(&mut self, other: &Receiver<B>) -> Result<(), OpenedUnlike>
        ensures unlike { IsErr result ↔ (self.old.opening ≢ other.now.opening) }
        ensures alike { OnOk result (self.old.opening ≡ other.now.opening) }
        ensures refused { OnErr result (self.new ≡ self.old) }
        ensures opening { self.new.opening ≡ self.old.opening }
        ensures refusals { self.new.refusals ≡ self.old.refusals }
        ensures receiver { IsReceiver self.new }
        ensures frames { OnOk result (self.new.frames
            ≡ joined_frames self.old.frames other.now.frames) }
        ensures cells { OnOk result ((ts : ℕ) (p : Position) →
            IsMember ts self.old.opening.window → IsPosition p self.old.opening.format →
            cell_in self.new ts p ≡ join (cell_in self.old ts p) (cell_in other.now ts p)) }

        // Where the two hold the Frames of some datagrams, it then holds those of all of them.
        ensures holds { OnOk result ((xs ys : List (List ℕ)) →
            Holds self.old xs → Holds other.now ys → Holds self.new (xs ++ ys)) }
    {
        if !self.is_opened_like(other) {
            return Err(OpenedUnlike);
        }
        self.join_all(other);
        Ok(())
    }

    /// Whether two receivers have one format, payload type, pinned source and window.
    fn is_opened_like<B: Allocator>(&self, other: &Receiver<B>) -> bool
        ensures alike { IsTrue result ↔ (self.now.opening ≡ other.now.opening) }
        ensures receiver { IsReceiver self.now }
    {
        self.format.same(&other.format)
            && self.payload_type == other.payload_type
            && same_source(self.ssrc, other.ssrc)
            && same_window(self.window.as_slice(), other.window.as_slice())
    }

    /// Joins the frames of a receiver that was opened alike: these are as many, of the same
    /// formats.
    fn join_all<B: Allocator>(&mut self, other: &Receiver<B>)
        requires { self.old.opening ≡ other.now.opening }
        ensures opening { self.new.opening ≡ self.old.opening }
        ensures refusals { self.new.refusals ≡ self.old.refusals }
        ensures frames { self.new.frames ≡ joined_frames self.old.frames other.now.frames }
        ensures old { IsReceiver self.old }
        ensures other { IsReceiver other.now }
        ensures receiver { IsReceiver self.new }
    {
        join_frames(self.frames.as_mut_slice(), other.frames.as_slice());
    }

    /// Moves the window on: its first timestamp leaves and is answered, its frame is then in `out`,
    /// and `next` stands last with every cell missing. What `out` held is lost.
    ///
    /// `InWindow` comes where the window has `next` already, then `OtherFormat` where `out` has
    /// another format than the receiver; the two are then as they were. Frames are exchanged: none
    /// is copied, and no memory is taken.
    pub fn slide(&mut self, next: u32, out: &mut Frame<A>) -> Result<u32, SlideFault>
        ensures in_window { IsErrOf result SlideFault.InWindow
            ↔ IsMember next self.old.opening.window }
        ensures other_format { IsErrOf result SlideFault.OtherFormat
            ↔ ((IsMember next self.old.opening.window → ⊥)
            × (out.old.format ≢ self.old.opening.format)) }
        ensures refused { OnErr result ((self.new ≡ self.old) × (out.new ≡ out.old)) }
        ensures first { IfOk result (λ first. slice_get self.old.opening.window 0 ≡ Some first) }
        ensures out { OnOk result (slice_get self.old.frames 0 ≡ Some out.new) }
        ensures slid { OnOk result (self.new ≡ slid_state self.old next) }
        ensures receiver { IsReceiver self.new }
    {
        if has_timestamp(self.window.as_slice(), next) {
            return Err(SlideFault::InWindow);
        }
        if !self.format.same(&out.format()) {
            return Err(SlideFault::OtherFormat);
        }
        Ok(self.move_on(next, out))
    }

    /// Exchanges the first frame and blanks the new one, which then stands last: the frames are
    /// turned by one, so none is copied or made.
    fn move_on(&mut self, next: u32, out: &mut Frame<A>) -> u32
        requires new { IsMember next self.old.opening.window → ⊥ }
        requires format { out.old.format ≡ self.old.opening.format }
        ensures first { slice_get self.old.opening.window 0 ≡ Some result }
        ensures out { slice_get self.old.frames 0 ≡ Some out.new }
        ensures slid { self.new ≡ slid_state self.old next }
        ensures receiver { IsReceiver self.new }
    {
        mem::swap(&mut self.frames[0], out);
        self.frames[0].clear();
        self.frames.rotate_left(1);
        let first = self.window.remove(0);
        self.window.push(next);
        first
    }

    /// Exchanges the frame at a place of the window, counted from 0, for another of the receiver's
    /// format.
    pub fn set_frame(&mut self, place: usize, frame: &mut Frame<A>)
        requires place { place < length self.old.opening.window }
        requires format { frame.old.format ≡ self.old.opening.format }
        ensures set { self.new ≡ with_frame self.old place frame.old }
        ensures frame { slice_get self.old.frames place ≡ Some frame.new }
        ensures receiver { IsReceiver self.new }
    {
        frame.facts();
        mem::swap(&mut self.frames[place], frame);
    }

    /// The frame of a timestamp, in 90 kHz ticks; `None` where the window hasn't it.
    pub fn frame(&self, timestamp: u32) -> Option<&Frame<A>>
        ensures frame { option_copied result
            ≡ frame_at self.now.opening.window self.now.frames timestamp }
        ensures within { IsSome result ↔ IsMember timestamp self.now.opening.window }
        ensures receiver { IsReceiver self.now }
    {
        match place_of(self.window.as_slice(), timestamp) {
            None => None,
            Some(place) => Some(&self.frames[place]),
        }
    }

    /// The frames, each with its timestamp, in window order:
    /// `for (timestamp, frame) in receiver.frames()`.
    pub fn frames(&self) -> WindowFrames<'_, A>
        ensures frames { result ≡ zip self.now.opening.window self.now.frames }
        ensures receiver { IsReceiver self.now }
    {
        WindowFrames::of(self.window.as_slice(), self.frames.as_slice())
    }

    /// The refusals that are kept, at most the last 64, each with its path, from the oldest on:
    /// `for (path, refusal) in receiver.refusals()`.
    pub fn refusals(&self) -> Refusals<'_>
        ensures refusals { result ≡ self.now.refusals }
        ensures receiver { IsReceiver self.now }
    {
        Refusals::of(self.refusals.iter())
    }

    /// How many refusals are kept: at most 64, the last ones.
    pub fn refusal_count(&self) -> usize
        ensures count { result ≡ length self.now.refusals }
        ensures most { result ≤ 64 }
        ensures receiver { IsReceiver self.now }
    {
        self.refusals.len()
    }

    /// The refusal at a place below the count, and its path; the oldest that is kept is at 0.
    pub fn refusal_at(&self, place: usize) -> (Path, Refusal)
        requires { place < length self.now.refusals }
        ensures refusal { slice_get self.now.refusals place ≡ Some result }
        ensures receiver { IsReceiver self.now }
    {
        *self.refusals.get(place).unwrap()
    }

    /// The format of the frames, with which it was opened.
    pub fn format(&self) -> Format
        ensures format { result ≡ self.now.opening.format }
        ensures receiver { IsReceiver self.now }
    {
        self.format
    }

    /// The payload type of the datagrams that are taken, up to 127.
    pub fn payload_type(&self) -> u8
        ensures payload_type { result ≡ self.now.opening.payload_type }
        ensures receiver { IsReceiver self.now }
    {
        self.payload_type
    }

    /// The source that is pinned: datagrams of another are refused. Where there is none, any is
    /// taken.
    pub fn ssrc(&self) -> Option<u32>
        ensures ssrc { result ≡ self.now.opening.ssrc }
        ensures receiver { IsReceiver self.now }
    {
        self.ssrc
    }

    /// The timestamps of the window, from 1 to 16, all different, in 90 kHz ticks.
    pub fn window(&self) -> &[u32]
        ensures window { result.now ≡ self.now.opening.window }
        ensures receiver { IsReceiver self.now }
    {
        self.window.as_slice()
    }
}

fn timestamps(window: &[u32]) -> ArrayVec<u32, MOST_TIMESTAMPS>
    requires { length window.now ≤ MOST_TIMESTAMPS }
    ensures { result.items ≡ window.now }
{
    let mut timestamps = ArrayVec::new();
    timestamps.try_extend_from_slice(window).unwrap();
    timestamps
}

fn same_source(left: Option<u32>, right: Option<u32>) -> bool
    ensures { IsTrue result ↔ (left ≡ right) }
{
    left == right
}

fn same_window(left: &[u32], right: &[u32]) -> bool
    ensures { IsTrue result ↔ (left.now ≡ right.now) }
{
    left == right
}
