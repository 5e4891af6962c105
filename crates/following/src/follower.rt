//! A follower: frames of the newest timestamps of a stream.
ghost use Rattle.std.specs.Prelude.{◌≡◌, ◌≢◌, ◌↔◌, ◌≤◌, ◌<◌, ◌∷◌, ◌++◌, ℕ, List, []};
ghost use Rattle.std.specs.Prelude.{IfOk, IfSome, IfNone, IsErrOf, IsSome, OnErr, OnSome, length};
ghost use Rattle.std.specs.Prelude.{Err, None, Ok, Some, slice_get};
ghost use Rattle.std.specs.Option.{option_copied};
ghost use Rattle.path_receiver.specs.Frames.{frame_at, frames_of};
ghost use Rattle.path_receiver.specs.Opening.{IsWindowSize, Opening};
ghost use Rattle.path_receiver.specs.Sliding.{with_window};
ghost use Rattle.following.specs.Follower.{Following, IsFollower, answer_to, opened, place_reached};
ghost use Rattle.following.specs.Follower.{brought_in, reached, standing_of, state_after};
ghost use Rattle.following.specs.Follower.{without_oldest};
ghost use Rattle.path_receiver.specs.Refused.{IsRefusedDatagram};
ghost use Rattle.path_receiver.specs.declared.answer.Refusal.{Refusal};
ghost use Rattle.following.specs.Serial.{IsNewer};
ghost use Rattle.following.specs.Taking.{IsDueFor, IsFarFor, IsKeptBy, IsLateFor};
ghost use Rattle.following.specs.Since.{CameSince};
ghost use Rattle.following.specs.Turned.{first_complete};
ghost use Rattle.st_format.specs.Member.{IsMember};
ghost use Rattle.following.specs.declared.answer.Followed.{Followed};

use crate::answer::Followed;
use crate::fault::FollowFault;
use crate::missing::missing_place;
use crate::places::{blank_frames, room_for, spare_frame};
use crate::standing::{Standing, find_place, place_there};
use arrayvec::ArrayVec;
use frame_assembly::Frame;
use path_receiver::{MOST_TIMESTAMPS, Refusal, admit, packet_number};
use st_format::Format;
use std::alloc::{Allocator, Global};
use std::marker::Model;
use std::mem;

/// How many ticks of the 90 kHz clock a new timestamp may usually be ahead of the newest: 10 s.
pub const TEN_SECONDS: u32 = 900_000;

/// A receiver of datagrams by any paths whose window follows the stream: frames of its newest
/// timestamps.
///
/// It takes the datagrams of one payload type, and of one source where it is pinned. It begins with
/// no frame; a new timestamp brings one in, at its place in the order of timestamps, which go round
/// (RFC 1982). Frames are handed out oldest first.
#[derive(Drop)]
pub struct Follower<A: Allocator = Global> {
    format: Format,
    payload_type: u8,
    ssrc: Option<u32>,
    size: usize,
    most_ahead: u32,
    gone: Option<u32>,
    // A row and a column at which the oldest frame lacked something: a guess, of which nothing is
    // claimed.
    missing: (u32, u32),
    window: ArrayVec<u32, MOST_TIMESTAMPS>,
    frames: Vec<Frame<A>, A>,
    spare: Vec<Frame<A>, A>,
}

impl<A: Allocator> Model for Follower<A> {
    ghost use Rattle.std.specs.Prelude.{vec_capacity};
    ghost use Rattle.following.specs.Follower.{Following, IsFollower};
    ghost use Rattle.following.specs.Spare.{HasSpare};

    // What it was opened with, a frame for each timestamp that is in, and what has gone
    ghost Value = { Following };

    ghost view = { λ a. record {
      opening = record {
        format = a.format;
        payload_type = a.payload_type;
        ssrc = a.ssrc;
        window = a.window.items;
      };
      frames = a.frames.items;
      size = a.size;
      most_ahead = a.most_ahead;
      gone = a.gone;
    } };

    ghost invariant = { λ a. IsFollower (record {
      opening = record {
        format = a.format;
        payload_type = a.payload_type;
        ssrc = a.ssrc;
        window = a.window.items;
      };
      frames = a.frames.items;
      size = a.size;
      most_ahead = a.most_ahead;
      gone = a.gone;
    }) × HasSpare a.format a.size a.frames.items a.spare.items
        (vec_capacity a.frames) (vec_capacity a.spare) };
}

impl<A: Allocator + Copy> Follower<A> {
    /// A follower that has taken nothing, of so many frames, to which a new timestamp may be
    /// `most_ahead` ticks of the 90 kHz clock ahead of the newest, and no more. From 2^31 - 1 on
    /// this bounds nothing; at 0 no frame comes in behind the first.
    ///
    /// `BadSize` comes where it is to have no frame or more than 16, and then `NoMemory` only where
    /// the allocator refused the memory for the frames: all is taken here. The payload type has 7
    /// bits (RFC 3550, 5.1).
    pub fn open(
        alloc: A,
        format: Format,
        payload_type: u8,
        ssrc: Option<u32>,
        size: usize,
        most_ahead: u32,
    ) -> Result<Follower<A>, FollowFault>
        requires { payload_type ≤ 127 }
        ensures opened { IfOk result (λ f. f ≡ opened (record {
          format = format;
          payload_type = payload_type;
          ssrc = ssrc;
          window = [];
        }) size most_ahead) }
        ensures since { IfOk result (λ f. (timestamp : ℕ) → CameSince f timestamp []) }
        ensures follower { IfOk result (λ f. IsFollower f) }
        ensures size { IsErrOf result FollowFault.BadSize ↔ (IsWindowSize size → ⊥) }
    {
        if size == 0 || size > MOST_TIMESTAMPS {
            return Err(FollowFault::BadSize);
        }
        Follower::of_size(alloc, format, payload_type, ssrc, size, most_ahead)
    }

    /// Opens it where the size is that of a window: then memory alone can be wanted.
    fn of_size(
        alloc: A,
        format: Format,
        payload_type: u8,
        ssrc: Option<u32>,
        size: usize,
        most_ahead: u32,
    ) -> Result<Follower<A>, FollowFault>
        requires payload_type { payload_type ≤ 127 }
        requires size { IsWindowSize size }
        ensures opened { IfOk result (λ f. f ≡ opened (record {
          format = format;
          payload_type = payload_type;
          ssrc = ssrc;
          window = [];
        }) size most_ahead) }
        ensures follower { IfOk result (λ f. IsFollower f) }
        ensures memory { OnErr result (result ≡ Err FollowFault.NoMemory) }
    {
        let frames = room_for(alloc, size)?;
        let spare = blank_frames(alloc, format, size)?;
        Ok(Follower {
            format,
            payload_type,
            ssrc,
            size,
            most_ahead,
            gone: None,
            missing: (0, 0),
            window: ArrayVec::new(),
            frames,
            spare,
        })
    }
}

impl<A: Allocator> Follower<A> {
    /// What is so of every follower. A caller's proof learns it from here; nothing is done.
    #[doc(hidden)]
    #[inline(always)]
    pub fn facts(&self)
        ensures { IsFollower self.now }
    {
        let _format = &self.format;
    }

    /// Takes a datagram: joins what it offers to the frame of its timestamp, which comes in where
    /// it is new and there is room.
    ///
    /// The first refusal is answered, in the order of their numbers. `Due` says that the oldest
    /// frame is to be handed out first, by `next_frame`; then the datagram can be taken. After a
    /// refusal, `Due`, `Far` and `Late` all is as before. No memory is taken.
    pub fn take(&mut self, octets: &[u8]) -> Result<Followed, Refusal>
        // In the words of the grammar: kept, due, far, late and each refusal exactly where its
        // condition holds.
        ensures kept { (number : ℕ) →
            (result ≡ Ok (Followed.Kept number)) ↔ IsKeptBy octets.now self.old number }
        ensures due { (result ≡ Ok Followed.Due) ↔ IsDueFor octets.now self.old }
        ensures far { (result ≡ Ok Followed.Far) ↔ IsFarFor octets.now self.old }
        ensures late { (result ≡ Ok Followed.Late) ↔ IsLateFor octets.now self.old }
        ensures refusal { (refusal : Refusal) →
            (result ≡ Err refusal) ↔ IsRefusedDatagram octets.now self.old.opening refusal }

        // The same as a walk, and what it leaves.
        ensures answer { result ≡ answer_to self.old octets.now }
        ensures state { self.new ≡ state_after self.old octets.now }
        ensures refused { OnErr result (self.new ≡ self.old) }
        ensures left { result ≡ Ok Followed.Due → self.new ≡ self.old }
        ensures beyond { result ≡ Ok Followed.Far → self.new ≡ self.old }
        ensures passed { result ≡ Ok Followed.Late → self.new ≡ self.old }

        // The frame of each timestamp that is in is the Frames of the datagrams that were taken
        // since it came in: of those and this one.
        ensures since { (timestamp : ℕ) (datagrams : List (List ℕ)) →
            CameSince self.old timestamp datagrams → IsMember timestamp self.new.opening.window →
            CameSince self.new timestamp (datagrams ++ octets.now ∷ []) }
        ensures format { self.new.opening.format ≡ self.old.opening.format }
        ensures follower { IsFollower self.new }
    {
        self.join(octets)
    }

    /// The same, by the walk.
    pub(crate) fn join(&mut self, octets: &[u8]) -> Result<Followed, Refusal>
        ensures answer { result ≡ answer_to self.old octets.now }
        ensures state { self.new ≡ state_after self.old octets.now }
        ensures refused { OnErr result (self.new ≡ self.old) }
        ensures left { result ≡ Ok Followed.Due → self.new ≡ self.old }
        ensures beyond { result ≡ Ok Followed.Far → self.new ≡ self.old }
        ensures passed { result ≡ Ok Followed.Late → self.new ≡ self.old }
        ensures since { (timestamp : ℕ) (datagrams : List (List ℕ)) →
            CameSince self.old timestamp datagrams → IsMember timestamp self.new.opening.window →
            CameSince self.new timestamp (datagrams ++ octets.now ∷ []) }
        ensures old { IsFollower self.old }
        ensures follower { IsFollower self.new }
    {
        let datagram = admit(&self.format, self.payload_type, self.ssrc, octets)?;
        match self.reach(datagram.header.timestamp) {
            Err(followed) => Ok(followed),
            Ok(place) => {
                self.frames[place].put(&datagram.payload);
                let (extended, sequence) = (datagram.payload.extended, datagram.header.sequence);
                Ok(Followed::Kept(packet_number(extended, sequence)))
            }
        }
    }

    /// The place of the frame of a timestamp, which comes in where it is new and there is room; or
    /// why it has none.
    fn reach(&mut self, timestamp: u32) -> Result<usize, Followed>
        ensures place { result ≡ place_reached (standing_of self.old timestamp) }
        ensures state { self.new ≡ reached self.old timestamp (standing_of self.old timestamp) }
        ensures there { IfOk result (λ place.
            slice_get self.new.opening.window place ≡ Some timestamp) }
        ensures old { IsFollower self.old }
        ensures follower { IsFollower self.new }
    {
        let (gone, size, most_ahead) = (self.gone, self.size, self.most_ahead);
        match find_place(self.window.as_slice(), gone, size, most_ahead, timestamp) {
            Standing::Inside(place) => Ok(place),
            Standing::New(place) => {
                self.bring_in(place, timestamp);
                Ok(place)
            }
            Standing::Waits => Err(Followed::Due),
            Standing::Nowhere => Err(Followed::Late),
            Standing::Beyond => Err(Followed::Far),
        }
    }

    /// Brings a frame in of which nothing is known.
    fn bring_in(&mut self, place: usize, timestamp: u32)
        requires { standing_of self.old timestamp ≡ Standing.New place }
        ensures state { self.new ≡ brought_in self.old place timestamp }
        ensures there { slice_get self.new.opening.window place ≡ Some timestamp }
        ensures follower { IsFollower self.new }
    {
        let frame = spare_frame(&self.format, &mut self.spare);
        self.window.insert(place, timestamp);
        self.frames.insert(place, frame).unwrap();
    }

    /// Hands the oldest frame out: it is then in `out`, and its timestamp is answered. Where no
    /// frame is in, nothing changes.
    ///
    /// `out` has the follower's format. What it held is lost: frames are exchanged, none is copied,
    /// and no memory is taken.
    pub fn next_frame(&mut self, out: &mut Frame<A>) -> Option<u32>
        requires { out.old.format ≡ self.old.opening.format }
        ensures some { IsSome result ↔ (self.old.opening.window ≢ []) }
        ensures none { IfNone result ((self.new ≡ self.old) × (out.new ≡ out.old)) }
        ensures first { IfSome result (λ first.
            slice_get self.old.opening.window 0 ≡ Some first) }
        ensures out { OnSome result (slice_get self.old.frames 0 ≡ Some out.new) }
        ensures state { self.new ≡ without_oldest self.old }

        // The frame that is handed out is the Frames of the datagrams that were taken since it came
        // in; the others stay as they are.
        ensures handed { IfSome result (λ first. (datagrams : List (List ℕ)) →
            CameSince self.old first datagrams →
            frames_of (with_window self.old.opening (first ∷ [])) datagrams ≡ out.new ∷ []) }
        ensures since { (timestamp : ℕ) (datagrams : List (List ℕ)) →
            CameSince self.old timestamp datagrams → IsMember timestamp self.new.opening.window →
            CameSince self.new timestamp datagrams }

        ensures newer { IfSome result (λ first. (before : ℕ) →
            self.old.gone ≡ Some before → IsNewer first before) }
        ensures gone { IfSome result (λ first. self.new.gone ≡ Some first) }
        ensures format { out.new.format ≡ self.new.opening.format }
        ensures follower { IsFollower self.new }
    {
        if self.window.is_empty() {
            return None;
        }
        Some(self.hand_out(out))
    }

    /// Exchanges `out` with the oldest frame, where one is in; what `out` was becomes a spare
    /// frame.
    fn hand_out(&mut self, out: &mut Frame<A>) -> u32
        requires some { 0 < length self.old.opening.window }
        requires format { out.old.format ≡ self.old.opening.format }
        ensures first { slice_get self.old.opening.window 0 ≡ Some result }
        ensures out { slice_get self.old.frames 0 ≡ Some out.new }
        ensures state { self.new ≡ without_oldest self.old }
        ensures newer { (before : ℕ) → self.old.gone ≡ Some before → IsNewer result before }
        ensures gone { self.new.gone ≡ Some result }
        ensures old { IsFollower self.old }
        ensures follower { IsFollower self.new }
    {
        let mut frame = self.frames.remove(0);
        mem::swap(&mut frame, out);
        self.spare.push(frame).unwrap();
        let first = self.window.remove(0);
        self.gone = Some(first);
        first
    }

    /// Forgets what went last, so that whatever comes next is new, as a sender that begins anew
    /// with another base needs it. No frame is in: hand them out before.
    pub fn restart(&mut self)
        requires { self.old.opening.window ≡ [] }
        ensures opened { self.new
            ≡ opened self.old.opening self.old.size self.old.most_ahead }
        ensures since { (timestamp : ℕ) → CameSince self.new timestamp [] }
        ensures format { self.new.opening.format ≡ self.old.opening.format }
        ensures follower { IsFollower self.new }
    {
        self.gone = None;
    }

    /// The frame of a timestamp, in 90 kHz ticks; `None` where it isn't in.
    pub fn frame(&self, timestamp: u32) -> Option<&Frame<A>>
        ensures frame { option_copied result
            ≡ frame_at self.now.opening.window self.now.frames timestamp }
        ensures follower { IsFollower self.now }
    {
        match place_there(self.window.as_slice(), timestamp) {
            None => None,
            Some(place) => Some(&self.frames[place]),
        }
    }

    /// Whether a frame is in, and nothing of the oldest is missing.
    ///
    /// It remembers where it found something missing, so that a call goes through the whole frame
    /// only where that has come since.
    pub fn is_first_complete(&mut self) -> bool
        ensures complete { result ≡ first_complete self.old.frames }
        ensures same { self.new ≡ self.old }
        ensures follower { IsFollower self.new }
    {
        if self.frames.is_empty() {
            return false;
        }
        match missing_place(&self.frames[0], self.missing) {
            None => true,
            Some(place) => {
                self.missing = place;
                false
            }
        }
    }

    /// The format that it was opened with, which all its frames have.
    pub fn format(&self) -> Format
        ensures format { result ≡ self.now.opening.format }
        ensures follower { IsFollower self.now }
    {
        self.format
    }

    /// The timestamps of the frames that are in, oldest first, in 90 kHz ticks.
    pub fn window(&self) -> &[u32]
        ensures window { result.now ≡ self.now.opening.window }
        ensures follower { IsFollower self.now }
    {
        self.window.as_slice()
    }

    /// How many frames may be in.
    pub fn size(&self) -> usize
        ensures size { result ≡ self.now.size }
        ensures follower { IsFollower self.now }
    {
        self.size
    }

    /// How many ticks of the 90 kHz clock a new timestamp may be ahead of the newest.
    pub fn most_ahead(&self) -> u32
        ensures ahead { result ≡ self.now.most_ahead }
        ensures follower { IsFollower self.now }
    {
        self.most_ahead
    }
}
