//! A stream that is followed.
ghost use Rattle.std.specs.Prelude.{◌≡◌, ◌≤◌, ◌<◌, ◌∷◌, ◌++◌, [], Some, IfErr, IfOk, IsFalse};
ghost use Rattle.std.specs.Prelude.{IsTrue, OnErr, OnOk, length};
ghost use Rattle.follow_engine.specs.Events.{Anew, IsAnewAt, anew_with, datagram_time, events_at};
ghost use Rattle.follow_engine.specs.Events.{is_anew, late_with, leaving, noted_by, running_from};
ghost use Rattle.follow_engine.specs.Events.{timed, turn_left};
ghost use Rattle.follow_engine.specs.Running.{BeginsAnew, Finishes, FollowsDatagram, IsSoundRun};
ghost use Rattle.follow_engine.specs.Running.{LeavesTurn, LeavesWith, TellsDatagram, TellsSome};
ghost use Rattle.follow_engine.specs.Running.{running_of};
ghost use Rattle.following.specs.Follower.{IsFollower, opened};
ghost use Rattle.following.specs.Following.{frames_in};
ghost use Rattle.following.specs.Restarts.{is_restart};
ghost use Rattle.following.specs.Turned.{handed_as, handed_early};
ghost use Rattle.run_outcome.specs.Fault.{Accounts, IfRefused, counts};

use crate::line::{FollowLine, print};
use crate::pictures::PictureSink;
use crate::showing::show_frame;
use following::{
    FollowFault, FollowObserver, FollowTally, Followed, Follower, Restarts, TEN_SECONDS,
    WindowNeed, goes_early, hand_out, take_turn,
};
use frame_assembly::Frame;
use path_receiver::Refusal;
use rtp_header::read_rtp;
use run_outcome::Fault;
use side_by_side::Steering;
use st_format::{ByteSink, Format};
use std::alloc::Allocator;

/// A stream that is followed, and what was noted of it.
#[derive(Drop)]
pub(crate) struct Run<A: Allocator> {
    pub follower: Follower<A>,
    /// The frame that was handed out last.
    pub frame: Frame<A>,
    /// Whether a frame leaves as soon as it is the oldest and nothing of it is missing.
    pub is_eager: bool,
    pub tally: FollowTally,
    pub need: WindowNeed,
    pub restarts: Restarts,
    /// How many frames left.
    pub frames: u64,
    /// How many datagrams came late since the last of them.
    pub late: u64,
    /// Whose timestamps steer the files that it comes from: its own.
    pub steering: Steering,
}

impl<A: Allocator + Copy> Run<A> {
    /// A stream of which nothing came, followed by so many frames. All memory is taken here.
    ///
    /// # Errors
    ///
    /// As [`Follower::open`].
    pub fn open(
        alloc: A,
        format: Format,
        payload_type: u8,
        ssrc: Option<u32>,
        size: usize,
        is_eager: bool,
    ) -> Result<Run<A>, FollowFault>
        requires { payload_type ≤ 127 }
        ensures run { IfOk result (λ r. IsSoundRun r) }
        ensures eager { IfOk result (λ r. r.is_eager ≡ is_eager) }
        ensures running { IfOk result (λ r. running_of r ≡ running_from (opened (record {
          format = format;
          payload_type = payload_type;
          ssrc = ssrc;
          window = [];
        }) size 900000)) }
    {
        let follower = Follower::open(alloc, format, payload_type, ssrc, size, TEN_SECONDS)?;
        let frame = Frame::new(alloc, format)?;
        let need = WindowNeed::new();
        let restarts = Restarts::new(TEN_SECONDS);
        Ok(Run {
            follower,
            frame,
            is_eager,
            tally: FollowTally::NONE,
            need,
            restarts,
            frames: 0,
            late: 0,
            steering: Steering { payload_type, ssrc },
        })
    }

    /// Takes note of the answer to a datagram, and answers its timestamp where the stream is to be
    /// followed anew from it on.
    fn note(&mut self, octets: &[u8], answer: Result<Followed, Refusal>) -> Option<u32>
        ensures noted { running_of self.new
            ≡ noted_by self.old.restarts.bound (running_of self.old) (datagram_time octets.now)
            answer }
        ensures anew { IsAnewAt (anew_with self.old.restarts.bound self.old.restarts.since
            (datagram_time octets.now) answer) (datagram_time octets.now) result }
        ensures bound { self.new.restarts.bound ≡ self.old.restarts.bound }
        ensures frame { self.new.frame ≡ self.old.frame }
        ensures eager { self.new.is_eager ≡ self.old.is_eager }
        ensures steering { self.new.steering ≡ self.old.steering }
    {
        self.tally.note(answer);
        self.late = late_after(self.late, answer);
        match datagram_time(octets) {
            None => None,
            Some(timestamp) => self.note_time(timestamp, answer),
        }
    }

    /// Notes which timestamp was answered so.
    fn note_time(&mut self, timestamp: u32, answer: Result<Followed, Refusal>) -> Option<u32>
        ensures noted { running_of self.new ≡ timed self.old.restarts.bound (running_of self.old)
            timestamp answer }
        ensures anew { IsAnewAt (is_restart self.old.restarts.bound self.old.restarts.since
            timestamp answer) (Some timestamp) result }
        ensures bound { self.new.restarts.bound ≡ self.old.restarts.bound }
        ensures frame { self.new.frame ≡ self.old.frame }
        ensures eager { self.new.is_eager ≡ self.old.is_eager }
        ensures steering { self.new.steering ≡ self.old.steering }
    {
        self.need.note(timestamp, answer);
        let is_anew = self.restarts.note(timestamp, answer);
        told_at(is_anew, timestamp)
    }

    /// Shows and tells the frame of this timestamp, if one was handed out.
    fn leave<P: PictureSink, O: ByteSink>(
        &mut self,
        handed: Option<u32>,
        pictures: &mut P,
        output: &mut O,
    ) -> Result<(), Fault>
        ensures frame { self.new.frame ≡ self.old.frame }
        ensures follower { self.new.follower ≡ self.old.follower }
        ensures restarts { self.new.restarts ≡ self.old.restarts }
        ensures eager { self.new.is_eager ≡ self.old.is_eager }
        ensures steering { self.new.steering ≡ self.old.steering }
        ensures left { OnOk result (LeavesWith P.takes (running_of self.old) (running_of self.new)
            (handed_as handed self.old.frame) pictures.old pictures.new
            (O.took output.old) (O.took output.new)) }
        ensures part { OnErr result (TellsSome P.takes P.fails pictures.old pictures.new
            (O.took output.old) (O.took output.new)
            (leaving self.old.late (handed_as handed self.old.frame))) }
        ensures unrefused { IfErr result (λ f. IfRefused f ⊥) }
        ensures failures { Accounts result (counts (P.failures pictures.old)
            (P.failures pictures.new)
            ∷ counts (O.failures output.old) (O.failures output.new) ∷ []) }
    {
        match handed {
            None => Ok(()),
            Some(timestamp) => self.leave_one(timestamp, pictures, output),
        }
    }

    /// The same, where one was.
    fn leave_one<P: PictureSink, O: ByteSink>(
        &mut self,
        timestamp: u32,
        pictures: &mut P,
        output: &mut O,
    ) -> Result<(), Fault>
        ensures frame { self.new.frame ≡ self.old.frame }
        ensures follower { self.new.follower ≡ self.old.follower }
        ensures restarts { self.new.restarts ≡ self.old.restarts }
        ensures eager { self.new.is_eager ≡ self.old.is_eager }
        ensures steering { self.new.steering ≡ self.old.steering }
        ensures left { OnOk result (LeavesWith P.takes (running_of self.old) (running_of self.new)
            (handed_as (Some timestamp) self.old.frame) pictures.old pictures.new
            (O.took output.old) (O.took output.new)) }
        ensures part { OnErr result (TellsSome P.takes P.fails pictures.old pictures.new
            (O.took output.old) (O.took output.new)
            (leaving self.old.late (handed_as (Some timestamp) self.old.frame))) }
        ensures unrefused { IfErr result (λ f. IfRefused f ⊥) }
        ensures failures { Accounts result (counts (P.failures pictures.old)
            (P.failures pictures.new)
            ∷ counts (O.failures output.old) (O.failures output.new) ∷ []) }
    {
        show_frame(timestamp, &self.frame, self.late, pictures, output)?;
        self.frames = self.frames.saturating_add(1);
        self.late = 0;
        Ok(())
    }

    /// Lets the frames leave that may go before they are due, oldest first.
    fn leave_early<P: PictureSink, O: ByteSink>(
        &mut self,
        pictures: &mut P,
        output: &mut O,
    ) -> Result<(), Fault>
        requires { self.old.frame.format ≡ self.old.follower.opening.format }
        ensures format { self.new.frame.format ≡ self.new.follower.opening.format }
        ensures follower { IsFollower self.new.follower }
        ensures restarts { self.new.restarts ≡ self.old.restarts }
        ensures eager { self.new.is_eager ≡ self.old.is_eager }
        ensures steering { self.new.steering ≡ self.old.steering }
        ensures left { OnOk result (LeavesTurn P.takes self.old.is_eager (running_of self.old)
            (running_of self.new) [] pictures.old pictures.new
            (O.took output.old) (O.took output.new)) }
        ensures part { OnErr result (TellsSome P.takes P.fails pictures.old pictures.new
            (O.took output.old) (O.took output.new)
            (leaving self.old.late (handed_early self.old.is_eager self.old.follower))) }
        ensures unrefused { IfErr result (λ f. IfRefused f ⊥) }
        ensures failures { Accounts result (counts (P.failures pictures.old)
            (P.failures pictures.new)
            ∷ counts (O.failures output.old) (O.failures output.new) ∷ []) }
    {
        self.follower.facts();
        while goes_early(&mut self.follower, self.is_eager) {
            let handed = hand_out(&mut self.follower, &mut self.frame);
            self.leave(handed, pictures, output)?;
        }
        Ok(())
    }

    /// Shows and tells the frame of this timestamp, if one was handed out, and those behind it that
    /// may go before they are due.
    fn leave_turn<P: PictureSink, O: ByteSink>(
        &mut self,
        handed: Option<u32>,
        pictures: &mut P,
        output: &mut O,
    ) -> Result<(), Fault>
        requires { self.old.frame.format ≡ self.old.follower.opening.format }
        ensures format { OnOk result (self.new.frame.format ≡ self.new.follower.opening.format) }
        ensures follower { OnOk result (IsFollower self.new.follower) }
        ensures restarts { self.new.restarts ≡ self.old.restarts }
        ensures eager { self.new.is_eager ≡ self.old.is_eager }
        ensures steering { self.new.steering ≡ self.old.steering }
        ensures left { OnOk result (LeavesTurn P.takes self.old.is_eager (running_of self.old)
            (running_of self.new) (handed_as handed self.old.frame) pictures.old pictures.new
            (O.took output.old) (O.took output.new)) }
        ensures part { OnErr result (TellsSome P.takes P.fails pictures.old pictures.new
            (O.took output.old) (O.took output.new)
            (leaving self.old.late (handed_as handed self.old.frame
            ++ handed_early self.old.is_eager self.old.follower))) }
        ensures unrefused { IfErr result (λ f. IfRefused f ⊥) }
        ensures failures { Accounts result (counts (P.failures pictures.old)
            (P.failures pictures.new)
            ∷ counts (O.failures output.old) (O.failures output.new) ∷ []) }
    {
        self.leave(handed, pictures, output)?;
        self.leave_early(pictures, output)
    }

    fn has_frames(&self) -> bool
        ensures some { IsTrue result → 0 < length self.now.follower.opening.window }
        ensures none { IsFalse result → self.now.follower.opening.window ≡ [] }
    {
        !self.follower.window().is_empty()
    }

    /// Lets all frames leave that are in, oldest first.
    pub fn finish<P: PictureSink, O: ByteSink>(
        &mut self,
        pictures: &mut P,
        output: &mut O,
    ) -> Result<(), Fault>
        requires { IsSoundRun self.old }
        ensures eager { self.new.is_eager ≡ self.old.is_eager }
        ensures finished { OnOk result (Finishes P.takes self.old self.new pictures.old pictures.new
            (O.took output.old) (O.took output.new)) }
        ensures part { OnErr result (TellsSome P.takes P.fails pictures.old pictures.new
            (O.took output.old) (O.took output.new)
            (leaving self.old.late (frames_in self.old.follower))) }
        ensures unrefused { IfErr result (λ f. IfRefused f ⊥) }
        ensures failures { Accounts result (counts (P.failures pictures.old)
            (P.failures pictures.new)
            ∷ counts (O.failures output.old) (O.failures output.new) ∷ []) }
    {
        while self.has_frames() {
            let handed = hand_out(&mut self.follower, &mut self.frame);
            self.leave(handed, pictures, output)?;
        }
        Ok(())
    }

    /// Lets all frames leave that are in, and follows the stream anew from this timestamp on.
    fn begin_anew<P: PictureSink, O: ByteSink>(
        &mut self,
        timestamp: u32,
        pictures: &mut P,
        output: &mut O,
    ) -> Result<(), Fault>
        requires { IsSoundRun self.old }
        ensures eager { self.new.is_eager ≡ self.old.is_eager }
        ensures begun { OnOk result (BeginsAnew P.takes timestamp self.old self.new
            pictures.old pictures.new (O.took output.old) (O.took output.new)) }
        ensures part { OnErr result (TellsSome P.takes P.fails pictures.old pictures.new
            (O.took output.old) (O.took output.new)
            (leaving self.old.late (frames_in self.old.follower) ++ Anew timestamp ∷ [])) }
        ensures unrefused { IfErr result (λ f. IfRefused f ⊥) }
        ensures failures { Accounts result (counts (P.failures pictures.old)
            (P.failures pictures.new)
            ∷ counts (O.failures output.old) (O.failures output.new) ∷ []) }
    {
        self.finish(pictures, output)?;
        self.follower.restart();
        self.need.restart();
        print(FollowLine::Anew(timestamp), output)
    }

    /// Takes a datagram in its turn, shows and tells the frames that leave, and answers the
    /// datagram's timestamp where the stream is to be followed anew from it on.
    fn turn<P: PictureSink, O: ByteSink>(
        &mut self,
        octets: &[u8],
        pictures: &mut P,
        output: &mut O,
    ) -> Result<Option<u32>, Fault>
        requires { IsSoundRun self.old }
        ensures run { OnOk result (IsSoundRun self.new) }
        ensures eager { self.new.is_eager ≡ self.old.is_eager }
        ensures turned { OnOk result (TellsDatagram P.takes self.old.is_eager (running_of self.old)
            (running_of self.new) octets.now pictures.old pictures.new
            (O.took output.old) (O.took output.new)) }
        ensures part { OnErr result (TellsSome P.takes P.fails pictures.old pictures.new
            (O.took output.old) (O.took output.new)
            (turn_left self.old.is_eager (running_of self.old) octets.now)) }
        ensures anew { IfOk result (λ at. IsAnewAt (is_anew (running_of self.old) octets.now)
            (datagram_time octets.now) at) }
        ensures unrefused { IfErr result (λ f. IfRefused f ⊥) }
        ensures failures { Accounts result (counts (P.failures pictures.old)
            (P.failures pictures.new)
            ∷ counts (O.failures output.old) (O.failures output.new) ∷ []) }
    {
        let turn = take_turn(&mut self.follower, octets, &mut self.frame);
        let anew = self.note(octets, turn.answer);
        self.leave_turn(turn.handed, pictures, output)?;
        Ok(anew)
    }

    /// Takes a datagram in its turn: what leaves is shown and told; and where only datagrams came
    /// that were late or too far ahead, for longer than ten seconds, the stream is followed anew.
    pub fn take<P: PictureSink, O: ByteSink>(
        &mut self,
        octets: &[u8],
        pictures: &mut P,
        output: &mut O,
    ) -> Result<(), Fault>
        requires { IsSoundRun self.old }
        ensures eager { self.new.is_eager ≡ self.old.is_eager }
        ensures run { OnOk result (IsSoundRun self.new) }
        ensures took { OnOk result (FollowsDatagram P.takes self.old.is_eager (running_of self.old)
            (running_of self.new) octets.now pictures.old pictures.new
            (O.took output.old) (O.took output.new)) }
        ensures part { OnErr result (TellsSome P.takes P.fails pictures.old pictures.new
            (O.took output.old) (O.took output.new)
            (events_at self.old.is_eager (running_of self.old) octets.now)) }
        ensures unrefused { IfErr result (λ f. IfRefused f ⊥) }
        ensures failures { Accounts result (counts (P.failures pictures.old)
            (P.failures pictures.new)
            ∷ counts (O.failures output.old) (O.failures output.new) ∷ []) }
    {
        let anew = self.turn(octets, pictures, output)?;
        match anew {
            Some(timestamp) => self.begin_anew(timestamp, pictures, output),
            None => Ok(()),
        }
    }
}

/// The timestamp of a datagram's header, where it has one.
fn datagram_time(octets: &[u8]) -> Option<u32>
    ensures { result ≡ datagram_time octets.now }
{
    match read_rtp(octets) {
        Ok(header) => Some(header.timestamp),
        Err(_) => None,
    }
}

/// The timestamp from which on the stream is followed anew, where it is.
fn told_at(is_told: bool, timestamp: u32) -> Option<u32>
    ensures { IsAnewAt is_told (Some timestamp) result }
{
    if is_told { Some(timestamp) } else { None }
}

/// How many datagrams came late, with one of this answer more.
fn late_after(late: u64, answer: Result<Followed, Refusal>) -> u64
    ensures { result ≡ late_with late answer }
{
    match answer {
        Ok(Followed::Kept(_)) => late,
        Ok(Followed::Due) => late,
        Ok(Followed::Late) => late.saturating_add(1),
        Ok(Followed::Far) => late,
        Err(_) => late,
    }
}
