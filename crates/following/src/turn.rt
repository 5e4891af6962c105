//! A datagram taken in its turn.
ghost use Rattle.std.specs.Prelude.{◌≡◌, ◌≢◌, [], Ok, IfNone, take, true};
ghost use Rattle.following.specs.Follower.{IsFollower, answer_to, state_after, without_oldest};
ghost use Rattle.following.specs.Following.{frames_in, handed_before, is_due, is_due_answer};
ghost use Rattle.following.specs.Turned.{answer_in, goes_early, handed_as, state_taken};

use crate::answer::Followed;
use crate::follower::Follower;
use frame_assembly::Frame;
use path_receiver::Refusal;
use std::alloc::Allocator;

/// What came of a datagram that was taken in its turn.
#[derive(Clone, Copy, Debug)]
pub struct TurnTaken {
    /// The answer to it, which is never `Due`.
    pub answer: Result<Followed, Refusal>,
    /// The timestamp of the frame that was handed out, if one was, in 90 kHz ticks.
    pub handed: Option<u32>,
}

/// Takes a datagram in its turn. Where the oldest frame is due it is handed out first: so the
/// answer is never `Due`. Where frames may go early, the caller then hands the oldest out as long
/// as it [`goes_early`].
///
/// A frame that is handed out is then in `frame`, which has the follower's format; what it held is
/// lost. One frame goes at most. No memory is taken.
pub fn take_turn<A: Allocator>(
    follower: &mut Follower<A>,
    octets: &[u8],
    frame: &mut Frame<A>,
) -> TurnTaken
    requires { frame.old.format ≡ follower.old.opening.format }
    ensures answer { result.answer ≡ answer_in follower.old octets.now }
    ensures never { result.answer ≢ Ok Followed.Due }
    ensures state { follower.new ≡ state_taken follower.old octets.now }
    ensures handed { handed_as result.handed frame.new ≡ handed_before follower.old octets.now }
    ensures none { IfNone result.handed (frame.new ≡ frame.old) }
    ensures format { frame.new.format ≡ follower.new.opening.format }
    ensures follower { IsFollower follower.new }
{
    let answer = follower.join(octets);
    if is_due(answer) {
        return take_waiting(follower, octets, frame);
    }
    TurnTaken {
        answer,
        handed: None,
    }
}

/// Takes a datagram for which the oldest frame is due.
fn take_waiting<A: Allocator>(
    follower: &mut Follower<A>,
    octets: &[u8],
    frame: &mut Frame<A>,
) -> TurnTaken
    requires format { frame.old.format ≡ follower.old.opening.format }
    requires due { is_due follower.old octets.now ≡ true }
    ensures answer { result.answer ≡ answer_to (without_oldest follower.old) octets.now }
    ensures never { result.answer ≢ Ok Followed.Due }
    ensures state { follower.new ≡ state_after (without_oldest follower.old) octets.now }
    ensures handed { handed_as result.handed frame.new ≡ take 1 (frames_in follower.old) }
    ensures none { IfNone result.handed (frame.new ≡ frame.old) }
    ensures format { frame.new.format ≡ follower.new.opening.format }
    ensures follower { IsFollower follower.new }
{
    let handed = hand_out(follower, frame);
    let answer = follower.join(octets);
    TurnTaken { answer, handed }
}

/// Whether the oldest frame may be handed out before it is due: where frames may go early, and
/// nothing of it is missing.
pub fn goes_early<A: Allocator>(follower: &mut Follower<A>, eager: bool) -> bool
    ensures goes { result ≡ goes_early eager follower.old }
    ensures same { follower.new ≡ follower.old }
    ensures follower { IsFollower follower.new }
{
    if !eager {
        follower.facts();
        return false;
    }
    follower.is_first_complete()
}

/// Hands the oldest frame out: it is then in `frame`, and its timestamp is answered. `None`, and
/// nothing is changed, where no frame is in.
pub fn hand_out<A: Allocator>(follower: &mut Follower<A>, frame: &mut Frame<A>) -> Option<u32>
    requires { frame.old.format ≡ follower.old.opening.format }
    ensures state { follower.new ≡ without_oldest follower.old }
    ensures handed { handed_as result frame.new ≡ take 1 (frames_in follower.old) }
    ensures none { IfNone result (frame.new ≡ frame.old) }
    ensures format { frame.new.format ≡ follower.new.opening.format }
    ensures old { IsFollower follower.old }
    ensures follower { IsFollower follower.new }
{
    follower.facts();
    follower.next_frame(frame)
}

/// Whether the oldest frame is due.
fn is_due(taken: Result<Followed, Refusal>) -> bool
    ensures { result ≡ is_due_answer taken }
{
    match taken {
        Ok(Followed::Due) => true,
        Ok(Followed::Kept(_)) => false,
        Ok(Followed::Far) => false,
        Ok(Followed::Late) => false,
        Err(_) => false,
    }
}
