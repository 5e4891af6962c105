//! Following the datagrams of a source: frames are handed to a sink as they are due, or early.
ghost use Rattle.std.specs.Prelude.{◌≡◌, ◌++◌, ◌≤◌, [], List, IfOk, IfSome, IfNone, fold};
ghost use Rattle.std.specs.Prelude.{length, map, take, true, false, Some};
ghost use Rattle.st_format.specs.Device.{CountsOne};
ghost use Rattle.st_format.specs.Turns.{Due, datagrams_of};
ghost use Rattle.path_receiver.specs.Opening.{Opening};
ghost use Rattle.path_receiver.specs.Took.{datagrams_since};
ghost use Rattle.following.specs.Acts.{AreNearby};
ghost use Rattle.following.specs.Follower.{IsFollower, opened};
ghost use Rattle.following.specs.Following.{frames_in};
ghost use Rattle.following.specs.Prompt.{AreAgreed, IsPrompt};
ghost use Rattle.following.specs.Stream.{CountsSink, CountsSource, NoneDropped, ShowsAll};
ghost use Rattle.following.specs.Stream.{TellsSourceFault};
ghost use Rattle.following.specs.Stream.{TookTurns, delivered_by, not_shown, still_early};
ghost use Rattle.following.specs.Stream.{without_early};
ghost use Rattle.following.specs.Times.{AreTimed, IsOrderly, Timed, handed_at, in_order, octets_of};
ghost use Rattle.following.specs.Times.{times_of};
ghost use Rattle.following.specs.Turned.{answer_in, answers_in, goes_early, handed_as};
ghost use Rattle.following.specs.Turned.{handed_early, handed_in, handed_while, state_behind};
ghost use Rattle.following.specs.Turned.{state_early, turned};

use crate::fault::{FrameFault, StreamFault};
use crate::follower::Follower;
use crate::sink::{FollowObserver, FrameSink};
use crate::turn::{goes_early, hand_out, take_turn};
use frame_assembly::Frame;
use path_receiver::{ReceiveFault, Received};
use st_format::{DatagramSource, Turn};
use std::alloc::Allocator;

/// Takes the datagrams of a source, each in its turn: `limit` turns of the source, or fewer where
/// one is the end or a fault. The oldest frame is shown to the sink where it is due; the observer
/// is told each answer.
///
/// A datagram that is refused, late or too far ahead counts as delivered and stops nothing. What is
/// in at the end stays in, for a further call, or for [`finish`]. `buf` has room for any datagram:
/// 65,535 octets. `frame` has the follower's format; what it held is lost. No memory is taken.
///
/// An `Err` is the one failure in this call, of the source or the sink. All that came is taken.
/// Where the sink failed, the frame that it did not take is in `frame`, and the fault tells its
/// timestamp: the caller may show it anew, and go on.
pub fn follow<S: DatagramSource, A: Allocator, K: FrameSink, O: FollowObserver>(
    source: &mut S,
    follower: &mut Follower<A>,
    buf: &mut [u8],
    limit: u64,
    frame: &mut Frame<A>,
    sink: &mut K,
    observer: &mut O,
) -> Result<Received, StreamFault>
    requires room { 65535 ≤ length buf.old }
    requires format { frame.old.format ≡ follower.old.opening.format }

    // Which turns were taken; and of what came in them: what the follower then is, what the sink
    // was shown, but for a frame that it did not take, and what the observer was told.
    ensures took { TookTurns limit result (S.turns source.old) (S.turns source.new)
        (S.came source.old) (S.came source.new) }
    ensures state { follower.new
        ≡ state_behind false follower.old
        (datagrams_since (S.came source.old) (S.came source.new)) }
    ensures shown { ShowsAll (K.shown sink.old) (K.shown sink.new) (not_shown result frame.new)
        (handed_while false follower.old
        (datagrams_since (S.came source.old) (S.came source.new))) }
    ensures heard { observer.new
        ≡ fold O.after observer.old
        (answers_in false follower.old
        (datagrams_since (S.came source.old) (S.came source.new))) }
    ensures turns { (due : List Due) → S.turns source.old ≡ Some due →
        datagrams_since (S.came source.old) (S.came source.new)
        ≡ take (delivered_by result) (datagrams_of due) }

    // The headline of streams, of what came: from a new follower on, where none of it comes after
    // as many newer timestamps as it has frames, and none is too far ahead, what the sink was shown
    // and what is in is the frame of each time of theirs, in rising order, of all that came of it.
    ensures stream { (o : Opening) (timed : List Timed) →
        follower.old ≡ opened o follower.old.size follower.old.most_ahead →
        octets_of timed ≡ datagrams_since (S.came source.old) (S.came source.new) →
        AreTimed o timed →
        IsOrderly follower.old.size follower.old.most_ahead (times_of o timed) →
        ShowsAll (K.shown sink.old) (K.shown sink.new)
        (not_shown result frame.new ++ frames_in follower.new)
        (map (handed_at o timed) (in_order (times_of o timed))) }

    // The end, counts and faults; and what stays.
    ensures ended { IfOk result (λ r. r.ended ≡ true → S.ended source.new) }
    ensures counted { CountsSource result (S.failures source.old) (S.failures source.new) }
    ensures fault { TellsSourceFault result (S.last_fault source.old) (S.last_fault source.new) }
    ensures sink { CountsSink result (K.failures sink.old) (K.failures sink.new) }
    ensures format { frame.new.format ≡ follower.new.opening.format }
    ensures follower { IsFollower follower.new }
    ensures room { length buf.new ≡ length buf.old }
    ensures before { S.before source.new ≡ S.before source.old }
    ensures names { S.names source.new ≡ S.names source.old }
{
    follower.facts();
    take_turns(source, follower, buf, limit, false, frame, sink, observer)
}

/// The same, where after each datagram the oldest frames are shown too, up to one of which
/// something is missing: early, before they are due.
///
/// What comes of a timestamp whose frame went is late. So a caller that counts late datagrams
/// counts the repeats of frames that went early among them. Where the sink failed, the complete
/// frames behind the one that it did not take stay in: hand them out, as long as the oldest
/// [`goes_early`](crate::goes_early), before the next call.
pub fn follow_eagerly<S: DatagramSource, A: Allocator, K: FrameSink, O: FollowObserver>(
    source: &mut S,
    follower: &mut Follower<A>,
    buf: &mut [u8],
    limit: u64,
    frame: &mut Frame<A>,
    sink: &mut K,
    observer: &mut O,
) -> Result<Received, StreamFault>
    requires room { 65535 ≤ length buf.old }
    requires format { frame.old.format ≡ follower.old.opening.format }
    ensures took { TookTurns limit result (S.turns source.old) (S.turns source.new)
        (S.came source.old) (S.came source.new) }
    ensures state { without_early true result follower.new
        ≡ state_behind true follower.old
        (datagrams_since (S.came source.old) (S.came source.new)) }
    ensures shown { ShowsAll (K.shown sink.old) (K.shown sink.new)
        (not_shown result frame.new ++ still_early true result follower.new)
        (handed_while true follower.old
        (datagrams_since (S.came source.old) (S.came source.new))) }
    ensures heard { observer.new
        ≡ fold O.after observer.old
        (answers_in true follower.old
        (datagrams_since (S.came source.old) (S.came source.new))) }
    ensures turns { (due : List Due) → S.turns source.old ≡ Some due →
        datagrams_since (S.came source.old) (S.came source.new)
        ≡ take (delivered_by result) (datagrams_of due) }

    // From a new follower on, where no answer was Late or Far, what the sink was shown and what is
    // in is the frame of each time, in rising order, of all that came of it: nothing was lost.
    ensures stream { (o : Opening) (timed : List Timed) →
        follower.old ≡ opened o follower.old.size follower.old.most_ahead →
        octets_of timed ≡ datagrams_since (S.came source.old) (S.came source.new) →
        AreTimed o timed → AreNearby follower.old.size (times_of o timed) →
        NoneDropped (answers_in true follower.old
        (datagrams_since (S.came source.old) (S.came source.new))) →
        ShowsAll (K.shown sink.old) (K.shown sink.new)
        (not_shown result frame.new ++ frames_in follower.new)
        (map (handed_at o timed) (in_order (times_of o timed))) }

    // The headline of two paths: so it is, whatever was Late, where each time first comes before a
    // newer one's frame is complete, what comes after as many newer ones as it has frames is a
    // repeat, and no two datagrams of a time give a sample different values.
    ensures prompt { (o : Opening) (timed : List Timed) →
        follower.old ≡ opened o follower.old.size follower.old.most_ahead →
        octets_of timed ≡ datagrams_since (S.came source.old) (S.came source.new) →
        AreTimed o timed → AreNearby follower.old.size (times_of o timed) →
        IsPrompt true o follower.old.size follower.old.most_ahead timed → AreAgreed o timed →
        ShowsAll (K.shown sink.old) (K.shown sink.new)
        (not_shown result frame.new ++ frames_in follower.new)
        (map (handed_at o timed) (in_order (times_of o timed))) }
    ensures ended { IfOk result (λ r. r.ended ≡ true → S.ended source.new) }
    ensures counted { CountsSource result (S.failures source.old) (S.failures source.new) }
    ensures fault { TellsSourceFault result (S.last_fault source.old) (S.last_fault source.new) }
    ensures sink { CountsSink result (K.failures sink.old) (K.failures sink.new) }
    ensures format { frame.new.format ≡ follower.new.opening.format }
    ensures follower { IsFollower follower.new }
    ensures room { length buf.new ≡ length buf.old }
    ensures before { S.before source.new ≡ S.before source.old }
    ensures names { S.names source.new ≡ S.names source.old }
{
    follower.facts();
    take_turns(source, follower, buf, limit, true, frame, sink, observer)
}

/// Takes so many turns, or fewer where one is the end or a fault.
fn take_turns<S: DatagramSource, A: Allocator, K: FrameSink, O: FollowObserver>(
    source: &mut S,
    follower: &mut Follower<A>,
    buf: &mut [u8],
    limit: u64,
    eager: bool,
    frame: &mut Frame<A>,
    sink: &mut K,
    observer: &mut O,
) -> Result<Received, StreamFault>
    requires room { 65535 ≤ length buf.old }
    requires format { frame.old.format ≡ follower.old.opening.format }
    requires follower { IsFollower follower.old }
    ensures took { TookTurns limit result (S.turns source.old) (S.turns source.new)
        (S.came source.old) (S.came source.new) }
    ensures state { without_early eager result follower.new
        ≡ state_behind eager follower.old
        (datagrams_since (S.came source.old) (S.came source.new)) }
    ensures shown { ShowsAll (K.shown sink.old) (K.shown sink.new)
        (not_shown result frame.new ++ still_early eager result follower.new)
        (handed_while eager follower.old
        (datagrams_since (S.came source.old) (S.came source.new))) }
    ensures heard { observer.new
        ≡ fold O.after observer.old
        (answers_in eager follower.old
        (datagrams_since (S.came source.old) (S.came source.new))) }
    ensures ended { IfOk result (λ r. r.ended ≡ true → S.ended source.new) }
    ensures counted { CountsSource result (S.failures source.old) (S.failures source.new) }
    ensures fault { TellsSourceFault result (S.last_fault source.old) (S.last_fault source.new) }
    ensures sink { CountsSink result (K.failures sink.old) (K.failures sink.new) }
    ensures format { frame.new.format ≡ follower.new.opening.format }
    ensures follower { IsFollower follower.new }
    ensures room { length buf.new ≡ length buf.old }
    ensures before { S.before source.new ≡ S.before source.old }
    ensures names { S.names source.new ≡ S.names source.old }
{
    let mut delivered = 0;
    for _ in 0..limit {
        match source.next(buf) {
            Ok(Turn::Datagram(_, count)) => {
                let octets = &buf[..count];
                delivered += 1;
                match show_turn(follower, octets, eager, frame, sink, observer) {
                    None => continue,
                    Some(timestamp) => {
                        return Err(StreamFault::Sink(FrameFault {
                            delivered,
                            timestamp,
                        }));
                    }
                }
            }
            Ok(Turn::Quiet) => continue,
            Ok(Turn::End) => {
                return Ok(Received {
                    delivered,
                    ended: true,
                });
            }
            Err(fault) => return Err(StreamFault::Source(ReceiveFault { delivered, fault })),
        }
    }
    Ok(Received {
        delivered,
        ended: false,
    })
}

/// Takes a datagram in its turn, tells the answer, and shows the frames that are handed out.
/// Answers the timestamp of one at which the sink failed; the complete ones behind it are in then.
fn show_turn<A: Allocator, K: FrameSink, O: FollowObserver>(
    follower: &mut Follower<A>,
    octets: &[u8],
    eager: bool,
    frame: &mut Frame<A>,
    sink: &mut K,
    observer: &mut O,
) -> Option<u32>
    requires { frame.old.format ≡ follower.old.opening.format }
    ensures state { state_early eager follower.new ≡ turned eager follower.old octets.now }
    ensures shown { ShowsAll (K.shown sink.old) (K.shown sink.new)
        (handed_as result frame.new ++ handed_early eager follower.new)
        (handed_in eager follower.old octets.now) }
    ensures none { IfNone result (goes_early eager follower.new ≡ false) }
    ensures heard { observer.new ≡ O.after observer.old (answer_in follower.old octets.now) }
    ensures counted { IfSome result
        (λ _. CountsOne (K.failures sink.old) (K.failures sink.new)) }
    ensures blameless { IfNone result (K.failures sink.new ≡ K.failures sink.old) }
    ensures format { frame.new.format ≡ follower.new.opening.format }
    ensures follower { IsFollower follower.new }
{
    let turn = take_turn(follower, octets, frame);
    observer.note(turn.answer);
    match show(turn.handed, frame, sink) {
        None => show_early(follower, eager, frame, sink),
        Some(timestamp) => Some(timestamp),
    }
}

/// Shows all frames that may go before they are due. Answers the timestamp of one at which the sink
/// failed.
fn show_early<A: Allocator, K: FrameSink>(
    follower: &mut Follower<A>,
    eager: bool,
    frame: &mut Frame<A>,
    sink: &mut K,
) -> Option<u32>
    requires { frame.old.format ≡ follower.old.opening.format }
    ensures state { state_early eager follower.new ≡ state_early eager follower.old }
    ensures shown { ShowsAll (K.shown sink.old) (K.shown sink.new)
        (handed_as result frame.new ++ handed_early eager follower.new)
        (handed_early eager follower.old) }
    ensures none { IfNone result (goes_early eager follower.new ≡ false) }
    ensures counted { IfSome result
        (λ _. CountsOne (K.failures sink.old) (K.failures sink.new)) }
    ensures blameless { IfNone result (K.failures sink.new ≡ K.failures sink.old) }
    ensures format { frame.new.format ≡ follower.new.opening.format }
    ensures follower { IsFollower follower.new }
{
    follower.facts();
    while goes_early(follower, eager) {
        let handed = hand_out(follower, frame);
        if let Some(timestamp) = show(handed, frame, sink) {
            return Some(timestamp);
        }
    }
    None
}

/// Shows a frame of this timestamp, if one was handed out. Answers the timestamp where the sink
/// failed.
fn show<A: Allocator, K: FrameSink>(
    handed: Option<u32>,
    frame: &Frame<A>,
    sink: &mut K,
) -> Option<u32>
    ensures shown { ShowsAll (K.shown sink.old) (K.shown sink.new)
        (handed_as result frame.now) (handed_as handed frame.now) }
    ensures counted { IfSome result
        (λ _. CountsOne (K.failures sink.old) (K.failures sink.new)) }
    ensures blameless { IfNone result (K.failures sink.new ≡ K.failures sink.old) }
{
    let timestamp = handed?;
    match sink.show(timestamp, frame) {
        Ok(()) => None,
        Err(_) => Some(timestamp),
    }
}

/// Shows all frames that are in to the sink, oldest first. Answers `None`, and none is in then; or
/// the timestamp of the frame that the sink did not take, which is in `frame`: the caller may show
/// it anew, and call again for the rest.
pub fn finish<A: Allocator, K: FrameSink>(
    follower: &mut Follower<A>,
    frame: &mut Frame<A>,
    sink: &mut K,
) -> Option<u32>
    requires { frame.old.format ≡ follower.old.opening.format }
    ensures shown { ShowsAll (K.shown sink.old) (K.shown sink.new)
        (handed_as result frame.new ++ frames_in follower.new) (frames_in follower.old) }
    ensures none { IfNone result (follower.new.opening.window ≡ []) }
    ensures counted { IfSome result
        (λ _. CountsOne (K.failures sink.old) (K.failures sink.new)) }
    ensures blameless { IfNone result (K.failures sink.new ≡ K.failures sink.old) }
    ensures size { follower.new.size ≡ follower.old.size }
    ensures ahead { follower.new.most_ahead ≡ follower.old.most_ahead }
    ensures format { frame.new.format ≡ follower.new.opening.format }
    ensures follower { IsFollower follower.new }
{
    follower.facts();
    while !follower.window().is_empty() {
        let handed = hand_out(follower, frame);
        if let Some(timestamp) = show(handed, frame, sink) {
            return Some(timestamp);
        }
    }
    None
}
