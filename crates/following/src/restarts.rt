//! When a stream is to be followed anew.
ghost use Rattle.std.specs.Prelude.{◌≡◌, None};
ghost use Rattle.following.specs.Restarts.{first_lost, is_restart, lost_since, since_behind};
ghost use Rattle.following.specs.Turned.{is_lost};

use crate::answer::Followed;
use crate::standing::beyond;
use path_receiver::Refusal;

/// Tells when a stream is to be followed anew: where only datagrams came that were late or too far
/// ahead, for longer than a bound. So does a sender that begins anew with another base, and a
/// stream that was first begun by a stray one.
///
/// How long is told by the datagrams' timestamps, from the first of them to the last.
#[derive(Clone, Copy, Debug, PartialEq, Eq)]
pub struct Restarts {
    /// The bound, in ticks of the 90 kHz clock. From 2^31 - 1 on there is none.
    pub bound: u32,
    /// The timestamp of the first datagram that was late or too far ahead since the last that was
    /// kept, if one was.
    pub since: Option<u32>,
}

impl Restarts {
    /// Where nothing came yet.
    pub fn new(bound: u32) -> Restarts
        ensures { result ≡ record { bound = bound; since = None } }
    {
        Restarts { bound, since: None }
    }

    /// Takes note of the answer to a datagram of this timestamp, and answers whether the stream is
    /// to be followed anew from here on. Then nothing is noted any more.
    pub fn note(&mut self, timestamp: u32, answer: Result<Followed, Refusal>) -> bool
        ensures bound { self.new.bound ≡ self.old.bound }
        ensures restart { result ≡ is_restart self.old.bound self.old.since timestamp answer }
        ensures since { self.new.since
            ≡ since_behind self.old.bound self.old.since timestamp answer }
    {
        self.since = lost(self.since, timestamp, answer);
        if is_dropped(answer) && beyond(self.since, self.bound, timestamp) {
            self.since = None;
            return true;
        }
        false
    }
}

/// Since when only lost datagrams came, where they came so before this answer.
fn lost(since: Option<u32>, timestamp: u32, answer: Result<Followed, Refusal>) -> Option<u32>
    ensures { result ≡ lost_since since timestamp answer }
{
    match answer {
        Ok(Followed::Kept(_)) => None,
        Ok(Followed::Due) => since,
        Ok(Followed::Late) => first(since, timestamp),
        Ok(Followed::Far) => first(since, timestamp),
        Err(_) => since,
    }
}

/// Since when datagrams were lost: since this timestamp, where none was lost before.
fn first(since: Option<u32>, timestamp: u32) -> Option<u32>
    ensures { result ≡ first_lost since timestamp }
{
    match since {
        None => Some(timestamp),
        Some(before) => Some(before),
    }
}

/// Whether a datagram was late or too far ahead.
fn is_dropped(answer: Result<Followed, Refusal>) -> bool
    ensures { result ≡ is_lost answer }
{
    match answer {
        Ok(Followed::Kept(_)) => false,
        Ok(Followed::Due) => false,
        Ok(Followed::Late) => true,
        Ok(Followed::Far) => true,
        Err(_) => false,
    }
}
