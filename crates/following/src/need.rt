//! Which window would have held the datagrams that came late.
ghost use Rattle.std.specs.Prelude.{◌≡◌, ◌≤◌, [], length};
ghost use Rattle.following.specs.Need.{comes_of, newest_with, noted_after, noted_at};

use crate::answer::Followed;
use crate::standing::{has_at, older_count};
use arrayvec::ArrayVec;
use path_receiver::{MOST_TIMESTAMPS, Refusal};
use std::marker::Model;

/// Tells how many frames a follower would have had to have so that no datagram came late: one more
/// than the newer timestamps that came before a datagram, at most. 17 says that it is more than a
/// follower may have.
///
/// It keeps the 16 newest timestamps, and takes no memory.
#[derive(Drop)]
pub struct WindowNeed {
    newest: ArrayVec<u32, MOST_TIMESTAMPS>,
    need: usize,
}

impl Model for WindowNeed {
    ghost use Rattle.std.specs.Prelude.{◌≤◌};
    ghost use Rattle.following.specs.Need.{Noted};

    ghost Value = { Noted };

    ghost view = { λ n. record { newest = n.newest.items; need = n.need } };

    ghost invariant = { λ n. n.need ≤ 17 };
}

impl WindowNeed {
    /// Where nothing came yet: no frame is needed.
    pub fn new() -> WindowNeed
        ensures { result ≡ record { newest = []; need = 0 } }
    {
        WindowNeed {
            newest: ArrayVec::new(),
            need: 0,
        }
    }

    /// Takes note of the answer to a datagram of this timestamp. One that is refused or too far
    /// ahead asks for no frame.
    pub fn note(&mut self, timestamp: u32, answer: Result<Followed, Refusal>)
        ensures { self.new ≡ noted_after self.old timestamp answer }
    {
        if comes(answer) {
            self.take(timestamp);
        }
    }

    /// Forgets which timestamps came, as a follower does that begins anew. What was needed so far
    /// stays.
    pub fn restart(&mut self)
        ensures { self.new ≡ record { newest = []; need = self.old.need } }
    {
        self.newest.clear();
    }

    /// How many frames are needed so far, at most 17; 0 where nothing came.
    pub fn frames(&self) -> usize
        ensures need { result ≡ self.now.need }
        ensures most { result ≤ 17 }
    {
        self.need
    }

    /// Takes note of a timestamp that comes.
    fn take(&mut self, timestamp: u32)
        ensures { self.new ≡ noted_at self.old timestamp }
    {
        let place = older_count(self.newest.as_slice(), timestamp);
        let is_there = has_at(self.newest.as_slice(), place, timestamp);
        let newer = self.newest.len() - place;
        let need = if is_there { newer } else { newer + 1 };
        self.need = self.need.max(need);
        if !is_there {
            put(&mut self.newest, place, timestamp);
        }
    }
}

/// Puts a timestamp at its place among the newest ones, of which the oldest goes where there are
/// 16.
fn put(newest: &mut ArrayVec<u32, MOST_TIMESTAMPS>, place: usize, timestamp: u32)
    requires { place ≤ length newest.old.items }
    ensures { newest.new.items ≡ newest_with newest.old.items place timestamp }
{
    if newest.len() < MOST_TIMESTAMPS {
        newest.insert(place, timestamp);
        return;
    }
    if place > 0 {
        let _oldest = newest.remove(0);
        newest.insert(place - 1, timestamp);
    }
}

/// Whether a datagram came that a follower would have kept, if it had had enough frames.
fn comes(answer: Result<Followed, Refusal>) -> bool
    ensures { result ≡ comes_of answer }
{
    match answer {
        Ok(Followed::Kept(_)) => true,
        Ok(Followed::Due) => false,
        Ok(Followed::Late) => true,
        Ok(Followed::Far) => false,
        Err(_) => false,
    }
}
