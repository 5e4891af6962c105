//! Which datagram comes in each turn of a link in memory.
ghost use Rattle.std.specs.Prelude.{◌≡◌, ◌++◌, [], option_to_list};

use std::alloc::Allocator;
use std::marker::Model;

/// Which datagram comes in each turn, by its place among those that were put in.
#[derive(Drop)]
pub(crate) struct Comings<A: Allocator> {
    /// A turn that is past says which one came in it.
    turns: Vec<Option<usize>, A>,
    at: usize,
}

impl<A: Allocator> Model for Comings<A> {
    ghost use Rattle.std.specs.Prelude.{◌≤◌, take, drop, vec_len};
    ghost use Rattle.capture_engines.specs.Coming.{Coming, first_in, places_in};

    ghost Value = { Coming };

    ghost view = { λ c. record {
      came = places_in (take c.at c.turns.items);
      due = first_in (drop c.at c.turns.items);
    } };

    ghost invariant = { λ c. c.at ≤ vec_len c.turns };
}

impl<A: Allocator> Comings<A> {
    /// None came yet.
    pub(crate) fn new(turns: Vec<Option<usize>, A>) -> Self
        ensures { result.came ≡ [] }
    {
        Comings { turns, at: 0 }
    }

    /// The place of the datagram that is due in this turn, if one is.
    pub(crate) fn due(&self) -> Option<usize>
        ensures { result ≡ self.now.due }
    {
        match self.turns.get(self.at) {
            Some(due) => *due,
            None => None,
        }
    }

    /// The one that is due comes, if one is.
    pub(crate) fn come(&mut self)
        ensures { self.new.came ≡ self.old.came ++ option_to_list self.old.due }
    {
        if self.at == self.turns.len() {
            return;
        }
        self.at += 1;
    }

    /// None comes in this turn.
    pub(crate) fn skip(&mut self)
        ensures { self.new.came ≡ self.old.came }
    {
        if self.at == self.turns.len() {
            return;
        }
        let at = self.at;
        self.turns[at] = None;
        self.at += 1;
    }
}
