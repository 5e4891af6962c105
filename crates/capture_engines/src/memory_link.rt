//! A link over vectors that never grow.
ghost use Rattle.std.specs.Prelude.{◌≡◌, ◌-◌, ◌<◌, [], length, None, Some, Err};
ghost use Rattle.std.specs.Prelude.{IsErr};
ghost use Rattle.std.specs.List.{All};
ghost use Rattle.st_format.specs.Device.{CountsOne};
ghost use Rattle.capture_engines.specs.Coming.{at_places};

use crate::comings::Comings;
use st_format::memory::MemoryDatagrams;
use st_format::{
    DatagramLink, DatagramSink, DatagramSource, MOST_DATAGRAM, Path, SinkFault, SourceFault, Turn,
};
use std::alloc::{Allocator, Global};

/// Takes each datagram into the next one of some slots, and gives in each turn the one that is to
/// come then, by path A: so it repeats, reorders and loses as it is told to. It fails at one call
/// if it is told to, and where there is no slot or no room in it.
#[derive(Drop)]
pub struct MemoryLink<A: Allocator = Global> {
    puts: MemoryDatagrams<A>,
    comings: Comings<A>,
    turns: usize,
    fails_in: u64,
    delivered: u64,
    failures: u64,
    last_fault: Option<SourceFault>,
    // What came is there.
    ghost there: { All (λ place. place < length puts.taken) comings.came },
}

impl<A: Allocator> MemoryLink<A> {
    /// A link with these slots, of which each takes a datagram of up to its capacity.
    ///
    /// `comes` says of each turn which datagram comes then, by its place among those that were put
    /// into the link. A turn is quiet where it says none, where there is no such datagram yet, and
    /// behind the last. The call `fails_in` fails, counted from 1; 0 means that none does.
    pub fn new(slots: Vec<Vec<u8, A>, A>, comes: Vec<Option<usize>, A>, fails_in: u64) -> Self
        ensures tells { ⟦<MemoryLink<A> as DatagramSink>⟧.taken result ≡ Some [] }
        ensures undelivered { ⟦<MemoryLink<A> as DatagramSource>⟧.delivered result ≡ 0 }
        ensures unfailed { ⟦<MemoryLink<A> as DatagramSource>⟧.failures result ≡ 0 }
    {
        MemoryLink {
            puts: MemoryDatagrams::new(slots, 0),
            comings: Comings::new(comes),
            turns: 0,
            fails_in,
            delivered: 0,
            failures: 0,
            last_fault: None,
        }
    }

    /// How many turns it was asked for.
    pub fn turns(&self) -> usize {
        self.turns
    }

    /// How often it has failed.
    pub fn failures(&self) -> u64
        ensures tells { result ≡ ⟦<MemoryLink<A> as DatagramSource>⟧.failures self.now }
    {
        self.failures
    }

    /// Whether this call is the one that fails. Each call counts down to it.
    fn fails_now(&mut self) -> bool
        ensures puts { self.new.puts ≡ self.old.puts }
        ensures comings { self.new.comings ≡ self.old.comings }
        ensures failures { self.new.failures ≡ self.old.failures }
        ensures delivered { self.new.delivered ≡ self.old.delivered }
        ensures last { self.new.last_fault ≡ self.old.last_fault }
    {
        let fails = self.fails_in == 1;
        self.fails_in = self.fails_in.saturating_sub(1);
        fails
    }

    /// One failure more, which is told of.
    fn fail(&mut self) -> Result<(), SinkFault>
        ensures fault { IsErr result }
        ensures puts { self.new.puts ≡ self.old.puts }
        ensures comings { self.new.comings ≡ self.old.comings }
        ensures delivered { self.new.delivered ≡ self.old.delivered }
        ensures counted { CountsOne self.old.failures self.new.failures }
    {
        self.failures = self.failures.saturating_add(1);
        Err(SinkFault)
    }
}

impl<A: Allocator> DatagramSink for MemoryLink<A> {
    ghost taken = { λ l. Some l.puts.taken };

    ghost took = { λ l. l.puts.taken };

    ghost failures = { λ l. l.failures };

    fn put(&mut self, octets: &[u8]) -> Result<(), SinkFault> {
        self.send(octets)
    }
}

impl<A: Allocator> DatagramSource for MemoryLink<A> {
    ghost turns = { λ _. None };

    ghost came = { λ l. at_places l.puts.taken l.comings.came };

    ghost ended = { λ _. ⊥ };

    ghost delivered = { λ l. l.delivered };

    ghost failures = { λ l. l.failures };

    ghost last_fault = { λ l. l.last_fault };

    fn next(&mut self, buf: &mut [u8]) -> Result<Turn, SourceFault> {
        self.turn(buf)
    }
}

impl<A: Allocator> DatagramLink for MemoryLink<A> {
    ghost use Rattle.std.specs.Prelude.{refl};

    ghost one_count = { λ _. refl };

    fn send(&mut self, octets: &[u8]) -> Result<(), SinkFault> {
        if self.fails_now() {
            return self.fail();
        }
        match self.puts.put(octets) {
            Ok(()) => Ok(()),
            Err(_) => self.fail(),
        }
    }

    /// What comes isn't told before, since it may still be put in. A datagram of more than 65,535
    /// octets is none.
    fn turn(&mut self, buf: &mut [u8]) -> Result<Turn, SourceFault> {
        if self.fails_now() {
            self.failures = self.failures.saturating_add(1);
            self.last_fault = Some(SourceFault::Device);
            return Err(SourceFault::Device);
        }
        self.turns = self.turns.saturating_add(1);
        let Some(place) = self.comings.due() else {
            self.comings.skip();
            return Ok(Turn::Quiet);
        };
        let taken = self.puts.taken();
        if place >= taken.len() || taken[place].len() > MOST_DATAGRAM {
            self.comings.skip();
            return Ok(Turn::Quiet);
        }
        let count = taken[place].len();
        buf[..count].copy_from_slice(&taken[place]);
        self.delivered = self.delivered.saturating_add(1);
        self.comings.come();
        Ok(Turn::Datagram(Path::A, count))
    }
}
