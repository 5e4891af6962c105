//! Histories that only proofs read. They take no memory, and their methods do nothing at run time.
//!
//! Who calls a method that notes is trusted to note what passed, and nothing else: that is why only
//! the devices of this crate can.
ghost use Rattle.std.specs.Prelude.{◌≡◌, ℕ, List, [], ◌∷◌, ◌++◌};
ghost use Rattle.std.specs.Borrow.{ftrue};
ghost use Rattle.st_format.specs.declared.path.Path.{Path as By};

use st_format::Path;
use std::marker::{Model, PhantomData};

/// Octets that were given or taken. A clause reads them as `octets`.
#[derive(Drop)]
pub struct History {
    marker: PhantomData<u8>,
    pub ghost octets: { List ℕ },
}

impl Model for History {
    ghost also_owns = { λ _. ftrue };
}

impl History {
    /// No octets yet.
    pub(crate) fn new() -> History
        ensures { result.octets ≡ [] }
    {
        History {
            marker: PhantomData,
        }
    }

    /// Puts octets behind those before, for clauses alone: nothing is kept.
    pub(crate) fn note(&mut self, _octets: &[u8])
        ensures { self.new.octets ≡ self.old.octets ++ _octets.now }
    {}
}

/// Datagrams that were taken. A clause reads them as `datagrams`.
#[derive(Drop)]
pub struct Sendings {
    marker: PhantomData<u8>,
    pub ghost datagrams: { List (List ℕ) },
}

impl Model for Sendings {
    ghost also_owns = { λ _. ftrue };
}

impl Sendings {
    /// No datagram yet.
    pub(crate) fn new() -> Sendings
        ensures { result.datagrams ≡ [] }
    {
        Sendings {
            marker: PhantomData,
        }
    }

    /// Puts a datagram behind those before, for clauses alone: nothing is kept.
    pub(crate) fn note(&mut self, _octets: &[u8])
        ensures { self.new.datagrams ≡ self.old.datagrams ++ _octets.now ∷ [] }
    {}
}

/// Datagrams that came by two paths. A clause reads them as `came`.
#[derive(Drop)]
pub struct Arrivals {
    marker: PhantomData<u8>,
    pub ghost came: { List (By × List ℕ) },
}

impl Model for Arrivals {
    ghost also_owns = { λ _. ftrue };
}

impl Arrivals {
    /// No datagram yet.
    pub(crate) fn new() -> Arrivals
        ensures { result.came ≡ [] }
    {
        Arrivals {
            marker: PhantomData,
        }
    }

    /// Puts a datagram and its path behind those before, for clauses alone: nothing is kept.
    pub(crate) fn note(&mut self, path: Path, octets: &[u8])
        ensures { self.new.came ≡ self.old.came ++ (path, octets.now) ∷ [] }
    {
        match path {
            Path::A => self.note_a(octets),
            Path::B => self.note_b(octets),
        }
    }

    fn note_a(&mut self, _octets: &[u8])
        ensures { self.new.came ≡ self.old.came ++ (Path.A, _octets.now) ∷ [] }
    {}

    fn note_b(&mut self, _octets: &[u8])
        ensures { self.new.came ≡ self.old.came ++ (Path.B, _octets.now) ∷ [] }
    {}
}
