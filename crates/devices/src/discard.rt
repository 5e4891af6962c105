//! A sink that keeps nothing.
ghost use Rattle.std.specs.Prelude.{◌≡◌, [], None};

use crate::history::{History, Sendings};
use st_format::{ByteSink, DatagramSink, DeviceFault, SinkFault};

/// Takes all octets, and each datagram, and forgets them. It never fails.
#[derive(Drop)]
pub struct Discard {
    octets: History,
    datagrams: Sendings,
}

impl Discard {
    /// A sink that took nothing yet, for what is counted or timed and not kept.
    pub fn new() -> Self
        ensures octets { ⟦<Discard as ByteSink>⟧.took result ≡ [] }
        ensures datagrams { ⟦<Discard as DatagramSink>⟧.took result ≡ [] }
    {
        Discard {
            octets: History::new(),
            datagrams: Sendings::new(),
        }
    }
}

impl DatagramSink for Discard {
    ghost taken = { λ _. None };

    ghost took = { λ d. d.datagrams.datagrams };

    ghost failures = { λ _. 0 };

    fn put(&mut self, octets: &[u8]) -> Result<(), SinkFault> {
        self.datagrams.note(octets);
        Ok(())
    }
}

impl ByteSink for Discard {
    ghost held = { λ _. None };

    ghost took = { λ d. d.octets.octets };

    ghost failures = { λ _. 0 };

    fn write(&mut self, octets: &[u8]) -> Result<usize, DeviceFault> {
        self.octets.note(octets);
        Ok(octets.len())
    }
}
