//! Two sockets of this machine as a link. They tell the datagrams that they took and gave, and not
//! those that will come.
ghost use Rattle.std.specs.Prelude.{◌≡◌, ◌<◌, ◌↔◌, [], IfOk, IsTrue, None};

use crate::history::{Arrivals, Sendings};
use crate::standing::Writing;
use st_format::{
    DatagramLink, DatagramSink, DatagramSource, MOST_DATAGRAM, Path, SinkFault, SourceFault, Turn,
};
use std::io::{self, ErrorKind};
use std::net::{Net, SocketAddr, UdpSocket};
use std::time::Duration;

/// Where sockets are bound: on this machine alone, at a port that is free.
const LOOPBACK: &str = "127.0.0.1:0";

/// What the sockets are called where a fault of them is told.
const SOCKETS: &str = "the sockets on 127.0.0.1";

/// How long a datagram is waited for, in seconds.
const PATIENCE: u64 = 1;

/// Two UDP sockets: what is sent by the one comes to the other.
#[derive(Drop)]
pub struct UdpLink {
    from: UdpSocket,
    to: UdpSocket,
    address: SocketAddr,
    came: Arrivals,
    took: Sendings,
    delivered: u64,
    failures: u64,
    last_fault: Option<SourceFault>,
    /// Why it failed last, where the system said so.
    fault: Option<io::Error>,
}

impl UdpLink {
    /// Binds two sockets on 127.0.0.1, each at a port that is free. An `Err` is the system's
    /// refusal.
    pub fn open<N: Net>(net: &N) -> io::Result<UdpLink>
        ensures unfailed { IfOk result (λ l. ⟦<UdpLink as DatagramSink>⟧.failures l ≡ 0) }
        ensures untaken { IfOk result (λ l. ⟦<UdpLink as DatagramSink>⟧.took l ≡ []) }
        ensures fresh { IfOk result (λ l. ⟦<UdpLink as DatagramSource>⟧.came l ≡ []) }
    {
        let from = UdpSocket::bind(net, LOOPBACK)?;
        let to = UdpSocket::bind(net, LOOPBACK)?;
        to.set_read_timeout(Some(Duration::from_secs(PATIENCE)))?;
        let address = to.local_addr()?;
        Ok(UdpLink {
            from,
            to,
            address,
            came: Arrivals::new(),
            took: Sendings::new(),
            delivered: 0,
            failures: 0,
            last_fault: None,
            fault: None,
        })
    }

    /// How sending and receiving went, for what a person is told of it.
    pub fn writing(&self) -> Writing<'static>
        ensures { IsTrue result.has_failed
            ↔ (0 < ⟦<UdpLink as DatagramSink>⟧.failures self.now) }
    {
        Writing {
            name: SOCKETS,
            has_failed: self.failures > 0,
            fault: self.fault,
            left: None,
        }
    }
}

/// How it went where the sockets could not be bound.
pub fn unbound(fault: io::Error) -> Writing<'static>
    ensures { IsTrue result.has_failed }
{
    Writing {
        name: SOCKETS,
        has_failed: true,
        fault: Some(fault),
        left: None,
    }
}

impl DatagramSink for UdpLink {
    ghost taken = { λ _. None };

    ghost took = { λ l. l.took.datagrams };

    ghost failures = { λ l. l.failures };

    fn put(&mut self, octets: &[u8]) -> Result<(), SinkFault> {
        self.send(octets)
    }
}

impl DatagramSource for UdpLink {
    ghost turns = { λ _. None };

    ghost came = { λ l. l.came.came };

    // (a link never ends)
    ghost ended = { λ _. ⊥ };

    ghost delivered = { λ l. l.delivered };

    ghost failures = { λ l. l.failures };

    ghost last_fault = { λ l. l.last_fault };

    fn next(&mut self, buf: &mut [u8]) -> Result<Turn, SourceFault> {
        self.turn(buf)
    }
}

impl DatagramLink for UdpLink {
    ghost use Rattle.std.specs.Prelude.{refl};

    ghost one_count = { λ _. refl };

    /// A datagram that is sent in part is a failure too.
    fn send(&mut self, octets: &[u8]) -> Result<(), SinkFault> {
        match self.from.send_to(octets, self.address) {
            Ok(n) if n == octets.len() => {
                self.took.note(octets);
                Ok(())
            }
            outcome => {
                self.fault = outcome.err();
                self.failures = self.failures.saturating_add(1);
                Err(SinkFault)
            }
        }
    }

    /// A turn in which none comes within a second is quiet.
    fn turn(&mut self, buf: &mut [u8]) -> Result<Turn, SourceFault> {
        let error = match self.to.recv_from(&mut buf[..MOST_DATAGRAM]) {
            Ok((n, _)) => {
                self.came.note(Path::A, &buf[..n]);
                self.delivered = self.delivered.saturating_add(1);
                return Ok(Turn::Datagram(Path::A, n));
            }
            Err(error) => error,
        };
        match error.kind() {
            ErrorKind::WouldBlock | ErrorKind::TimedOut => Ok(Turn::Quiet),
            _ => {
                self.fault = Some(error);
                self.failures = self.failures.saturating_add(1);
                self.last_fault = Some(SourceFault::Device);
                Err(SourceFault::Device)
            }
        }
    }
}
