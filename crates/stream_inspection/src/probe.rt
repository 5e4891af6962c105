//! A packet of a timestamp by which the skew of the paths is told.
ghost use Rattle.std.specs.Prelude.{◌≡◌, ◌++◌, ◌∷◌, ℕ, List, [], Some};
ghost use Rattle.stream_inspection.specs.Arrivals.{Arrival, arrival};
ghost use Rattle.stream_inspection.specs.Skews.{first_known, probe_of, skew_in, skew_of};

use crate::numbering::Number;
use recording_counts::Packet;
use st_format::Path;

/// The packet number of the first packet of a timestamp, and when a packet with that number first
/// came by each path, in nanoseconds, where it came and that is known.
#[derive(Clone, Copy)]
pub struct Probe {
    pub number: u64,
    pub a: Option<u64>,
    pub b: Option<u64>,
}

/// The probes of a timestamp, where a packet of it came.
#[derive(Clone, Copy)]
pub struct Probes {
    /// By packet numbers of 32 bits.
    pub long: Option<Probe>,
    /// By those of 16 bits.
    pub short: Option<Probe>,
}

impl Probes {
    /// Behind one more packet of the timestamp, which has this number.
    pub(crate) fn after(self, packet: &Packet, number: Number, moment: u64) -> Probes
        ensures long { (own : List (Arrival × ℕ)) → self.long ≡ probe_of own
            → result.long ≡ probe_of (own ++ (arrival packet.now moment, number.long) ∷ []) }
        ensures short { (own : List (Arrival × ℕ)) → self.short ≡ probe_of own
            → result.short ≡ probe_of (own ++ (arrival packet.now moment, number.short) ∷ []) }
    {
        Probes {
            long: probe_after(self.long, packet, number.long, moment),
            short: probe_after(self.short, packet, number.short, moment),
        }
    }
}

/// A probe of a timestamp behind one more packet, which has this number.
fn probe_after(probe: Option<Probe>, packet: &Packet, number: u64, moment: u64) -> Option<Probe>
    ensures { (own : List (Arrival × ℕ)) → probe ≡ probe_of own
        → result ≡ probe_of (own ++ (arrival packet.now moment, number) ∷ []) }
{
    match probe {
        Some(probe) => Some(probe.after(packet, number, moment)),
        None => Some(Probe::new(packet, number, moment)),
    }
}

/// The skew that a probe tells, where there is a probe and it knows both moments.
pub(crate) fn skew_in(probe: Option<Probe>) -> Option<u128>
    ensures { result ≡ skew_in probe }
{
    match probe {
        Some(probe) => probe.skew(),
        None => None,
    }
}

impl Probe {
    /// Of the first packet of a timestamp.
    fn new(packet: &Packet, number: u64, moment: u64) -> Probe
        ensures { Some result ≡ probe_of ((arrival packet.now moment, number) ∷ []) }
    {
        let known = first_known(None, moment);
        match packet.path {
            Path::A => Probe {
                number,
                a: known,
                b: None,
            },
            Path::B => Probe {
                number,
                a: None,
                b: known,
            },
        }
    }

    /// Behind one more packet of the timestamp.
    fn after(self, packet: &Packet, number: u64, moment: u64) -> Probe
        ensures { (own : List (Arrival × ℕ)) → Some self ≡ probe_of own
            → Some result ≡ probe_of (own ++ (arrival packet.now moment, number) ∷ []) }
    {
        if number != self.number {
            return self;
        }
        match packet.path {
            Path::A => Probe {
                a: first_known(self.a, moment),
                ..self
            },
            Path::B => Probe {
                b: first_known(self.b, moment),
                ..self
            },
        }
    }

    /// By how many nanoseconds the packet came later by B than by A, and 2^64: above that where it
    /// came later, below where it came sooner. None where one moment isn't known.
    pub fn skew(&self) -> Option<u128>
        ensures { result ≡ skew_of self.now }
    {
        let (Some(a), Some(b)) = (self.a, self.b) else {
            return None;
        };
        Some(((1 << 64) + u128::from(b)).saturating_sub(u128::from(a)))
    }
}

/// The moment that is known, or else this one, where it is one: 0 is none.
fn first_known(known: Option<u64>, moment: u64) -> Option<u64>
    ensures { result ≡ first_known known moment }
{
    match known {
        Some(known) => Some(known),
        None if moment == 0 => None,
        None => Some(moment),
    }
}
