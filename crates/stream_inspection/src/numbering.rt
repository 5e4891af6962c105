//! The numbers that the packets of a stream have so far.
ghost use Rattle.std.specs.Prelude.{◌≡◌, ◌++◌, ◌∷◌, List, []};
ghost use Rattle.recording_counts.specs.Numbering.{number_after};
ghost use Rattle.recording_counts.specs.declared.packet.Packet.{Packet as PacketValue};
ghost use Rattle.stream_inspection.specs.Numbers.{without_high};
ghost use Rattle.stream_inspection.specs.Skews.{numbering_of};

use crate::numbers::{has_high, without_high};
use recording_counts::{Packet, greatest, number_after};

/// What is known of the packet numbers of a stream.
#[derive(Clone, Copy)]
pub struct Numbering {
    /// The highest number so far, by 32 bits.
    pub long: Option<u64>,
    /// The highest one, by 16 bits.
    pub short: Option<u64>,
    /// Whether a packet says a high half that isn't 0.
    pub high: bool,
}

/// The number of a packet, by 32 bits and by 16.
#[derive(Clone, Copy)]
pub(crate) struct Number {
    pub(crate) long: u64,
    pub(crate) short: u64,
}

impl Numbering {
    /// Of no packets.
    pub(crate) fn new() -> Numbering
        ensures { result ≡ numbering_of [] }
    {
        Numbering {
            long: None,
            short: None,
            high: false,
        }
    }

    /// The number of a packet that comes next, by 32 bits and by 16.
    pub(crate) fn next(&self, packet: &Packet) -> Number
        ensures long { result.long ≡ number_after self.now.long packet.now }
        ensures short { result.short ≡ number_after self.now.short (without_high packet.now) }
    {
        Number {
            long: number_after(self.long, packet),
            short: number_after(self.short, &without_high(packet)),
        }
    }

    /// What is known behind one more packet, which has this number.
    pub(crate) fn behind(&self, packet: &Packet, number: Number) -> Numbering
        requires long { number.long ≡ number_after self.now.long packet.now }
        requires short { number.short ≡ number_after self.now.short (without_high packet.now) }
        ensures { (own : List PacketValue) → self.now ≡ numbering_of own
            → result ≡ numbering_of (own ++ packet.now ∷ []) }
    {
        Numbering {
            long: Some(greatest(self.long, number.long)),
            short: Some(greatest(self.short, number.short)),
            high: self.high || has_high(packet),
        }
    }
}
