//! Why a packet is left out.
ghost use Rattle.std.specs.Prelude.{◌≡◌, ◌≤◌, length};
ghost use Rattle.recording_counts.specs.LeftOut.{omission_name, omission_number};

use pcap_file::NoDatagram;

/// Why a packet of a recording is left out.
#[derive(Clone, Copy, Debug, PartialEq, Eq)]
pub enum Omission {
    /// It is no whole datagram of UDP.
    NoDatagram(NoDatagram),
    /// It is a datagram of another flow than those that are taken.
    OtherFlow,
}

impl Omission {
    /// Its number, 1 to 7.
    pub(crate) fn number(self) -> u8
        ensures { result ≡ omission_number self }
    {
        match self {
            Omission::NoDatagram(reason) => reason.number(),
            Omission::OtherFlow => 7,
        }
    }

    /// What is told of it behind a count, in at most 16 octets: the reason's name, as `NotUdp`, or
    /// `of another flow`.
    pub fn name(self) -> &'static str
        ensures name { result.now ≡ omission_name self }
        ensures short { length result.now ≤ 16 }
    {
        match self {
            Omission::NoDatagram(reason) => reason.name(),
            Omission::OtherFlow => "of another flow",
        }
    }
}
