//! When a packet of a frame is sent.
ghost use Rattle.std.specs.Prelude.{◌≡◌, ◌≤◌, ◌<◌, ◌^◌, slice_index};
ghost use Rattle.st_format.specs.Limits.{IsRate};
ghost use Rattle.paced_export.specs.Pacing.{active_time, begin_of, paced_moment, share_of};
ghost use Rattle.paced_export.specs.Pacing.{timestamp_in};

use crate::pace::Pace;

/// How long packets of a frame are sent, in nanoseconds, rounded down, at a rate of `n` frames in
/// `d` seconds: 1080 of 1125 parts of the frame's time (SMPTE ST 2110-21, gapped, R_ACTIVE).
pub fn active_time(n: u32, d: u32) -> u64
    requires { IsRate n d }
    ensures value { result ≡ active_time n d }
    ensures short { result ≤ 960000000 }
{
    u64::from(d) * 960_000_000 / u64::from(n)
}

impl Pace {
    /// The moment of a frame's packet, in nanoseconds since 1970: of the one that `packet` stand
    /// before, of so many packets, of the frame of this timestamp. The frame begins so long behind
    /// the first one as its timestamp is behind the first in ticks of 90 kHz, modulo 2^32, and its
    /// packets share the active time evenly; both are rounded down.
    pub fn moment(&self, timestamp: u32, packet: u64, packets: u64) -> u64
        requires { packet ≤ 16777216 }
        ensures { result ≡ paced_moment self.now timestamp packet packets }
    {
        self.begin(timestamp) + self.share(packet, packets)
    }

    /// When the frame of a timestamp begins, in nanoseconds since 1970: 9 ticks of 90 kHz are
    /// 100,000.
    fn begin(&self, timestamp: u32) -> u64
        ensures value { result ≡ begin_of self.now timestamp }
        ensures fits { result < 2 ^ 63 }
    {
        self.start + u64::from(timestamp.wrapping_sub(self.first)) * 100_000 / 9
    }

    /// How long behind a frame's begin its packet is sent, in nanoseconds.
    fn share(&self, packet: u64, packets: u64) -> u64
        requires { packet ≤ 16777216 }
        ensures value { result ≡ share_of self.now packet packets }
        ensures fits { result < 2 ^ 62 }
    {
        packet * self.active / packets.max(1)
    }
}

/// The timestamp of an RTP datagram in ticks of 90 kHz: its octets 4 to 7 (RFC 3550, 5.1). An octet
/// that isn't there counts as 0.
pub(crate) fn timestamp_in(octets: &[u8]) -> u32
    ensures { result ≡ timestamp_in octets.now }
{
    u32::from_be_bytes([
        octet(octets, 4),
        octet(octets, 5),
        octet(octets, 6),
        octet(octets, 7),
    ])
}

/// The octet of a place, or 0 where there is none.
fn octet(octets: &[u8], place: usize) -> u8
    ensures { result ≡ slice_index octets.now place }
{
    if place < octets.len() {
        octets[place]
    } else {
        0
    }
}
