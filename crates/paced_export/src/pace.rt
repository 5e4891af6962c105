//! How the packets of a stream are paced.
ghost use Rattle.std.specs.Prelude.{◌≤◌, ◌<◌, ◌*◌, ◌^◌};

/// How the packets of a stream are paced: when its first frame begins, and how long packets of a
/// frame are sent.
#[derive(Clone, Copy, Debug, PartialEq, Eq)]
pub struct Pace {
    /// The moment at which the frame of the first timestamp begins, in nanoseconds since 1970.
    pub start: u64,
    /// That timestamp, in ticks of 90 kHz.
    pub first: u32,
    /// The active time of a frame, in nanoseconds.
    pub active: u64,
    // pcap has 32 bits for the seconds.
    pub ghost early: { start < 2 ^ 32 * 1000000000 },
    pub ghost short: { active ≤ 960000000 },
}
