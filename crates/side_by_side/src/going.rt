//! When the next datagram of a file goes.
ghost use Rattle.std.specs.Prelude.{◌≡◌, ◌↔◌, IsTrue};
ghost use Rattle.side_by_side.specs.Going.{IsReadBy, goes, goes_before, going_by};

use following::newer;

/// When the next datagram of a file goes.
#[derive(Clone, Copy, Debug, PartialEq, Eq)]
pub enum Going {
    /// It isn't read yet.
    Unread,
    /// At once: it steers nothing.
    AtOnce,
    /// By its timestamp, in 90 kHz ticks.
    By(u32),
    /// None comes.
    Never,
}

impl Going {
    /// Of a datagram, by its timestamp, or at once where it has none by which it goes.
    pub(crate) fn of(stamp: Option<u32>) -> Going
        ensures { result ≡ going_by stamp }
    {
        match stamp {
            None => Going::AtOnce,
            Some(timestamp) => Going::By(timestamp),
        }
    }

    /// Whether there is a datagram that goes.
    pub(crate) fn goes(self) -> bool
        ensures { result ≡ goes self }
    {
        match self {
            Going::Unread => false,
            Going::AtOnce => true,
            Going::By(_) => true,
            Going::Never => false,
        }
    }

    /// Whether it is known when a datagram goes, or that none comes.
    pub(crate) fn is_read(self) -> bool
        ensures { IsTrue result ↔ IsReadBy self }
    {
        match self {
            Going::Unread => false,
            Going::AtOnce => true,
            Going::By(_) => true,
            Going::Never => true,
        }
    }

    /// Whether a datagram that goes so is before one that goes as `other`: at once is before by a
    /// timestamp, and an older timestamp before a newer one (RFC 1982, 3.2).
    pub(crate) fn is_before(self, other: Going) -> bool
        ensures { result ≡ goes_before self other }
    {
        match self {
            Going::Unread => false,
            Going::Never => false,
            Going::AtOnce => match other {
                Going::Unread => false,
                Going::AtOnce => false,
                Going::By(_) => true,
                Going::Never => false,
            },
            Going::By(timestamp) => match other {
                Going::Unread => false,
                Going::AtOnce => false,
                Going::By(than) => newer(than, timestamp),
                Going::Never => false,
            },
        }
    }
}
