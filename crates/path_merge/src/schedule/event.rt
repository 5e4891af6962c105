//! The events of a schedule.
use st_format::Path;

/// What happens next.
#[derive(Clone, Copy, Debug, PartialEq, Eq)]
pub enum Event {
    /// The next datagram of the pictures is made, in order.
    Send,
    /// A receiver takes a datagram by a path: of those sent, counted from 0.
    Arrive(u8, Path, u32),
    /// A receiver's window moves on to a timestamp.
    Slide(u8, u32),
    /// The second receiver is merged into the first.
    Merge(u8, u8),
}
