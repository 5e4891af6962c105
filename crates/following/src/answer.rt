//! What a follower answers to a datagram.

/// What became of a datagram that was not refused.
#[derive(Clone, Copy, Debug, PartialEq, Eq)]
pub enum Followed {
    /// Its samples were joined to the frame of its timestamp, which was in or came in. This is its
    /// packet number, as `path_receiver::Taken::Kept` has it.
    Kept(u32),
    /// Its timestamp is new, and every place is taken: the oldest frame is to be handed out first.
    /// Nothing changed.
    Due,
    /// Its timestamp is too far ahead: newer than the newest, of the frames that are in or else of
    /// the one that was handed out last, by more ticks than the follower was opened with. Nothing
    /// changed.
    Far,
    /// There is no place for its timestamp: it is older than a frame that was handed out, or older
    /// than all where every place is taken, or 2^31 ticks or more from one that is in. Nothing
    /// changed.
    Late,
}
