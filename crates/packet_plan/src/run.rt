//! Runs of pgroups.

/// Some pgroups of one row: what a segment of a packet carries (RFC 4175, 4.3).
#[derive(Clone, Copy, Debug, Default, PartialEq, Eq)]
pub struct PacketRun {
    /// The row, from 0 at the top.
    pub row: u32,
    /// The first pgroup, from 0 at the left.
    pub first: u32,
    /// How many pgroups, at least one: none of them is behind the row's end.
    pub groups: u32,
}
