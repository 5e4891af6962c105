//! How what was noted is told.

/// How what was noted of recordings is told: the same facts in either form.
#[derive(Clone, Copy, Debug, PartialEq, Eq)]
pub enum Form {
    /// For a person: the lines of each flow, and those of what is left out.
    Lines,
    /// As objects of JSON for other tools, one in a line (RFC 8259).
    Json,
}
