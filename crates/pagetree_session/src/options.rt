//! The options of a session.

/// The options of a session: with one of them a clock in memory replaces the system's.
#[derive(Clone, Copy, Debug, PartialEq, Eq)]
pub struct Options {
    /// The first moment of that clock, in seconds since 1970-01-01T00:00:00Z, if it is given.
    pub at: Option<u64>,
    /// The seconds from one of its moments to the next, if they are given.
    pub step: Option<u64>,
}
