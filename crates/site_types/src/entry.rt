//! Entries of the journal.
use crate::Command;
use site_ids::{Moment, UserId};

/// One accepted command as the journal keeps it.
#[derive(Debug, Drop)]
pub struct Entry {
    /// The entry's number; the first is 1, and each next one is one more.
    pub number: u64,
    /// When it was accepted, by the caller's clock.
    pub moment: Moment,
    /// Who called it.
    pub caller: UserId,
    /// The command.
    pub command: Command,
}
