//! Why an entry cannot be written.
use std::error::Error;
use std::fmt;

/// Why an entry cannot be written.
#[derive(Debug, Clone, Copy, PartialEq, Eq)]
pub enum DraftFault {
    /// The log has no room for it.
    Full,
    /// There was no memory for its bytes.
    Memory,
}

impl fmt::Display for DraftFault {
    fn fmt<W: fmt::Write>(&self, f: &mut fmt::Formatter<W>) -> fmt::Result {
        let name = match self {
            DraftFault::Full => "the log is full",
            DraftFault::Memory => "out of memory",
        };
        f.write_str(name)
    }
}

impl Error for DraftFault {}
