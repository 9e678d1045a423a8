//! How a connection ends.
use std::fmt;

/// How the answering of a source's requests ended.
#[derive(Clone, Copy, Debug, PartialEq, Eq)]
pub enum ConnectionEnd {
    /// The input ended after a whole request or before any byte, or the last request that was
    /// answered asked for closing.
    Closed,
    /// As many requests were answered as the limit allows.
    Spent,
    /// The input ended within a request, of which so many bytes had arrived.
    Cut(u32),
    /// What stood at the front of the input was answered with this status, 400, 413 or 431.
    Refused(u16),
    /// A read failed.
    ReadFault,
    /// A write failed.
    WriteFault,
    /// Memory ran out.
    Memory,
}

impl fmt::Display for ConnectionEnd {
    fn fmt<W: fmt::Write>(&self, f: &mut fmt::Formatter<W>) -> fmt::Result {
        let name = match self {
            ConnectionEnd::Closed => "closed",
            ConnectionEnd::Spent => "all requests that the limit allows were answered",
            ConnectionEnd::Cut(_) => "the input ended within a request",
            ConnectionEnd::Refused(_) => "a request was refused",
            ConnectionEnd::ReadFault => "a read failed",
            ConnectionEnd::WriteFault => "a write failed",
            ConnectionEnd::Memory => "memory ran out",
        };
        f.write_str(name)
    }
}
