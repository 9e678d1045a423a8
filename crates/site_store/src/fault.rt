//! Why a command of a store was not accepted.
use site_part::Fault;
use site_types::Refusal;
use std::error::Error;
use std::fmt;

/// Why a command was not accepted. The site is then as it was.
#[derive(Clone, Copy, Debug, PartialEq, Eq)]
pub enum CallFault {
    /// A rule refuses it. Nothing was written.
    Refused(Refusal),
    /// Memory ran out. Nothing was written.
    Memory,
    /// The disk failed: no rule refuses the command, and it may be on the disk or not.
    Disk {
        /// The disk's count of faults before the call.
        before: u64,
        /// The disk's count of faults after it.
        after: u64,
    },
}

impl fmt::Display for CallFault {
    fn fmt<W: fmt::Write>(&self, f: &mut fmt::Formatter<W>) -> fmt::Result {
        let name = match self {
            CallFault::Refused(_) => "a rule refuses the command",
            CallFault::Memory => "out of memory",
            CallFault::Disk { .. } => "the disk failed",
        };
        f.write_str(name)
    }
}

impl Error for CallFault {}

impl From<Fault> for CallFault {
    ghost use Rattle.std.specs.Prelude.{◌≡◌};
    ghost use Rattle.site_store.specs.Faults.{fault_told};

    ghost from_gives = { λ fault told. told ≡ fault_told fault };

    fn from(fault: Fault) -> CallFault {
        match fault {
            Fault::Refused(refusal) => CallFault::Refused(refusal),
            Fault::Memory => CallFault::Memory,
        }
    }
}

/// Why a store could not be opened.
#[derive(Clone, Copy, Debug, PartialEq, Eq)]
pub enum OpenFault {
    /// A file is not of its form, or has an entry that is not of its form or number or that is
    /// refused. Nothing was written.
    BadStore {
        /// The file, from 0 to 3.
        file: u8,
        /// Where: the offset of the first gate after which no good entry stands, or 0.
        offset: u64,
    },
    /// The disk failed.
    Disk,
    /// Memory ran out. Nothing was written.
    Memory,
}

impl fmt::Display for OpenFault {
    fn fmt<W: fmt::Write>(&self, f: &mut fmt::Formatter<W>) -> fmt::Result {
        match self {
            OpenFault::BadStore { file, offset } => write!(f, "file {file} is bad at {offset}"),
            OpenFault::Disk => f.write_str("the disk failed"),
            OpenFault::Memory => f.write_str("out of memory"),
        }
    }
}

impl Error for OpenFault {}
