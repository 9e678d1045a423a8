//! Why a journal could not be read.
use disk_model::{DiskFailed, NoMemory};
use std::error::Error;
use std::fmt;

/// Why a journal could not be read.
#[derive(Debug, Clone, Copy, PartialEq, Eq)]
pub enum ScanFault {
    /// The file is not of the form of a journal: its header is not (0), or a record is cut short
    /// whose gate, open, is at this offset.
    Bad(u64),
    /// The disk failed.
    Failed,
    /// There was no memory.
    Memory,
}

impl fmt::Display for ScanFault {
    fn fmt<W: fmt::Write>(&self, f: &mut fmt::Formatter<W>) -> fmt::Result {
        match self {
            ScanFault::Bad(offset) => write!(f, "no journal's form at {offset}"),
            ScanFault::Failed => write!(f, "the disk failed"),
            ScanFault::Memory => write!(f, "out of memory"),
        }
    }
}

impl Error for ScanFault {}

impl From<DiskFailed> for ScanFault {
    ghost use Rattle.std.specs.Prelude.{◌≡◌};
    ghost use Rattle.journal.specs.declared.fault.ScanFault.TheVariants.{Failed};

    ghost from_gives = { λ _ fault. fault ≡ Failed };

    fn from(_failed: DiskFailed) -> ScanFault {
        ScanFault::Failed
    }
}

impl From<NoMemory> for ScanFault {
    ghost use Rattle.std.specs.Prelude.{◌≡◌};
    ghost use Rattle.journal.specs.declared.fault.ScanFault.TheVariants.{Memory};

    ghost from_gives = { λ _ fault. fault ≡ Memory };

    fn from(_refused: NoMemory) -> ScanFault {
        ScanFault::Memory
    }
}
