//! How the program ends.
ghost use Rattle.std.specs.Prelude.{◌≡◌};
ghost use Rattle.pagetree_session.specs.Codes.{code_of};
ghost use Rattle.pagetree_session.specs.Ending.{status_of, status_of_open};

use request_loop::ConnectionEnd;
use site_store::OpenFault;
use std::fmt;

/// How a run of a command ended.
#[derive(Clone, Copy, Debug, PartialEq, Eq)]
pub enum Status {
    /// The input was read to its end, and all of it was answered.
    Done,
    /// The words are of no command.
    Usage,
    /// A read failed.
    ReadFault,
    /// A write failed.
    WriteFault,
    /// The disk failed while the site was opened.
    DiskFault,
    /// Memory ran out.
    Memory,
    /// A file of the site is not of its form, or has an entry that is not of its form or number or
    /// that is refused.
    BadStore {
        /// The file, from 0 to 3.
        file: u8,
        /// Where: the offset of the first gate after which no good entry stands, or 0.
        offset: u64,
    },
    /// The input ended within a request, of which so many bytes had arrived.
    Cut(u32),
    /// What stood at the front of the input was answered with this status, 400, 413 or 431, and
    /// ended the run.
    Refused(u16),
    /// As many requests were answered as a run answers: 1,000,000.
    Spent,
}

impl Status {
    /// The exit code of the program: 0 if all was done.
    pub fn code(&self) -> u8
        ensures { result ≡ code_of self.now }
    {
        match self {
            Status::Done => 0,
            Status::Usage => 2,
            Status::ReadFault => 3,
            Status::WriteFault => 4,
            Status::DiskFault => 5,
            Status::Memory => 6,
            Status::BadStore { .. } => 7,
            Status::Cut(_) => 8,
            Status::Refused(_) => 10,
            Status::Spent => 11,
        }
    }
}

impl From<ConnectionEnd> for Status {
    ghost from_gives = { λ end status. status ≡ status_of end };

    fn from(end: ConnectionEnd) -> Status {
        match end {
            ConnectionEnd::Closed => Status::Done,
            ConnectionEnd::Spent => Status::Spent,
            ConnectionEnd::Cut(count) => Status::Cut(count),
            ConnectionEnd::Refused(status) => Status::Refused(status),
            ConnectionEnd::ReadFault => Status::ReadFault,
            ConnectionEnd::WriteFault => Status::WriteFault,
            ConnectionEnd::Memory => Status::Memory,
        }
    }
}

impl From<OpenFault> for Status {
    ghost from_gives = { λ fault status. status ≡ status_of_open fault };

    fn from(fault: OpenFault) -> Status {
        match fault {
            OpenFault::BadStore { file, offset } => Status::BadStore { file, offset },
            OpenFault::Disk => Status::DiskFault,
            OpenFault::Memory => Status::Memory,
        }
    }
}

impl fmt::Display for Status {
    fn fmt<W: fmt::Write>(&self, f: &mut fmt::Formatter<W>) -> fmt::Result {
        if let Status::BadStore { file, offset } = self {
            return write!(f, "BadStore({file}, {offset})");
        }
        let name = match self {
            Status::Done => "Done",
            Status::Usage => "Usage",
            Status::ReadFault => "ReadFault",
            Status::WriteFault => "WriteFault",
            Status::DiskFault => "DiskFault",
            Status::Memory => "Memory",
            Status::BadStore { .. } => "BadStore",
            Status::Cut(_) => "Cut",
            Status::Refused(_) => "Refused",
            Status::Spent => "Spent",
        };
        f.write_str(name)
    }
}
