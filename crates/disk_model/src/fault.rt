//! The one answer of a disk that did not do what it was asked.
use std::error::Error;
use std::fmt;

/// A call of a disk failed. It may have done all of its work, a part of it or none.
///
/// It says no more than that: the disk's count of faults rose in the call.
#[derive(Debug, Clone, Copy, PartialEq, Eq)]
pub struct DiskFailed;

impl fmt::Display for DiskFailed {
    fn fmt<W: fmt::Write>(&self, f: &mut fmt::Formatter<W>) -> fmt::Result {
        write!(f, "the disk failed")
    }
}

impl Error for DiskFailed {}
