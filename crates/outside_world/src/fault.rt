//! The one answer of a thing outside that did not do what it was asked.
use std::error::Error;
use std::fmt;

/// A read, a write or another call on something outside failed.
///
/// It says no more than that: the count of faults of the object that was called rose in the call.
#[derive(Debug, Clone, Copy, PartialEq, Eq)]
pub struct Failed;

impl fmt::Display for Failed {
    fn fmt<W: fmt::Write>(&self, f: &mut fmt::Formatter<W>) -> fmt::Result {
        write!(f, "the outside failed")
    }
}

impl Error for Failed {}
