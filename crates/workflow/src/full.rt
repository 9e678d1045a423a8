//! The error of definitions that find no id left.
use std::error::Error;
use std::fmt;

/// No id is left: 65,535 tasks, or 65,535 workflows, exist.
#[derive(Clone, Copy, Debug, PartialEq, Eq)]
pub struct Full;

impl fmt::Display for Full {
    fn fmt<W: fmt::Write>(&self, f: &mut fmt::Formatter<W>) -> fmt::Result {
        write!(f, "no id is left")
    }
}

impl Error for Full {}
