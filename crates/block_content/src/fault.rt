//! Why a content was not read.

use site_types::NoMemory;
use std::alloc::{AllocError, AllocFailed};
use std::error::Error;
use std::fmt;

/// Why a value was not read as a content.
#[derive(Clone, Copy, Debug, PartialEq, Eq)]
pub enum ContentFault {
    /// The value is no content: it is not of the form, or breaks a limit.
    Bad,
    /// There was no memory.
    Memory,
}

impl fmt::Display for ContentFault {
    fn fmt<W: fmt::Write>(&self, f: &mut fmt::Formatter<W>) -> fmt::Result {
        match self {
            ContentFault::Bad => write!(f, "not the form of a content"),
            ContentFault::Memory => write!(f, "out of memory"),
        }
    }
}

impl Error for ContentFault {}

impl From<NoMemory> for ContentFault {
    ghost use Rattle.std.specs.Prelude.{◌≡◌};
    ghost use Rattle.block_content.specs.declared.fault.ContentFault.TheVariants.{Memory};

    ghost from_gives = { λ _ e. e ≡ Memory };

    fn from(_refused: NoMemory) -> ContentFault {
        ContentFault::Memory
    }
}

impl From<AllocError> for ContentFault {
    ghost use Rattle.std.specs.Prelude.{◌≡◌};
    ghost use Rattle.block_content.specs.declared.fault.ContentFault.TheVariants.{Memory};

    ghost from_gives = { λ _ e. e ≡ Memory };

    fn from(_refused: AllocError) -> ContentFault {
        ContentFault::Memory
    }
}

impl<T: Drop> From<AllocFailed<T>> for ContentFault {
    ghost use Rattle.std.specs.Prelude.{◌≡◌};
    ghost use Rattle.block_content.specs.declared.fault.ContentFault.TheVariants.{Memory};

    ghost from_gives = { λ _ e. e ≡ Memory };

    fn from(_refused: AllocFailed<T>) -> ContentFault {
        ContentFault::Memory
    }
}
