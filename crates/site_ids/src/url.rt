//! The URLs of pages.
ghost use Rattle.std.specs.Prelude.{◌≡◌, ◌==◌, ℕ, List, length, IfOk};

use crate::NoMemory;
use std::alloc::Global;
use std::marker::Model;

/// The path of a page's URL, such as `/home/`: its bytes. A contract sees the list of them.
#[derive(Debug, Drop)]
pub struct Url {
    bytes: Vec<u8>,
}

impl Model for Url {
    ghost Value = { List ℕ };

    ghost view = { λ list. list.bytes.items };
}

impl Url {
    /// The list of these bytes, in their order.
    pub fn from_vec(bytes: Vec<u8>) -> Self
        ensures { result ≡ bytes.items }
    {
        Url { bytes }
    }

    /// The bytes, given back with their memory.
    pub fn into_vec(self) -> Vec<u8>
        ensures { result.items ≡ self }
    {
        let Url { bytes } = self;
        bytes
    }

    /// The bytes, in their order.
    pub fn as_slice(&self) -> &[u8]
        ensures { result.now ≡ self.now }
    {
        self.bytes.as_slice()
    }

    /// The number of bytes.
    pub fn len(&self) -> usize
        ensures { result ≡ length self.now }
    {
        self.bytes.len()
    }

    /// Whether there are no bytes.
    pub fn is_empty(&self) -> bool
        ensures { result ≡ (length self.now == 0) }
    {
        self.bytes.is_empty()
    }

    /// An equal list on memory of its own.
    pub fn copy(&self, alloc: Global) -> Result<Self, NoMemory>
        ensures { IfOk result (λ copy. copy ≡ self.now) }
    {
        let bytes = Vec::from_slice(alloc, self.bytes.as_slice())?;
        Ok(Url { bytes })
    }
}
