//! Lists of numbers that name things.
ghost use Rattle.std.specs.Prelude.{◌≡◌, ◌==◌, ℕ, List, length, IfOk};

use crate::NoMemory;
use std::alloc::Global;
use std::marker::Model;

/// Numbers of pages, groups or tasks. A contract sees the list of them.
#[derive(Debug, Drop)]
pub struct Ids {
    numbers: Vec<u32>,
}

impl Model for Ids {
    ghost Value = { List ℕ };

    ghost view = { λ list. list.numbers.items };
}

impl Ids {
    /// The list of these numbers, in their order.
    pub fn from_vec(numbers: Vec<u32>) -> Self
        ensures { result ≡ numbers.items }
    {
        Ids { numbers }
    }

    /// The numbers, given back with their memory.
    pub fn into_vec(self) -> Vec<u32>
        ensures { result.items ≡ self }
    {
        let Ids { numbers } = self;
        numbers
    }

    /// The numbers, in their order.
    pub fn as_slice(&self) -> &[u32]
        ensures { result.now ≡ self.now }
    {
        self.numbers.as_slice()
    }

    /// The number of numbers.
    pub fn len(&self) -> usize
        ensures { result ≡ length self.now }
    {
        self.numbers.len()
    }

    /// Whether there are no numbers.
    pub fn is_empty(&self) -> bool
        ensures { result ≡ (length self.now == 0) }
    {
        self.numbers.is_empty()
    }

    /// An equal list on memory of its own.
    pub fn copy(&self, alloc: Global) -> Result<Self, NoMemory>
        ensures { IfOk result (λ copy. copy ≡ self.now) }
    {
        let numbers = Vec::from_slice(alloc, self.numbers.as_slice())?;
        Ok(Ids { numbers })
    }
}
