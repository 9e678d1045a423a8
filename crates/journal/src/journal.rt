//! A journal in memory.
ghost use Rattle.std.specs.Prelude.{◌≡◌, true, false};

use std::marker::Model;

/// A journal that is appended to. What it holds is on the disk.
#[derive(Drop)]
pub struct Journal {
    k: u64,
    gate: u64,
    pending: bool,
}

impl Model for Journal {
    ghost use Rattle.journal.specs.Journal.{JournalValue};

    ghost Value = { JournalValue };

    ghost view = { λ j. record { k = j.k; gate = j.gate; pending = j.pending } };
}

impl Journal {
    /// A journal with its last gate at an offset, and that gate closed.
    pub(crate) fn at(k: u64, gate: u64) -> Self
        ensures { result ≡ record { k = k; gate = gate; pending = false } }
    {
        Journal {
            k,
            gate,
            pending: false,
        }
    }

    /// The number of the journal.
    pub fn k(&self) -> u64
        ensures { result ≡ self.now.k }
    {
        self.k
    }

    /// The offset of its last gate.
    pub fn gate(&self) -> u64
        ensures { result ≡ self.now.gate }
    {
        self.gate
    }

    /// Is it in doubt whether the last gate is open?
    ///
    /// Then `repair` has to close it before anything is appended.
    pub fn pending(&self) -> bool
        ensures { result ≡ self.now.pending }
    {
        self.pending
    }

    /// The last gate is in doubt.
    pub(crate) fn doubt(&mut self)
        ensures { self.new ≡ record self.old { pending = true } }
    {
        self.pending = true;
    }

    /// The last gate is closed, and at this offset.
    pub(crate) fn settle(&mut self, gate: u64)
        ensures { self.new ≡ record self.old { gate = gate; pending = false } }
    {
        self.gate = gate;
        self.pending = false;
    }
}
