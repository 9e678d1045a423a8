//! Pairs of numbers, kept in both directions.
ghost use Rattle.std.specs.Prelude.{◌≡◌, ◌+◌, ◌<◌, ◌≤◌, [], IsTrue, IsFalse, length, OnOk};
ghost use Rattle.link_index.specs.Pairs.{put_in, without, pairs_of, PairsRise};

use crate::rising::{put, second_of, take, with_first};
use site_types::NoMemory;
use std::alloc::Global;
use std::marker::Model;

/// Pairs of numbers, each once, and room for more. Each takes 16 bytes.
///
/// They stand in their order, and turned round in the order of those, so that a search finds the
/// pairs of a first number, and one finds those of a second number.
#[derive(Debug, Drop)]
pub(crate) struct PairIndex {
    forward: Vec<(u32, u32)>,
    backward: Vec<(u32, u32)>,
}

impl Model for PairIndex {
    ghost use Rattle.std.specs.Prelude.{◌-◌, min, vec_len, vec_capacity};
    ghost use Rattle.link_index.specs.Pairs.{PairList};
    ghost use Rattle.link_index.specs.Kept.{AreTurned};

    ghost Value = { PairList };

    ghost view = { λ index. record {
      pairs = index.forward.items;
      spare = min (vec_capacity index.forward - vec_len index.forward)
          (vec_capacity index.backward - vec_len index.backward);
    } };

    ghost invariant = { λ index. AreTurned index.forward.items index.backward.items };
}

impl PairIndex {
    /// No pairs, and no room. It takes no memory.
    pub(crate) fn new(alloc: Global) -> PairIndex
        ensures pairs { result.pairs ≡ [] }
        ensures spare { result.spare ≡ 0 }
    {
        PairIndex {
            forward: Vec::new(alloc),
            backward: Vec::new(alloc),
        }
    }

    /// Makes room for `more` pairs. The room never shrinks, if memory runs out either.
    pub(crate) fn reserve(&mut self, more: usize) -> Result<(), NoMemory>
        ensures pairs { self.new.pairs ≡ self.old.pairs }
        ensures ok { OnOk result (more ≤ self.new.spare) }
        ensures spare { self.old.spare ≤ self.new.spare }
    {
        self.forward.reserve(more)?;
        self.backward.reserve(more)?;
        Ok(())
    }

    /// Puts a pair in; nothing changes if it is there.
    pub(crate) fn put(&mut self, first: u32, second: u32)
        requires room { 1 ≤ self.old.spare }
        ensures pairs { self.new.pairs ≡ put_in (first, second) self.old.pairs }
        ensures spare { self.old.spare ≤ self.new.spare + 1 }
    {
        put(&mut self.forward, first, second);
        put(&mut self.backward, second, first);
    }

    /// Takes all pairs with this second number out.
    pub(crate) fn clear(&mut self, second: u32)
        ensures pairs { self.new.pairs ≡ without second self.old.pairs }
        ensures spare { self.old.spare ≤ self.new.spare }
    {
        while self.take_one(second) {}
    }

    /// Takes a pair with this second number out, or answers that there is none.
    fn take_one(&mut self, second: u32) -> bool
        ensures others { without second self.new.pairs ≡ without second self.old.pairs }
        ensures shorter { IsTrue result → length self.new.pairs < length self.old.pairs }
        ensures none { IsFalse result → without second self.new.pairs ≡ self.new.pairs }
        ensures spare { self.old.spare ≤ self.new.spare }
    {
        match second_of(&self.backward, second) {
            Some(first) => {
                take(&mut self.forward, first, second);
                take(&mut self.backward, second, first);
                true
            }
            None => false,
        }
    }

    /// The pairs with this first number, rising. Two searches.
    pub(crate) fn of(&self, first: u32) -> &[(u32, u32)]
        ensures value { result.now ≡ pairs_of first self.now.pairs }
        ensures rises { PairsRise self.now.pairs }
    {
        with_first(&self.forward, first)
    }
}
