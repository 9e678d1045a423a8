//! The aliases of pages.
ghost use Rattle.std.specs.Prelude.{◌≡◌, ◌+◌, ◌≤◌, ℕ, [], not, ◌&&◌, ◌||◌, nat_eq, map, IfOk, OnOk};
ghost use Rattle.std.specs.List.{AllByRecursion};
ghost use Rattle.std.specs.List.Sorted.{IsStrictlyIncreasing};
ghost use Rattle.site_types.specs.Ids.{IsPageId};
ghost use Rattle.link_index.specs.Pairs.{has_pair, put_in, without, seconds_of, PairsRise};

use crate::pair_index::PairIndex;
use site_types::{Ids, NoMemory, PageId};
use std::alloc::Global;
use std::marker::Model;

/// The pages that have aliases, each with its aliases, and room for more.
///
/// Pairs of a source and an alias, found by either in a search. A pair takes 16 bytes.
#[derive(Debug, Drop)]
pub struct Aliases {
    index: PairIndex,
    alloc: Global,
}

impl Model for Aliases {
    ghost use Rattle.std.specs.Prelude.{ℕ};
    ghost use Rattle.std.specs.List.{AllByRecursion};
    ghost use Rattle.site_types.specs.Ids.{IsPageId};
    ghost use Rattle.link_index.specs.Pairs.{PairList};

    ghost Value = { PairList };

    ghost view = { λ aliases. aliases.index };

    ghost invariant = { λ aliases.
        AllByRecursion (λ (pair : ℕ × ℕ). IsPageId pair.1) aliases.index.pairs };
}

impl Aliases {
    /// No aliases, and no room. It takes no memory.
    pub fn new(alloc: Global) -> Aliases
        ensures pairs { result.pairs ≡ [] }
        ensures spare { result.spare ≡ 0 }
    {
        Aliases {
            index: PairIndex::new(alloc),
            alloc,
        }
    }

    /// Makes room for `more` aliases, so that as many calls of `add` need no memory. The room never
    /// shrinks, if memory runs out either.
    ///
    /// It costs nothing if the room is there, and otherwise a copy of what is kept.
    pub fn reserve(&mut self, more: usize) -> Result<(), NoMemory>
        ensures pairs { self.new.pairs ≡ self.old.pairs }
        ensures ok { OnOk result (more ≤ self.new.spare) }
        ensures spare { self.old.spare ≤ self.new.spare }
    {
        self.index.reserve(more)
    }

    /// Makes a page an alias of a source; nothing changes if it is one.
    ///
    /// Two searches; it moves eight bytes for each pair behind, in each direction.
    pub fn add(&mut self, source: PageId, alias: PageId)
        requires room { 1 ≤ self.old.spare }
        ensures pairs { self.new.pairs ≡ put_in (source, alias) self.old.pairs }
        ensures there { (first second : ℕ) → has_pair first second self.new.pairs
            ≡ ((nat_eq source first && nat_eq alias second) || has_pair first second self.old.pairs) }
        ensures spare { self.old.spare ≤ self.new.spare + 1 }
    {
        self.index.put(source.get(), alias.get());
    }

    /// Makes a page the alias of no page; nothing changes if it is none.
    ///
    /// Three searches; it moves eight bytes for each pair behind, in each direction.
    pub fn remove(&mut self, alias: PageId)
        ensures pairs { self.new.pairs ≡ without alias self.old.pairs }
        ensures there { (first second : ℕ) → has_pair first second self.new.pairs
            ≡ (not (nat_eq second alias) && has_pair first second self.old.pairs) }
        ensures spare { self.old.spare ≤ self.new.spare }
    {
        self.index.clear(alias.get());
    }

    /// The aliases of a page, rising. Two searches, and memory for the aliases.
    pub fn follow(&self, page: PageId) -> Result<Ids, NoMemory>
        ensures ok { IfOk result (λ aliases. aliases ≡ seconds_of page self.now.pairs) }
        ensures rising { IfOk result IsStrictlyIncreasing }
        ensures pages { IfOk result (AllByRecursion IsPageId) }
        ensures pairs_rise { PairsRise self.now.pairs }
    {
        let numbers = seconds(self.alloc, self.index.of(page.get()))?;
        Ok(Ids::from_vec(numbers))
    }
}

/// The second numbers of pairs.
fn seconds(alloc: Global, pairs: &[(u32, u32)]) -> Result<Vec<u32>, NoMemory>
    ensures { IfOk result (λ numbers. numbers.items ≡ map (λ pair. pair.1) pairs.now) }
{
    let mut numbers = Vec::with_capacity(alloc, pairs.len())?;
    for pair in pairs {
        numbers.push(pair.1)?;
    }
    Ok(numbers)
}
