//! The pages that link to pages.
ghost use Rattle.std.specs.Prelude.{◌≡◌, ◌+◌, ◌≤◌, ℕ, [], nat_eq, if◌then◌else◌, length, OnOk};
ghost use Rattle.std.specs.List.{list_any};
ghost use Rattle.std.specs.List.Sorted.{IsStrictlyIncreasing};
ghost use Rattle.link_index.specs.Pairs.{has_pair, put_in, with_own, with_firsts, without, seconds_of, PairsRise};

use crate::Refs;
use crate::pair_index::PairIndex;
use site_types::{Ids, NoMemory, PageId};
use std::alloc::Global;
use std::marker::Model;

/// The pages that link to each page, and room for more.
///
/// Pairs of the id that is linked to and of the page that links to it, found by either in a search.
/// A page with that id need not be there. A pair takes 16 bytes.
#[derive(Debug, Drop)]
pub struct LinkIndex {
    index: PairIndex,
}

impl Model for LinkIndex {
    ghost use Rattle.std.specs.Prelude.{ℕ};
    ghost use Rattle.std.specs.List.{AllByRecursion};
    ghost use Rattle.site_types.specs.Ids.{IsPageId};
    ghost use Rattle.link_index.specs.Pairs.{PairList};

    ghost Value = { PairList };

    ghost view = { λ links. links.index };

    ghost invariant = { λ links. AllByRecursion (λ (pair : ℕ × ℕ). IsPageId pair.1) links.index.pairs };
}

impl LinkIndex {
    /// No links, and no room. It takes no memory.
    pub fn new(alloc: Global) -> LinkIndex
        ensures pairs { result.pairs ≡ [] }
        ensures spare { result.spare ≡ 0 }
    {
        LinkIndex {
            index: PairIndex::new(alloc),
        }
    }

    /// Makes room for `more` links, so that pages can get as many without memory. The room never
    /// shrinks, if memory runs out either.
    ///
    /// It costs nothing if the room is there, and otherwise a copy of what is kept.
    pub fn reserve(&mut self, more: usize) -> Result<(), NoMemory>
        ensures pairs { self.new.pairs ≡ self.old.pairs }
        ensures ok { OnOk result (more ≤ self.new.spare) }
        ensures spare { self.old.spare ≤ self.new.spare }
    {
        self.index.reserve(more)
    }

    /// Lets a page link to the pages with these ids, and to no other.
    ///
    /// Three searches for each link that the page had, and two for each that it gets; each moves
    /// eight bytes for each pair behind, in each direction.
    pub fn replace_links(&mut self, page: PageId, links: &Ids)
        requires room { length links.now ≤ self.old.spare }
        ensures pairs { self.new.pairs ≡ with_own page links.now self.old.pairs }
        ensures there { (linked other : ℕ) → has_pair linked other self.new.pairs
            ≡ (if nat_eq other page then list_any (nat_eq linked) links.now
            else has_pair linked other self.old.pairs) }
        ensures spare { self.old.spare ≤ self.new.spare + length links.now }
    {
        self.clear(page);
        self.add_links(page, links.as_slice());
    }

    /// Lets a page link to no page.
    ///
    /// Three searches for each link that the page had; each moves eight bytes for each pair behind,
    /// in each direction.
    pub fn clear(&mut self, page: PageId)
        ensures pairs { self.new.pairs ≡ without page self.old.pairs }
        ensures spare { self.old.spare ≤ self.new.spare }
    {
        self.index.clear(page.get());
    }

    /// The pages that link to the page with this id, rising. Two searches.
    pub fn refs_to(&self, page: PageId) -> Refs<'_>
        ensures value { result ≡ seconds_of page self.now.pairs }
        ensures rising { IsStrictlyIncreasing result }
        ensures pairs_rise { PairsRise self.now.pairs }
    {
        Refs {
            pairs: self.index.of(page.get()),
        }
    }

    /// Lets a page link to the pages with these ids too.
    fn add_links(&mut self, page: PageId, links: &[u32])
        requires room { length links.now ≤ self.old.spare }
        ensures pairs { self.new.pairs ≡ with_firsts page links.now self.old.pairs }
        ensures spare { self.old.spare ≤ self.new.spare + length links.now }
    {
        for linked in links {
            self.add(page, *linked);
        }
    }

    /// Lets a page link to the page with this id too.
    fn add(&mut self, page: PageId, linked: u32)
        requires room { 1 ≤ self.old.spare }
        ensures pairs { self.new.pairs ≡ put_in (linked, page) self.old.pairs }
        ensures spare { self.old.spare ≤ self.new.spare + 1 }
    {
        self.index.put(linked, page.get());
    }
}
