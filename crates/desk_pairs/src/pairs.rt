//! The open desks without their texts.
ghost use Rattle.std.specs.Prelude.{◌≡◌, ◌+◌, ◌≤◌, [], false, length, slice_get, OnOk};
ghost use Rattle.std.specs.Option.{option_map};
ghost use Rattle.site_model.specs.Desks.{desk_user, desk_key};
ghost use Rattle.site_model.specs.Sound.{KeysRise};
ghost use Rattle.desk_pairs.specs.Pairs.{has_desk, with_pair, without};

use crate::search;
use site_types::{NoMemory, PageId, UserId};
use std::alloc::Global;
use std::marker::Model;

/// An open desk without its text.
#[derive(Clone, Copy, Debug)]
pub(crate) struct Pair {
    /// The page.
    pub(crate) page: PageId,
    /// The user whose desk it is.
    pub(crate) user: UserId,
}

/// The open desks of a site without their texts: their pages, of which none has two, and their users.
///
/// They stand in the order of their pages, eight bytes each, and are found by binary search.
#[derive(Debug, Drop)]
pub struct DeskPairs {
    pairs: Vec<Pair>,
}

impl Model for DeskPairs {
    ghost use Rattle.std.specs.Prelude.{◌-◌, vec_len, vec_capacity};
    ghost use Rattle.site_model.specs.Desks.{desk_key};
    ghost use Rattle.site_model.specs.Sound.{KeysRise};
    ghost use Rattle.desk_pairs.specs.Pairs.{PairList};
    ghost use Rattle.desk_pairs.specs.Kept.{pairs_seen};

    ghost Value = { PairList };

    ghost view = { λ desks. record {
      pairs = pairs_seen desks.pairs.items;
      spare = vec_capacity desks.pairs - vec_len desks.pairs;
    } };

    ghost invariant = { λ desks. KeysRise desk_key (pairs_seen desks.pairs.items) };
}

impl DeskPairs {
    /// No desk. It takes no memory.
    pub fn new(alloc: Global) -> DeskPairs
        ensures pairs { result.pairs ≡ [] }
        ensures spare { result.spare ≡ 0 }
    {
        DeskPairs {
            pairs: Vec::new(alloc),
        }
    }

    /// The number of open desks.
    pub fn len(&self) -> usize
        ensures value { result ≡ length self.now.pairs }
        ensures rises { KeysRise desk_key self.now.pairs }
    {
        self.pairs.len()
    }

    /// Makes room for `more` desks, so that as many calls of `put` need no memory.
    ///
    /// It costs nothing where the room is there, and else a copy of the desks.
    pub fn reserve(&mut self, more: usize) -> Result<(), NoMemory>
        ensures pairs { self.new.pairs ≡ self.old.pairs }
        ensures ok { OnOk result (more ≤ self.new.spare) }
        ensures spare { self.old.spare ≤ self.new.spare }
    {
        self.pairs.reserve(more)?;
        Ok(())
    }

    /// Opens a desk of a user on a page that has none.
    ///
    /// It costs one search, and moves eight bytes for each desk behind.
    pub fn put(&mut self, page: PageId, user: UserId)
        requires room { 1 ≤ self.old.spare }
        requires free { has_desk self.old.pairs page ≡ false }
        ensures pairs { self.new.pairs ≡ with_pair page user self.old.pairs }
        ensures spare { self.old.spare ≤ self.new.spare + 1 }
    {
        search::put(&mut self.pairs, page, user);
    }

    /// Ends the desk on a page. Where there is none nothing changes.
    ///
    /// It costs one search, and moves eight bytes for each desk behind.
    pub fn cut(&mut self, page: PageId)
        ensures pairs { self.new.pairs ≡ without page self.old.pairs }
        ensures spare { self.old.spare ≤ self.new.spare }
    {
        search::cut(&mut self.pairs, page);
    }

    /// The user whose desk on the page is open, or `None` exactly if none is. One search.
    pub fn user_at(&self, page: PageId) -> Option<UserId>
        ensures { result ≡ desk_user self.now.pairs page }
    {
        search::user_at(&self.pairs, page)
    }

    /// The page and the user of the desk at a place, rising by page, or `None` exactly at or past
    /// their number.
    pub fn at(&self, place: usize) -> Option<(PageId, UserId)>
        ensures { result ≡ option_map (λ pair. (pair.page, pair.user)) (slice_get self.now.pairs place) }
    {
        match self.pairs.get(place) {
            Some(pair) => Some((pair.page, pair.user)),
            None => None,
        }
    }
}
