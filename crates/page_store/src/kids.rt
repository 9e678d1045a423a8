//! The kids of a page, in their order.
ghost use Rattle.std.specs.Prelude.{◌≡◌};
ghost use Rattle.page_tree.specs.Rows.{kids_in};

use crate::Rows;
use site_types::PageId;
use std::marker::Model;

/// The ids of a page's kids, in order. A contract sees the list of those that are left.
#[derive(Drop)]
pub struct Kids<'a> {
    rows: &'a Rows,
    parent: PageId,
    place: usize,
    end: usize,
}

impl<'a> Model for Kids<'a> {
    ghost use Rattle.std.specs.Prelude.{ℕ, List};
    ghost use Rattle.page_store.specs.KidWalk.{kids_between, IsKidWalk};

    ghost Value = { List ℕ };

    ghost view = { λ kids. kids_between kids.parent kids.place kids.end kids.rows.now.pages };

    ghost invariant = { λ kids. IsKidWalk kids.rows.now.pages kids.parent kids.place kids.end };
}

impl<'a> Iterator for Kids<'a> {
    type Item = PageId;

    ghost use Rattle.std.specs.Iterator.{YieldsFirst, item_count};

    ghost next_gives = { YieldsFirst (λ kids. kids) };

    ghost remaining = { item_count (λ kids. kids) };

    /// The next kid. It takes one look-up and a search of as many texts as the number of pages
    /// has binary digits, whatever stands below the kid.
    fn next(&mut self) -> Option<PageId> {
        if self.place >= self.end {
            return None;
        }
        let rows = self.rows;
        let Some(kid) = rows.at(self.place) else {
            unreachable!();
        };
        self.place = rows.end_of(self.place);
        Some(kid)
    }
}

impl Rows {
    /// The kids of a page in order; there are none where there is no such page.
    ///
    /// It costs as much as `range_of`, and each kid a search more.
    pub fn children(&self, id: PageId) -> Kids<'_>
        ensures { result ≡ kids_in id self.now.pages }
    {
        let len = self.len();
        match self.range_of(id) {
            Some((place, count)) => Kids {
                rows: self,
                parent: id,
                place: place + 1,
                end: place + count,
            },
            None => Kids {
                rows: self,
                parent: id,
                place: len,
                end: len,
            },
        }
    }
}
