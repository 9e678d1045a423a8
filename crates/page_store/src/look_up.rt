//! Looking pages up by id, by place and by slug.
ghost use Rattle.std.specs.Prelude.{◌≡◌, length, option_and_then};
ghost use Rattle.std.specs.Option.{option_copied, option_map};
ghost use Rattle.std.specs.Prelude.{slice_get};
ghost use Rattle.page_tree.specs.Rows.{row_with, kid_named};
ghost use Rattle.page_store.specs.PageRows.{page_row};
ghost use Rattle.page_store.specs.Pages.{ArePages};

use crate::Rows;
use site_types::{PageId, PageRow, Slug, Url};

impl Rows {
    /// The number of pages, the root among them.
    pub fn len(&self) -> usize
        ensures value { result ≡ length self.now.pages }
        ensures pages { ArePages self.now.pages }
    {
        self.order.len()
    }

    /// The row of a page, or `None` exactly where there is no such page. One look-up.
    pub fn row(&self, id: PageId) -> Option<&PageRow>
        ensures { option_copied result ≡ option_map page_row (row_with id self.now.pages) }
    {
        match self.stored.get(&id) {
            Some(stored) => Some(&stored.row),
            None => None,
        }
    }

    /// The URL of a page, or `None` exactly where there is no such page. One look-up.
    pub fn url(&self, id: PageId) -> Option<&Url>
        ensures { option_copied result ≡ option_map (λ row. row.url) (row_with id self.now.pages) }
    {
        let found = self.stored.get(&id);
        match found {
            Some(stored) => Some(&stored.url),
            None => None,
        }
    }

    /// The page above a page, or `None` exactly at the root and where there is no such page. One
    /// look-up.
    pub fn parent(&self, id: PageId) -> Option<PageId>
        ensures { result ≡ option_and_then (λ row. row.parent) (row_with id self.now.pages) }
    {
        let below = self.stored.get(&id);
        match below {
            Some(stored) => stored.parent.get(),
            None => None,
        }
    }

    /// The page at a place of the path order, or `None` exactly at or past the number of pages.
    pub fn at(&self, place: usize) -> Option<PageId>
        ensures { result ≡ option_map (λ row. row.id) (slice_get self.now.pages place) }
    {
        self.order.get(place).copied()
    }

    /// The kid of a page with this slug, or `None` exactly where there is none.
    ///
    /// Two look-ups if the kid is the first that came with its key, as nearly every one is; else one
    /// more for each kid of the whole tree that is not the first with its own.
    pub fn by_slug(&self, parent: PageId, slug: &Slug) -> Option<PageId>
        ensures { result ≡ kid_named parent slug.now self.now.pages }
    {
        let _ = &self.order;
        self.kids.find(&self.stored, parent, slug)
    }
}
