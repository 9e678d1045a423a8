//! The rows of subtrees, which stand together in path order.
ghost use Rattle.std.specs.Prelude.{◌≡◌, ◌+◌, ◌<◌, ◌≤◌, ◌↔◌, Some, IsSome, IfSome, length, drop, slice_get};
ghost use Rattle.page_tree.specs.Rows.{row_with};
ghost use Rattle.page_store.specs.PageRows.{IsRange};
ghost use Rattle.page_store.specs.Pages.{Page};
ghost use Rattle.page_store.specs.Search.{leading, begins};

use crate::Rows;
use crate::search::{Front, count_front};
use site_types::PageId;

impl Rows {
    /// The place of a page in path order and the number of rows of its subtree, that page's own
    /// among them, or `None` exactly where there is no such page.
    ///
    /// It takes two look-ups and two searches of as many texts as the number of pages has binary
    /// digits.
    pub fn range_of(&self, id: PageId) -> Option<(usize, usize)>
        ensures there { IsSome result ↔ IsSome (row_with id self.now.pages) }
        ensures range { IfSome result (λ range. IfSome (row_with id self.now.pages)
            (λ row. IsRange self.now.pages row range.0 range.1)) }
    {
        let Some(page) = self.stored.get(&id) else {
            return None;
        };
        let place = self.place_of(page.row.path.as_slice());
        Some((place, self.end_of(place) - place))
    }

    /// The place behind the subtree of the page at a place.
    pub(crate) fn end_of(&self, place: usize) -> usize
        requires { place < length self.now.pages }
        ensures end { (row : Page) → slice_get self.now.pages place ≡ Some row → result
            ≡ place + 1 + leading (λ other. begins row.path other.path) (drop (place + 1) self.now.pages) }
        ensures within { result ≤ length self.now.pages }
        ensures behind { place < result }
    {
        let order = self.order.as_slice();
        let Some(page) = self.stored.get(&order[place]) else {
            unreachable!();
        };
        let path = page.row.path.as_slice();
        place + 1 + count_front(Front::Below, &order[place + 1..], &self.stored, path)
    }
}
