//! Taking the revisions of pages out.
ghost use Rattle.std.specs.Prelude.{◌≡◌, ◌<◌, ◌≤◌, not, IsTrue, IsFalse, is_some, nat_eq};
ghost use Rattle.std.specs.Prelude.{length, filter, vec_len, vec_capacity};
ghost use Rattle.std.specs.List.{AllByRecursion};
ghost use Rattle.std.specs.Map.{lookup};
ghost use Rattle.site_types.specs.Ids.{IsPageId};
ghost use Rattle.revision_shelf.specs.Shelf.{without_page, without_pages};
ghost use Rattle.revision_shelf.specs.Kept.{without_latest, IdsRise};

use crate::Shelf;
use crate::chain::{page_of, take_newest, take_pages};
use crate::shelf::Kept;
use indexmap::IndexMap;
use site_types::{PageId, RevisionId};

/// From so many pages on, their revisions' ids go in one pass: it costs about as much as moving the
/// ids after each of so many revisions.
const FEW_PAGES: usize = 64;

impl Shelf {
    /// Takes all revisions of a page out.
    ///
    /// Each that goes takes three look-ups, compares as many ids as the number of revisions has
    /// binary digits, and moves four bytes for each id after it.
    pub fn drop_page(&mut self, page: PageId)
        ensures revisions { self.new.revisions ≡ without_page page self.old.revisions }
        ensures spare { self.old.spare ≤ self.new.spare }
    {
        while self.take_latest(page) {}
    }

    /// Takes all revisions of the pages with these ids out.
    ///
    /// A few pages go one by one, as by `drop_page`. For more, each revision that goes takes three
    /// look-ups, and then one pass takes one look-up for each id.
    pub fn drop_pages(&mut self, pages: &[u32])
        requires { AllByRecursion IsPageId pages.now }
        ensures revisions { self.new.revisions ≡ without_pages pages.now self.old.revisions }
        ensures spare { self.old.spare ≤ self.new.spare }
    {
        if pages.len() < FEW_PAGES {
            self.drop_one_by_one(pages);
        } else {
            self.drop_together(pages);
        }
    }

    /// Takes the revisions of pages out, page by page.
    fn drop_one_by_one(&mut self, pages: &[u32])
        requires { AllByRecursion IsPageId pages.now }
        ensures revisions { self.new.revisions ≡ without_pages pages.now self.old.revisions }
        ensures spare { self.old.spare ≤ self.new.spare }
    {
        for number in pages {
            self.drop_page(page_of(*number));
        }
    }

    /// Takes the revisions of pages out, and then their ids in one pass.
    fn drop_together(&mut self, pages: &[u32])
        requires { AllByRecursion IsPageId pages.now }
        ensures revisions { self.new.revisions ≡ without_pages pages.now self.old.revisions }
        ensures spare { self.old.spare ≤ self.new.spare }
    {
        take_pages(&mut self.stored, &mut self.newest, &mut self.weight, pages);
        keep_stored(&mut self.order, &self.stored);
    }

    /// Takes the newest revision of a page out, or answers that there is none.
    fn take_latest(&mut self, page: PageId) -> bool
        ensures revisions { self.new.revisions ≡ without_latest page self.old.revisions }
        ensures others { without_page page self.new.revisions ≡ without_page page self.old.revisions }
        ensures shorter { IsTrue result → length self.new.revisions < length self.old.revisions }
        ensures none { IsFalse result → without_page page self.new.revisions ≡ self.new.revisions }
        ensures spare { self.old.spare ≤ self.new.spare }
    {
        match take_newest(&mut self.stored, &mut self.newest, &mut self.weight, page) {
            Some(id) => {
                cut(&mut self.order, id);
                true
            }
            None => false,
        }
    }
}

/// Takes an id out of ids that rise.
pub(crate) fn cut(order: &mut Vec<RevisionId>, id: RevisionId)
    requires { IdsRise 0 order.old.items }
    ensures items { order.new.items ≡ filter (λ other. not (nat_eq other id)) order.old.items }
    ensures len { vec_len order.new ≤ vec_len order.old }
    ensures capacity { vec_capacity order.new ≡ vec_capacity order.old }
{
    if let Ok(place) = order.binary_search(&id) {
        order.remove(place);
    }
}

/// Keeps the ids of revisions that are there.
fn keep_stored(order: &mut Vec<RevisionId>, stored: &IndexMap<RevisionId, Kept>)
    ensures items { order.new.items
        ≡ filter (λ id. is_some (lookup (nat_eq id) stored.now.entries)) order.old.items }
    ensures len { vec_len order.new ≤ vec_len order.old }
    ensures capacity { vec_capacity order.new ≡ vec_capacity order.old }
{
    order.retain(|id| stored.contains_key(id));
}
