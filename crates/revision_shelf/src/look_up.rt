//! Looking revisions up by id, by page and by place.
ghost use Rattle.std.specs.Prelude.{◌≡◌, length, slice_get};
ghost use Rattle.std.specs.Option.{option_copied};
ghost use Rattle.revision_shelf.specs.Shelf.{revision_with, latest_of, total_weight, Rises};

use crate::Shelf;
use site_types::{PageId, Revision, RevisionId};

impl Shelf {
    /// The number of revisions.
    pub fn len(&self) -> usize
        ensures value { result ≡ length self.now.revisions }
        ensures rises { Rises 0 self.now.revisions }
    {
        self.order.len()
    }

    /// The revision with the id, or `None` exactly where there is none. One look-up.
    pub fn get(&self, id: RevisionId) -> Option<&Revision>
        ensures { option_copied result ≡ revision_with id self.now.revisions }
    {
        match self.stored.get(&id) {
            Some(kept) => Some(&kept.revision),
            None => None,
        }
    }

    /// The page's revision with the greatest id, or `None` exactly where it has none. One look-up.
    pub fn latest(&self, page: PageId) -> Option<RevisionId>
        ensures { result ≡ latest_of page self.now.revisions }
    {
        self.newest.get(&page).copied()
    }

    /// The revision at a place, rising by id, or `None` exactly at or past their number. One look-up.
    pub fn at(&self, place: usize) -> Option<&Revision>
        ensures { option_copied result ≡ slice_get self.now.revisions place }
    {
        let Some(id) = id_at(&self.order, place) else {
            return None;
        };
        match self.stored.get(&id) {
            Some(kept) => Some(&kept.revision),
            None => None,
        }
    }

    /// The sum of the lengths of the contents' byte forms.
    pub fn weight(&self) -> u64
        ensures { result ≡ total_weight self.now.revisions }
    {
        self.weight
    }
}

/// The id at a place, or `None` exactly at or past their number.
fn id_at(order: &[RevisionId], place: usize) -> Option<RevisionId>
    ensures { result ≡ slice_get order.now place }
{
    order.get(place).copied()
}
