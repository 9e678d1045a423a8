//! Looking moments up by page, by place and by what is due.
ghost use Rattle.std.specs.Prelude.{◌≡◌, ◌==◌, length, slice_get};
ghost use Rattle.time_table.specs.Table.{moment_in, due_in, IsTable};

use crate::TimeTable;
use crate::order::due_pairs;
use site_types::{Moment, PageId};

impl TimeTable {
    /// The number of pages that have a moment.
    pub fn len(&self) -> usize
        ensures value { result ≡ length self.now.entries }
        ensures table { IsTable self.now.entries }
    {
        self.order.len()
    }

    /// Whether no page has a moment.
    pub fn is_empty(&self) -> bool
        ensures { result ≡ (length self.now.entries == 0) }
    {
        self.order.is_empty()
    }

    /// The moment of a page, or `None` exactly if it has none. One look-up.
    pub fn moment_of(&self, page: PageId) -> Option<Moment>
        ensures { result ≡ moment_in self.now.entries page }
    {
        self.moments.get(&page).copied()
    }

    /// The pair at a place, rising by moment and then by page, or `None` exactly at or past their
    /// number.
    pub fn at(&self, place: usize) -> Option<(Moment, PageId)>
        ensures { result ≡ slice_get self.now.entries place }
    {
        self.order.get(place).copied()
    }

    /// The pages with a moment of at most `t`, by moment and then by page. One search.
    pub fn due(&self, t: Moment) -> &[(Moment, PageId)]
        ensures { result.now ≡ due_in t self.now.entries }
    {
        due_pairs(&self.order, t)
    }
}
