//! Finding places in the path order by binary search.
ghost use Rattle.std.specs.Prelude.{◌≡◌};
ghost use Rattle.step_path.specs.Path.{steps_of, IsPathText};
ghost use Rattle.page_store.specs.Search.{leading, PassFirst, is_front, HaveTexts};

use crate::stored::StoredRow;
use indexmap::IndexMap;
use site_types::PageId;
use step_path::{compare_texts, text_begins};

/// Which pages a search counts, beside a path.
#[derive(Clone, Copy)]
pub(crate) enum Front {
    /// Those whose path comes before it.
    Before,
    /// Those whose path begins with it.
    Below,
}

/// How many pages at the front of these stand in front of the path, where those that do stand first.
///
/// It compares about as many texts as the number of pages has binary digits.
pub(crate) fn count_front(
    front: Front,
    order: &[PageId],
    stored: &IndexMap<PageId, StoredRow>,
    path: &[u8],
) -> usize
    requires texts { HaveTexts stored.now.entries }
    requires path { IsPathText path.now }
    requires first { PassFirst (is_front front (steps_of path.now) stored.now.entries) order.now }
    ensures { result ≡ leading (is_front front (steps_of path.now) stored.now.entries) order.now }
{
    let mut low = 0;
    let mut high = order.len();
    while low < high {
        let middle = low + (high - low) / 2;
        if is_in_front(front, order[middle], stored, path) {
            low = middle + 1;
        } else {
            high = middle;
        }
    }
    low
}

/// Whether the page stands in front of the path; one that is not there does not.
fn is_in_front(front: Front, id: PageId, stored: &IndexMap<PageId, StoredRow>, path: &[u8]) -> bool
    requires texts { HaveTexts stored.now.entries }
    requires path { IsPathText path.now }
    ensures { result ≡ is_front front (steps_of path.now) stored.now.entries id }
{
    let Some(page) = stored.get(&id) else {
        return false;
    };
    let own = page.row.path.as_slice();
    match front {
        Front::Before => compare_texts(own, path).is_lt(),
        Front::Below => text_begins(path, own),
    }
}
