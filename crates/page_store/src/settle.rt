//! Putting the page at the top of what moved below the page above its new path.
ghost use Rattle.std.specs.Prelude.{◌≡◌, ℕ, ◌+◌, ◌<◌, ◌≤◌, Some, IsSome, nat_eq, if◌then◌else◌, slice_get};
ghost use Rattle.std.specs.Option.{option_map, option_and_then};
ghost use Rattle.std.specs.Map.{lookup};
ghost use Rattle.indexmap.specs.IndexMap.{spare};
ghost use Rattle.page_tree.specs.Rows.{row_with};
ghost use Rattle.page_store.specs.PageRows.{parent_id};
ghost use Rattle.page_store.specs.Kept.{rows_seen, IsKept};
ghost use Rattle.page_store.specs.KidIndex.{IsIndex, keys_of, index_room};
ghost use Rattle.page_store.specs.Settling.{parent_put, settled, IsListed, CanSettle};

use crate::change::find_key;
use crate::insert::{above_text, add_kid};
use crate::kid_index::{KidIndex, KidKey};
use crate::remove::take_kid;
use crate::search::{Front, count_front};
use crate::stored::{Parent, StoredRow};
use indexmap::IndexMap;
use site_types::PageId;

/// Puts the page at the top of what moved, if any, below the page above its path: its key among the
/// kids and the child counts of the two parents follow. Where its parent stays nothing changes.
///
/// One search of as many texts as the number of pages has binary digits, and six look-ups.
pub(crate) fn settle(
    stored: &mut IndexMap<PageId, StoredRow>,
    kids: &mut KidIndex,
    order: &[PageId],
    top: Option<PageId>,
)
    requires listed { IsListed stored.old.entries order.now (rows_seen stored.old.entries order.now) }
    requires can { CanSettle top (rows_seen stored.old.entries order.now) }
    requires indexed { IsIndex kids.old (keys_of stored.old.entries) }
    requires room { 0 < index_room kids.old }
    ensures kept { IsKept stored.new.entries order.now kids.new
        (settled (rows_seen stored.old.entries order.now)) }
    ensures spare_rows { spare stored.new ≡ spare stored.old }
    ensures spare_kids { index_room kids.old ≤ index_room kids.new + 1 }
{
    let Some(top) = top else {
        return;
    };
    let Some(old) = find_key(stored, top) else {
        return;
    };
    let parent = page_above(stored, order, top);
    if parent == old.parent {
        return;
    }
    let new = KidKey {
        parent,
        digest: old.digest,
    };
    put_parent(stored, top, parent);
    take_kid(stored, old.parent);
    add_kid(stored, parent);
    kids.take(old, top);
    kids.add(new, top);
}

/// The page whose path is that of the page without its last step.
fn page_above(stored: &IndexMap<PageId, StoredRow>, order: &[PageId], id: PageId) -> PageId
    requires listed { IsListed stored.now.entries order.now (rows_seen stored.now.entries order.now) }
    requires there { let rows = rows_seen stored.now.entries order.now in
        IsSome (option_and_then (λ row. parent_id row.path rows) (row_with id rows)) }
    ensures { let rows = rows_seen stored.now.entries order.now in
        option_and_then (λ row. parent_id row.path rows) (row_with id rows) ≡ Some result }
{
    let Some(page) = stored.get(&id) else {
        unreachable!();
    };
    let above = above_text(page.row.path.as_slice());
    let place = count_front(Front::Before, order, stored, above.as_slice());
    match id_at(order, place) {
        Some(parent) => parent,
        None => unreachable!(),
    }
}

/// The id at a place, where there is one.
pub(crate) fn id_at(order: &[PageId], place: usize) -> Option<PageId>
    ensures { result ≡ slice_get order.now place }
{
    order.get(place).copied()
}

/// Puts a page below another.
fn put_parent(stored: &mut IndexMap<PageId, StoredRow>, id: PageId, parent: PageId)
    ensures others { (other : ℕ) → lookup (nat_eq other) stored.new.entries
        ≡ (if nat_eq id other then option_map (parent_put parent) (lookup (nat_eq id) stored.old.entries)
        else lookup (nat_eq other) stored.old.entries) }
    ensures spare { spare stored.new ≡ spare stored.old }
{
    if let Some(page) = stored.get_mut(&id) {
        page.parent = Parent::page(parent);
    }
}
