//! Taking a page out with all below it.
ghost use Rattle.std.specs.Prelude.{◌≡◌, ℕ, ◌-◌, ◌++◌, ◌≤◌, Option, Some, IsSome, None, nat_eq, if◌then◌else◌};
ghost use Rattle.std.specs.Prelude.{take, drop, vec_len, vec_capacity};
ghost use Rattle.std.specs.Option.{option_map};
ghost use Rattle.std.specs.List.{list_any};
ghost use Rattle.std.specs.Map.{lookup};
ghost use Rattle.indexmap.specs.IndexMap.{spare};
ghost use Rattle.page_tree.specs.Rows.{row_with};
ghost use Rattle.page_store.specs.KidIndex.{own_key, keys_of, IsIndex, without_key, index_room};
ghost use Rattle.page_store.specs.Changes.{without_range, kid_taken};

use crate::Rows;
use crate::kid_index::{KidIndex, KidKey, key_of_kid};
use crate::stored::StoredRow;
use indexmap::IndexMap;
use site_types::PageId;

impl Rows {
    /// Takes a page out with all below it, and lowers the child count of its parent by one.
    ///
    /// It takes three look-ups for each page that goes, and moves four bytes for each page after them.
    pub fn remove_range(&mut self, id: PageId)
        requires there { IsSome (row_with id self.old.pages) }
        requires below_root { id ≡ 1 → ⊥ }
        ensures pages { self.new.pages ≡ without_range id self.old.pages }
        ensures spare { self.old.spare ≤ self.new.spare }
    {
        let _len = self.len();
        let Some((place, count)) = self.range_of(id) else {
            unreachable!();
        };
        let end = place + count;
        let parent = parent_in(&self.stored, id);
        take_pages(&mut self.stored, &mut self.kids, &self.order[place..end]);
        take_kid(&mut self.stored, parent);
        cut(&mut self.order, place, end);
    }
}

/// Takes out what is kept of these pages, and their keys.
fn take_pages(stored: &mut IndexMap<PageId, StoredRow>, kids: &mut KidIndex, ids: &[PageId])
    requires indexed { IsIndex kids.old (keys_of stored.old.entries) }
    ensures indexed { IsIndex kids.new (keys_of stored.new.entries) }
    ensures rows { (id : ℕ) → lookup (nat_eq id) stored.new.entries
        ≡ (if list_any (λ taken. nat_eq taken id) ids.now then None
        else lookup (nat_eq id) stored.old.entries) }
    ensures spare_rows { spare stored.old ≤ spare stored.new }
    ensures room { index_room kids.old ≤ index_room kids.new }
{
    for id in ids {
        take_page(stored, kids, *id);
    }
}

/// Takes out what is kept of a page, and its key, if it has one.
fn take_page(stored: &mut IndexMap<PageId, StoredRow>, kids: &mut KidIndex, id: PageId)
    requires indexed { IsIndex kids.old (keys_of stored.old.entries) }
    ensures indexed { IsIndex kids.new (keys_of stored.new.entries) }
    ensures rows { (other : ℕ) → lookup (nat_eq other) stored.new.entries
        ≡ (if nat_eq id other then None else lookup (nat_eq other) stored.old.entries) }
    ensures spare_rows { spare stored.old ≤ spare stored.new }
    ensures room { index_room kids.old ≤ index_room kids.new }
{
    if let Some(page) = stored.swap_remove(&id) {
        take_key(kids, id, &page);
    }
}

/// Takes out the key of what was kept of a page, if it has one.
fn take_key(kids: &mut KidIndex, id: PageId, page: &StoredRow)
    ensures taken { (keys : ℕ → Option KidKey) → IsIndex kids.old keys → keys id ≡ own_key (Some page.now)
        → IsIndex kids.new (without_key id keys) }
    ensures room { index_room kids.old ≤ index_room kids.new }
{
    if let Some(parent) = page.parent.get() {
        kids.take(key_of_kid(parent, &page.row.slug), id);
    }
}

/// The page above one that has one.
fn parent_in(stored: &IndexMap<PageId, StoredRow>, id: PageId) -> PageId
    requires { IsSome (own_key (lookup (nat_eq id) stored.now.entries)) }
    ensures { option_map (λ key. key.parent) (own_key (lookup (nat_eq id) stored.now.entries))
        ≡ Some result }
{
    let Some(page) = stored.get(&id) else {
        unreachable!();
    };
    match page.parent.get() {
        Some(parent) => parent,
        None => unreachable!(),
    }
}

/// Lowers the child count of a page by one.
pub(crate) fn take_kid(stored: &mut IndexMap<PageId, StoredRow>, parent: PageId)
    ensures others { (id : ℕ) → lookup (nat_eq id) stored.new.entries
        ≡ (if nat_eq parent id then option_map kid_taken (lookup (nat_eq parent) stored.old.entries)
        else lookup (nat_eq id) stored.old.entries) }
    ensures spare { spare stored.new ≡ spare stored.old }
{
    if let Some(page) = stored.get_mut(&parent) {
        page.row.numchild = page.row.numchild.saturating_sub(1);
    }
}

/// Cuts the places from `start` to `end` out of a list.
fn cut(order: &mut Vec<PageId>, start: usize, end: usize)
    requires start_le_end { start ≤ end }
    requires within { end ≤ vec_len order.old }
    ensures items { order.new.items ≡ take start order.old.items ++ drop end order.old.items }
    ensures len { vec_len order.new ≤ vec_len order.old }
    ensures capacity { vec_capacity order.new ≡ vec_capacity order.old }
{
    order.drain(start..end);
}
