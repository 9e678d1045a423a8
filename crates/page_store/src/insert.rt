//! Making room, and putting rows in.
ghost use Rattle.std.specs.Prelude.{◌≡◌, ℕ, ◌+◌, ◌^◌, ◌<◌, ◌≤◌, Some, nat_eq, if◌then◌else◌};
ghost use Rattle.std.specs.Prelude.{length, insert, vec_len, vec_capacity, OnOk, IfSome, IsSome};
ghost use Rattle.std.specs.Option.{option_map};
ghost use Rattle.std.specs.Map.{lookup};
ghost use Rattle.indexmap.specs.IndexMap.{Updates, spare};
ghost use Rattle.page_tree.specs.Rows.{comes_before, with_row};
ghost use Rattle.step_path.specs.Path.{steps_of, IsPathText};
ghost use Rattle.page_store.specs.PageRows.{seen_row, parent_id, above, IsNewRow};
ghost use Rattle.page_store.specs.Kept.{kid_added};
ghost use Rattle.page_store.specs.Search.{leading};

use crate::Rows;
use crate::kid_index::key_of_kid;
use crate::search::{Front, count_front};
use crate::stored::{Parent, StoredRow};
use arrayvec::ArrayVec;
use indexmap::IndexMap;
use site_types::{NoMemory, PageId, PageRow, Url};
use std::hash::Hash;
use step_path::{MAX_TEXT, Path};

impl Rows {
    /// Makes room for `more` rows, so that as many can be put in without memory. The room never
    /// shrinks, if memory runs out either.
    ///
    /// It costs nothing if the room is there, and otherwise a copy of what is kept.
    pub fn reserve(&mut self, more: usize) -> Result<(), NoMemory>
        ensures pages { self.new.pages ≡ self.old.pages }
        ensures ok { OnOk result (more ≤ self.new.spare) }
        ensures spare { self.old.spare ≤ self.new.spare }
    {
        self.stored.reserve(more)?;
        self.kids.reserve(more)?;
        self.order.reserve(more)?;
        Ok(())
    }

    /// Puts a new row in its place in path order, and raises the child count of its parent by one.
    ///
    /// It takes three look-ups, two searches of as many texts as the number of pages has binary
    /// digits, and moves four bytes for each page behind the new one.
    pub fn insert_reserved(&mut self, row: PageRow, url: Url)
        requires new { IsNewRow self.old.pages row }
        requires spare { 1 ≤ self.old.spare }
        ensures pages { self.new.pages
            ≡ with_row (seen_row row (parent_id (steps_of row.path) self.old.pages) url) self.old.pages }
        ensures spare { self.old.spare ≤ self.new.spare + 1 }
    {
        let parent = self.parent_of(row.path.as_slice());
        let place = self.place_of(row.path.as_slice());
        let id = row.id;
        let _number = id.get();
        let key = key_of_kid(parent, &row.slug);
        let stored = StoredRow {
            row,
            url,
            parent: Parent::page(parent),
            counted: false,
        };
        add_kid(&mut self.stored, parent);
        put(&mut self.stored, id, stored);
        self.kids.add(key, id);
        put_at(&mut self.order, place, id);
    }

    /// How many pages come before the path.
    pub(crate) fn place_of(&self, path: &[u8]) -> usize
        requires { IsPathText path.now }
        ensures place { result ≡ leading (λ row. comes_before row.path (steps_of path.now)) self.now.pages }
        ensures within { result ≤ length self.now.pages }
    {
        count_front(Front::Before, &self.order, &self.stored, path)
    }

    /// The page above the path.
    fn parent_of(&self, path: &[u8]) -> PageId
        requires path { IsPathText path.now }
        requires there { IsSome (parent_id (steps_of path.now) self.now.pages) }
        ensures { parent_id (steps_of path.now) self.now.pages ≡ Some result }
    {
        let _ = &self.order;
        let above = above_text(path);
        let place = self.place_of(above.as_slice());
        match self.at(place) {
            Some(id) => id,
            None => unreachable!(),
        }
    }
}

/// The text of a path without its last step.
pub(crate) fn above_text(text: &[u8]) -> ArrayVec<u8, MAX_TEXT>
    requires path { IsPathText text.now }
    requires below { 1 < length (steps_of text.now) }
    ensures path { IsPathText result.items }
    ensures steps { steps_of result.items ≡ above (steps_of text.now) }
{
    let Some(path) = Path::read(text) else {
        unreachable!();
    };
    let Some(parent) = path.parent() else {
        unreachable!();
    };
    parent.text()
}

/// Raises the child count of a page by one.
pub(crate) fn add_kid(stored: &mut IndexMap<PageId, StoredRow>, parent: PageId)
    requires { IfSome (lookup (nat_eq parent) stored.old.entries) (λ page. page.row.numchild + 1 < 2 ^ 32) }
    ensures others { (id : ℕ) → lookup (nat_eq id) stored.new.entries
        ≡ (if nat_eq parent id then option_map kid_added (lookup (nat_eq parent) stored.old.entries)
        else lookup (nat_eq id) stored.old.entries) }
    ensures spare { spare stored.new ≡ spare stored.old }
{
    if let Some(page) = stored.get_mut(&parent) {
        page.row.numchild += 1;
    }
}

/// Puts a pair into a map that has room for it.
pub(crate) fn put<K: Eq + Hash + Drop, V: Drop>(map: &mut IndexMap<K, V>, key: K, value: V)
    requires { 0 < spare map.old }
    ensures updates { Updates K.eq map.old map.new key (Some value) }
    ensures spare { spare map.old ≤ spare map.new + 1 }
{
    match map.insert(key, value) {
        Ok(_) => {}
        Err(_) => unreachable!(),
    }
}

/// Puts an id at a place of a list that has room for it.
fn put_at(order: &mut Vec<PageId>, place: usize, id: PageId)
    requires place { place ≤ vec_len order.old }
    requires room { vec_len order.old < vec_capacity order.old }
    ensures items { order.new.items ≡ insert order.old.items place id }
    ensures len { vec_len order.new ≡ vec_len order.old + 1 }
    ensures capacity { vec_capacity order.old ≤ vec_capacity order.new }
{
    match order.insert(place, id) {
        Ok(()) => {}
        Err(_) => unreachable!(),
    }
}
