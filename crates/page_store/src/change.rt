//! Giving a page other fields, or another slug.
ghost use Rattle.std.specs.Prelude.{◌≡◌, ℕ, ◌+◌, ◌≤◌, Some, IsSome, None, nat_eq, if◌then◌else◌};
ghost use Rattle.std.specs.Option.{option_map};
ghost use Rattle.std.specs.Map.{lookup};
ghost use Rattle.indexmap.specs.IndexMap.{UpdatesBy, spare};
ghost use Rattle.page_tree.specs.Rows.{row_with};
ghost use Rattle.page_store.specs.Changes.{with_body, with_slug, MayHaveSlug};
ghost use Rattle.page_store.specs.Changes.{body_put, slug_put};
ghost use Rattle.page_store.specs.KidIndex.{own_key};

use crate::Rows;
use crate::kid_index::{KidKey, key_of_kid};
use crate::stored::StoredRow;
use indexmap::IndexMap;
use site_types::{Body, PageId, Slug};
use std::hash::Hash;

impl Rows {
    /// Gives a page these fields; all else stays. One look-up.
    pub fn set_body(&mut self, id: PageId, body: Body)
        requires { IsSome (row_with id self.old.pages) }
        ensures pages { self.new.pages ≡ with_body id body self.old.pages }
        ensures spare { self.new.spare ≡ self.old.spare }
    {
        put_body(&mut self.stored, id, body);
    }

    /// Gives a page this slug; all else stays, its URL too. Four look-ups.
    ///
    /// The key of the old slug goes and that of the new one comes in. An `IndexMap` does not promise
    /// that a key that goes leaves its room, so the call asks for the room of one row.
    pub fn set_slug(&mut self, id: PageId, slug: Slug)
        requires may { MayHaveSlug self.old.pages id slug }
        requires spare { 1 ≤ self.old.spare }
        ensures pages { self.new.pages ≡ with_slug id slug self.old.pages }
        ensures spare { self.old.spare ≤ self.new.spare + 1 }
    {
        let old = key_of(&self.stored, id);
        let new = key_of_kid(old.parent, &slug);
        put_slug(&mut self.stored, id, slug);
        self.kids.take(old, id);
        self.kids.add(new, id);
    }
}

/// Gives what is kept of a page these fields.
fn put_body(stored: &mut IndexMap<PageId, StoredRow>, id: PageId, body: Body)
    ensures others { (other : ℕ) → lookup (nat_eq other) stored.new.entries
        ≡ (if nat_eq id other then option_map (body_put body) (lookup (nat_eq id) stored.old.entries)
        else lookup (nat_eq other) stored.old.entries) }
    ensures spare { spare stored.new ≡ spare stored.old }
{
    if let Some(page) = stored.get_mut(&id) {
        page.row.body = body;
    }
}

/// Gives what is kept of a page this slug.
fn put_slug(stored: &mut IndexMap<PageId, StoredRow>, id: PageId, slug: Slug)
    ensures others { (other : ℕ) → lookup (nat_eq other) stored.new.entries
        ≡ (if nat_eq id other then option_map (slug_put slug) (lookup (nat_eq id) stored.old.entries)
        else lookup (nat_eq other) stored.old.entries) }
    ensures spare { spare stored.new ≡ spare stored.old }
{
    if let Some(page) = stored.get_mut(&id) {
        page.row.slug = slug;
    }
}

/// The key of a page that has a parent.
fn key_of(stored: &IndexMap<PageId, StoredRow>, id: PageId) -> KidKey
    requires { IsSome (own_key (lookup (nat_eq id) stored.now.entries)) }
    ensures { own_key (lookup (nat_eq id) stored.now.entries) ≡ Some result }
{
    match find_key(stored, id) {
        Some(key) => key,
        None => unreachable!(),
    }
}

/// The key of a page, where it is there and has a parent.
pub(crate) fn find_key(stored: &IndexMap<PageId, StoredRow>, id: PageId) -> Option<KidKey>
    ensures { result ≡ own_key (lookup (nat_eq id) stored.now.entries) }
{
    let page = stored.get(&id)?;
    let parent = page.parent.get()?;
    Some(key_of_kid(parent, &page.row.slug))
}

/// Takes a key out of a map, where it is there.
pub(crate) fn take_out<K: Eq + Hash + Drop, V: Drop>(map: &mut IndexMap<K, V>, key: &K)
    ensures updates { UpdatesBy K.eq (K.eq key.now) map.old map.new None }
    ensures spare { spare map.old ≤ spare map.new }
{
    let _ = map.swap_remove(key);
}
