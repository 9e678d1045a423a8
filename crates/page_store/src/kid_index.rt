//! The kids of pages by slug: at keys that hold a digest of the slug in place of the slug.
ghost use Rattle.std.specs.Prelude.{◌≡◌, ℕ, ◌+◌, ◌<◌, ◌≤◌, Option, None, Some, OnOk, [], ◌∷◌, ◌++◌};
ghost use Rattle.std.specs.Prelude.{find, not, nat_eq, filter, vec_len, vec_capacity, ◌&&◌, if◌then◌else◌};
ghost use Rattle.std.specs.Map.{lookup};
ghost use Rattle.indexmap.specs.IndexMap.{spare};
ghost use Rattle.page_store.specs.KidIndex.{stir, slug_digest, kid_key, IsIndex, with_key, without_key};
ghost use Rattle.page_store.specs.KidIndex.{key_eq, leads_to, index_room, is_kid, kid_found};

use crate::change::take_out;
use crate::insert::put;
use crate::stored::StoredRow;
use indexmap::IndexMap;
use site_types::{NoMemory, PageId, Slug};
use std::alloc::Global;

/// A page below a parent, by a digest of its slug.
#[derive(Clone, Copy, Debug, PartialEq, Eq, Hash)]
pub(crate) struct KidKey {
    /// The page above it.
    pub(crate) parent: PageId,
    /// The digest of its slug. Few kids of that page share it, if any.
    pub(crate) digest: u32,
}

/// The pages that have a parent, by their keys.
///
/// Of the kids with one key the first that came stands at it, and the others among the clashes. Slugs
/// of one parent that share a digest are rare, so that there is seldom a clash.
#[derive(Debug, Drop)]
pub(crate) struct KidIndex {
    keys: IndexMap<KidKey, PageId>,
    clashes: Vec<PageId>,
}

impl KidIndex {
    /// An index of no pages.
    pub(crate) fn new(alloc: Global) -> KidIndex
        ensures keys { result.keys.entries ≡ [] }
        ensures clashes { result.clashes.items ≡ [] }
    {
        KidIndex {
            keys: IndexMap::new(alloc),
            clashes: Vec::new(alloc),
        }
    }

    /// Makes room for `more` kids. The room never shrinks, if memory runs out either.
    pub(crate) fn reserve(&mut self, more: usize) -> Result<(), NoMemory>
        ensures keys { self.new.keys.entries ≡ self.old.keys.entries }
        ensures clashes { self.new.clashes.items ≡ self.old.clashes.items }
        ensures ok { OnOk result (more ≤ index_room self.new) }
        ensures room { index_room self.old ≤ index_room self.new }
    {
        self.keys.reserve(more)?;
        self.clashes.reserve(more)?;
        Ok(())
    }

    /// Puts in a page that has no key yet: at its key, or among the clashes if that is taken.
    pub(crate) fn add(&mut self, key: KidKey, kid: PageId)
        requires room { 0 < index_room self.old }
        ensures added { (keys : ℕ → Option KidKey) → IsIndex self.old keys → keys kid ≡ None
            → IsIndex self.new (with_key kid key keys) }
        ensures room { index_room self.old ≤ index_room self.new + 1 }
    {
        if self.keys.contains_key(&key) {
            push(&mut self.clashes, kid);
        } else {
            put(&mut self.keys, key, kid);
        }
    }

    /// Takes out a page that has this key: from the key if it stands there, and from the clashes.
    pub(crate) fn take(&mut self, key: KidKey, kid: PageId)
        ensures taken { (keys : ℕ → Option KidKey) → IsIndex self.old keys → keys kid ≡ Some key
            → IsIndex self.new (without_key kid keys) }
        ensures room { index_room self.old ≤ index_room self.new }
    {
        free_key(&mut self.keys, key, kid);
        leave_out(&mut self.clashes, kid);
    }

    /// The kid of a page with a slug, if there is one.
    ///
    /// Two look-ups, and one more for each clash of the whole tree if the kid is not at its key.
    pub(crate) fn find(
        &self,
        stored: &IndexMap<PageId, StoredRow>,
        parent: PageId,
        slug: &Slug,
    ) -> Option<PageId>
        ensures { result ≡ kid_found self.now stored.now.entries parent slug.now }
    {
        if let Some(kid) = self.keys.get(&key_of_kid(parent, slug)).copied() {
            if is_kid(stored, parent, slug, kid) {
                return Some(kid);
            }
        }
        first_kid(stored, parent, slug, &self.clashes)
    }
}

/// Frees a key, if this page stands at it.
fn free_key(keys: &mut IndexMap<KidKey, PageId>, key: KidKey, kid: PageId)
    ensures keys { (other : KidKey) → lookup (key_eq other) keys.new.entries
        ≡ (if leads_to keys.old.entries key kid && key_eq key other then None
        else lookup (key_eq other) keys.old.entries) }
    ensures spare { spare keys.old ≤ spare keys.new }
{
    if leads_to(keys, key, kid) {
        take_out(keys, &key);
    }
}

/// Whether this page stands at a key.
fn leads_to(keys: &IndexMap<KidKey, PageId>, key: KidKey, kid: PageId) -> bool
    ensures { result ≡ leads_to keys.now.entries key kid }
{
    match keys.get(&key) {
        Some(found) => *found == kid,
        None => false,
    }
}

/// The key of a kid with a slug.
pub(crate) fn key_of_kid(parent: PageId, slug: &Slug) -> KidKey
    ensures { result ≡ kid_key parent slug.now }
{
    KidKey {
        parent,
        digest: slug_digest(slug),
    }
}

/// The digest of a slug.
fn slug_digest(slug: &Slug) -> u32
    ensures { result ≡ slug_digest slug.now }
{
    let bytes = slug.as_slice();
    let mut digest = 0;
    for byte in bytes {
        digest = stir(digest, *byte);
    }
    digest
}

/// A digest with one byte more.
fn stir(digest: u32, byte: u8) -> u32
    ensures { result ≡ stir digest byte }
{
    digest
        .wrapping_mul(16_777_619)
        .wrapping_add(u32::from(byte))
}

/// Whether a page is the kid of a page with this slug.
fn is_kid(stored: &IndexMap<PageId, StoredRow>, parent: PageId, slug: &Slug, id: PageId) -> bool
    ensures { result ≡ is_kid stored.now.entries parent slug.now id }
{
    let Some(page) = stored.get(&id) else {
        return false;
    };
    match page.parent.get() {
        Some(above) => above == parent && page.row.slug == *slug,
        None => false,
    }
}

/// The first of these pages that is the kid of a page with this slug.
fn first_kid(
    stored: &IndexMap<PageId, StoredRow>,
    parent: PageId,
    slug: &Slug,
    ids: &[PageId],
) -> Option<PageId>
    ensures { result ≡ find (is_kid stored.now.entries parent slug.now) ids.now }
{
    for id in ids {
        if is_kid(stored, parent, slug, *id) {
            return Some(*id);
        }
    }
    None
}

/// Puts an id at the end of a list that has room for it.
fn push(ids: &mut Vec<PageId>, id: PageId)
    requires room { vec_len ids.old < vec_capacity ids.old }
    ensures items { ids.new.items ≡ ids.old.items ++ id ∷ [] }
    ensures len { vec_len ids.new ≡ vec_len ids.old + 1 }
    ensures capacity { vec_capacity ids.old ≤ vec_capacity ids.new }
{
    match ids.push(id) {
        Ok(()) => {}
        Err(_) => unreachable!(),
    }
}

/// Takes an id out of a list, wherever it stands.
fn leave_out(ids: &mut Vec<PageId>, id: PageId)
    ensures items { ids.new.items ≡ filter (λ other. not (nat_eq other id)) ids.old.items }
    ensures len { vec_len ids.new ≤ vec_len ids.old }
    ensures capacity { vec_capacity ids.new ≡ vec_capacity ids.old }
{
    ids.retain(|other| *other != id);
}
