//! An empty shelf, making room, and adding a revision.
ghost use Rattle.std.specs.Prelude.{◌≡◌, ℕ, ◌+◌, ◌<◌, ◌≤◌, Some, nat_eq, List, [], ◌∷◌, ◌++◌, OnOk};
ghost use Rattle.std.specs.List.{AllByRecursion};
ghost use Rattle.std.specs.Prelude.{vec_len, vec_capacity};
ghost use Rattle.std.specs.Map.{lookup};
ghost use Rattle.indexmap.specs.IndexMap.{Updates, spare};

use crate::Shelf;
use crate::shelf::Kept;
use indexmap::IndexMap;
use site_types::{NoMemory, PageId, Revision, RevisionId};
use std::alloc::Global;
use std::hash::Hash;

impl Shelf {
    /// The shelf without revisions and without room. It takes no memory.
    pub fn new(alloc: Global) -> Shelf
        ensures revisions { result.revisions ≡ [] }
        ensures spare { result.spare ≡ 0 }
    {
        Shelf {
            stored: IndexMap::new(alloc),
            newest: IndexMap::new(alloc),
            order: Vec::new(alloc),
            weight: 0,
        }
    }

    /// Makes room for `more` revisions, so that as many can be added without memory. The room never
    /// shrinks, if memory runs out either.
    ///
    /// It costs nothing if the room is there, and otherwise a copy of what is kept.
    pub fn reserve(&mut self, more: usize) -> Result<(), NoMemory>
        ensures revisions { self.new.revisions ≡ self.old.revisions }
        ensures ok { OnOk result (more ≤ self.new.spare) }
        ensures spare { self.old.spare ≤ self.new.spare }
    {
        self.stored.reserve(more)?;
        self.newest.reserve(more)?;
        self.order.reserve(more)?;
        Ok(())
    }

    /// Adds a revision whose id is above those of all others. Two look-ups.
    pub fn add(&mut self, revision: Revision)
        requires newer { AllByRecursion (λ older. older.id < revision.id) self.old.revisions }
        requires spare { 1 ≤ self.old.spare }
        ensures revisions { self.new.revisions ≡ self.old.revisions ++ revision ∷ [] }
        ensures spare { self.old.spare ≤ self.new.spare + 1 }
    {
        let id = revision.id;
        let _number = id.get();
        let weight = self.weight + revision.content.form_length();
        let previous = put(&mut self.newest, revision.page, id);
        put(&mut self.stored, id, Kept { revision, previous });
        push(&mut self.order, id);
        self.weight = weight;
    }
}

/// Puts a pair into a map that has room for it, and gives what was there.
fn put<K: Eq + Hash + Drop, V: Drop>(map: &mut IndexMap<K, V>, key: K, value: V) -> Option<V>
    requires { 0 < spare map.old }
    ensures old { result ≡ lookup (K.eq key) map.old.entries }
    ensures updates { Updates K.eq map.old map.new key (Some value) }
    ensures spare { spare map.old ≤ spare map.new + 1 }
{
    match map.insert(key, value) {
        Ok(old) => old,
        Err(_) => unreachable!(),
    }
}

/// Puts an id at the end of a list that has room for it.
fn push(order: &mut Vec<RevisionId>, id: RevisionId)
    requires { vec_len order.old < vec_capacity order.old }
    ensures items { order.new.items ≡ order.old.items ++ id ∷ [] }
    ensures len { vec_len order.new ≡ vec_len order.old + 1 }
    ensures capacity { vec_capacity order.old ≤ vec_capacity order.new }
{
    match order.push(id) {
        Ok(()) => {}
        Err(_) => unreachable!(),
    }
}
