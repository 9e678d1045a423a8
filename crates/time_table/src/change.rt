//! An empty table, making room, and giving a page a moment or none.
ghost use Rattle.std.specs.Prelude.{◌≡◌, ℕ, ◌+◌, ◌<◌, ◌≤◌, None, Some, nat_eq, if◌then◌else◌, [], OnOk};
ghost use Rattle.std.specs.Map.{lookup};
ghost use Rattle.indexmap.specs.IndexMap.{spare};
ghost use Rattle.time_table.specs.Table.{moment_in, without, put_in, with_moment, with_option};

use crate::TimeTable;
use crate::order::{put_at, take_out};
use indexmap::IndexMap;
use site_types::{Moment, NoMemory, PageId};
use std::alloc::Global;

impl TimeTable {
    /// The table without moments and without room. It takes no memory.
    pub fn new(alloc: Global) -> TimeTable
        ensures entries { result.entries ≡ [] }
        ensures spare { result.spare ≡ 0 }
    {
        TimeTable {
            moments: IndexMap::new(alloc),
            order: Vec::new(alloc),
        }
    }

    /// Makes room for `more` pages, so that as many can get a moment without memory. The room never
    /// shrinks, if memory runs out either.
    ///
    /// It costs nothing if the room is there, and otherwise a copy of what is kept.
    pub fn reserve(&mut self, more: usize) -> Result<(), NoMemory>
        ensures entries { self.new.entries ≡ self.old.entries }
        ensures ok { OnOk result (more ≤ self.new.spare) }
        ensures spare { self.old.spare ≤ self.new.spare }
    {
        self.moments.reserve(more)?;
        self.order.reserve(more)?;
        Ok(())
    }

    /// Gives a page this moment, in place of the one that it had.
    ///
    /// Three look-ups and two searches of as many steps as the number of pairs has binary digits; it
    /// moves 16 bytes for each pair after the old one and after the new one.
    pub fn set(&mut self, page: PageId, at: Moment)
        requires spare { 1 ≤ self.old.spare }
        ensures entries { self.new.entries ≡ with_moment page at self.old.entries }
        ensures spare { self.old.spare ≤ self.new.spare + 1 }
    {
        self.clear(page);
        self.add(page, at);
    }

    /// Takes a page's moment away, if it has one.
    ///
    /// Two look-ups and a search; it moves 16 bytes for each pair after the old one.
    pub fn clear(&mut self, page: PageId)
        ensures entries { self.new.entries ≡ without page self.old.entries }
        ensures spare { self.old.spare ≤ self.new.spare }
    {
        if let Some(at) = self.moments.swap_remove(&page) {
            take_out(&mut self.order, at, page);
        }
    }

    /// Gives a page this moment, or none.
    pub fn put(&mut self, page: PageId, at: Option<Moment>)
        requires spare { 1 ≤ self.old.spare }
        ensures entries { self.new.entries ≡ with_option page at self.old.entries }
        ensures spare { self.old.spare ≤ self.new.spare + 1 }
    {
        match at {
            Some(at) => self.set(page, at),
            None => self.clear(page),
        }
    }

    /// Gives a page that has no moment this one.
    fn add(&mut self, page: PageId, at: Moment)
        requires absent { moment_in self.old.entries page ≡ None }
        requires spare { 1 ≤ self.old.spare }
        ensures entries { self.new.entries ≡ put_in (at, page) self.old.entries }
        ensures spare { self.old.spare ≤ self.new.spare + 1 }
    {
        put_at(&mut self.order, at, page);
        put_moment(&mut self.moments, page, at);
    }
}

/// Puts a page's moment into a map that has room for it.
fn put_moment(moments: &mut IndexMap<PageId, Moment>, page: PageId, at: Moment)
    requires { 0 < spare moments.old }
    ensures updates { (other : ℕ) → lookup (nat_eq other) moments.new.entries
        ≡ (if nat_eq page other then Some at else lookup (nat_eq other) moments.old.entries) }
    ensures spare { spare moments.old ≤ spare moments.new + 1 }
{
    match moments.insert(page, at) {
        Ok(_) => {}
        Err(_) => unreachable!(),
    }
}
