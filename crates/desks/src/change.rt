//! Making room, and opening, saving and shutting desks.
ghost use Rattle.std.specs.Prelude.{◌≡◌, ◌+◌, ◌<◌, ◌≤◌, None, Ok, Err, [], OnOk, is_some, if◌then◌else◌};
ghost use Rattle.std.specs.Prelude.{vec_len, vec_capacity};
ghost use Rattle.desks.specs.Desks.{PagesRise, desk_of, desk_in, user_in, text_in};
ghost use Rattle.desks.specs.Desks.{with_desk, with_text, without};

use crate::DeskPart;
use crate::place::{find, is_own_at, place_of};
use site_types::{Content, DeskRow, NoMemory, PageId, UserId};
use std::alloc::Global;

impl DeskPart {
    /// No desks and no room. It takes no memory.
    pub fn new(alloc: Global) -> DeskPart
        ensures desks { result.desks ≡ [] }
        ensures spare { result.spare ≡ 0 }
    {
        DeskPart {
            rows: Vec::new(alloc),
        }
    }

    /// Makes room for `more` desks, so that as many can be opened without memory. The room never
    /// shrinks, if memory runs out either.
    ///
    /// It costs nothing if the room is there, and otherwise a copy of the entries, without the texts.
    pub fn reserve(&mut self, more: usize) -> Result<(), NoMemory>
        ensures desks { self.new.desks ≡ self.old.desks }
        ensures ok { OnOk result (more ≤ self.new.spare) }
        ensures spare { self.old.spare ≤ self.new.spare }
    {
        self.rows.reserve(more)?;
        Ok(())
    }

    /// Opens a desk on a page that has none, with a text, at its place by page.
    ///
    /// One search; it moves the entry of each desk on a greater page.
    pub fn open(&mut self, page: PageId, user: UserId, text: Content)
        requires free { user_in page self.old.desks ≡ None }
        requires spare { 1 ≤ self.old.spare }
        ensures desks { self.new.desks ≡ with_desk (desk_of page user text) self.old.desks }
        ensures spare { self.old.spare ≤ self.new.spare + 1 }
    {
        let row = DeskRow {
            page,
            user,
            content: text,
        };
        put(&mut self.rows, row);
    }

    /// Saves another text at the user's desk on the page. Gives the text back exactly if the user
    /// has no desk there; then nothing changes. One search.
    pub fn save(&mut self, page: PageId, user: UserId, text: Content) -> Result<(), Content>
        ensures outcome { result
            ≡ (if is_some (text_in page user self.old.desks) then Ok tt else Err text) }
        ensures desks { self.new.desks ≡ with_text page user text self.old.desks }
        ensures spare { self.new.spare ≡ self.old.spare }
    {
        write(&mut self.rows, page, user, text)
    }

    /// Shuts the desk on the page, and answers whether there was one.
    ///
    /// One search; it moves the entry of each desk on a greater page.
    pub fn shut(&mut self, page: PageId) -> bool
        ensures was_there { result ≡ is_some (user_in page self.old.desks) }
        ensures desks { self.new.desks ≡ without page self.old.desks }
        ensures spare { self.old.spare ≤ self.new.spare }
    {
        take_out(&mut self.rows, page)
    }
}

/// Puts a desk in at its place by page, where its page has none and there is room.
fn put(rows: &mut Vec<DeskRow>, row: DeskRow)
    requires rise { PagesRise rows.old.items }
    requires free { desk_in row.page rows.old.items ≡ None }
    requires room { vec_len rows.old < vec_capacity rows.old }
    ensures items { rows.new.items ≡ with_desk row rows.old.items }
    ensures rise { PagesRise rows.new.items }
    ensures len { vec_len rows.new ≡ vec_len rows.old + 1 }
    ensures capacity { vec_capacity rows.old ≤ vec_capacity rows.new }
{
    let place = place_of(rows, row.page);
    match rows.insert(place, row) {
        Ok(()) => {}
        Err(_) => unreachable!(),
    }
}

/// Writes another text at the user's desk on the page, or gives the text back.
fn write(rows: &mut Vec<DeskRow>, page: PageId, user: UserId, text: Content) -> Result<(), Content>
    requires { PagesRise rows.old.items }
    ensures outcome { result
        ≡ (if is_some (text_in page user rows.old.items) then Ok tt else Err text) }
    ensures items { rows.new.items ≡ with_text page user text rows.old.items }
    ensures rise { PagesRise rows.new.items }
    ensures len { vec_len rows.new ≡ vec_len rows.old }
    ensures capacity { vec_capacity rows.new ≡ vec_capacity rows.old }
{
    let place = place_of(rows, page);
    if is_own_at(rows, place, page, user) {
        rows[place].content = text;
        Ok(())
    } else {
        Err(text)
    }
}

/// Takes the desk on the page out, and answers whether there was one.
fn take_out(rows: &mut Vec<DeskRow>, page: PageId) -> bool
    requires { PagesRise rows.old.items }
    ensures was_there { result ≡ is_some (user_in page rows.old.items) }
    ensures items { rows.new.items ≡ without page rows.old.items }
    ensures rise { PagesRise rows.new.items }
    ensures len { vec_len rows.new ≤ vec_len rows.old }
    ensures capacity { vec_capacity rows.new ≡ vec_capacity rows.old }
{
    match find(rows, page) {
        Some(place) => {
            rows.remove(place);
            true
        }
        None => false,
    }
}
