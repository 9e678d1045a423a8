//! The texts of the open desks, in sixteen parts.
ghost use Rattle.std.specs.Prelude.{◌≡◌, ◌≤◌, ◌==◌, ℕ, Some, None, set, OnOk, IfOk, Ok, Err, is_some, if◌then◌else◌};
ghost use Rattle.std.specs.Option.{option_copied, option_map};
ghost use Rattle.desks.specs.Desks.{desk_of, text_in, rewritten, with_desk, with_text, without};
ghost use Rattle.desks.specs.Laws.{own_text};
ghost use Rattle.site_model.specs.Parts.{stripe_of};
ghost use Rattle.site_core.specs.Texts.{list_of, kept_on, room_for, CanOpen};

use desks::DeskPart;
use site_types::{Content, NoMemory, PageId, UserId};
use std::alloc::Global;
use std::marker::Model;

/// How many parts there are: one for each stripe of pages.
const STRIPES: usize = 16;

/// The open desks with their texts, in sixteen parts: the part of a page is its number modulo 16.
///
/// A page has at most one desk. A desk that is opened, saved or shut touches the part of its page
/// alone.
#[derive(Debug, Drop)]
pub(crate) struct DeskParts {
    parts: Vec<DeskPart>,
}

impl Model for DeskParts {
    ghost use Rattle.std.specs.Prelude.{◌≡◌, map, length};
    ghost use Rattle.site_core.specs.Texts.{DeskLists, InStripes};

    ghost Value = { DeskLists };

    ghost view = { λ desks. record {
      lists = map (λ part. part.desks) desks.parts.items;
      spares = map (λ part. part.spare) desks.parts.items;
    } };

    ghost invariant = { λ desks. (length desks.parts.items ≡ 16)
        × InStripes (map (λ part. part.desks) desks.parts.items) };
}

impl DeskParts {
    /// No desk.
    pub(crate) fn new(alloc: Global) -> Result<DeskParts, NoMemory>
        ensures { IfOk result (λ desks. (page : ℕ) → kept_on page desks.lists ≡ None) }
    {
        let mut parts = Vec::with_capacity(alloc, STRIPES)?;
        for _ in 0..STRIPES {
            parts.push(DeskPart::new(alloc))?;
        }
        Ok(DeskParts { parts })
    }

    /// Makes room for one desk more in the part of a page. The room never shrinks, if memory runs out
    /// either.
    ///
    /// It costs nothing if the room is there, and otherwise a copy of the part's entries, without the
    /// texts.
    pub(crate) fn reserve(&mut self, page: PageId) -> Result<(), NoMemory>
        ensures lists { self.new.lists ≡ self.old.lists }
        ensures ok { OnOk result (1 ≤ room_for page self.new.spares) }
    {
        let at = stripe_of(page);
        self.parts[at].reserve(1)
    }

    /// Opens a desk on a page that has none, with a text, at its place in the part of the page.
    ///
    /// One search; it moves the small entry of each desk on a greater page of the part.
    pub(crate) fn open(&mut self, page: PageId, user: UserId, text: Content)
        requires { CanOpen self.old page }
        ensures lists { self.new.lists ≡ set self.old.lists (stripe_of page)
            (with_desk (desk_of page user text) (list_of (stripe_of page) self.old.lists)) }
        ensures kept { (other : ℕ) → kept_on other self.new.lists
            ≡ (if page == other then Some (desk_of page user text) else kept_on other self.old.lists) }
    {
        let at = stripe_of(page);
        self.parts[at].open(page, user, text);
    }

    /// Saves another text at the user's desk on the page. Gives the text back exactly if the user has
    /// no desk there; then nothing changes. One search.
    pub(crate) fn save(&mut self, page: PageId, user: UserId, text: Content) -> Result<(), Content>
        ensures outcome { result
            ≡ (if is_some (text_in page user (list_of (stripe_of page) self.old.lists)) then Ok tt
            else Err text) }
        ensures lists { self.new.lists ≡ set self.old.lists (stripe_of page)
            (with_text page user text (list_of (stripe_of page) self.old.lists)) }
        ensures kept { (other : ℕ) → kept_on other self.new.lists
            ≡ option_map (rewritten page user text) (kept_on other self.old.lists) }
    {
        let at = stripe_of(page);
        self.parts[at].save(page, user, text)
    }

    /// Shuts the desk on the page, and answers whether there was one.
    ///
    /// One search; it moves the small entry of each desk on a greater page of the part.
    pub(crate) fn shut(&mut self, page: PageId) -> bool
        ensures was_there { result ≡ is_some (kept_on page self.old.lists) }
        ensures lists { self.new.lists ≡ set self.old.lists (stripe_of page)
            (without page (list_of (stripe_of page) self.old.lists)) }
        ensures kept { (other : ℕ) → kept_on other self.new.lists
            ≡ (if page == other then None else kept_on other self.old.lists) }
    {
        let at = stripe_of(page);
        self.parts[at].shut(page)
    }

    /// The text of the user's desk on the page, or `None` exactly if the user has no desk there. One
    /// search.
    pub(crate) fn text(&self, page: PageId, user: UserId) -> Option<&Content>
        ensures { option_copied result ≡ own_text user (kept_on page self.now.lists) }
    {
        let part = &self.parts[stripe_of(page)];
        let _len = part.len();
        part.text(page, user)
    }
}

/// The part of a page.
fn stripe_of(page: PageId) -> usize
    ensures { result ≡ stripe_of page }
{
    page.get() as usize % STRIPES
}
