//! Looking desks up by page, by user and by place.
ghost use Rattle.std.specs.Prelude.{◌≡◌, length, slice_get};
ghost use Rattle.std.specs.Option.{option_copied, option_map};
ghost use Rattle.desks.specs.Desks.{PagesRise, desk_of, user_in, text_in};

use crate::DeskPart;
use crate::place::{desk_on, row_at};
use site_types::{Content, DeskRow, PageId, UserId};

impl DeskPart {
    /// The number of desks.
    pub fn len(&self) -> usize
        ensures value { result ≡ length self.now.desks }
        ensures rises { PagesRise self.now.desks }
    {
        self.rows.len()
    }

    /// The user whose desk is on the page, or `None` exactly if there is no desk. One search.
    pub fn user_at(&self, page: PageId) -> Option<UserId>
        ensures { result ≡ user_in page self.now.desks }
    {
        match desk_on(&self.rows, page) {
            Some(row) => Some(row.user),
            None => None,
        }
    }

    /// The text of the user's desk on the page, or `None` exactly if the user has no desk there. One
    /// search.
    pub fn text(&self, page: PageId, user: UserId) -> Option<&Content>
        ensures { option_copied result ≡ text_in page user self.now.desks }
    {
        own_text(&self.rows, page, user)
    }

    /// The page, the user and the text of the desk at a place, rising by page, or `None` exactly at
    /// or past their number.
    pub fn at(&self, place: usize) -> Option<(PageId, UserId, &Content)>
        ensures { option_map (λ desk. desk_of desk.0 desk.1 desk.2.now) result
            ≡ slice_get self.now.desks place }
    {
        match row_at(&self.rows, place) {
            Some(row) => Some((row.page, row.user, &row.content)),
            None => None,
        }
    }
}

/// The text of the user's desk on the page, or `None` exactly if the user has no desk there.
fn own_text(rows: &[DeskRow], page: PageId, user: UserId) -> Option<&Content>
    requires { PagesRise rows.now }
    ensures { option_copied result ≡ text_in page user rows.now }
{
    match desk_on(rows, page) {
        Some(row) => {
            if row.user == user {
                Some(&row.content)
            } else {
                None
            }
        }
        None => None,
    }
}
