//! Where in their order the desks stand.
ghost use Rattle.std.specs.Prelude.{◌≡◌, None, Some, is_some, if◌then◌else◌, slice_get};
ghost use Rattle.std.specs.Option.{option_copied};
ghost use Rattle.desks.specs.Desks.{PagesRise, desk_in, text_in, place_in};

use site_types::{DeskRow, PageId, UserId};

/// The desk on a page, or `None` exactly if there is none. One search.
pub(crate) fn desk_on(rows: &[DeskRow], page: PageId) -> Option<&DeskRow>
    requires { PagesRise rows.now }
    ensures { option_copied result ≡ desk_in page rows.now }
{
    match row_at(rows, place_of(rows, page)) {
        Some(row) => { if row.page == page { Some(row) } else { None } }
        None => None,
    }
}

/// The place of the desk on a page, or `None` exactly if there is none. One search.
pub(crate) fn find(rows: &[DeskRow], page: PageId) -> Option<usize>
    requires { PagesRise rows.now }
    ensures { result
        ≡ (if is_some (desk_in page rows.now) then Some (place_in page rows.now) else None) }
{
    let place = place_of(rows, page);
    match row_at(rows, place) {
        Some(row) => { if row.page == page { Some(place) } else { None } }
        None => None,
    }
}

/// Whether the desk at the page's place is the user's on the page.
pub(crate) fn is_own_at(rows: &[DeskRow], place: usize, page: PageId, user: UserId) -> bool
    requires rise { PagesRise rows.now }
    requires at { place ≡ place_in page rows.now }
    ensures { result ≡ is_some (text_in page user rows.now) }
{
    match row_at(rows, place) {
        Some(row) => {
            if row.page == page {
                row.user == user
            } else {
                false
            }
        }
        None => false,
    }
}

/// The number of desks on pages below this one.
pub(crate) fn place_of(rows: &[DeskRow], page: PageId) -> usize
    requires { PagesRise rows.now }
    ensures { result ≡ place_in page rows.now }
{
    rows.partition_point(|row| row.page < page)
}

/// The desk at a place, or `None` exactly at or past their number.
pub(crate) fn row_at(rows: &[DeskRow], place: usize) -> Option<&DeskRow>
    ensures { option_copied result ≡ slice_get rows.now place }
{
    rows.get(place)
}
