//! What is kept of a page, and the moments that it has in the two time tables.
ghost use Rattle.std.specs.Prelude.{◌≡◌, ◌+◌, ◌≤◌, Some, IsSome};
ghost use Rattle.std.specs.Option.{option_copied};
ghost use Rattle.page_tree.specs.Rows.{row_with};
ghost use Rattle.page_store.specs.Changes.{with_body};
ghost use Rattle.time_table.specs.Table.{with_option};
ghost use Rattle.publishing.specs.Times.{body_in, named, expiry_of, go_live_of, AreTimed};

use page_store::Rows;
use revision_shelf::Shelf;
use site_types::{Body, Moment, PageId, Revision, RevisionId};
use time_table::Times;

/// Gives a page these fields, with the moments that they have in the two tables. A look-up for the
/// page and one for each of two revisions, and two changes of a table.
pub fn put_body(rows: &mut Rows, times: &mut Times, shelf: &Shelf, page: PageId, body: Body)
    requires there { IsSome (row_with page rows.old.pages) }
    requires expiries { 1 ≤ times.old.expiries.spare }
    requires go_lives { 1 ≤ times.old.go_lives.spare }
    ensures pages { rows.new.pages ≡ with_body page body rows.old.pages }
    ensures spare { rows.new.spare ≡ rows.old.spare }
    ensures expiry { times.new.expiries.entries
        ≡ with_option page (expiry_of shelf.now.revisions body) times.old.expiries.entries }
    ensures go_live { times.new.go_lives.entries
        ≡ with_option page (go_live_of shelf.now.revisions body) times.old.go_lives.entries }
    ensures timed { AreTimed times.old rows.old.pages shelf.now.revisions
        → AreTimed times.new rows.new.pages shelf.now.revisions }
    ensures expiries_spare { times.old.expiries.spare ≤ times.new.expiries.spare + 1 }
    ensures go_lives_spare { times.old.go_lives.spare ≤ times.new.go_lives.spare + 1 }
{
    times.expiries.put(page, expiry(shelf, &body));
    times.go_lives.put(page, go_live(shelf, &body));
    rows.set_body(page, body);
}

/// When a page with these fields stops being live, if ever.
pub(crate) fn expiry(shelf: &Shelf, body: &Body) -> Option<Moment>
    ensures { result ≡ expiry_of shelf.now.revisions body.now }
{
    if !body.live {
        return None;
    }
    match find(shelf, body.shown) {
        Some(revision) => revision.expire,
        None => None,
    }
}

/// When the scheduled revision of a page with these fields goes live, if there is one.
pub(crate) fn go_live(shelf: &Shelf, body: &Body) -> Option<Moment>
    ensures { result ≡ go_live_of shelf.now.revisions body.now }
{
    match find(shelf, body.scheduled) {
        Some(revision) => revision.go_live,
        None => None,
    }
}

/// The revision with the id, where one is named and is there.
pub(crate) fn find(shelf: &Shelf, id: Option<RevisionId>) -> Option<&Revision>
    ensures { option_copied result ≡ named shelf.now.revisions id }
{
    match id {
        Some(id) => shelf.get(id),
        None => None,
    }
}

/// What is kept of a page. One look-up.
pub(crate) fn body_of(rows: &Rows, page: PageId) -> Body
    requires { IsSome (row_with page rows.now.pages) }
    ensures { body_in page rows.now.pages ≡ Some result }
{
    match rows.row(page) {
        Some(row) => row.body,
        None => unreachable!(),
    }
}
