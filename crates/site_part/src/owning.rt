//! Who owns a page and the pages below it, and whether there are any.
ghost use Rattle.std.specs.Prelude.{◌≡◌, ◌==◌, ◌≤◌, ◌+◌, Some, IsSome, false, length, take, drop, slice_get};
ghost use Rattle.std.specs.List.{list_all};
ghost use Rattle.std.specs.Option.{option_map_or};
ghost use Rattle.page_tree.specs.Tree.{Forest};
ghost use Rattle.page_tree.specs.Rows.{rows_of, row_with};
ghost use Rattle.site_types.specs.declared.body.Body.{Body as PageBody};
ghost use Rattle.site_model.specs.Views as views;

use page_store::Rows;
use site_types::{Body, PageId, UserId};

/// Whether a user owns a page and every page below it. It costs a look at each of them.
pub(crate) fn owns_all(rows: &Rows, user: UserId, page: PageId) -> bool
    requires { IsSome (row_with page rows.now.pages) }
    ensures { (tree : Forest PageBody) → rows.now.pages ≡ rows_of tree
        → result ≡ views.owns_all tree user page }
{
    let _len = rows.len();
    let Some((place, count)) = rows.range_of(page) else {
        unreachable!();
    };
    own_rows(rows, user, place, count)
}

/// Whether a user owns so many pages from a place on.
fn own_rows(rows: &Rows, user: UserId, place: usize, count: usize) -> bool
    requires { place + count ≤ length rows.now.pages }
    ensures { result ≡ list_all (λ row. row.body.owner == user)
        (take count (drop place rows.now.pages)) }
{
    let _len = rows.len();
    for done in 0..count {
        if !owns_at(rows, user, place + done) {
            return false;
        }
    }
    true
}

/// Whether there is a page at a place, which a user owns.
fn owns_at(rows: &Rows, user: UserId, place: usize) -> bool
    ensures { result
        ≡ option_map_or (λ row. row.body.owner == user) (slice_get rows.now.pages place) false }
{
    let _len = rows.len();
    let Some(page) = rows.at(place) else {
        return false;
    };
    let Some(row) = rows.row(page) else {
        unreachable!();
    };
    row.body.owner == user
}

/// What is kept of a page. One look-up.
pub(crate) fn body_at(rows: &Rows, page: PageId) -> Body
    requires { IsSome (row_with page rows.now.pages) }
    ensures { (tree : Forest PageBody) → rows.now.pages ≡ rows_of tree
        → views.body_of tree page ≡ Some result }
{
    let Some(row) = rows.row(page) else {
        unreachable!();
    };
    row.body
}

/// Whether there are pages below a page. One look-up.
pub(crate) fn has_kids(rows: &Rows, page: PageId) -> bool
    requires { IsSome (row_with page rows.now.pages) }
    ensures { (tree : Forest PageBody) → rows.now.pages ≡ rows_of tree
        → result ≡ views.has_kids tree page }
{
    let _len = rows.len();
    let Some(row) = rows.row(page) else {
        unreachable!();
    };
    row.numchild != 0
}
