//! Which pages are live.
ghost use Rattle.std.specs.Prelude.{◌≡◌, ◌≤◌, ◌+◌, IsSome, not, false, length, take, drop, slice_get};
ghost use Rattle.std.specs.List.{list_all};
ghost use Rattle.std.specs.Option.{option_map_or};
ghost use Rattle.page_tree.specs.Tree.{Forest};
ghost use Rattle.page_tree.specs.Rows.{rows_of, row_with};
ghost use Rattle.site_types.specs.declared.body.Body.{Body as PageBody};
ghost use Rattle.site_model.specs.Views as views;
ghost use Rattle.site_part.specs.Live.{is_live_in, is_public_in};

use page_store::Rows;
use site_types::{Body, PageId};

/// Whether a page or one below it is live. It costs a look at each of them, and at the source of each
/// alias among them.
pub(crate) fn any_live(rows: &Rows, page: PageId) -> bool
    requires { IsSome (row_with page rows.now.pages) }
    ensures { (tree : Forest PageBody) → rows.now.pages ≡ rows_of tree
        → result ≡ views.any_live tree page }
{
    let _len = rows.len();
    let Some((place, count)) = rows.range_of(page) else {
        unreachable!();
    };
    !are_hidden(rows, place, count)
}

/// Whether a page is live. Two look-ups at most.
pub fn is_live_page(rows: &Rows, page: PageId) -> bool
    ensures { (tree : Forest PageBody) → rows.now.pages ≡ rows_of tree
        → result ≡ views.is_live_page tree page }
{
    let _len = rows.len();
    match rows.row(page) {
        Some(row) => is_live(rows, &row.body),
        None => false,
    }
}

/// Whether none of so many pages from a place on is live.
fn are_hidden(rows: &Rows, place: usize, count: usize) -> bool
    requires { place + count ≤ length rows.now.pages }
    ensures { result ≡ list_all (λ row. not (is_live_in rows.now.pages row.body))
        (take count (drop place rows.now.pages)) }
{
    let _len = rows.len();
    for done in 0..count {
        if !is_hidden_at(rows, place + done) {
            return false;
        }
    }
    true
}

/// Whether there is a page at a place, which is not live.
fn is_hidden_at(rows: &Rows, place: usize) -> bool
    ensures { result
        ≡ option_map_or (λ row. not (is_live_in rows.now.pages row.body))
        (slice_get rows.now.pages place) false }
{
    let _len = rows.len();
    let Some(page) = rows.at(place) else {
        return false;
    };
    let Some(row) = rows.row(page) else {
        unreachable!();
    };
    !is_live(rows, &row.body)
}

/// Whether a page of which this is kept is live: an alias is live if its source is.
fn is_live(rows: &Rows, body: &Body) -> bool
    ensures { result ≡ is_live_in rows.now.pages body.now }
{
    match body.source {
        None => body.live,
        Some(source) => is_public(rows, source),
    }
}

/// Whether a regular page is there and live. One look-up.
fn is_public(rows: &Rows, page: PageId) -> bool
    ensures { result ≡ is_public_in rows.now.pages page }
{
    match rows.row(page) {
        Some(row) => row.body.live,
        None => false,
    }
}
