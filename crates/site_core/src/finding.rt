//! Live pages by their URLs.
ghost use Rattle.std.specs.Prelude.{◌≡◌, Some};
ghost use Rattle.page_tree.specs.Tree.{Forest};
ghost use Rattle.page_tree.specs.Rows.{Row, rows_of, row_with};
ghost use Rattle.site_types.specs.declared.body.Body.{Body as PageBody};
ghost use Rattle.slug_urls.specs.Urls.{HaveSlugs};
ghost use Rattle.site_model.specs.Views as views;
ghost use Rattle.site_model.specs.Views.{body_of};
ghost use Rattle.site_core.specs.Finding.{live_at};

use page_store::Rows;
use site_types::{Body, PageId};
use slug_urls::walk;

/// The live page with this URL, or `None` exactly where there is none.
///
/// It costs one look-up for each slug of the URL, and one or two for the page.
pub(crate) fn find_live(rows: &Rows, url: &[u8]) -> Option<PageId>
    ensures { (tree : Forest PageBody) → rows.now.pages ≡ rows_of tree → HaveSlugs rows.now.pages
        → result ≡ live_at tree url.now }
{
    let _len = rows.len();
    let Some(page) = walk(rows, url) else {
        return None;
    };
    if is_live(rows, page) {
        Some(page)
    } else {
        None
    }
}

/// Whether a page that is there is live: an alias is live where its source is. One or two look-ups.
pub(crate) fn is_live(rows: &Rows, page: PageId) -> bool
    ensures { (tree : Forest PageBody) (row : Row PageBody) → rows.now.pages ≡ rows_of tree
        → row_with page rows.now.pages ≡ Some row → result ≡ views.is_live tree row.body }
{
    match rows.row(page) {
        None => false,
        Some(row) => is_live_by(rows, &row.body),
    }
}

/// Whether a page of which this is kept is live: an alias is live where its source is. At most one
/// look-up.
pub(crate) fn is_live_by(rows: &Rows, body: &Body) -> bool
    ensures { (tree : Forest PageBody) → rows.now.pages ≡ rows_of tree
        → result ≡ views.is_live tree body.now }
{
    match body.source {
        None => body.live,
        Some(source) => is_public(rows, source),
    }
}

/// Whether a page is there and is live itself.
fn is_public(rows: &Rows, page: PageId) -> bool
    ensures { (tree : Forest PageBody) → rows.now.pages ≡ rows_of tree
        → result ≡ views.is_public (body_of tree page) }
{
    match rows.row(page) {
        None => false,
        Some(row) => row.body.live,
    }
}
