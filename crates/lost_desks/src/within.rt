//! Whether a page lies below another.
ghost use Rattle.std.specs.Prelude.{◌≡◌, IsSome};
ghost use Rattle.page_tree.specs.Tree.{Forest};
ghost use Rattle.page_tree.specs.Rows.{rows_of, row_with};
ghost use Rattle.site_types.specs.declared.body.Body.{Body as PageBody};
ghost use Rattle.site_model.specs.Losing as losing;

use page_store::Rows;
use site_types::PageId;

/// Whether a page is this one, or lies below it: a look-up for each page on the way up.
pub(crate) fn is_within(rows: &Rows, page: PageId, inner: PageId) -> bool
    ensures { (tree : Forest PageBody) → rows.now.pages ≡ rows_of tree
        → result ≡ losing.is_within tree page inner }
{
    match rows.row(inner) {
        Some(_row) => is_on_way(rows, page, inner),
        None => false,
    }
}

/// Whether a page is on the way from the root to one that is there.
fn is_on_way(rows: &Rows, page: PageId, inner: PageId) -> bool
    requires { IsSome (row_with inner rows.now.pages) }
    ensures { (tree : Forest PageBody) → rows.now.pages ≡ rows_of tree
        → result ≡ losing.is_within tree page inner }
{
    let _len = rows.len();
    if inner == page {
        return true;
    }
    match rows.parent(inner) {
        Some(parent) => is_on_way(rows, page, parent),
        None => false,
    }
}
