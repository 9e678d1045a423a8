//! Which pages go with a page.
ghost use Rattle.std.specs.Prelude.{◌≡◌, IsSome};
ghost use Rattle.page_tree.specs.Tree.{Forest, has_page, node_of};
ghost use Rattle.page_tree.specs.Rows.{rows_of, row_with};
ghost use Rattle.site_types.specs.declared.body.Body.{Body as PageBody};

use page_store::Rows;
use path_moves::leads_into_itself;
use site_types::PageId;

/// Whether a page goes with another: it is that page, or lies below it. Two look-ups and a comparison
/// of paths.
pub fn goes(rows: &Rows, page: PageId, other: PageId) -> bool
    requires { IsSome (row_with page rows.now.pages) }
    ensures { (tree : Forest PageBody) → rows.now.pages ≡ rows_of tree
        → result ≡ has_page other (node_of page tree) }
{
    let _len = rows.len();
    match rows.row(other) {
        Some(_row) => leads_into_itself(rows, page, other),
        None => false,
    }
}
