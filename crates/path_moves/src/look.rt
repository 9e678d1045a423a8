//! Looking up the paths of pages.
ghost use Rattle.std.specs.Prelude.{◌≡◌, Some};
ghost use Rattle.std.specs.Option.{option_map};
ghost use Rattle.page_tree.specs.Rows.{row_with};
ghost use Rattle.page_store.specs.Pages.{Page, ArePages};
ghost use Rattle.tree_rows.specs.Subtree.{last_of, subtree_rows};

use page_store::Rows;
use site_types::PageId;
use step_path::Path;

/// The path of a page, or `None` exactly where there is no such page. One look-up.
pub(crate) fn path_of(rows: &Rows, page: PageId) -> Option<Path>
    ensures value { result ≡ option_map (λ row. row.path) (row_with page rows.now.pages) }
    ensures pages { ArePages rows.now.pages }
{
    let _len = rows.len();
    let Some(row) = rows.row(page) else {
        return None;
    };
    let Some(path) = Path::read(row.path.as_slice()) else {
        unreachable!();
    };
    Some(path)
}

/// The path of the last page, depth first, of a page and all below it.
///
/// It costs as much as `range_of` and two look-ups more.
pub(crate) fn last_path(rows: &Rows, page: PageId) -> Option<Path>
    ensures { (row : Page) → row_with page rows.now.pages ≡ Some row → result
        ≡ option_map (λ last. last.path) (last_of (subtree_rows row.path rows.now.pages)) }
{
    let _len = rows.len();
    let Some((place, count)) = rows.range_of(page) else {
        return None;
    };
    let Some(last) = rows.at(place + count - 1) else {
        return None;
    };
    path_of(rows, last)
}
