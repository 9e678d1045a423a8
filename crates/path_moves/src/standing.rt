//! How a page stands among the rows.
ghost use Rattle.std.specs.Prelude.{◌≡◌, ◌+◌, ◌<◌, ◌≤◌, Some, IsSome, take, drop, length, slice_get};
ghost use Rattle.std.specs.Option.{option_map};
ghost use Rattle.std.specs.List.{AllByRecursion};
ghost use Rattle.step_path.specs.Path.{BeginsWith};
ghost use Rattle.page_tree.specs.Rows.{row_with};
ghost use Rattle.page_store.specs.Pages.{Page, ArePages};
ghost use Rattle.path_moves.specs.Spots.{IsStanding};

use crate::look::path_of;
use page_store::Rows;
use site_types::PageId;
use step_path::Path;

/// The path of a page, its place in path order, and the number of rows of its subtree.
#[derive(Drop)]
pub(crate) struct Standing {
    pub(crate) path: Path,
    pub(crate) place: usize,
    pub(crate) count: usize,
}

/// How a page stands. It costs as much as `range_of` and a look-up.
pub(crate) fn find(rows: &Rows, page: PageId) -> Standing
    requires there { IsSome (row_with page rows.now.pages) }
    ensures pages { ArePages rows.now.pages }
    ensures some { 0 < result.count }
    ensures within { result.place + result.count ≤ length rows.now.pages }
    ensures fits { result.place + result.count < 18446744073709551616 }
    ensures below { AllByRecursion (λ row. BeginsWith result.path row.path)
        (take result.count (drop result.place rows.now.pages)) }
    ensures standing { (row : Page) → row_with page rows.now.pages ≡ Some row
        → IsStanding rows.now.pages row result }
{
    let _len = rows.len();
    let Some(path) = path_of(rows, page) else {
        unreachable!();
    };
    let Some((place, count)) = rows.range_of(page) else {
        unreachable!();
    };
    Standing { path, place, count }
}

/// The page at a place with its path, or `None` exactly at or past the number of pages.
pub(crate) fn row_at(rows: &Rows, place: usize) -> Option<(PageId, Path)>
    ensures { result ≡ option_map (λ row. (row.id, row.path)) (slice_get rows.now.pages place) }
{
    let Some(page) = rows.at(place) else {
        return None;
    };
    let Some(path) = path_of(rows, page) else {
        unreachable!();
    };
    Some((page, path))
}
