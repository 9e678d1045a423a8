//! What a copy of a page copies.
ghost use Rattle.std.specs.Prelude.{◌≡◌, ◌+◌, ◌≤◌, ◌<◌, ℕ, None, IfOk, IsSome, Some, length, map, take, drop, slice_get};
ghost use Rattle.std.specs.List.{AllByRecursion};
ghost use Rattle.std.specs.Option.{IfSome, option_map};
ghost use Rattle.page_tree.specs.Rows.{rows_of, row_with};
ghost use Rattle.page_tree.specs.Tree.{node_of};
ghost use Rattle.site_model.specs.World as worlds;
ghost use Rattle.site_model.specs.Copies.{to_copy};
ghost use Rattle.page_copies.specs.Contents.{StandFor};
ghost use Rattle.page_copies.specs.Copied.{IsSource, AreCopied, GetsContent, copied_pages, copied_pair};

use crate::content::copied_content;
use crate::plan::CopyPlan;
use page_store::Rows;
use revision_shelf::Shelf;
use site_types::{Content, NoMemory, PageId};
use std::alloc::Global;

/// The pages that a copy of a page copies, depth first, each with the content that its copy gets:
/// the page alone, or with all below it.
///
/// It costs a few look-ups and a copy of a content for each of them.
pub fn plan_copy(
    alloc: Global,
    rows: &Rows,
    shelf: &Shelf,
    page: PageId,
    deep: bool,
) -> Result<CopyPlan, NoMemory>
    requires { (part : worlds.TreePart) × StandFor rows.now.pages shelf.now.revisions part
        × IsSource part page }
    ensures { (part : worlds.TreePart) → StandFor rows.now.pages shelf.now.revisions part
        → IsSource part page
        → IfOk result (λ plan. plan ≡ copied_pages part (to_copy deep (node_of page part.tree))) }
{
    let _len = rows.len();
    let Some((place, count)) = copied_range(rows, page, deep) else {
        unreachable!();
    };
    copied_between(alloc, rows, shelf, place, count)
}

/// The place of a page and the number of rows that a copy of it copies, or `None` exactly if there
/// is no such page.
///
/// It costs as much as `Rows::range_of`.
pub fn copied_range(rows: &Rows, page: PageId, deep: bool) -> Option<(usize, usize)>
    ensures there { IsSome (row_with page rows.now.pages) → IsSome result }
    ensures copied { (part : worlds.TreePart) → rows.now.pages ≡ rows_of part.tree
        → IfSome result (λ range. AreCopied rows.now.pages part.tree page deep range.0 range.1) }
{
    let _len = rows.len();
    let Some((place, count)) = rows.range_of(page) else {
        return None;
    };
    if deep {
        Some((place, count))
    } else {
        Some((place, 1))
    }
}

/// The pages of so many rows from a place on, each with the content that its copy gets.
fn copied_between(
    alloc: Global,
    rows: &Rows,
    shelf: &Shelf,
    place: usize,
    count: usize,
) -> Result<CopyPlan, NoMemory>
    requires within { place + count ≤ length rows.now.pages }
    requires there { (part : worlds.TreePart) × StandFor rows.now.pages shelf.now.revisions part
        × AllByRecursion (GetsContent part) (take count (drop place rows.now.pages)) }
    ensures { (part : worlds.TreePart) → StandFor rows.now.pages shelf.now.revisions part
        → IfOk result
        (λ plan. plan ≡ map (copied_pair part) (take count (drop place rows.now.pages))) }
{
    let _len = rows.len();
    let mut pages = Vec::with_capacity(alloc, count)?;
    for done in 0..count {
        let pair = copied_at(alloc, rows, shelf, place + done)?;
        pages.push(pair)?;
    }
    Ok(CopyPlan::from_vec(pages))
}

/// The page at a place with the content that its copy gets.
fn copied_at(
    alloc: Global,
    rows: &Rows,
    shelf: &Shelf,
    place: usize,
) -> Result<(PageId, Content), NoMemory>
    requires within { place < length rows.now.pages }
    requires there { (part : worlds.TreePart) × StandFor rows.now.pages shelf.now.revisions part
        × IfSome (slice_get rows.now.pages place) (GetsContent part) }
    ensures { (part : worlds.TreePart) → StandFor rows.now.pages shelf.now.revisions part
        → IfOk result
        (λ pair. Some pair ≡ option_map (copied_pair part) (slice_get rows.now.pages place)) }
{
    let _len = rows.len();
    let Some(page) = rows.at(place) else {
        unreachable!();
    };
    let Some(row) = rows.row(page) else {
        unreachable!();
    };
    let Some(content) = copied_content(rows, shelf, &row.body) else {
        unreachable!();
    };
    let content = content.copy(alloc)?;
    Ok((page, content))
}
