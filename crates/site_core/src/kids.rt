//! The live kids of pages.
ghost use Rattle.std.specs.Prelude.{◌≡◌, IfOk};
ghost use Rattle.page_tree.specs.Tree.{Forest};
ghost use Rattle.page_tree.specs.Rows.{rows_of, row_with};
ghost use Rattle.site_types.specs.declared.body.Body.{Body as PageBody};
ghost use Rattle.site_model.specs.World.{World};
ghost use Rattle.sight_model.specs.Cards.{kids_shown};
ghost use Rattle.site_core.specs.Kids.{told_of};

use crate::card::{find_shown, shown_title};
use crate::finding::is_live_by;
use page_store::Rows;
use public_view::{LiveKid, MAX_KIDS};
use revision_shelf::Shelf;
use site_types::{Items, NoMemory, PageId};
use std::alloc::Global;

/// What a card says of the live kids of a page, in path order: of the first `MAX_KIDS` of them.
///
/// It costs a search for each kid, and a few look-ups, until so many live ones are found.
pub(crate) fn live_kids(
    alloc: Global,
    rows: &Rows,
    shelf: &Shelf,
    page: PageId,
) -> Result<Items<LiveKid>, NoMemory>
    ensures { (world : World) → rows.now.pages ≡ rows_of world.part.tree
        → shelf.now.revisions ≡ world.part.revisions
        → IfOk result (λ kids. kids ≡ kids_shown world page) }
{
    let _len = rows.len();
    let mut kids = Vec::new(alloc);
    for kid in rows.children(page) {
        if kids.len() >= MAX_KIDS {
            return Ok(Items::from_vec(kids));
        }
        if let Some(told) = live_kid(alloc, rows, shelf, kid)? {
            kids.push(told)?;
        }
    }
    Ok(Items::from_vec(kids))
}

/// What a card says of a kid, or `None` exactly if it is not live.
fn live_kid(
    alloc: Global,
    rows: &Rows,
    shelf: &Shelf,
    kid: PageId,
) -> Result<Option<LiveKid>, NoMemory>
    ensures { (tree : Forest PageBody) → rows.now.pages ≡ rows_of tree
        → IfOk result (λ told. told ≡ told_of tree shelf.now.revisions (row_with kid rows.now.pages)) }
{
    let Some(row) = rows.row(kid) else {
        return Ok(None);
    };
    if !is_live_by(rows, &row.body) {
        return Ok(None);
    }
    let Some(url) = rows.url(kid) else {
        unreachable!()
    };
    let url = url.copy(alloc)?;
    let title = shown_title(alloc, find_shown(rows, shelf, &row.body))?;
    Ok(Some(LiveKid {
        id: kid,
        title,
        url,
    }))
}
