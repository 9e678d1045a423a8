//! The cards of pages, and what pages show.
ghost use Rattle.std.specs.Prelude.{◌≡◌, IfOk};
ghost use Rattle.std.specs.Option.{option_copied};
ghost use Rattle.page_tree.specs.Rows.{rows_of};
ghost use Rattle.site_model.specs.World.{World};
ghost use Rattle.sight_model.specs.Cards.{card_of};
ghost use Rattle.site_core.specs.Kids.{shown_of};

use crate::card::{find_shown, make_card};
use crate::finding::is_live_by;
use crate::kids::live_kids;
use page_store::Rows;
use public_view::Card;
use revision_shelf::Shelf;
use site_types::{Content, NoMemory, PageId};
use std::alloc::Global;

/// The card of a page, or `None` exactly where there is no such page.
///
/// It costs at most five look-ups, and a few for each of its first kids; it copies what the card tells.
pub(crate) fn card_in(
    alloc: Global,
    rows: &Rows,
    shelf: &Shelf,
    id: PageId,
) -> Result<Option<Card>, NoMemory>
    ensures { (world : World) → rows.now.pages ≡ rows_of world.part.tree
        → shelf.now.revisions ≡ world.part.revisions
        → IfOk result (λ card. card ≡ card_of world id) }
{
    let Some(row) = rows.row(id) else {
        return Ok(None);
    };
    let Some(url) = rows.url(id) else {
        unreachable!()
    };
    let live = is_live_by(rows, &row.body);
    let shown = find_shown(rows, shelf, &row.body);
    let kids = live_kids(alloc, rows, shelf, id)?;
    let card = make_card(alloc, row, url, live, shown, kids)?;
    Ok(Some(card))
}

/// The content that a page shows, or `None` exactly if there is no such page or it shows none: an
/// alias shows its source's. At most three look-ups.
pub(crate) fn shown_in<'a>(rows: &Rows, shelf: &'a Shelf, id: PageId) -> Option<&'a Content>
    ensures { (world : World) → rows.now.pages ≡ rows_of world.part.tree
        → shelf.now.revisions ≡ world.part.revisions
        → option_copied result ≡ shown_of world id }
{
    let Some(row) = rows.row(id) else {
        return None;
    };
    match find_shown(rows, shelf, &row.body) {
        None => None,
        Some(revision) => Some(&revision.content),
    }
}
