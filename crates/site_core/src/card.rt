//! Making cards of pages.
ghost use Rattle.std.specs.Prelude.{◌≡◌, List, IfOk, option_and_then};
ghost use Rattle.std.specs.Option.{option_copied};
ghost use Rattle.page_tree.specs.Tree.{Forest};
ghost use Rattle.page_tree.specs.Rows.{Row, rows_of};
ghost use Rattle.page_store.specs.PageRows.{page_row};
ghost use Rattle.site_types.specs.declared.body.Body.{Body as PageBody};
ghost use Rattle.site_model.specs.Views.{body_of};
ghost use Rattle.sight_model.specs.Cards.{card_showing, content_shown, expiry_told, shown_id, shown_revision};

use page_store::Rows;
use public_view::{Card, LiveKid};
use revision_shelf::Shelf;
use site_types::{
    Blocks, Body, Items, Moment, NoMemory, PageId, PageRow, Revision, RevisionId, Text, Url,
};
use std::alloc::Global;

/// The card of a page with this row and this URL, which is live or not, shows this revision and has
/// these live kids.
pub(crate) fn make_card(
    alloc: Global,
    row: &PageRow,
    url: &Url,
    live: bool,
    shown: Option<&Revision>,
    kids: Items<LiveKid>,
) -> Result<Card, NoMemory>
    ensures { (seen : Row PageBody) → row.now ≡ page_row seen → url.now ≡ seen.url
        → IfOk result (λ card. card ≡ card_showing seen live (option_copied shown.entry) kids) }
{
    let url = url.copy(alloc)?;
    let title = shown_title(alloc, shown)?;
    let blocks = shown_blocks(alloc, shown)?;
    Ok(Card {
        id: row.id,
        path: row.path.copy(),
        depth: row.depth,
        numchild: row.numchild,
        slug: row.slug.copy(),
        body: Body { live, ..row.body },
        url,
        title,
        blocks,
        expire_at: expiry_told(row.body.source, shown),
        kids,
    })
}

/// The revision that a page with these fields shows, if it shows one: an alias shows its source's. At
/// most two look-ups.
pub(crate) fn find_shown<'s>(rows: &Rows, shelf: &'s Shelf, body: &Body) -> Option<&'s Revision>
    ensures { (tree : Forest PageBody) → rows.now.pages ≡ rows_of tree
        → option_copied result ≡ shown_revision tree shelf.now.revisions body.now }
{
    match shown_id(rows, body) {
        None => None,
        Some(id) => shelf.get(id),
    }
}

/// The id of the revision that a page with these fields shows, if it shows one: an alias shows its
/// source's. At most one look-up.
fn shown_id(rows: &Rows, body: &Body) -> Option<RevisionId>
    ensures { (tree : Forest PageBody) → rows.now.pages ≡ rows_of tree
        → result ≡ shown_id tree body.now }
{
    match body.source {
        None => body.shown,
        Some(source) => own_shown(rows, source),
    }
}

/// The id of the revision that the row of a page says that it shows, if there is one.
fn own_shown(rows: &Rows, page: PageId) -> Option<RevisionId>
    ensures { (tree : Forest PageBody) → rows.now.pages ≡ rows_of tree
        → result ≡ option_and_then (λ kept. kept.shown) (body_of tree page) }
{
    match rows.row(page) {
        None => None,
        Some(row) => row.body.shown,
    }
}

/// The title of a revision, or that of the root: `Root`.
pub(crate) fn shown_title(alloc: Global, shown: Option<&Revision>) -> Result<Text, NoMemory>
    ensures { IfOk result (λ title. title ≡ (content_shown (option_copied shown.entry)).title) }
{
    match shown {
        None => {
            let title = String::from_str(alloc, "Root")?;
            Ok(Text::from_string(title))
        }
        Some(revision) => revision.content.title().copy(alloc),
    }
}

/// The blocks of a revision, or those of the root: none.
fn shown_blocks(alloc: Global, shown: Option<&Revision>) -> Result<Blocks, NoMemory>
    ensures { IfOk result (λ blocks. blocks ≡ (content_shown (option_copied shown.entry)).blocks) }
{
    match shown {
        None => Ok(Blocks::from_vec(Vec::new(alloc))),
        Some(revision) => revision.content.blocks().copy(alloc),
    }
}

/// When a page stops being live by the revision that it shows; an alias has no moment of its own.
fn expiry_told(source: Option<PageId>, shown: Option<&Revision>) -> Option<Moment>
    ensures { result ≡ expiry_told source (option_copied shown.entry) }
{
    if source.is_some() {
        return None;
    }
    match shown {
        None => None,
        Some(revision) => revision.expire,
    }
}
