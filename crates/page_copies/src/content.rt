//! The contents that pages show, and those that their copies get.
ghost use Rattle.std.specs.Prelude.{◌≡◌};
ghost use Rattle.std.specs.Option.{option_copied};
ghost use Rattle.page_copies.specs.Contents.{StandFor};
ghost use Rattle.site_model.specs.World as worlds;
ghost use Rattle.site_model.specs.Aliases as aliases;
ghost use Rattle.page_copies.specs.Contents as contents;

use page_store::Rows;
use revision_shelf::Shelf;
use site_types::{Body, Content, RevisionId};

/// The content that a page shows of which this is kept: that of the revision that it shows, or of
/// an alias what its source shows. `None` exactly if there is no such revision. Two look-ups at
/// most.
pub fn shown_content<'a>(rows: &'a Rows, shelf: &'a Shelf, body: &Body) -> Option<&'a Content>
    ensures { (part : worlds.TreePart) → StandFor rows.now.pages shelf.now.revisions part
        → option_copied result ≡ aliases.shown_by part body.now }
{
    match body.source {
        None => content_with(shelf, body.shown),
        Some(source) => match rows.row(source) {
            Some(row) => content_with(shelf, row.body.shown),
            None => None,
        },
    }
}

/// The content that a copy gets of a page of which this is kept: that of its latest revision, or of
/// an alias what it shows. `None` exactly if there is no such revision. Two look-ups at most.
pub fn copied_content<'a>(rows: &'a Rows, shelf: &'a Shelf, body: &Body) -> Option<&'a Content>
    ensures { (part : worlds.TreePart) → StandFor rows.now.pages shelf.now.revisions part
        → option_copied result ≡ contents.copied_by part body.now }
{
    match body.source {
        None => content_with(shelf, body.latest),
        Some(_) => shown_content(rows, shelf, body),
    }
}

/// The content of the revision with an id, or `None` exactly if there is no id or no such revision.
/// One look-up.
fn content_with(shelf: &Shelf, id: Option<RevisionId>) -> Option<&Content>
    ensures { (part : worlds.TreePart) → shelf.now.revisions ≡ part.revisions
        → option_copied result ≡ aliases.content_with part id }
{
    let Some(id) = id else {
        return None;
    };
    match shelf.get(id) {
        Some(revision) => Some(&revision.content),
        None => None,
    }
}
