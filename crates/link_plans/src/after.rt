//! Pages and contents as a change leaves them.
ghost use Rattle.std.specs.Prelude.{◌≡◌, slice_get};
ghost use Rattle.std.specs.Option.{option_copied, option_map};
ghost use Rattle.revision_shelf.specs.Shelf.{revision_with};
ghost use Rattle.publishing.specs.Times.{body_in};
ghost use Rattle.link_plans.specs.PageLinks.{live_revision};
ghost use Rattle.link_plans.specs.Told.{content_told, body_told};
ghost use Rattle.link_plans.specs.Found.{RevisionsRise, if_own};

use crate::Fate;
use page_store::Rows;
use revision_shelf::Shelf;
use site_types::{Body, Content, PageId, Revision, RevisionId};

/// A change and what it is made to: the rows and the revisions of the pages, the revisions that
/// come, and what becomes of pages.
#[derive(Drop)]
pub(crate) struct Edit<'a> {
    pub(crate) rows: &'a Rows,
    pub(crate) shelf: &'a Shelf,
    pub(crate) new: &'a [Revision],
    pub(crate) fates: &'a [Fate],
}

/// The content of a revision, if one is named and is there.
pub(crate) fn content_after<'a>(edit: &Edit<'a>, id: Option<RevisionId>) -> Option<&'a Content>
    requires rise { RevisionsRise edit.now.new.now }
    ensures { option_copied result ≡ content_told edit.now.new.now edit.now.shelf.now.revisions id }
{
    let Some(id) = id else {
        return None;
    };
    match find(edit.new, id) {
        Some(revision) => Some(&revision.content),
        None => match edit.shelf.get(id) {
            Some(revision) => Some(&revision.content),
            None => None,
        },
    }
}

/// The revision with this id among some that rise. One search.
fn find(revisions: &[Revision], id: RevisionId) -> Option<&Revision>
    requires rise { RevisionsRise revisions.now }
    ensures { option_copied result ≡ revision_with id revisions.now }
{
    match at(revisions, place_of(revisions, id)) {
        Some(revision) => {
            if revision.id == id {
                Some(revision)
            } else {
                None
            }
        }
        None => None,
    }
}

/// The place of the revision with this id, if it is there.
fn place_of(revisions: &[Revision], id: RevisionId) -> usize
    requires rise { RevisionsRise revisions.now }
    ensures { if_own id (slice_get revisions.now result) ≡ revision_with id revisions.now }
{
    revisions.partition_point(|revision| revision.id < id)
}

/// The revision at a place.
fn at(revisions: &[Revision], place: usize) -> Option<&Revision>
    ensures { option_copied result ≡ slice_get revisions.now place }
{
    revisions.get(place)
}

/// What is kept of a page, if it is there.
pub(crate) fn body_after(edit: &Edit<'_>, page: PageId) -> Option<Body>
    ensures { result
        ≡ body_told edit.now.fates.now page (body_in page edit.now.rows.now.pages) }
{
    let was = match edit.rows.row(page) {
        Some(row) => Some(row.body),
        None => None,
    };
    told(edit.fates, page, was)
}

/// What is kept of a page after these, where this was kept of it before.
fn told(fates: &[Fate], page: PageId, was: Option<Body>) -> Option<Body>
    ensures { result ≡ body_told fates.now page was }
{
    let mut body = was;
    for fate in fates {
        if page == fate.page {
            body = fate.body;
        }
    }
    body
}

/// The revision that a regular page shows, if it is live.
pub(crate) fn live_id(body: Option<Body>) -> Option<RevisionId>
    ensures { result ≡ live_revision body }
{
    let Some(body) = body else {
        return None;
    };
    if body.live { body.shown } else { None }
}
