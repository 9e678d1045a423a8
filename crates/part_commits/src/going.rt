//! What goes with pages, and by a purge: revisions and grants.
ghost use Rattle.std.specs.Prelude.{◌≡◌, ◌≤◌, Some};
ghost use Rattle.std.specs.List.{AllByRecursion};
ghost use Rattle.site_ids.specs.Ids.{IsPageId};
ghost use Rattle.flat_model.specs.Made.{people_left, purge_left};
ghost use Rattle.site_part.specs.Standing.{seen_people};
ghost use Rattle.part_commits.specs.Purging.{number_of};

use flat_model::Purge;
use grants::Grants;
use revision_shelf::Shelf;
use site_types::{PageId, RevisionId};

/// Takes the revisions of a page out but for those that it needs, if there is a purge.
///
/// It costs a look-up for each revision of the page, and for each that goes two more and a search.
pub(crate) fn put_purge(shelf: &mut Shelf, purge: Option<Purge>)
    ensures revisions { shelf.new.revisions ≡ purge_left purge shelf.old.revisions }
    ensures spare { shelf.old.spare ≤ shelf.new.spare }
{
    match purge {
        None => {}
        Some(purge) => purge_page(shelf, &purge),
    }
}

/// Takes the revisions of a page out but for those that it needs.
fn purge_page(shelf: &mut Shelf, purge: &Purge)
    ensures revisions { shelf.new.revisions ≡ purge_left (Some purge.now) shelf.old.revisions }
    ensures spare { shelf.old.spare ≤ shelf.new.spare }
{
    let _len = shelf.len();
    let shown = number_of(purge.shown);
    let latest = number_of(purge.latest);
    let scheduled = number_of(purge.scheduled);
    let moderated = number_of(purge.moderated);
    let _gone = shelf.purge(purge.page, &[shown, latest, scheduled, moderated]);
}

/// The number of a revision, or 0 for none.
fn number_of(id: Option<RevisionId>) -> u32
    ensures { result ≡ number_of id }
{
    match id {
        None => 0,
        Some(id) => id.get(),
    }
}

/// Withdraws all grants at these pages. It costs two searches for each page.
pub(crate) fn drop_grants(grants: &mut Grants, gone: &[u32])
    requires { AllByRecursion IsPageId gone.now }
    ensures people { seen_people grants.new ≡ people_left gone.now (seen_people grants.old) }
    ensures spare { grants.old.spare ≤ grants.new.spare }
{
    for number in gone {
        grants.drop_page(page_of(*number));
    }
}

/// The page with this number.
pub fn page_of(number: u32) -> PageId
    requires { IsPageId number }
    ensures { result ≡ number }
{
    match PageId::new(number) {
        Some(page) => page,
        None => unreachable!(),
    }
}
