//! Taking the moments of pages that go out of the two tables.
ghost use Rattle.std.specs.Prelude.{◌≡◌, ◌≤◌, List, [], ◌∷◌};
ghost use Rattle.std.specs.List.{AllByRecursion};
ghost use Rattle.site_types.specs.Ids.{IsPageId};
ghost use Rattle.site_types.specs.declared.revision.Revision.{Revision as PageRevision};
ghost use Rattle.page_store.specs.Pages.{Page};
ghost use Rattle.time_table.specs.Table.{without};
ghost use Rattle.publishing.specs.Times.{without_all, AreTimed, AreLeft};

use site_types::PageId;
use time_table::Times;

/// Takes the moments of a page that goes out of both tables.
pub fn drop_page(times: &mut Times, page: PageId)
    ensures expiries { times.new.expiries.entries ≡ without page times.old.expiries.entries }
    ensures go_lives { times.new.go_lives.entries ≡ without page times.old.go_lives.entries }
    ensures timed { (pages after : List Page) (revisions : List PageRevision) →
        AreTimed times.old pages revisions → AreLeft (page ∷ []) pages after
        → AreTimed times.new after revisions }
    ensures expiries_spare { times.old.expiries.spare ≤ times.new.expiries.spare }
    ensures go_lives_spare { times.old.go_lives.spare ≤ times.new.go_lives.spare }
{
    times.expiries.clear(page);
    times.go_lives.clear(page);
}

/// Takes the moments of the pages with these ids, which go, out of both tables.
pub fn drop_pages(times: &mut Times, pages: &[u32])
    requires { AllByRecursion IsPageId pages.now }
    ensures expiries { times.new.expiries.entries ≡ without_all pages.now times.old.expiries.entries }
    ensures go_lives { times.new.go_lives.entries ≡ without_all pages.now times.old.go_lives.entries }
    ensures timed { (before after : List Page) (revisions : List PageRevision) →
        AreTimed times.old before revisions → AreLeft pages.now before after
        → AreTimed times.new after revisions }
    ensures expiries_spare { times.old.expiries.spare ≤ times.new.expiries.spare }
    ensures go_lives_spare { times.old.go_lives.spare ≤ times.new.go_lives.spare }
{
    for number in pages {
        drop_page(times, page_of(*number));
    }
}

/// The page with this number.
fn page_of(number: u32) -> PageId
    requires { IsPageId number }
    ensures { result ≡ number }
{
    match PageId::new(number) {
        Some(page) => page,
        None => unreachable!(),
    }
}
