//! What goes with pages from what is found fast: their moments, and their sources.
ghost use Rattle.std.specs.Prelude.{◌≡◌, ◌+◌, ◌≤◌, IsSome, List, length, map, take, drop};
ghost use Rattle.page_tree.specs.Rows.{row_with};
ghost use Rattle.page_store.specs.Changes.{without_range};
ghost use Rattle.publishing.specs.Times.{without_all, AreTimed};
ghost use Rattle.link_plans.specs.PageLinks.{AreAliases};
ghost use Rattle.part_commits.specs.InStep.{without_aliases};
ghost use Rattle.site_types.specs.declared.revision.Revision.{Revision as PageRevision};

use link_index::Aliases;
use page_store::Rows;
use publishing::drop_page;
use site_types::PageId;
use time_table::Times;

/// Takes the moments of a page and of all below it, which are to go, out of the tables, and their
/// sources out of the aliases.
///
/// It costs as much as `range_of`, and for each page a few look-ups and five searches.
pub(crate) fn drop_range(times: &mut Times, aliases: &mut Aliases, rows: &Rows, page: PageId)
    requires { IsSome (row_with page rows.now.pages) }
    ensures timed { (revisions : List PageRevision) → AreTimed times.old rows.now.pages revisions
        → AreTimed times.new (without_range page rows.now.pages) revisions }
    ensures aliased { AreAliases aliases.old.pairs rows.now.pages
        → AreAliases aliases.new.pairs (without_range page rows.now.pages) }
    ensures expiries_spare { times.old.expiries.spare ≤ times.new.expiries.spare }
    ensures go_lives_spare { times.old.go_lives.spare ≤ times.new.go_lives.spare }
    ensures aliases_spare { aliases.old.spare ≤ aliases.new.spare }
{
    let _len = rows.len();
    let Some((place, count)) = rows.range_of(page) else {
        unreachable!();
    };
    drop_between(times, aliases, rows, place, count);
}

/// Takes the moments of so many pages from a place on out of the tables, and their sources out of
/// the aliases.
fn drop_between(times: &mut Times, aliases: &mut Aliases, rows: &Rows, place: usize, count: usize)
    requires { place + count ≤ length rows.now.pages }
    ensures expiries { times.new.expiries.entries
        ≡ without_all (map (λ row. row.id) (take count (drop place rows.now.pages)))
        times.old.expiries.entries }
    ensures go_lives { times.new.go_lives.entries
        ≡ without_all (map (λ row. row.id) (take count (drop place rows.now.pages)))
        times.old.go_lives.entries }
    ensures pairs { aliases.new.pairs
        ≡ without_aliases (map (λ row. row.id) (take count (drop place rows.now.pages)))
        aliases.old.pairs }
    ensures expiries_spare { times.old.expiries.spare ≤ times.new.expiries.spare }
    ensures go_lives_spare { times.old.go_lives.spare ≤ times.new.go_lives.spare }
    ensures aliases_spare { aliases.old.spare ≤ aliases.new.spare }
{
    let _len = rows.len();
    for done in 0..count {
        let Some(page) = rows.at(place + done) else {
            unreachable!();
        };
        drop_page(times, page);
        aliases.remove(page);
    }
}
