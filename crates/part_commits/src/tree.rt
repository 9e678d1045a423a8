//! What becomes of the rows of pages, with the tables and the aliases in step.
ghost use Rattle.std.specs.Prelude.{◌≡◌, ◌+◌, ◌≤◌, List, length};
ghost use Rattle.flat_model.specs.Fits.{PagesFit, TreeFits};
ghost use Rattle.flat_model.specs.Made.{rows_made, with_page, with_pages};
ghost use Rattle.site_part.specs.Plans.{rows_needed};
ghost use Rattle.link_plans.specs.PageLinks.{AreAliases};
ghost use Rattle.part_commits.specs.InStep.{rows_coming};
ghost use Rattle.page_store.specs.PageRows.{IsNewRow};
ghost use Rattle.publishing.specs.Times.{AreTimed};
ghost use Rattle.site_types.specs.declared.revision.Revision.{Revision as PageRevision};

use crate::leaving::drop_range;
use crate::moving::put_move;
use crate::renaming::put_name;
use crate::sources::add_row;
use link_index::Aliases;
use page_store::Rows;
use site_part::TreeChange;
use site_types::{Items, PageRow, Url};
use time_table::Times;

/// Changes the rows of pages, and takes the moments and the sources of pages that go out of the
/// tables and the aliases. It cannot fail.
pub(crate) fn put_tree(
    rows: &mut Rows,
    times: &mut Times,
    aliases: &mut Aliases,
    change: TreeChange,
)
    requires fits { TreeFits change rows.old.pages }
    requires room { rows_needed change ≤ rows.old.spare }
    requires places { rows_coming change ≤ aliases.old.spare }
    ensures pages { rows.new.pages ≡ rows_made change rows.old.pages }
    ensures timed { (revisions : List PageRevision) → AreTimed times.old rows.old.pages revisions
        → AreTimed times.new rows.new.pages revisions }
    ensures aliased { AreAliases aliases.old.pairs rows.old.pages
        → AreAliases aliases.new.pairs rows.new.pages }
    ensures expiries_spare { times.old.expiries.spare ≤ times.new.expiries.spare }
    ensures go_lives_spare { times.old.go_lives.spare ≤ times.new.go_lives.spare }
    ensures aliases_spare { aliases.old.spare ≤ aliases.new.spare + rows_coming change }
{
    let _len = rows.len();
    match change {
        TreeChange::Nothing => {}
        TreeChange::Insert { rows: new } => put_pages(rows, aliases, new),
        TreeChange::Move { plan, urls } => put_move(rows, plan, urls),
        TreeChange::Delete { page } => {
            drop_range(times, aliases, rows, page);
            rows.remove_range(page);
        }
        TreeChange::Rename { page, slug, urls } => put_name(rows, page, slug, urls),
    }
}

/// Puts new pages in, each with its URL. It cannot fail.
///
/// It costs what each row takes to be put in, and two searches for an alias.
fn put_pages(rows: &mut Rows, aliases: &mut Aliases, new: Items<(PageRow, Url)>)
    requires fits { PagesFit new rows.old.pages }
    requires room { length new ≤ rows.old.spare }
    requires places { length new ≤ aliases.old.spare }
    ensures pages { rows.new.pages ≡ with_pages new rows.old.pages }
    ensures aliased { AreAliases aliases.old.pairs rows.old.pages
        → AreAliases aliases.new.pairs rows.new.pages }
    ensures spare { aliases.old.spare ≤ aliases.new.spare + length new }
{
    for (row, url) in new.into_vec() {
        put_page(rows, aliases, row, url);
    }
}

/// Puts a new page in, with its source if it is an alias.
fn put_page(rows: &mut Rows, aliases: &mut Aliases, row: PageRow, url: Url)
    requires new { IsNewRow rows.old.pages row }
    requires room { 1 ≤ rows.old.spare }
    requires places { 1 ≤ aliases.old.spare }
    ensures pages { rows.new.pages ≡ with_page (row, url) rows.old.pages }
    ensures aliased { AreAliases aliases.old.pairs rows.old.pages
        → AreAliases aliases.new.pairs rows.new.pages }
    ensures rows_spare { rows.old.spare ≤ rows.new.spare + 1 }
    ensures aliases_spare { aliases.old.spare ≤ aliases.new.spare + 1 }
{
    add_row(aliases, &row);
    rows.insert_reserved(row, url);
}
