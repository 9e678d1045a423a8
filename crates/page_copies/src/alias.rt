//! The page that an alias shows.
ghost use Rattle.std.specs.Prelude.{◌≡◌};
ghost use Rattle.page_tree.specs.Rows.{rows_of};
ghost use Rattle.site_model.specs.World as worlds;
ghost use Rattle.site_model.specs.Aliases as aliases;

use page_store::Rows;
use site_types::PageId;

/// The page that an alias of this page is to show: the page itself, or its own source if it is an
/// alias, so that no alias shows an alias. One look-up.
pub fn plan_alias(rows: &Rows, source: PageId) -> PageId
    ensures { (part : worlds.TreePart) → rows.now.pages ≡ rows_of part.tree
        → result ≡ aliases.source_of part source }
{
    let Some(row) = rows.row(source) else {
        return source;
    };
    match row.body.source {
        Some(first) => first,
        None => source,
    }
}
