//! Fields of pages, with the tables and the aliases in step.
ghost use Rattle.std.specs.Prelude.{◌≡◌, ◌≤◌, length};
ghost use Rattle.flat_model.specs.Fits.{BodiesFit};
ghost use Rattle.flat_model.specs.Made.{with_bodies};
ghost use Rattle.link_plans.specs.PageLinks.{AreAliases};
ghost use Rattle.publishing.specs.Times.{AreTimed};
ghost use Rattle.part_commits.specs.InStep.{TimedBut};

use crate::sources::put_source;
use link_index::Aliases;
use page_store::Rows;
use publishing::put_body;
use revision_shelf::Shelf;
use site_types::{Body, Items, PageId};
use time_table::Times;

/// Gives pages other fields, with the moments that they have in the tables, and the sources among
/// the aliases. It cannot fail.
///
/// A few look-ups for each page, two changes of a table and five searches.
pub(crate) fn put_bodies(
    rows: &mut Rows,
    times: &mut Times,
    aliases: &mut Aliases,
    shelf: &Shelf,
    bodies: Items<(PageId, Body)>,
)
    requires fits { BodiesFit bodies rows.old.pages }
    requires expiries { length bodies ≤ times.old.expiries.spare }
    requires go_lives { length bodies ≤ times.old.go_lives.spare }
    requires places { length bodies ≤ aliases.old.spare }
    ensures pages { rows.new.pages ≡ with_bodies bodies rows.old.pages }
    ensures timed { TimedBut bodies times.old rows.old.pages shelf.now.revisions
        → AreTimed times.new rows.new.pages shelf.now.revisions }
    ensures aliased { AreAliases aliases.old.pairs rows.old.pages
        → AreAliases aliases.new.pairs rows.new.pages }
{
    for (page, body) in bodies.into_vec() {
        put_source(aliases, page, body.source);
        put_body(rows, times, shelf, page, body);
    }
}
