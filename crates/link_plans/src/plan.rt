//! The plan of links.
ghost use Rattle.std.specs.Prelude.{◌≡◌, IfOk};
ghost use Rattle.flat_model.specs.Fits.{RevisionsFit};
ghost use Rattle.link_plans.specs.PageLinks.{AreAliases};
ghost use Rattle.link_plans.specs.Told.{TellsPages, AreLinksAfter};

use crate::after::Edit;
use crate::fates::fates;
use crate::gathered::{add_aliases, add_pages};
use flat_model::Change;
use link_index::Aliases;
use page_store::Rows;
use revision_shelf::Shelf;
use site_types::{Ids, Items, NoMemory, PageId};
use std::alloc::Global;

/// The pages that get other links by a change of these rows and revisions, each with the ids that
/// it links to then, to be put in one after another: the last ones of a page hold. All others link
/// to what they linked to.
///
/// For each page that goes, comes or gets other fields it takes a search among the aliases, and for
/// it and each of its aliases the links of at most two contents; for an alias that comes or gets
/// other fields, a look at each of these pages too.
pub fn plan_links(
    alloc: Global,
    rows: &Rows,
    shelf: &Shelf,
    aliases: &Aliases,
    change: &Change,
) -> Result<Items<(PageId, Ids)>, NoMemory>
    requires fit { RevisionsFit change.now.revisions shelf.now.revisions }
    ensures { IfOk result (λ planned. AreAliases aliases.now.pairs rows.now.pages
        → TellsPages rows.now.pages shelf.now.revisions change.now
        → AreLinksAfter rows.now.pages shelf.now.revisions change.now planned) }
{
    let fates = fates(alloc, rows, change)?;
    let edit = Edit {
        rows,
        shelf,
        new: change.revisions.as_slice(),
        fates: fates.as_slice(),
    };
    let mut planned = Vec::new(alloc);
    add_aliases(alloc, &mut planned, &edit, aliases)?;
    add_pages(alloc, &mut planned, &edit)?;
    Ok(Items::from_vec(planned))
}
