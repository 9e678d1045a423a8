//! The links that pages get by a change.
ghost use Rattle.std.specs.Prelude.{◌≡◌, ◌≤◌, IfOk};
ghost use Rattle.flat_model.specs.Fits.{RevisionsFit};
ghost use Rattle.link_plans.specs.PageLinks.{AreAliases};
ghost use Rattle.link_plans.specs.Told.{TellsPages, AreLinksAfter, total_links};
ghost use Rattle.site_core.specs.Linking.{HasLinkRoom};

use link_plans::{plan_links, reserve_links};
use site_part::{Change, TreePart};
use site_types::{Ids, Items, NoMemory, PageId};
use std::alloc::Global;

/// The pages that get other links by a change, each with the ids that it links to then, and room for
/// them; or out of memory. It changes nothing but spare room.
///
/// It costs as much as `plan_links`, and a copy of the links that are kept if there is no room for more.
pub(crate) fn find_links(
    alloc: Global,
    part: &mut TreePart,
    change: &Change,
) -> Result<Items<(PageId, Ids)>, NoMemory>
    requires fit { RevisionsFit change.now.revisions part.old.shelf.revisions }
    ensures same { HasLinkRoom part.old part.new }
    ensures room { IfOk result (λ links. total_links links ≤ part.new.links.spare) }
    ensures after { AreAliases part.old.aliases.pairs part.old.rows.pages
        → TellsPages part.old.rows.pages part.old.shelf.revisions change.now
        → IfOk result (AreLinksAfter part.old.rows.pages part.old.shelf.revisions change.now) }
{
    let links = plan_links(alloc, &part.rows, &part.shelf, &part.aliases, change)?;
    reserve_links(&mut part.links, links.as_slice())?;
    Ok(links)
}
