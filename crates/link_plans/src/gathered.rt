//! The pages that get other links, with these.
ghost use Rattle.std.specs.Prelude.{◌≡◌, ℕ, Bool, if◌then◌else◌, OnOk};
ghost use Rattle.link_index.specs.Pairs.{has_pair};
ghost use Rattle.link_plans.specs.Found.{RevisionsRise};
ghost use Rattle.link_plans.specs.PageLinks.{live_links};
ghost use Rattle.link_plans.specs.Told.{finds_told, links_told};
ghost use Rattle.link_plans.specs.Layers.{aliases_told, pages_told};

use crate::Fate;
use crate::after::Edit;
use crate::fates::page_of;
use crate::ids::{kept_ids, live_ids};
use link_index::Aliases;
use site_types::{Ids, NoMemory, PageId};
use std::alloc::Global;

/// Adds the aliases of the pages of which something becomes.
pub(crate) fn add_aliases(
    alloc: Global,
    planned: &mut Vec<(PageId, Ids)>,
    edit: &Edit<'_>,
    aliases: &Aliases,
) -> Result<(), NoMemory>
    requires rise { RevisionsRise edit.now.new.now }
    ensures { OnOk result ((page linked : ℕ) (was : Bool) →
        links_told planned.new.items page linked was
        ≡ aliases_told (finds_told edit.now.rows.now.pages edit.now.shelf.now.revisions
        edit.now.new.now edit.now.fates.now) aliases.now.pairs edit.now.fates.now page linked
        (links_told planned.old.items page linked was)) }
{
    for fate in edit.fates {
        add_aliases_of(alloc, planned, edit, aliases, fate)?;
    }
    Ok(())
}

/// Adds the aliases of a page that has these fields from now on, or goes.
fn add_aliases_of(
    alloc: Global,
    planned: &mut Vec<(PageId, Ids)>,
    edit: &Edit<'_>,
    aliases: &Aliases,
    fate: &Fate,
) -> Result<(), NoMemory>
    requires rise { RevisionsRise edit.now.new.now }
    ensures { OnOk result ((page linked : ℕ) (was : Bool) →
        links_told planned.new.items page linked was
        ≡ (if has_pair fate.now.page page aliases.now.pairs
        then live_links (finds_told edit.now.rows.now.pages edit.now.shelf.now.revisions
        edit.now.new.now edit.now.fates.now) fate.now.body linked
        else links_told planned.old.items page linked was)) }
{
    let pages = aliases.follow(fate.page)?;
    for number in pages.as_slice() {
        let ids = live_ids(alloc, edit, fate.body)?;
        planned.push((page_of(*number), ids))?;
    }
    Ok(())
}

/// Adds the pages of which something becomes.
pub(crate) fn add_pages(
    alloc: Global,
    planned: &mut Vec<(PageId, Ids)>,
    edit: &Edit<'_>,
) -> Result<(), NoMemory>
    requires rise { RevisionsRise edit.now.new.now }
    ensures { OnOk result ((page linked : ℕ) (was : Bool) →
        links_told planned.new.items page linked was
        ≡ pages_told (finds_told edit.now.rows.now.pages edit.now.shelf.now.revisions
        edit.now.new.now edit.now.fates.now) edit.now.fates.now page linked
        (links_told planned.old.items page linked was)) }
{
    for fate in edit.fates {
        let ids = kept_ids(alloc, edit, fate.body)?;
        planned.push((fate.page, ids))?;
    }
    Ok(())
}
