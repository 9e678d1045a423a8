//! The open desk that ends by what becomes of a moderation.
ghost use Rattle.std.specs.Prelude.{◌≡◌, IfOk};
ghost use Rattle.site_model.specs.World as worlds;
ghost use Rattle.site_model.specs.LosingLaws.{desks_lost_with};
ghost use Rattle.site_part.specs.Plans.{pages_of};
ghost use Rattle.site_part.specs.Standing.{IsReady};

use crate::alone::{no_page, page_if};
use crate::staying::stays_with;
use site_part::TreePart;
use site_types::{Ids, Moderation, NoMemory, PageId};
use std::alloc::Global;

/// The page, if its open desk does not stay with this moderation in place of the page's: that desk ends as
/// the page gets it, by an event of its moderation or because the page is published.
///
/// It costs a search, and what is held at the page.
pub fn lost_by_moderation(
    alloc: Global,
    part: &TreePart,
    page: PageId,
    moderation: Option<Moderation>,
) -> Result<Ids, NoMemory>
    ensures { (world : worlds.TreePart) → IsReady part.now world
        → IfOk result (λ ids. ids ≡ pages_of (desks_lost_with world page moderation)) }
{
    match part.desk_pairs.user_at(page) {
        Some(user) => page_if(alloc, page, !stays_with(part, page, user, moderation)),
        None => Ok(no_page(alloc)),
    }
}
