//! The open desks that end as pages are deleted.
ghost use Rattle.std.specs.Prelude.{◌≡◌, IfOk};
ghost use Rattle.site_model.specs.World as worlds;
ghost use Rattle.site_model.specs.LosingLaws.{desks_within};
ghost use Rattle.site_part.specs.Plans.{pages_of};
ghost use Rattle.site_part.specs.Standing.{IsReady};

use crate::loss::{Loss, lost_desks};
use site_part::TreePart;
use site_types::{Ids, NoMemory, PageId};
use std::alloc::Global;

/// The pages at a page and below it that have an open desk, rising: the desks end as the page is deleted.
///
/// It costs, for each open desk, a look-up for each page on the way up from its page.
pub fn lost_by_deletion(alloc: Global, part: &TreePart, page: PageId) -> Result<Ids, NoMemory>
    ensures { (world : worlds.TreePart) → IsReady part.now world
        → IfOk result (λ ids. ids ≡ pages_of (desks_within world page)) }
{
    lost_desks(alloc, part, &Loss::Pages(page))
}
