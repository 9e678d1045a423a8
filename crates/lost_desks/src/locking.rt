//! The open desk that ends as its page is locked.
ghost use Rattle.std.specs.Prelude.{◌≡◌, IfOk};
ghost use Rattle.site_model.specs.World as worlds;
ghost use Rattle.site_model.specs.LosingLaws.{desks_of_others};
ghost use Rattle.site_part.specs.Plans.{pages_of};
ghost use Rattle.site_part.specs.Standing.{IsReady};

use crate::alone::{no_page, page_if};
use site_part::TreePart;
use site_types::{Ids, NoMemory, PageId, UserId};
use std::alloc::Global;

/// The page, if another user than the caller has its open desk: that desk ends as the caller locks the
/// page. One search.
pub fn lost_by_lock(
    alloc: Global,
    part: &TreePart,
    page: PageId,
    caller: UserId,
) -> Result<Ids, NoMemory>
    ensures { (world : worlds.TreePart) → IsReady part.now world
        → IfOk result (λ ids. ids ≡ pages_of (desks_of_others world caller page)) }
{
    match part.desk_pairs.user_at(page) {
        Some(user) => page_if(alloc, page, caller != user),
        None => Ok(no_page(alloc)),
    }
}
