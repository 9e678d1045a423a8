//! The open desks that end as a grant is withdrawn.
ghost use Rattle.std.specs.Prelude.{◌≡◌, ℕ, true, false, not, ◌&&◌, filter, IfOk};
ghost use Rattle.std.specs.List.{list_any};
ghost use Rattle.site_model.specs.World as worlds;
ghost use Rattle.site_model.specs.Desks as desks;
ghost use Rattle.site_model.specs.Users.{is_grant, with_grant};
ghost use Rattle.site_model.specs.Losing.{is_suspect, DesksBelow};
ghost use Rattle.site_part.specs.Plans.{pages_of};
ghost use Rattle.site_part.specs.Standing.{IsReady, IsSame};

use crate::loss::{Loss, lost_desks};
use site_part::TreePart;
use site_types::{GroupId, Ids, NoMemory, PageId, Permission};
use std::alloc::Global;

/// The pages of the desks of a group's members at a page and below it, rising, that end as the group's
/// grant at the page is withdrawn.
///
/// The grant is taken out, and put in again. It looks at each open desk and whether its user is a member,
/// and at what the members hold at the pages of theirs.
pub fn lost_by_withdrawal(
    alloc: Global,
    part: &mut TreePart,
    group: GroupId,
    page: PageId,
    permission: Permission,
) -> Result<Ids, NoMemory>
    requires ready { (world : worlds.TreePart) × IsReady part.old world }
    requires granted { list_any (is_grant group page permission) part.old.grants.grants ≡ true }
    ensures same { IsSame part.old part.new }
    ensures lost { (world : worlds.TreePart) (now : ℕ) → IsReady part.old world
        → IfOk result (λ ids. ids ≡ pages_of (filter (λ pair. is_suspect world (DesksBelow page group) pair
        && not (desks.stays (with_grant world now group page permission false) pair)) world.desk_pairs)) }
{
    part.grants.reserve(2)?;
    part.grants.set_grant(group, page, permission, false);
    let lost = lost_desks(alloc, part, &Loss::RightsBelow(page, group));
    part.grants.set_grant(group, page, permission, true);
    lost
}
