//! The open desks that end as a user leaves a group.
ghost use Rattle.std.specs.Prelude.{◌≡◌, ℕ, true, false, not, ◌&&◌, filter, IfOk};
ghost use Rattle.std.specs.List.{list_any};
ghost use Rattle.site_model.specs.World as worlds;
ghost use Rattle.site_model.specs.Desks as desks;
ghost use Rattle.site_model.specs.Users.{is_membership, with_member};
ghost use Rattle.site_model.specs.Losing.{is_suspect, DesksOf};
ghost use Rattle.site_part.specs.Plans.{pages_of};
ghost use Rattle.site_part.specs.Standing.{IsReady, IsSame};

use crate::loss::{Loss, lost_desks};
use site_part::TreePart;
use site_types::{GroupId, Ids, NoMemory, UserId};
use std::alloc::Global;

/// The pages of a member's desks, rising, that end as the member leaves the group.
///
/// The membership is taken out, and put in again. It looks at each open desk, and at what is held at the
/// pages of the user's.
pub fn lost_by_leaving(
    alloc: Global,
    part: &mut TreePart,
    user: UserId,
    group: GroupId,
) -> Result<Ids, NoMemory>
    requires ready { (world : worlds.TreePart) × IsReady part.old world }
    requires member { list_any (is_membership user group) part.old.grants.members ≡ true }
    ensures same { IsSame part.old part.new }
    ensures lost { (world : worlds.TreePart) (now : ℕ) → IsReady part.old world
        → IfOk result (λ ids. ids ≡ pages_of (filter (λ pair. is_suspect world (DesksOf user) pair
        && not (desks.stays (with_member world now user group false) pair)) world.desk_pairs)) }
{
    part.grants.reserve(2)?;
    part.grants.set_member(user, group, false);
    let lost = lost_desks(alloc, part, &Loss::RightsOf(user));
    part.grants.set_member(user, group, true);
    lost
}
