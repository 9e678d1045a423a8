//! Plans of deletions.
ghost use Rattle.std.specs.Prelude.{◌≡◌, Option};
ghost use Rattle.site_types.specs.Content.{ContentValue};
ghost use Rattle.site_types.specs.declared.command.Command.TheVariants as commands;
ghost use Rattle.site_model.specs.World as worlds;
ghost use Rattle.site_part.specs.Plans.{Prepares};
ghost use Rattle.site_part.specs.Standing.{IsSame};
ghost use Rattle.new_pages.specs.Plans.{IsAsked};

use crate::leaving::{LeftAliases, plan_leaving};
use lost_desks::lost_by_deletion;
use new_pages::{later, make_room};
use path_moves::plan_delete;
use site_part::{Change, Fault, Plan, TreeChange, TreePart};
use site_types::{Moment, PageId, Reply, UserId};
use std::alloc::Global;

/// The plan of a deletion of a page that is there and below the root, which its caller may give. The
/// desks on the page and below it end, and its aliases elsewhere, and those of pages below it,
/// become regular pages.
///
/// It costs a look and two searches for each page that goes, and for each open desk a look-up for
/// each page above it; for each alias that is left a copy of the content that it shows. Only where
/// the contents of these have no room beside all that there are, it costs a look at each revision of
/// the site.
pub(crate) fn plan_deletion(
    alloc: Global,
    part: &mut TreePart,
    page: PageId,
    caller: UserId,
    now: Moment,
) -> Result<Plan, Fault>
    requires { (world : worlds.TreePart) × IsAsked part.old world caller (commands.Delete page) }
    ensures same { IsSame part.old part.new }
    ensures plan { (world : worlds.TreePart) (desk : Option ContentValue)
        → IsAsked part.old world caller (commands.Delete page)
        → Prepares world desk now caller (commands.Delete page) part.new result }
{
    let _len = part.rows.len();
    let Ok(gone) = plan_delete(alloc, &part.rows, page) else {
        return Err(Fault::Memory);
    };
    let left = match plan_leaving(alloc, part, page, &gone, caller, now) {
        Ok(left) => left,
        Err(fault) => return Err(fault),
    };
    let Ok(shut) = lost_by_deletion(alloc, part, page) else {
        return Err(Fault::Memory);
    };
    let time = later(part.time, now);
    let next_page = part.next_page;
    let next_revision = part.next_revision + left.revisions.len() as u32;
    let Ok(()) = make_room(part, 0, left.revisions.len()) else {
        return Err(Fault::Memory);
    };
    let reply = Reply::Removed(gone.len() as u32);
    let tree = TreeChange::Delete { page };
    let mut change = Change::of_tree(alloc, tree, time, next_page, next_revision);
    change.gone = gone;
    let LeftAliases { bodies, revisions } = left;
    change.bodies = bodies;
    change.revisions = revisions;
    let mut plan = Plan::quiet(alloc, reply, change);
    plan.shut = shut;
    Ok(plan)
}
