//! Plans of locking and unlocking.
ghost use Rattle.std.specs.Prelude.{ℕ, Option};
ghost use Rattle.site_types.specs.Content.{ContentValue};
ghost use Rattle.site_types.specs.declared.command.Command.TheVariants as commands;
ghost use Rattle.site_model.specs.World as worlds;
ghost use Rattle.site_part.specs.Plans.{Prepares};
ghost use Rattle.moderating.specs.Asked.{IsAsked};

use lost_desks::lost_by_lock;
use moderating::{body_plan, kept_of, later, no_pages};
use publishing::{locked_body, unlocked_body};
use site_part::{Fault, Plan, TreePart};
use site_types::{Moment, PageId, Refusal, Reply, UserId};
use std::alloc::Global;

/// The plan of locking a page, which its caller may do. It ends the page's desk if that is another
/// user's.
///
/// It costs a look-up and a search.
pub(crate) fn plan_lock(
    alloc: Global,
    part: &TreePart,
    page: PageId,
    caller: UserId,
    now: Moment,
) -> Result<Plan, Fault>
    requires { (world : worlds.TreePart) × (desk : Option ContentValue)
        × IsAsked part.now world desk caller (commands.Lock page) }
    ensures { (world : worlds.TreePart) (desk : Option ContentValue)
        → IsAsked part.now world desk caller (commands.Lock page)
        → Prepares world desk now caller (commands.Lock page) part.now result }
{
    let body = kept_of(part, page);
    if caller.get() == 0 {
        return Err(Fault::Refused(Refusal::NothingNew));
    }
    let Ok(shut) = lost_by_lock(alloc, part, page, caller) else {
        return Err(Fault::Memory);
    };
    let after = locked_body(&body, caller);
    let time = later(part.time, now);
    body_plan(alloc, part, page, after, time, Reply::Done, shut)
}

/// The plan of unlocking a page, which its caller may do. One look-up.
pub(crate) fn plan_unlock(
    alloc: Global,
    part: &TreePart,
    page: PageId,
    now: Moment,
) -> Result<Plan, Fault>
    requires { (world : worlds.TreePart) × (desk : Option ContentValue) × (caller : ℕ)
        × IsAsked part.now world desk caller (commands.Unlock page) }
    ensures { (world : worlds.TreePart) (desk : Option ContentValue) (caller : ℕ)
        → IsAsked part.now world desk caller (commands.Unlock page)
        → Prepares world desk now caller (commands.Unlock page) part.now result }
{
    let body = kept_of(part, page);
    if body.locked_by.is_none() {
        return Err(Fault::Refused(Refusal::NothingNew));
    }
    let after = unlocked_body(&body);
    let time = later(part.time, now);
    body_plan(alloc, part, page, after, time, Reply::Done, no_pages(alloc))
}
