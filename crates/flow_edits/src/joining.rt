//! Plans of memberships and grants that begin or end.
ghost use Rattle.std.specs.Prelude.{◌≡◌, ℕ, true, false, not, nat_lt, length, Option, IfOk};
ghost use Rattle.std.specs.List.{list_any};
ghost use Rattle.site_types.specs.Content.{ContentValue};
ghost use Rattle.site_types.specs.declared.permission.Permission.{Permission as AnyPermission};
ghost use Rattle.site_types.specs.declared.command.Command.TheVariants as commands;
ghost use Rattle.site_model.specs.World as worlds;
ghost use Rattle.site_model.specs.Limits.{MAX_GRANTS as grants_limit};
ghost use Rattle.site_model.specs.Rules.{is_given};
ghost use Rattle.site_model.specs.Users.{agree, is_membership, is_grant, grants_after};
ghost use Rattle.site_part.specs.Plans.{Prepares, pages_of};
ghost use Rattle.site_part.specs.Standing.{IsReady, IsSame};
ghost use Rattle.moderating.specs.Asked.{IsAsked};
ghost use Rattle.flow_edits.specs.People.{member_lost, grant_lost};

use crate::people::ready_plan;
use lost_desks::{lost_by_leaving, lost_by_withdrawal};
use moderating::no_pages;
use site_part::{Fault, PeopleChange, Plan, TreePart};
use site_types::{
    GroupId, Ids, Moment, NameKind, NoMemory, PageId, Permission, Refusal, Reply, UserId,
};
use std::alloc::Global;

/// The most grants that may stand.
const MAX_GRANTS: usize = 4_294_967_295;

/// The plan of a membership that begins or ends.
pub(crate) fn plan_member(
    alloc: Global,
    part: &mut TreePart,
    user: UserId,
    group: GroupId,
    on: bool,
    now: Moment,
) -> Result<Plan, Fault>
    requires { (world : worlds.TreePart) × (desk : Option ContentValue) × (caller : ℕ)
        × IsAsked part.old world desk caller (commands.Member user group on) }
    ensures same { IsSame part.old part.new }
    ensures plan { (world : worlds.TreePart) (desk : Option ContentValue) (caller : ℕ)
        → IsAsked part.old world desk caller (commands.Member user group on)
        → Prepares world desk now caller (commands.Member user group on) part.new result }
{
    if part.grants.is_member(user, group) == on {
        return Err(Fault::Refused(Refusal::NothingNew));
    }
    if !has_user(part, user) {
        return Err(Fault::Refused(Refusal::NoName(NameKind::User)));
    }
    if !has_group(part, group) {
        return Err(Fault::Refused(Refusal::NoName(NameKind::Group)));
    }
    let shut = match ended_by_member(alloc, part, user, group, on) {
        Ok(shut) => shut,
        Err(_) => return Err(Fault::Memory),
    };
    let people = PeopleChange::Member { user, group, on };
    ready_plan(alloc, part, now, Reply::Done, people, shut)
}

/// The pages whose desks end as a membership begins, which are none, or ends.
fn ended_by_member(
    alloc: Global,
    part: &mut TreePart,
    user: UserId,
    group: GroupId,
    on: bool,
) -> Result<Ids, NoMemory>
    requires ready { (world : worlds.TreePart) × IsReady part.old world }
    requires new { agree on (list_any (is_membership user group) part.old.grants.members) ≡ false }
    ensures same { IsSame part.old part.new }
    ensures lost { (world : worlds.TreePart) (moment : ℕ) → IsReady part.old world
        → IfOk result (λ pages. pages ≡ pages_of (member_lost world moment user group on)) }
{
    if on {
        return Ok(no_pages(alloc));
    }
    lost_by_leaving(alloc, part, user, group)
}

/// The plan of a grant that is given or withdrawn.
pub(crate) fn plan_grant(
    alloc: Global,
    part: &mut TreePart,
    group: GroupId,
    page: PageId,
    permission: Permission,
    on: bool,
    now: Moment,
) -> Result<Plan, Fault>
    requires { (world : worlds.TreePart) × (desk : Option ContentValue) × (caller : ℕ)
        × IsAsked part.old world desk caller (commands.Grant group page permission on) }
    ensures same { IsSame part.old part.new }
    ensures plan { (world : worlds.TreePart) (desk : Option ContentValue) (caller : ℕ)
        → IsAsked part.old world desk caller (commands.Grant group page permission on)
        → Prepares world desk now caller (commands.Grant group page permission on) part.new
        result }
{
    if part.grants.is_granted(group, page, permission) == on {
        return Err(Fault::Refused(Refusal::NothingNew));
    }
    if !has_group(part, group) {
        return Err(Fault::Refused(Refusal::NoName(NameKind::Group)));
    }
    if !has_room(part, on) {
        return Err(Fault::Refused(Refusal::IdsFull));
    }
    let shut = match ended_by_grant(alloc, part, group, page, permission, on) {
        Ok(shut) => shut,
        Err(_) => return Err(Fault::Memory),
    };
    let people = PeopleChange::Grant {
        group,
        page,
        permission,
        on,
    };
    ready_plan(alloc, part, now, Reply::Done, people, shut)
}

/// The pages whose desks end as a grant is given, which are none, or withdrawn.
fn ended_by_grant(
    alloc: Global,
    part: &mut TreePart,
    group: GroupId,
    page: PageId,
    permission: Permission,
    on: bool,
) -> Result<Ids, NoMemory>
    requires ready { (world : worlds.TreePart) × IsReady part.old world }
    requires new { agree on (list_any (is_grant group page permission) part.old.grants.grants)
        ≡ false }
    ensures same { IsSame part.old part.new }
    ensures lost { (world : worlds.TreePart) (moment : ℕ) → IsReady part.old world
        → IfOk result
        (λ pages. pages ≡ pages_of (grant_lost world moment group page permission on)) }
{
    if on {
        return Ok(no_pages(alloc));
    }
    lost_by_withdrawal(alloc, part, group, page, permission)
}

/// Whether there is such a user.
fn has_user(part: &TreePart, user: UserId) -> bool
    ensures { (world : worlds.TreePart) → IsReady part.now world
        → result ≡ is_given world.next_user user }
{
    0 < user.get() && user.get() <= part.grants.user_count()
}

/// Whether there is such a group.
fn has_group(part: &TreePart, group: GroupId) -> bool
    ensures { (world : worlds.TreePart) → IsReady part.now world
        → result ≡ is_given world.next_group group }
{
    group.get() <= part.grants.group_count()
}

/// Whether there may be as many grants as there are after one is given or withdrawn.
fn has_room(part: &TreePart, on: bool) -> bool
    ensures { (world : worlds.TreePart) (group page : ℕ) (permission : AnyPermission)
        → IsReady part.now world
        → agree on (list_any (is_grant group page permission) world.grants) ≡ false
        → result ≡ not (nat_lt grants_limit
        (length (grants_after world.grants group page permission on))) }
{
    !on || part.grants.grant_count() < MAX_GRANTS
}
