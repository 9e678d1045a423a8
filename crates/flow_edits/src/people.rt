//! Plans of the commands on users and groups.
ghost use Rattle.std.specs.Prelude.{◌≡◌, ℕ, Option};
ghost use Rattle.site_types.specs.Content.{ContentValue};
ghost use Rattle.site_types.specs.declared.command.Command.TheVariants as commands;
ghost use Rattle.site_model.specs.World as worlds;
ghost use Rattle.site_part.specs.Plans.{Prepares};
ghost use Rattle.site_part.specs.Standing.{IsSame};
ghost use Rattle.moderating.specs.Asked.{IsAsked};
ghost use Rattle.flow_edits.specs.People.{ReadiesPlan};

use moderating::{ending, later, no_pages};
use site_ids::{LAST_GROUP_ID, LAST_USER_ID};
use site_part::{Change, Fault, PeopleChange, Plan, TreePart};
use site_types::{Digest, Ids, Moment, Refusal, Reply};
use std::alloc::Global;

/// The plan of a user more, whose token has this digest.
pub(crate) fn plan_user(
    alloc: Global,
    part: &mut TreePart,
    superuser: bool,
    digest: &Digest,
    now: Moment,
) -> Result<Plan, Fault>
    ensures same { IsSame part.old part.new }
    ensures plan { (world : worlds.TreePart) (desk : Option ContentValue) (caller : ℕ)
        → IsAsked part.old world desk caller (commands.DefineUser superuser digest.now)
        → Prepares world desk now caller (commands.DefineUser superuser digest.now) part.new
        result }
{
    if part.grants.user_with(digest).is_some() {
        return Err(Fault::Refused(Refusal::NothingNew));
    }
    let count = part.grants.user_count();
    if LAST_USER_ID <= count {
        return Err(Fault::Refused(Refusal::IdsFull));
    }
    let people = PeopleChange::User {
        superuser,
        digest: *digest,
    };
    ready_plan(
        alloc,
        part,
        now,
        Reply::Id(count + 1),
        people,
        no_pages(alloc),
    )
}

/// The plan of a group more.
pub(crate) fn plan_group(alloc: Global, part: &mut TreePart, now: Moment) -> Result<Plan, Fault>
    ensures same { IsSame part.old part.new }
    ensures plan { (world : worlds.TreePart) (desk : Option ContentValue) (caller : ℕ)
        → IsAsked part.old world desk caller commands.DefineGroup
        → Prepares world desk now caller commands.DefineGroup part.new result }
{
    let count = part.grants.group_count();
    if LAST_GROUP_ID <= count {
        return Err(Fault::Refused(Refusal::IdsFull));
    }
    ready_plan(
        alloc,
        part,
        now,
        Reply::Id(count + 1),
        PeopleChange::Group,
        no_pages(alloc),
    )
}

/// A plan with this reply and this change, which opens no desk and ends those on these pages, if
/// memory suffices for room for one user, membership or grant.
pub(crate) fn ready_plan(
    alloc: Global,
    part: &mut TreePart,
    now: Moment,
    reply: Reply,
    people: PeopleChange,
    shut: Ids,
) -> Result<Plan, Fault>
    ensures same { IsSame part.old part.new }
    ensures plan { ReadiesPlan part.old part.new now reply people shut result }
{
    let Ok(()) = part.grants.reserve(1) else {
        return Err(Fault::Memory);
    };
    let change = Change::of_people(
        alloc,
        people,
        later(part.time, now),
        part.next_page,
        part.next_revision,
    );
    Ok(ending(alloc, reply, shut, change))
}
