//! From a command on drafts, publishing, locks, revisions, users or groups to its plan.
ghost use Rattle.std.specs.Prelude.{◌≡◌, ℕ, true};
ghost use Rattle.std.specs.Option.{option_copied};
ghost use Rattle.site_model.specs.World as worlds;
ghost use Rattle.site_part.specs.Standing.{IsSame};
ghost use Rattle.site_part.specs.Plans.{Prepares};
ghost use Rattle.moderating.specs.Asked.{IsGiven, IsAsked};
ghost use Rattle.flow_edits.specs.Asked.{is_flow};

use crate::filing::plan_filing;
use crate::joining::{plan_grant, plan_member};
use crate::locking::{plan_lock, plan_unlock};
use crate::opening::{plan_opening, plan_shutting};
use crate::people::{plan_group, plan_user};
use crate::publication::{plan_publish, plan_unpublish, plan_unschedule};
use crate::purging::plan_purge;
use crate::ticking::plan_tick;
use moderating::{
    plan_approval, plan_assignment, plan_cancelling, plan_rejection, plan_submission, plan_task,
    plan_workflow,
};
use site_part::{Fault, Plan, TreePart, front};
use site_types::{Command, Content, Moment, UserId};
use std::alloc::Global;

/// The plan of a command on drafts, publishing, locks, revisions, moderation, users or groups by a
/// user at a moment, or why it is refused: the first of its rules that refuses it, in the order of their
/// numbers, or out of memory. It changes nothing but spare room.
///
/// `desk` is what the caller has written at the desk that the command looks at, if it looks at one
/// and the caller has it.
pub fn prepare_flow(
    alloc: Global,
    part: &mut TreePart,
    command: &Command,
    caller: UserId,
    now: Moment,
    desk: Option<&Content>,
) -> Result<Plan, Fault>
    requires flow { is_flow command.now ≡ true }
    requires given { (world : worlds.TreePart)
        × IsGiven part.old world (option_copied desk) caller command.now }
    ensures same { IsSame part.old part.new }
    ensures plan { (world : worlds.TreePart)
        → IsGiven part.old world (option_copied desk.entry) caller command.now
        → Prepares world (option_copied desk.entry) now caller command.now part.new result }
{
    match front(part, caller, command) {
        Ok(()) => plan_passed(alloc, part, command, caller, now, desk),
        Err(refusal) => Err(Fault::Refused(refusal)),
    }
}

/// The plan of such a command that none of its first six rules refuses.
fn plan_passed(
    alloc: Global,
    part: &mut TreePart,
    command: &Command,
    caller: UserId,
    now: Moment,
    desk: Option<&Content>,
) -> Result<Plan, Fault>
    requires flow { is_flow command.now ≡ true }
    requires asked { (world : worlds.TreePart)
        × IsAsked part.old world (option_copied desk) caller command.now }
    ensures same { IsSame part.old part.new }
    ensures plan { (world : worlds.TreePart)
        → IsAsked part.old world (option_copied desk.entry) caller command.now
        → Prepares world (option_copied desk.entry) now caller command.now part.new result }
{
    match command {
        Command::OpenDesk { page } => plan_opening(alloc, part, *page, caller, now),
        Command::ShutDesk { page } => plan_shutting(alloc, part, *page, now, desk),
        Command::File {
            page,
            go_live,
            expire,
        } => plan_filing(alloc, part, *page, *go_live, *expire, caller, now, desk),
        Command::Publish { page } => plan_publish(alloc, part, *page, now),
        Command::Unpublish { page } => plan_unpublish(alloc, part, *page, now),
        Command::Unschedule { page } => plan_unschedule(alloc, part, *page, now),
        Command::Lock { page } => plan_lock(alloc, part, *page, caller, now),
        Command::Unlock { page } => plan_unlock(alloc, part, *page, now),
        Command::Purge { page } => plan_purge(alloc, part, *page, now),
        Command::DefineTask { groups } => plan_task(alloc, part, groups, now),
        Command::DefineWorkflow { tasks } => plan_workflow(alloc, part, tasks, now),
        Command::Assign { page, workflow } => plan_assignment(alloc, part, *page, *workflow, now),
        Command::Submit { page } => plan_submission(alloc, part, *page, caller, now),
        Command::Approve { page } => plan_approval(alloc, part, *page, now),
        Command::Reject { page } => plan_rejection(alloc, part, *page, now),
        Command::Cancel { page } => plan_cancelling(alloc, part, *page, now),
        Command::DefineUser { superuser, digest } => {
            plan_user(alloc, part, *superuser, digest, now)
        }
        Command::DefineGroup => plan_group(alloc, part, now),
        Command::Member { user, group, on } => plan_member(alloc, part, *user, *group, *on, now),
        Command::Grant {
            group,
            page,
            permission,
            on,
        } => plan_grant(alloc, part, *group, *page, *permission, *on, now),
        Command::Tick => plan_tick(alloc, part, now),
        _ => unreachable!(),
    }
}
