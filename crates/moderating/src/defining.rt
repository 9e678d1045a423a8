//! Plans of tasks and workflows that come.
ghost use Rattle.std.specs.Prelude.{◌≡◌, ℕ, Option};
ghost use Rattle.site_types.specs.Content.{ContentValue};
ghost use Rattle.site_types.specs.declared.command.Command.TheVariants as commands;
ghost use Rattle.site_model.specs.World as worlds;
ghost use Rattle.site_part.specs.Plans.{Prepares};
ghost use Rattle.site_part.specs.Standing.{IsSame};
ghost use Rattle.moderating.specs.Asked.{IsAsked};
ghost use Rattle.moderating.specs.Moderated.{ReadiesFlow};

use crate::naming::one_missing;
use crate::telling::{ending, later, no_pages};
use site_part::{Change, Fault, FlowChange, Plan, TreePart};
use site_types::{Ids, LAST_TASK_ID, LAST_WORKFLOW_ID, Moment, NameKind, Refusal, Reply};
use std::alloc::Global;

/// The plan of a task more, which the members of these groups may answer.
///
/// It costs a look at each group and a copy of the list.
pub fn plan_task(
    alloc: Global,
    part: &mut TreePart,
    groups: &Ids,
    now: Moment,
) -> Result<Plan, Fault>
    ensures same { IsSame part.old part.new }
    ensures plan { (world : worlds.TreePart) (desk : Option ContentValue) (caller : ℕ)
        → IsAsked part.old world desk caller (commands.DefineTask groups.now)
        → Prepares world desk now caller (commands.DefineTask groups.now) part.new result }
{
    if one_missing(groups, part.grants.group_count()) {
        return Err(Fault::Refused(Refusal::NoName(NameKind::Group)));
    }
    let count = part.flows.task_count();
    if LAST_TASK_ID <= count {
        return Err(Fault::Refused(Refusal::IdsFull));
    }
    let Ok(groups) = groups.copy(alloc) else {
        return Err(Fault::Memory);
    };
    flow_plan(
        alloc,
        part,
        now,
        Reply::Id(count + 1),
        FlowChange::Task { groups },
    )
}

/// The plan of a workflow more, with these tasks in order.
///
/// It costs a look at each task and a copy of the list.
pub fn plan_workflow(
    alloc: Global,
    part: &mut TreePart,
    tasks: &Ids,
    now: Moment,
) -> Result<Plan, Fault>
    ensures same { IsSame part.old part.new }
    ensures plan { (world : worlds.TreePart) (desk : Option ContentValue) (caller : ℕ)
        → IsAsked part.old world desk caller (commands.DefineWorkflow tasks.now)
        → Prepares world desk now caller (commands.DefineWorkflow tasks.now) part.new result }
{
    if one_missing(tasks, part.flows.task_count()) {
        return Err(Fault::Refused(Refusal::NoName(NameKind::Task)));
    }
    let count = part.flows.workflow_count();
    if LAST_WORKFLOW_ID <= count {
        return Err(Fault::Refused(Refusal::IdsFull));
    }
    let Ok(tasks) = tasks.copy(alloc) else {
        return Err(Fault::Memory);
    };
    flow_plan(
        alloc,
        part,
        now,
        Reply::Id(count + 1),
        FlowChange::Workflow { tasks },
    )
}

/// A plan with this reply and this change, which opens and ends no desk, if memory suffices for room
/// for one task and one workflow.
fn flow_plan(
    alloc: Global,
    part: &mut TreePart,
    now: Moment,
    reply: Reply,
    flows: FlowChange,
) -> Result<Plan, Fault>
    ensures same { IsSame part.old part.new }
    ensures plan { ReadiesFlow part.old part.new now reply flows result }
{
    let Ok(()) = part.flows.reserve(1) else {
        return Err(Fault::Memory);
    };
    let change = Change::of_flows(
        alloc,
        flows,
        later(part.time, now),
        part.next_page,
        part.next_revision,
    );
    Ok(ending(alloc, reply, no_pages(alloc), change))
}
