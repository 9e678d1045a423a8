//! What becomes of tasks and workflows.
ghost use Rattle.std.specs.Prelude.{◌≡◌, ◌<◌, ◌≤◌, [], ◌∷◌, ◌++◌, length};
ghost use Rattle.site_ids.specs.declared.ids.TheConstants.{LAST_TASK_ID, LAST_WORKFLOW_ID};
ghost use Rattle.workflow.specs.Flows.{IsTask, IsWorkflow};
ghost use Rattle.flat_model.specs.Fits.{FlowsFit};
ghost use Rattle.flat_model.specs.Lists.{PartLists};
ghost use Rattle.flat_model.specs.Made.{tasks_made, workflows_made};
ghost use Rattle.site_part.specs.Plans.{flows_needed};

use site_part::FlowChange;
use site_types::Ids;
use workflow::Flows;

/// Puts in the task or the workflow that comes, if one does. It cannot fail, and takes no memory.
pub(crate) fn put_flows(flows: &mut Flows, change: FlowChange)
    requires fits { (lists : PartLists)
        × FlowsFit change (record lists { tasks = flows.old.tasks; workflows = flows.old.workflows }) }
    requires room { flows_needed change ≤ flows.old.spare }
    ensures tasks { flows.new.tasks ≡ tasks_made change flows.old.tasks }
    ensures workflows { flows.new.workflows ≡ workflows_made change flows.old.workflows }
{
    match change {
        FlowChange::Nothing => {}
        FlowChange::Task { groups } => put_task(flows, groups),
        FlowChange::Workflow { tasks } => put_workflow(flows, tasks),
    }
}

/// Puts in a task, for which an id is left.
fn put_task(flows: &mut Flows, groups: Ids)
    requires groups { IsTask groups }
    requires left { length flows.old.tasks < LAST_TASK_ID }
    requires room { 1 ≤ flows.old.spare }
    ensures tasks { flows.new.tasks ≡ flows.old.tasks ++ groups ∷ [] }
    ensures workflows { flows.new.workflows ≡ flows.old.workflows }
{
    match flows.define_task(groups) {
        Ok(_) => {}
        Err(_) => unreachable!(),
    }
}

/// Puts in a workflow, for which an id is left.
fn put_workflow(flows: &mut Flows, tasks: Ids)
    requires tasks { IsWorkflow (length flows.old.tasks) tasks }
    requires left { length flows.old.workflows < LAST_WORKFLOW_ID }
    requires room { 1 ≤ flows.old.spare }
    ensures workflows { flows.new.workflows ≡ flows.old.workflows ++ tasks ∷ [] }
    ensures tasks { flows.new.tasks ≡ flows.old.tasks }
{
    match flows.define_workflow(tasks) {
        Ok(_) => {}
        Err(_) => unreachable!(),
    }
}
