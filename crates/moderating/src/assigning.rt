//! Plans of the assignment of a workflow to a page.
ghost use Rattle.std.specs.Prelude.{◌≡◌, ◌+◌, ℕ, Option};
ghost use Rattle.site_types.specs.Content.{ContentValue};
ghost use Rattle.site_types.specs.declared.command.Command.TheVariants as commands;
ghost use Rattle.site_model.specs.Bodies.{same_number};
ghost use Rattle.site_model.specs.World as worlds;
ghost use Rattle.site_part.specs.Plans.{Prepares};
ghost use Rattle.moderating.specs.Asked.{IsAsked};
ghost use Rattle.moderating.specs.Moderated.{names_none, assigned_body};

use crate::naming::is_missing;
use crate::telling::{body_plan, kept_of, later, no_pages};
use site_part::{Fault, Plan, TreePart};
use site_types::{Body, Moment, NameKind, PageId, Refusal, Reply, WorkflowId};
use std::alloc::Global;

/// The plan of the assignment of a workflow to a page, or of none.
///
/// It costs a look-up.
pub fn plan_assignment(
    alloc: Global,
    part: &TreePart,
    page: PageId,
    workflow: Option<WorkflowId>,
    now: Moment,
) -> Result<Plan, Fault>
    requires { (world : worlds.TreePart) × (desk : Option ContentValue) × (caller : ℕ)
        × IsAsked part.now world desk caller (commands.Assign page workflow) }
    ensures { (world : worlds.TreePart) (desk : Option ContentValue) (caller : ℕ)
        → IsAsked part.now world desk caller (commands.Assign page workflow)
        → Prepares world desk now caller (commands.Assign page workflow) part.now result }
{
    let body = kept_of(part, page);
    let after = assigned_body(&body, workflow);
    if same_workflow(&body, &after) {
        return Err(Fault::Refused(Refusal::NothingNew));
    }
    if names_none(&after, part.flows.workflow_count()) {
        return Err(Fault::Refused(Refusal::NoName(NameKind::Workflow)));
    }
    let time = later(part.time, now);
    body_plan(alloc, part, page, after, time, Reply::Done, no_pages(alloc))
}

/// A page with these fields to which a workflow, or none, is assigned.
fn assigned_body(body: &Body, workflow: Option<WorkflowId>) -> Body
    ensures { result ≡ assigned_body workflow body.now }
{
    Body { workflow, ..*body }
}

/// Whether two pages with these fields have the same workflow, or both have none.
fn same_workflow(one: &Body, other: &Body) -> bool
    ensures { result ≡ same_number one.now.workflow other.now.workflow }
{
    match one.workflow {
        Some(own) => match other.workflow {
            Some(workflow) => own == workflow,
            None => false,
        },
        None => other.workflow.is_none(),
    }
}

/// Whether a page with these fields has a workflow that is not from 1 to the number of all.
fn names_none(body: &Body, count: u32) -> bool
    ensures { result ≡ names_none (count + 1) body.now.workflow }
{
    match body.workflow {
        Some(workflow) => is_missing(workflow.get(), count),
        None => false,
    }
}
