//! Plans of submissions, and of answers to moderations.
ghost use Rattle.std.specs.Prelude.{◌≡◌, ℕ, Option};
ghost use Rattle.site_types.specs.Content.{ContentValue};
ghost use Rattle.site_types.specs.declared.command.Command.TheVariants as commands;
ghost use Rattle.site_model.specs.World as worlds;
ghost use Rattle.site_part.specs.Plans.{Prepares};
ghost use Rattle.site_part.specs.Standing.{IsReady};
ghost use Rattle.moderating.specs.Asked.{IsAsked};
ghost use Rattle.moderating.specs.Moderated.{moderated_plan};
ghost use Rattle.moderating.specs.Plans.{Plans};

use crate::events::{approved, cancelled, rejected, submitted};
use crate::lateness::{approved_revision, body_published, is_any_late};
use crate::telling::{body_plan, kept_of, later};
use lost_desks::lost_by_moderation;
use site_part::{Fault, Plan, TreePart};
use site_types::{Body, Moderation, Moment, PageId, Refusal, Reply, UserId};
use std::alloc::Global;

/// The plan of the submission of a page by this user, which its caller may do: a moderation that needs
/// changes goes on, and else one begins at the first task of the nearest workflow.
///
/// It costs two look-ups for each page up to the one with the workflow, and what
/// `lost_by_moderation` costs.
pub fn plan_submission(
    alloc: Global,
    part: &TreePart,
    page: PageId,
    caller: UserId,
    now: Moment,
) -> Result<Plan, Fault>
    requires { (world : worlds.TreePart) × (desk : Option ContentValue)
        × IsAsked part.now world desk caller (commands.Submit page) }
    ensures { (world : worlds.TreePart) (desk : Option ContentValue)
        → IsAsked part.now world desk caller (commands.Submit page)
        → Prepares world desk now caller (commands.Submit page) part.now result }
{
    let body = kept_of(part, page);
    let Some(latest) = body.latest else {
        unreachable!();
    };
    match submitted(&part.rows, &part.flows, page, &body, latest, caller) {
        Some(left) => {
            let time = later(part.time, now);
            moderated_plan(alloc, part, page, &body, &left, time)
        }
        None => Err(Fault::Refused(Refusal::NoWorkflow)),
    }
}

/// The plan of the approval of the current task of a page's moderation, which its caller may do: it
/// goes on to the next task, or is approved after the last, and then its revision is published.
///
/// It costs a few look-ups, and what `lost_by_moderation` costs.
pub fn plan_approval(
    alloc: Global,
    part: &TreePart,
    page: PageId,
    now: Moment,
) -> Result<Plan, Fault>
    requires { (world : worlds.TreePart) × (desk : Option ContentValue) × (caller : ℕ)
        × IsAsked part.now world desk caller (commands.Approve page) }
    ensures { (world : worlds.TreePart) (desk : Option ContentValue) (caller : ℕ)
        → IsAsked part.now world desk caller (commands.Approve page)
        → Prepares world desk now caller (commands.Approve page) part.now result }
{
    let body = kept_of(part, page);
    let Some(left) = approved(&part.flows, &body) else {
        return Err(Fault::Refused(Refusal::NotModerated));
    };
    let time = later(part.time, now);
    let revision = approved_revision(&part.shelf, &left);
    if is_any_late(time, revision) {
        return Err(Fault::Refused(Refusal::AlreadyExpired));
    }
    let after = body_published(&body, revision, time);
    moderated_plan(alloc, part, page, &after, &left, time)
}

/// The plan of the rejection of the current task of a page's moderation, which its caller may do: it
/// needs changes there.
///
/// It costs a look-up, and what `lost_by_moderation` costs.
pub fn plan_rejection(
    alloc: Global,
    part: &TreePart,
    page: PageId,
    now: Moment,
) -> Result<Plan, Fault>
    requires { (world : worlds.TreePart) × (desk : Option ContentValue) × (caller : ℕ)
        × IsAsked part.now world desk caller (commands.Reject page) }
    ensures { (world : worlds.TreePart) (desk : Option ContentValue) (caller : ℕ)
        → IsAsked part.now world desk caller (commands.Reject page)
        → Prepares world desk now caller (commands.Reject page) part.now result }
{
    let body = kept_of(part, page);
    match rejected(&part.flows, &body) {
        Some(left) => moderated_plan(alloc, part, page, &body, &left, later(part.time, now)),
        None => Err(Fault::Refused(Refusal::NotModerated)),
    }
}

/// The plan of a moderation that is given up, which its caller may do.
///
/// It costs a look-up, and what `lost_by_moderation` costs.
pub fn plan_cancelling(
    alloc: Global,
    part: &TreePart,
    page: PageId,
    now: Moment,
) -> Result<Plan, Fault>
    requires { (world : worlds.TreePart) × (desk : Option ContentValue) × (caller : ℕ)
        × IsAsked part.now world desk caller (commands.Cancel page) }
    ensures { (world : worlds.TreePart) (desk : Option ContentValue) (caller : ℕ)
        → IsAsked part.now world desk caller (commands.Cancel page)
        → Prepares world desk now caller (commands.Cancel page) part.now result }
{
    let body = kept_of(part, page);
    match cancelled(&part.flows, &body) {
        Some(left) => moderated_plan(alloc, part, page, &body, &left, later(part.time, now)),
        None => Err(Fault::Refused(Refusal::NotModerated)),
    }
}

/// The plan that gives a page these fields and this moderation, and ends the desk on the page if it
/// does not stay with that.
fn moderated_plan(
    alloc: Global,
    part: &TreePart,
    page: PageId,
    body: &Body,
    left: &Moderation,
    time: Moment,
) -> Result<Plan, Fault>
    ensures { (world : worlds.TreePart) → IsReady part.now world
        → Plans (moderated_plan world page body.now left.now time part.now.next_page
        part.now.next_revision) result }
{
    let Ok(shut) = lost_by_moderation(alloc, part, page, Some(*left)) else {
        return Err(Fault::Memory);
    };
    let reply = Reply::Moderated {
        status: left.status,
        task: left.task,
    };
    let after = Body {
        moderation: Some(*left),
        ..*body
    };
    body_plan(alloc, part, page, after, time, reply, shut)
}
