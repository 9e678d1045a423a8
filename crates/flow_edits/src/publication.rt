//! Plans of publishing and unpublishing, and of emptying a schedule.
ghost use Rattle.std.specs.Prelude.{◌≡◌, ℕ, Option};
ghost use Rattle.site_types.specs.Content.{ContentValue};
ghost use Rattle.site_types.specs.declared.command.Command.TheVariants as commands;
ghost use Rattle.site_model.specs.World as worlds;
ghost use Rattle.site_model.specs.Publishing as model;
ghost use Rattle.site_part.specs.Plans.{Prepares};
ghost use Rattle.moderating.specs.Asked.{IsAsked};
ghost use Rattle.flow_edits.specs.Plans.{published_by_command};

use lost_desks::lost_by_moderation;
use moderating::{
    after_publishing, body_plan, is_late, kept_of, later, latest_of, no_pages, same_revision,
};
use publishing::{published_body, unpublished_body, unscheduled_body, waits};
use site_part::{Fault, Plan, TreePart};
use site_types::{Body, Moment, PageId, Refusal, Reply, Revision};
use std::alloc::Global;
use workflow::Flows;

/// The plan of publishing the latest revision of a page, which its caller may do. It gives up a
/// moderation of the page that is not over, and ends the page's desk if that does not stay then.
///
/// It costs a few look-ups, and what `lost_by_moderation` costs.
pub(crate) fn plan_publish(
    alloc: Global,
    part: &TreePart,
    page: PageId,
    now: Moment,
) -> Result<Plan, Fault>
    requires { (world : worlds.TreePart) × (desk : Option ContentValue) × (caller : ℕ)
        × IsAsked part.now world desk caller (commands.Publish page) }
    ensures { (world : worlds.TreePart) (desk : Option ContentValue) (caller : ℕ)
        → IsAsked part.now world desk caller (commands.Publish page)
        → Prepares world desk now caller (commands.Publish page) part.now result }
{
    let body = kept_of(part, page);
    let Some(revision) = latest_of(part, page) else {
        unreachable!();
    };
    let time = later(part.time, now);
    if is_out(time, revision, &body) {
        return Err(Fault::Refused(Refusal::NothingNew));
    }
    if is_late(time, revision) {
        return Err(Fault::Refused(Refusal::AlreadyExpired));
    }
    let reply = Reply::Published {
        scheduled: waits(revision, time),
    };
    let after = published_by_command(&part.flows, revision, &body, time);
    let Ok(shut) = lost_by_moderation(alloc, part, page, after.moderation) else {
        return Err(Fault::Memory);
    };
    body_plan(alloc, part, page, after, time, reply, shut)
}

/// The plan of unpublishing a page, which its caller may do. One look-up.
pub(crate) fn plan_unpublish(
    alloc: Global,
    part: &TreePart,
    page: PageId,
    now: Moment,
) -> Result<Plan, Fault>
    requires { (world : worlds.TreePart) × (desk : Option ContentValue) × (caller : ℕ)
        × IsAsked part.now world desk caller (commands.Unpublish page) }
    ensures { (world : worlds.TreePart) (desk : Option ContentValue) (caller : ℕ)
        → IsAsked part.now world desk caller (commands.Unpublish page)
        → Prepares world desk now caller (commands.Unpublish page) part.now result }
{
    let body = kept_of(part, page);
    if !body.live {
        return Err(Fault::Refused(Refusal::NotLive));
    }
    let after = unpublished_body(&body);
    let time = later(part.time, now);
    body_plan(alloc, part, page, after, time, Reply::Done, no_pages(alloc))
}

/// The plan of emptying the schedule of a page, which its caller may do. One look-up.
pub(crate) fn plan_unschedule(
    alloc: Global,
    part: &TreePart,
    page: PageId,
    now: Moment,
) -> Result<Plan, Fault>
    requires { (world : worlds.TreePart) × (desk : Option ContentValue) × (caller : ℕ)
        × IsAsked part.now world desk caller (commands.Unschedule page) }
    ensures { (world : worlds.TreePart) (desk : Option ContentValue) (caller : ℕ)
        → IsAsked part.now world desk caller (commands.Unschedule page)
        → Prepares world desk now caller (commands.Unschedule page) part.now result }
{
    let body = kept_of(part, page);
    if body.scheduled.is_none() {
        return Err(Fault::Refused(Refusal::NothingNew));
    }
    let after = unscheduled_body(&body);
    let time = later(part.time, now);
    body_plan(alloc, part, page, after, time, Reply::Done, no_pages(alloc))
}

/// A page with these fields after a revision of it was published by a command at a moment: a moderation
/// that was not over is given up.
fn published_by_command(flows: &Flows, revision: &Revision, body: &Body, time: Moment) -> Body
    ensures { result ≡ published_by_command time revision.now body.now }
{
    let out = published_body(revision, body, time);
    Body {
        moderation: after_publishing(flows, body),
        ..out
    }
}

/// Whether to publish this latest revision changes nothing: the page is live and shows it, or it is
/// scheduled and waits for its go-live.
fn is_out(time: Moment, revision: &Revision, body: &Body) -> bool
    ensures { result ≡ model.is_out time revision.now body.now }
{
    (body.live && same_revision(body.shown, body.latest))
        || (same_revision(body.scheduled, body.latest) && waits(revision, time))
}
