//! Plans of ticks.
ghost use Rattle.std.specs.Prelude.{ℕ, Option, ◌≡◌};
ghost use Rattle.site_types.specs.Content.{ContentValue};
ghost use Rattle.site_types.specs.declared.command.Command.TheVariants as commands;
ghost use Rattle.site_model.specs.World as worlds;
ghost use Rattle.site_part.specs.Plans.{Prepares};
ghost use Rattle.moderating.specs.Asked.{IsAsked};
ghost use Rattle.flow_edits.specs.Plans.{ticking_plan};

use moderating::{ending, later, no_pages};
use publishing::{TickPlan, tick_bodies, tick_plan};
use site_part::{Change, Fault, Plan, TreeChange, TreePart};
use site_types::{Body, Items, Moment, PageId, Refusal, Reply};
use std::alloc::Global;

/// The plan of a tick, which its caller may give: pages stop being live, and scheduled revisions are
/// published or dropped.
///
/// It costs two searches, and for each page that is due a few look-ups.
pub(crate) fn plan_tick(alloc: Global, part: &TreePart, now: Moment) -> Result<Plan, Fault>
    requires { (world : worlds.TreePart) × (desk : Option ContentValue) × (caller : ℕ)
        × IsAsked part.now world desk caller commands.Tick }
    ensures { (world : worlds.TreePart) (desk : Option ContentValue) (caller : ℕ)
        → IsAsked part.now world desk caller commands.Tick
        → Prepares world desk now caller commands.Tick part.now result }
{
    let time = later(part.time, now);
    let Ok(due) = tick_plan(alloc, &part.rows, &part.times, &part.shelf, time) else {
        return Err(Fault::Memory);
    };
    if due.is_idle() {
        return Err(Fault::Refused(Refusal::NothingNew));
    }
    let Ok(bodies) = tick_bodies(alloc, &part.rows, &part.times, &part.shelf, time) else {
        return Err(Fault::Memory);
    };
    Ok(ticking_plan(alloc, part, due, bodies, time))
}

/// The plan of a tick by what is due, which gives these pages their fields. It takes no memory.
fn ticking_plan(
    alloc: Global,
    part: &TreePart,
    due: TickPlan,
    bodies: Items<(PageId, Body)>,
    time: Moment,
) -> Plan
    ensures { result
        ≡ ticking_plan due bodies time part.now.next_page part.now.next_revision }
{
    let TickPlan {
        unpublished,
        published,
        dropped,
    } = due;
    let mut change = Change::of_tree(
        alloc,
        TreeChange::Nothing,
        time,
        part.next_page,
        part.next_revision,
    );
    change.bodies = bodies;
    let reply = Reply::Ticked {
        unpublished,
        published,
        dropped,
    };
    ending(alloc, reply, no_pages(alloc), change)
}
