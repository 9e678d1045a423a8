//! Plans of opening and shutting desks.
ghost use Rattle.std.specs.Prelude.{◌≡◌, ℕ, Option, Some, max};
ghost use Rattle.std.specs.Option.{option_copied};
ghost use Rattle.site_types.specs.Content.{ContentValue};
ghost use Rattle.site_types.specs.declared.command.Command.TheVariants as commands;
ghost use Rattle.site_model.specs.World as worlds;
ghost use Rattle.site_model.specs.Bodies.{latest_content};
ghost use Rattle.site_model.specs.Desks.{open_rules};
ghost use Rattle.site_part.specs.Plans.{Prepares};
ghost use Rattle.site_part.specs.Standing.{IsSame};
ghost use Rattle.moderating.specs.Asked.{IsAsked};
ghost use Rattle.moderating.specs.Plans.{Tells};
ghost use Rattle.flow_edits.specs.Plans.{opening_plan};

use moderating::{ending, later, latest_of, one_page};
use site_part::{Change, Fault, Plan, TreeChange, TreePart};
use site_types::{Content, Moment, PageId, Refusal, Reply, UserId};
use std::alloc::Global;

/// The most desks that may be open.
const MAX_DESKS: usize = 4096;

/// The plan of opening a desk on a page, which its caller may do: the desk has the latest content.
///
/// It costs a few look-ups, one search and a copy of the content.
pub(crate) fn plan_opening(
    alloc: Global,
    part: &mut TreePart,
    page: PageId,
    caller: UserId,
    now: Moment,
) -> Result<Plan, Fault>
    requires { (world : worlds.TreePart) × (desk : Option ContentValue)
        × IsAsked part.old world desk caller (commands.OpenDesk page) }
    ensures same { IsSame part.old part.new }
    ensures plan { (world : worlds.TreePart) (desk : Option ContentValue)
        → IsAsked part.old world desk caller (commands.OpenDesk page)
        → Prepares world desk now caller (commands.OpenDesk page) part.new result }
{
    let text = match open_text(alloc, part, page, caller) {
        Ok(text) => text,
        Err(fault) => return Err(fault),
    };
    let Ok(()) = part.desk_pairs.reserve(1) else {
        return Err(Fault::Memory);
    };
    Ok(opening_of(alloc, part, page, caller, text, now))
}

/// A copy of the latest content of a page on which a desk may be opened, or the rule that refuses
/// it.
fn open_text(alloc: Global, part: &TreePart, page: PageId, caller: UserId) -> Result<Content, Fault>
    requires { (world : worlds.TreePart) × (desk : Option ContentValue)
        × IsAsked part.now world desk caller (commands.OpenDesk page) }
    ensures { (world : worlds.TreePart) (desk : Option ContentValue)
        → IsAsked part.now world desk caller (commands.OpenDesk page)
        → Tells (open_rules world page) (λ text. latest_content world page ≡ Some text) result }
{
    if let Some(user) = part.desk_pairs.user_at(page) {
        return Err(Fault::Refused(Refusal::DeskTaken(user)));
    }
    if MAX_DESKS <= part.desk_pairs.len() {
        return Err(Fault::Refused(Refusal::ContentFull));
    }
    let Some(revision) = latest_of(part, page) else {
        unreachable!();
    };
    match revision.content.copy(alloc) {
        Ok(text) => Ok(text),
        Err(_) => Err(Fault::Memory),
    }
}

/// The plan that opens a user's desk on a page with this text. It takes no memory.
fn opening_of(
    alloc: Global,
    part: &TreePart,
    page: PageId,
    user: UserId,
    text: Content,
    now: Moment,
) -> Plan
    ensures { result ≡ opening_plan page user text (max part.now.time now) part.now.next_page
        part.now.next_revision }
{
    let change = Change::of_tree(
        alloc,
        TreeChange::Nothing,
        later(part.time, now),
        part.next_page,
        part.next_revision,
    );
    let mut plan = Plan::quiet(alloc, Reply::Done, change);
    plan.opened = Some((page, user, text));
    plan
}

/// The plan of shutting the caller's own desk on a page. It costs nothing.
pub(crate) fn plan_shutting(
    alloc: Global,
    part: &TreePart,
    page: PageId,
    now: Moment,
    desk: Option<&Content>,
) -> Result<Plan, Fault>
    ensures { (world : worlds.TreePart) (caller : ℕ)
        → IsAsked part.now world (option_copied desk.entry) caller (commands.ShutDesk page)
        → Prepares world (option_copied desk.entry) now caller (commands.ShutDesk page) part.now
        result }
{
    let Some(_text) = desk else {
        return Err(Fault::Refused(Refusal::NoDesk));
    };
    let Ok(shut) = one_page(alloc, page) else {
        return Err(Fault::Memory);
    };
    let change = Change::of_tree(
        alloc,
        TreeChange::Nothing,
        later(part.time, now),
        part.next_page,
        part.next_revision,
    );
    Ok(ending(alloc, Reply::Done, shut, change))
}
