//! Plans of commands for the whole site: with the text of the caller's desk, and with room for a desk
//! that is opened.
ghost use Rattle.std.specs.Prelude.{◌≡◌, None, OnOk, IfOk};
ghost use Rattle.std.specs.Option.{option_copied};
ghost use Rattle.site_model.specs.World as worlds;
ghost use Rattle.site_model.specs.Desks.{desk_page};
ghost use Rattle.site_model.specs.Laws.{FitsCommand, FitsDesk};
ghost use Rattle.site_model.specs.Step.{saving};
ghost use Rattle.site_part.specs.Standing as parts_stand;
ghost use Rattle.site_part.specs.Plans as parts;
ghost use Rattle.flat_model.specs.Flat.{lists_of};
ghost use Rattle.part_commits.specs.InStep.{CanStayInStep};
ghost use Rattle.part_commits.specs.Links.{CanPutLinks};
ghost use Rattle.site_core.specs.Standing.{HasDeskRoom, PlansSaving, kept_text};

use crate::desk_parts::DeskParts;
use crate::part::prepare;
use site_part::{Change, Fault, Plan, TreeChange, TreePart};
use site_types::{Command, Content, Moment, NoMemory, PageId, Refusal, Reply, UserId};
use std::alloc::Global;

/// The plan of a command that saves no desk, or why it is refused, or out of memory. There is room for
/// the desk that it opens.
pub(crate) fn prepare_step(
    alloc: Global,
    tree: &mut TreePart,
    desks: &mut DeskParts,
    command: &Command,
    caller: UserId,
    now: Moment,
) -> Result<Plan, Fault>
    requires other { saving command.now ≡ None }
    requires ready { (world : worlds.TreePart) × parts_stand.IsReady tree.old world
        × FitsCommand command.now
        × FitsDesk world caller (desk_page command.now) (kept_text desks.old caller (desk_page command.now)) }
    ensures same { parts_stand.IsSame tree.old tree.new }
    ensures lists { desks.new.lists ≡ desks.old.lists }
    ensures room { IfOk result (λ plan. HasDeskRoom desks.new plan.opened) }
    ensures in_step { (world : worlds.TreePart) → parts_stand.IsReady tree.old world
        → FitsCommand command.now
        → FitsDesk world caller (desk_page command.now) (kept_text desks.old caller (desk_page command.now))
        → IfOk result (λ plan. CanStayInStep tree.new (lists_of world) plan.change) }
    ensures links { (world : worlds.TreePart) → parts_stand.IsReady tree.old world
        → FitsCommand command.now
        → FitsDesk world caller (desk_page command.now) (kept_text desks.old caller (desk_page command.now))
        → IfOk result (CanPutLinks tree.new) }
    ensures plan { (world : worlds.TreePart) → parts_stand.IsReady tree.old world
        → FitsCommand command.now
        → FitsDesk world caller (desk_page command.now) (kept_text desks.old caller (desk_page command.now))
        → parts.Prepares world (kept_text desks.old caller (desk_page command.now)) now caller
        command.now tree.new result }
{
    let desk = own_desk(desks, command, caller);
    match prepare(alloc, tree, command, caller, now, desk) {
        Err(fault) => Err(fault),
        Ok(plan) => match make_room(desks, &plan) {
            Ok(()) => Ok(plan),
            Err(_) => Err(Fault::Memory),
        },
    }
}

/// Makes room for the desk that a plan opens, if it opens one.
fn make_room(desks: &mut DeskParts, plan: &Plan) -> Result<(), NoMemory>
    ensures lists { desks.new.lists ≡ desks.old.lists }
    ensures ok { OnOk result (HasDeskRoom desks.new plan.now.opened) }
{
    match &plan.opened {
        None => Ok(()),
        Some(desk) => desks.reserve(desk.0),
    }
}

/// The text of the caller's own desk that a command looks at. One search.
fn own_desk<'a>(desks: &'a DeskParts, command: &Command, caller: UserId) -> Option<&'a Content>
    ensures { option_copied result ≡ kept_text desks.now caller (desk_page command.now) }
{
    match desk_page(command) {
        None => None,
        Some(page) => desks.text(page, caller),
    }
}

/// The page whose desk, the caller's own, a command looks at.
#[tactic(auto, unfolding(site_model::specs::Desks::desk_page))]
fn desk_page(command: &Command) -> Option<PageId>
    ensures { result ≡ desk_page command.now }
{
    match command {
        Command::OpenDesk { page }
        | Command::SaveDesk { page, .. }
        | Command::ShutDesk { page }
        | Command::File { page, .. } => Some(*page),
        Command::Create { .. }
        | Command::Move { .. }
        | Command::Delete { .. }
        | Command::SetSlug { .. }
        | Command::Alias { .. }
        | Command::Detach { .. }
        | Command::Copy { .. }
        | Command::Publish { .. }
        | Command::Unpublish { .. }
        | Command::Unschedule { .. }
        | Command::Lock { .. }
        | Command::Unlock { .. }
        | Command::Purge { .. }
        | Command::DefineTask { .. }
        | Command::DefineWorkflow { .. }
        | Command::Assign { .. }
        | Command::Submit { .. }
        | Command::Approve { .. }
        | Command::Reject { .. }
        | Command::Cancel { .. }
        | Command::DefineUser { .. }
        | Command::DefineGroup
        | Command::Member { .. }
        | Command::Grant { .. }
        | Command::Tick => None,
    }
}

/// The plan of a text that the caller saves, or `NoDesk` exactly if the caller has no desk on the page,
/// or out of memory. It changes the text alone.
///
/// One search, and a copy of the text.
pub(crate) fn plan_saving(
    alloc: Global,
    tree: &TreePart,
    desks: &DeskParts,
    page: PageId,
    caller: UserId,
    content: &Content,
) -> Result<Plan, Fault>
    ensures { PlansSaving tree.now desks.now page caller content.now result }
{
    if desks.text(page, caller).is_none() {
        return Err(Fault::Refused(Refusal::NoDesk));
    }
    let Ok(text) = content.copy(alloc) else {
        return Err(Fault::Memory);
    };
    let change = Change::of_tree(
        alloc,
        TreeChange::Nothing,
        tree.time,
        tree.next_page,
        tree.next_revision,
    );
    let mut plan = Plan::quiet(alloc, Reply::Done, change);
    plan.saved = Some((page, caller, text));
    Ok(plan)
}
