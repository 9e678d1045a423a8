//! Commands on the tree part: what will be done is found out before anything changes.
ghost use Rattle.std.specs.Prelude.{◌≡◌, None, IfOk};
ghost use Rattle.std.specs.Option.{option_copied};
ghost use Rattle.site_model.specs.World as worlds;
ghost use Rattle.site_model.specs.Desks.{desk_page};
ghost use Rattle.site_model.specs.Laws.{FitsCommand, FitsDesk};
ghost use Rattle.site_model.specs.Step.{saving};
ghost use Rattle.flat_model.specs.Flat.{lists_of};
ghost use Rattle.site_part.specs.Standing.{IsReady, IsSame};
ghost use Rattle.site_part.specs.Plans.{Prepares};
ghost use Rattle.part_commits.specs.InStep.{CanStayInStep};
ghost use Rattle.part_commits.specs.Links.{CanPutLinks};

use crate::group::{Group, group_of};
use crate::linking::find_links;
use flow_edits::prepare_flow;
use part_commits::make_room;
use site_part::{Fault, Plan, TreePart};
use site_types::{Command, Content, Moment, UserId};
use std::alloc::Global;
use tree_edits::prepare_tree;

/// The plan of a command by a user at a moment, with room for all that it changes, or why it is
/// refused: the first of its rules that refuses it, in the order of their numbers, or out of
/// memory. It changes nothing but spare room. `desk` is the text of the user's own desk on the page
/// that the command looks at. A text is saved by the whole site alone.
///
/// It costs what the command's rules, the memory for it and `plan_links` cost.
pub fn prepare(
    alloc: Global,
    part: &mut TreePart,
    command: &Command,
    caller: UserId,
    now: Moment,
    desk: Option<&Content>,
) -> Result<Plan, Fault>
    requires other { saving command.now ≡ None }
    requires ready { (world : worlds.TreePart) × IsReady part.old world × FitsCommand command.now
        × FitsDesk world caller (desk_page command.now) (option_copied desk) }
    ensures same { IsSame part.old part.new }
    ensures plan { (world : worlds.TreePart) → IsReady part.old world → FitsCommand command.now
        → FitsDesk world caller (desk_page command.now) (option_copied desk.entry)
        → Prepares world (option_copied desk.entry) now caller command.now part.new result }
    ensures in_step { (world : worlds.TreePart) → IsReady part.old world → FitsCommand command.now
        → FitsDesk world caller (desk_page command.now) (option_copied desk.entry)
        → IfOk result (λ plan. CanStayInStep part.new (lists_of world) plan.change) }
    ensures links { (world : worlds.TreePart) → IsReady part.old world → FitsCommand command.now
        → FitsDesk world caller (desk_page command.now) (option_copied desk.entry)
        → IfOk result (CanPutLinks part.new) }
{
    let _seconds = now.get();
    let _len = part.rows.len();
    match find_plan(alloc, part, command, caller, now, desk) {
        Err(fault) => Err(fault),
        Ok(mut plan) => match make_room(part, &plan.change) {
            Ok(()) => match find_links(alloc, part, &plan.change) {
                Ok(links) => {
                    plan.links = links;
                    Ok(plan)
                }
                Err(_) => Err(Fault::Memory),
            },
            Err(_) => Err(Fault::Memory),
        },
    }
}

/// The plan of a command by a user at a moment, or why it is refused, as its group has it.
fn find_plan(
    alloc: Global,
    part: &mut TreePart,
    command: &Command,
    caller: UserId,
    now: Moment,
    desk: Option<&Content>,
) -> Result<Plan, Fault>
    requires other { saving command.now ≡ None }
    requires ready { (world : worlds.TreePart) × IsReady part.old world × FitsCommand command.now
        × FitsDesk world caller (desk_page command.now) (option_copied desk) }
    ensures same { IsSame part.old part.new }
    ensures plan { (world : worlds.TreePart) → IsReady part.old world → FitsCommand command.now
        → FitsDesk world caller (desk_page command.now) (option_copied desk.entry)
        → Prepares world (option_copied desk.entry) now caller command.now part.new result }
{
    match group_of(command) {
        Group::Tree => prepare_tree(alloc, part, command, caller, now, desk),
        Group::Flow => prepare_flow(alloc, part, command, caller, now, desk),
        Group::Save => unreachable!(),
    }
}
