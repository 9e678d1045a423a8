//! From a command on the tree to its plan.
ghost use Rattle.std.specs.Prelude.{◌≡◌, ℕ, true, Option};
ghost use Rattle.site_types.specs.Content.{ContentValue};
ghost use Rattle.site_model.specs.World as worlds;
ghost use Rattle.site_model.specs.Laws.{FitsCommand};
ghost use Rattle.site_part.specs.Standing.{IsReady, IsSame};
ghost use Rattle.site_part.specs.Plans.{Prepares};
ghost use Rattle.new_pages.specs.Plans.{IsAsked};
ghost use Rattle.tree_edits.specs.OnTree.{is_on_tree};

use crate::deletion::plan_deletion;
use crate::detaching::plan_detaching;
use crate::moving::plan_moving;
use crate::renaming::plan_renaming;
use new_pages::{plan_aliasing, plan_copying, plan_creation};
use site_part::{Fault, Plan, TreePart, front};
use site_types::{Command, Content, Moment, UserId};
use std::alloc::Global;

/// The plan of a command on the tree by a user at a moment, or why it is refused: the first of its
/// rules that refuses it, in the order of their numbers, or out of memory. It changes nothing but
/// spare room.
///
/// None of these commands looks at a desk.
pub fn prepare_tree(
    alloc: Global,
    part: &mut TreePart,
    command: &Command,
    caller: UserId,
    now: Moment,
    _desk: Option<&Content>,
) -> Result<Plan, Fault>
    requires tree { is_on_tree command.now ≡ true }
    requires ready { (world : worlds.TreePart) × IsReady part.old world × FitsCommand command.now }
    ensures same { IsSame part.old part.new }
    ensures plan { (world : worlds.TreePart) (desk : Option ContentValue) → IsReady part.old world
        → FitsCommand command.now → Prepares world desk now caller command.now part.new result }
{
    match front(part, caller, command) {
        Ok(()) => plan_passed(alloc, part, command, caller, now),
        Err(refusal) => Err(Fault::Refused(refusal)),
    }
}

/// The plan of a command on the tree that none of its first six rules refuses.
fn plan_passed(
    alloc: Global,
    part: &mut TreePart,
    command: &Command,
    caller: UserId,
    now: Moment,
) -> Result<Plan, Fault>
    requires tree { is_on_tree command.now ≡ true }
    requires asked { (world : worlds.TreePart) × IsAsked part.old world caller command.now }
    ensures same { IsSame part.old part.new }
    ensures plan { (world : worlds.TreePart) (desk : Option ContentValue)
        → IsAsked part.old world caller command.now
        → Prepares world desk now caller command.now part.new result }
{
    match command {
        Command::Create {
            parent,
            slug,
            content,
        } => plan_creation(alloc, part, *parent, slug, content, caller, now),
        Command::Move {
            page,
            target,
            position,
        } => plan_moving(alloc, part, *page, *target, *position, now),
        Command::Delete { page } => plan_deletion(alloc, part, *page, caller, now),
        Command::SetSlug { page, slug } => plan_renaming(alloc, part, *page, slug, now),
        Command::Alias {
            source,
            parent,
            slug,
        } => plan_aliasing(alloc, part, *source, *parent, slug, caller, now),
        Command::Detach { page } => plan_detaching(alloc, part, *page, caller, now),
        Command::Copy {
            page,
            parent,
            slug,
            deep,
        } => plan_copying(alloc, part, *page, *parent, slug, *deep, caller, now),
        _ => unreachable!(),
    }
}
