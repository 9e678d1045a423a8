//! Where a page goes that is moved, and which paths change.
ghost use Rattle.std.specs.Prelude.{◌≡◌, ◌⊎◌, ◌+◌, ◌-◌, ◌<◌, ◌≤◌, true, false, Some, IsSome, IfOk, IfErr, ◌++◌, map, min, take, drop, length, slice_get, unwrap_or, if◌then◌else◌};
ghost use Rattle.std.specs.Option.{option_and_then, SomeIff};
ghost use Rattle.std.specs.List.{AllByRecursion};
ghost use Rattle.page_tree.specs.Tree.{Forest};
ghost use Rattle.page_tree.specs.Rows.{row_with, rows_of};
ghost use Rattle.step_path.specs.declared.step.TheConstants.{LAST_STEP};
ghost use Rattle.step_path.specs.Path.{BeginsWith};
ghost use Rattle.site_types.specs.declared.body.Body.{Body as PageBody};
ghost use Rattle.tree_model.specs.Places.{is_beside, stays_put};
ghost use Rattle.page_store.specs.Pages.{Page};
ghost use Rattle.tree_rows.specs.Cuts.{other_rows};
ghost use Rattle.path_moves.specs.Plans.{UnlessMemory, planned_move};
ghost use Rattle.tree_rows.specs.Subtree.{step_after};
ghost use Rattle.path_moves.specs.Spots.{last_place, path_of_spot, rows_between, moved_pair, raised_pair, FitBelow, GoesUp};
ghost use Rattle.path_moves.specs.declared.fault.PathFault.TheVariants.{StepsFull, TooDeep, Memory};

use crate::PathFault;
use crate::append::next_step;
use crate::relabel::{list_moved, list_raised};
use crate::spot::{Spot, last_place, place_of_spot, place_past, place_without, spot_for};
use crate::standing::{Standing, find, row_at};
use page_store::{MovePlan, Relabels, Rows, new_parent};
use site_types::{PageId, Position};
use std::alloc::Global;
use step_path::{Path, Step};

/// The plan of a move of a page with all below it to a position at a target page: `IntoItself` where
/// the target is the page or lies below it, `StepsFull` where the step behind the last kid that the
/// new parent keeps is above 1,679,615, `TooDeep` where a page would have more than 63 steps.
///
/// The page takes the step of the sibling that it goes before, and that sibling and each later one
/// go up by one; a hole that the page leaves stays a hole. It costs three times what `range_of`
/// does, and a look-up for each page that moves and for each later sibling and all below it.
pub fn plan_move(
    alloc: Global,
    rows: &Rows,
    page: PageId,
    target: PageId,
    position: Position,
) -> Result<MovePlan, PathFault>
    requires page_there { IsSome (row_with page rows.now.pages) }
    requires target_there { IsSome (row_with target rows.now.pages) }
    requires below_root { is_beside position ≡ true → (page ≡ 1 → ⊥) × (target ≡ 1 → ⊥) }
    requires apart { stays_put page target position ≡ false }
    ensures { (tree : Forest PageBody) → rows.now.pages ≡ rows_of tree
        → UnlessMemory (planned_move tree page target position) result }
{
    let own = find(rows, page);
    let goal = find(rows, target);
    if own.path.begins(&goal.path) {
        return Err(PathFault::IntoItself);
    }
    let parent = new_parent(rows, target, position);
    let above = find(rows, parent);
    let end = above.place + above.count;
    let Some(next) = next_kid(rows, &own, &above) else {
        return Err(PathFault::StepsFull);
    };
    let behind = place_past(&own, goal.place + goal.count);
    let spot = spot_for(position, goal.place, behind, end);
    let Some(path) = path_of_spot(rows, &above.path, next, spot) else {
        return Err(PathFault::TooDeep);
    };
    let from = place_of_spot(spot, above.place, end);
    match changes(alloc, rows, &own, &path, &above.path, from, end) {
        Ok(changed) => Ok(MovePlan {
            page,
            parent,
            place: place_without(&own, from),
            rows: changed,
        }),
        Err(fault) => Err(fault),
    }
}

/// The step behind the last kid that a parent keeps where a page moves, or `None` exactly where that
/// is above the greatest step.
fn next_kid(rows: &Rows, own: &Standing, above: &Standing) -> Option<Step>
    requires own { own.now.place + own.now.count < 18446744073709551616 }
    requires above { above.now.place + above.now.count < 18446744073709551616 }
    requires within { last_place own.now.place own.now.count
        (above.now.place + above.now.count) < length rows.now.pages }
    ensures { (last : Page)
        → slice_get rows.now.pages
        (last_place own.now.place own.now.count (above.now.place + above.now.count)) ≡ Some last
        → SomeIff result (step_after above.now.path last.path ≤ LAST_STEP)
        (step_after above.now.path last.path) }
{
    let Some(row) = row_at(rows, last_place(own, above.place + above.count)) else {
        unreachable!();
    };
    next_step(&above.path, &row.1)
}

/// The path that a page takes at a spot below a page, where the step behind the last kid is given.
fn path_of_spot(rows: &Rows, above: &Path, next: Step, spot: Spot) -> Option<Path>
    ensures { path_of_spot rows.now.pages above.now next spot result }
{
    match spot {
        Spot::First => above.child(Step::first()),
        Spot::Before(place) => match row_at(rows, place) {
            Some(row) => Some(row.1),
            None => None,
        },
        Spot::End => above.child(next),
    }
}

/// The pages whose path changes where a page takes this path, and the rows between two places take
/// the next step below `above`.
fn changes(
    alloc: Global,
    rows: &Rows,
    own: &Standing,
    path: &Path,
    above: &Path,
    from: usize,
    end: usize,
) -> Result<Relabels, PathFault>
    requires own { own.now.place + own.now.count ≤ length rows.now.pages }
    requires within { end ≤ length rows.now.pages }
    requires below { AllByRecursion (λ row. BeginsWith own.now.path row.path)
        (take own.now.count (drop own.now.place rows.now.pages)) }
    ensures same { own.now.path ≡ path.now → from ≤ end → IfOk result
        (λ list. list ≡ map (raised_pair (length above.now))
        (other_rows own.now.path (rows_between from end rows.now.pages))) }
    ensures other { (own.now.path ≡ path.now → ⊥) → from ≤ end → IfOk result
        (λ list. list ≡ map (moved_pair own.now.path path.now)
        (take own.now.count (drop own.now.place rows.now.pages))
        ++ map (raised_pair (length above.now))
        (other_rows own.now.path (rows_between from end rows.now.pages))) }
    ensures fits { (own.now.path ≡ path.now → ⊥) → IfOk result
        (λ _. FitBelow own.now.path path.now (take own.now.count (drop own.now.place rows.now.pages))) }
    ensures err { IfErr result (λ fault. (fault ≡ Memory)
        ⊎ (((fault ≡ TooDeep) × (own.now.path ≡ path.now → ⊥)
        × (FitBelow own.now.path path.now (take own.now.count (drop own.now.place rows.now.pages)) → ⊥))
        ⊎ ((fault ≡ StepsFull) × (AllByRecursion (λ row. GoesUp above.now row.path)
        (other_rows own.now.path (rows_between from end rows.now.pages)) → ⊥)))) }
{
    let Ok(mut list) = Vec::with_capacity(alloc, listed(own, path, from, end)) else {
        return Err(PathFault::Memory);
    };
    if own.path != *path {
        match list_moved(&mut list, rows, own, path) {
            Ok(()) => {}
            Err(fault) => return Err(fault),
        }
    }
    match list_raised(&mut list, rows, own, above, from, end) {
        Ok(()) => Ok(Relabels::from_vec(list)),
        Err(fault) => Err(fault),
    }
}

/// How many pages are listed: those that move, unless their paths stay, and those between two places
/// that do not move.
fn listed(own: &Standing, path: &Path, from: usize, end: usize) -> usize {
    let moved = if own.path == *path { 0 } else { own.count };
    let between = end.saturating_sub(from);
    let inside = from <= own.place && own.place < end;
    let raised = if inside {
        between.saturating_sub(own.count)
    } else {
        between
    };
    moved.saturating_add(raised)
}
