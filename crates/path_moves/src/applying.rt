//! A move of a page, made as it was planned.
ghost use Rattle.std.specs.Prelude.{◌≡◌, ℕ, ◌+◌, ◌≤◌};
ghost use Rattle.page_tree.specs.Tree.{Forest};
ghost use Rattle.page_tree.specs.Rows.{rows_of};
ghost use Rattle.site_types.specs.declared.body.Body.{Body as PageBody};
ghost use Rattle.site_types.specs.declared.position.Position.{Position as MovePosition};
ghost use Rattle.tree_model.specs.Places.{moved_to};
ghost use Rattle.tree_model.specs.Changes.{with_urls};
ghost use Rattle.page_store.specs.Relabelling.{AreListed, listed_in_either};
ghost use Rattle.path_moves.specs.Applying.{IsPlanned, IsFree};

use page_store::{MovePlan, Rows, Urls};
use std::sync::ledger::Ledger;
use step_path::Steps;

/// Moves a page with all below it as it was planned, and gives the listed pages their new URLs.
///
/// For each move that the plan is one of, the rows are those of the moved tree, where a page whose
/// URL is not listed has the one that it had. Each page that gets a path or a URL takes one step of
/// `steps`, and one step if it gets both. The call costs as much as `range_of` and `relabel` do, however many
/// other pages there are.
pub fn apply<L: Ledger>(rows: &mut Rows, plan: MovePlan, urls: Urls, steps: &mut Steps<L>)
    requires made { (tree : Forest PageBody) × (target : ℕ) × (position : MovePosition)
        × IsPlanned rows.old.pages plan tree target position }
    requires urls { AreListed rows.old.pages urls }
    requires free { IsFree plan rows.old.pages }
    requires spare { 2 ≤ rows.old.spare }
    ensures pages { (tree : Forest PageBody) (target : ℕ) (position : MovePosition) →
        IsPlanned rows.old.pages plan tree target position →
        rows.new.pages ≡ with_urls urls (rows_of tree)
        (rows_of (moved_to tree plan.page target position)) }
    ensures spare { rows.old.spare ≤ rows.new.spare + 2 }
    ensures steps { steps.new ≤ steps.old + listed_in_either plan.rows urls }
{
    let _len = rows.len();
    let Some((from, n)) = rows.range_of(plan.page) else {
        unreachable!();
    };
    rows.relabel(from, n, plan.place, &plan.rows, urls, steps);
}
