//! Where a new page goes.
ghost use Rattle.std.specs.Prelude.{◌≡◌, ◌≤◌, IsSome};
ghost use Rattle.std.specs.Option.{SomeIff};
ghost use Rattle.page_tree.specs.Tree.{Forest};
ghost use Rattle.page_tree.specs.Rows.{row_with, rows_of};
ghost use Rattle.site_types.specs.declared.body.Body.{Body as PageBody};
ghost use Rattle.path_moves.specs.Append.{path_below, appended_path};
ghost use Rattle.tree_rows.specs.Subtree.{step_after};

use crate::PathFault;
use crate::look::{last_path, path_of};
use page_store::Rows;
use site_types::PageId;
use step_path::{LAST_STEP, Path, Step};

/// The path of a page that is appended below another: `StepsFull` where the step behind the last kid
/// is above 1,679,615, `TooDeep` where the page above has 63 steps.
///
/// A hole that a page left stays a hole. It costs as much as `range_of` and three look-ups, however
/// many kids there are.
pub fn plan_append(rows: &Rows, parent: PageId) -> Result<Path, PathFault>
    requires there { IsSome (row_with parent rows.now.pages) }
    ensures { (tree : Forest PageBody) → rows.now.pages ≡ rows_of tree → result ≡ appended_path parent tree }
{
    let Some(path) = path_of(rows, parent) else {
        unreachable!();
    };
    let Some(last) = last_path(rows, parent) else {
        unreachable!();
    };
    below(&path, &last)
}

/// The path behind the last page below this one, whose path is given.
fn below(path: &Path, last: &Path) -> Result<Path, PathFault>
    ensures { result ≡ path_below path.now (step_after path.now last.now) }
{
    let Some(step) = next_step(path, last) else {
        return Err(PathFault::StepsFull);
    };
    match path.child(step) {
        Some(child) => Ok(child),
        None => Err(PathFault::TooDeep),
    }
}

/// The step behind the last kid, or `None` exactly where that is above the greatest step.
pub(crate) fn next_step(path: &Path, last: &Path) -> Option<Step>
    ensures { SomeIff result (step_after path.now last.now ≤ LAST_STEP) (step_after path.now last.now) }
{
    match last.step_at(path.depth() as usize) {
        Some(step) => step.next(),
        None => Some(Step::first()),
    }
}
