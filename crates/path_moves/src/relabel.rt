//! The pages whose path changes with a move.
ghost use Rattle.std.specs.Prelude.{◌≡◌, ◌+◌, ◌≤◌, ◌<◌, ◌⊎◌, ℕ, List, ◌∷◌, ◌++◌, OnOk, IfOk, IfErr, IfSome, IsSome, map, take, drop, length};
ghost use Rattle.std.specs.List.{AllByRecursion};
ghost use Rattle.step_path.specs.Path.{BeginsWith};
ghost use Rattle.path_moves.specs.declared.fault.PathFault.TheVariants.{StepsFull, TooDeep, Memory};
ghost use Rattle.tree_rows.specs.Cuts.{other_rows, raised_path};
ghost use Rattle.path_moves.specs.Spots.{rows_between, moved_pair, raised_pair, FitBelow, GoesUp};

use crate::PathFault;
use crate::standing::{Standing, row_at};
use page_store::Rows;
use site_types::PageId;
use step_path::Path;

/// Lists the page and all below it, with the page's new path in place of the old one.
///
/// `TooDeep` where one of them would have more than 63 steps.
pub(crate) fn list_moved(
    list: &mut Vec<(PageId, Path)>,
    rows: &Rows,
    own: &Standing,
    path: &Path,
) -> Result<(), PathFault>
    requires within { own.now.place + own.now.count ≤ length rows.now.pages }
    requires below { AllByRecursion (λ row. BeginsWith own.now.path row.path)
        (take own.now.count (drop own.now.place rows.now.pages)) }
    ensures ok { OnOk result (list.new.items ≡ list.old.items
        ++ map (moved_pair own.now.path path.now) (take own.now.count (drop own.now.place rows.now.pages))) }
    ensures fits { IfOk result
        (λ _. FitBelow own.now.path path.now
        (take own.now.count (drop own.now.place rows.now.pages))) }
    ensures err { IfErr result (λ fault. (fault ≡ Memory) ⊎ ((fault ≡ TooDeep)
        × (FitBelow own.now.path path.now (take own.now.count (drop own.now.place rows.now.pages)) → ⊥))) }
{
    let _len = rows.len();
    for done in 0..own.count {
        let Some(row) = row_at(rows, own.place + done) else {
            unreachable!();
        };
        let Some(new) = row.1.with_prefix(&own.path, path) else {
            return Err(PathFault::TooDeep);
        };
        match list.push((row.0, new)) {
            Ok(()) => {}
            Err(_) => return Err(PathFault::Memory),
        }
    }
    Ok(())
}

/// Lists the rows between two places that do not move, each with its step below `above` one higher.
///
/// `StepsFull` where one of them has no step there that is below the greatest.
pub(crate) fn list_raised(
    list: &mut Vec<(PageId, Path)>,
    rows: &Rows,
    own: &Standing,
    above: &Path,
    from: usize,
    end: usize,
) -> Result<(), PathFault>
    requires within { end ≤ length rows.now.pages }
    ensures ok { from ≤ end → OnOk result (list.new.items ≡ list.old.items
        ++ map (raised_pair (length above.now))
        (other_rows own.now.path (rows_between from end rows.now.pages))) }
    ensures err { IfErr result (λ fault. (fault ≡ Memory) ⊎ ((fault ≡ StepsFull)
        × (AllByRecursion (λ row. GoesUp above.now row.path)
        (other_rows own.now.path (rows_between from end rows.now.pages)) → ⊥))) }
{
    for place in from..end {
        let Some(row) = row_at(rows, place) else {
            unreachable!();
        };
        if own.path.begins(&row.1) {
            continue;
        }
        let Some(higher) = raised(&row.1, above) else {
            return Err(PathFault::StepsFull);
        };
        match list.push((row.0, higher)) {
            Ok(()) => {}
            Err(_) => return Err(PathFault::Memory),
        }
    }
    Ok(())
}

/// The path with the step below `above` one higher, where it goes on from that one by a step below
/// the greatest.
fn raised(path: &Path, above: &Path) -> Option<Path>
    ensures value { IfSome result (λ higher. higher ≡ raised_path (length above.now) path.now) }
    ensures there { GoesUp above.now path.now → IsSome result }
{
    let _depth = path.depth();
    let Some(step) = path.step_at(above.depth() as usize) else {
        return None;
    };
    let Some(next) = step.next() else {
        return None;
    };
    let Some(old) = above.child(step) else {
        return None;
    };
    let Some(new) = above.child(next) else {
        return None;
    };
    if old.begins(path) {
        path.with_prefix(&old, &new)
    } else {
        None
    }
}
