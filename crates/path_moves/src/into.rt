//! Whether a move leads into the page that moves.
ghost use Rattle.std.specs.Prelude.{◌≡◌, false, IsSome};
ghost use Rattle.page_tree.specs.Tree.{Forest};
ghost use Rattle.page_tree.specs.Rows.{row_with, rows_of};
ghost use Rattle.site_types.specs.declared.body.Body.{Body as PageBody};
ghost use Rattle.site_types.specs.declared.position.Position.{Position as MovePosition};
ghost use Rattle.tree_model.specs.Places.{stays_put, leads_into_itself};

use crate::look::path_of;
use page_store::Rows;
use site_types::PageId;

/// Whether a move of a page to a target leads into the page itself: the target is the page or lies
/// below it.
///
/// `plan_move` refuses the move then. It takes two look-ups and compares two paths, so that a caller
/// can tell before anything is planned.
pub fn leads_into_itself(rows: &Rows, page: PageId, target: PageId) -> bool
    requires page_there { IsSome (row_with page rows.now.pages) }
    requires target_there { IsSome (row_with target rows.now.pages) }
    ensures { (tree : Forest PageBody) (position : MovePosition) → rows.now.pages ≡ rows_of tree
        → stays_put page target position ≡ false
        → result ≡ leads_into_itself tree page target position }
{
    let Some(own) = path_of(rows, page) else {
        unreachable!();
    };
    let Some(goal) = path_of(rows, target) else {
        unreachable!();
    };
    own.begins(&goal)
}
