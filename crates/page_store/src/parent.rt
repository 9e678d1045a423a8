//! The page that a position leads below.
ghost use Rattle.std.specs.Prelude.{◌≡◌, true, IsSome, unwrap_or, if◌then◌else◌};
ghost use Rattle.std.specs.Option.{option_and_then};
ghost use Rattle.page_tree.specs.Rows.{row_with};
ghost use Rattle.tree_model.specs.Places.{is_beside};

use crate::Rows;
use site_types::{PageId, Position};

/// The page that a position leads below: the target, or the page above it. One look-up at most.
pub fn new_parent(rows: &Rows, target: PageId, position: Position) -> PageId
    requires target_there { IsSome (row_with target rows.now.pages) }
    requires below_root { is_beside position ≡ true → target ≡ 1 → ⊥ }
    ensures there { IsSome (row_with result rows.now.pages) }
    ensures value { result ≡ (if is_beside position
        then unwrap_or (option_and_then (λ row. row.parent) (row_with target rows.now.pages)) 0 else target) }
{
    if is_beside(position) {
        let _len = rows.len();
        let Some(parent) = rows.parent(target) else {
            unreachable!();
        };
        parent
    } else {
        target
    }
}

/// Whether a position is among the target's siblings.
pub fn is_beside(position: Position) -> bool
    ensures { result ≡ is_beside position }
{
    match position {
        Position::FirstChild | Position::LastChild => false,
        Position::FirstSibling | Position::Left | Position::Right | Position::LastSibling => true,
    }
}
