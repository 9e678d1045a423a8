//! Positions of moves.

/// Where a move puts a page, by a target page (django-treebeard 4.6, `MP_Node.move`).
#[derive(Clone, Copy, Debug, PartialEq, Eq)]
pub enum Position {
    /// Below the target, before its kids.
    FirstChild,
    /// Below the target, after its kids.
    LastChild,
    /// Before all siblings of the target.
    FirstSibling,
    /// Before the target.
    Left,
    /// Behind the target.
    Right,
    /// Behind all siblings of the target.
    LastSibling,
}
