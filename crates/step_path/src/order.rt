//! The order of the texts of paths.
ghost use Rattle.std.specs.Prelude.{◌≡◌, ◌↔◌, IsTrue};
ghost use Rattle.step_path.specs.Order.{path_cmp};
ghost use Rattle.step_path.specs.Path.{IsPathText, BeginsWith, steps_of};

use std::cmp::Ordering;

/// Compares two texts of paths, and so the paths, step by step: the depth-first order of a tree.
///
/// The bytes are compared as they stand, as a database does with treebeard's `path` column.
pub fn compare_texts(a: &[u8], b: &[u8]) -> Ordering
    requires first { IsPathText a.now }
    requires second { IsPathText b.now }
    ensures { result ≡ path_cmp (steps_of a.now) (steps_of b.now) }
{
    a.cmp(b)
}

/// Whether the path with text `whole` begins with the steps of the path with text `front`.
pub fn text_begins(front: &[u8], whole: &[u8]) -> bool
    requires first { IsPathText front.now }
    requires second { IsPathText whole.now }
    ensures { IsTrue result ↔ BeginsWith (steps_of front.now) (steps_of whole.now) }
{
    whole.starts_with(front)
}
