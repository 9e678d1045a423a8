//! Lists of pages with paths.
ghost use Rattle.std.specs.Prelude.{◌≡◌, ◌==◌, length};

use site_types::PageId;
use std::marker::Model;
use step_path::Path;

/// Pages, each with a path that it is to get. A contract sees the list of the pairs.
#[derive(Drop)]
pub struct Relabels {
    pairs: Vec<(PageId, Path)>,
}

impl Model for Relabels {
    ghost use Rattle.std.specs.Prelude.{ℕ, List};

    ghost Value = { List (ℕ × List ℕ) };

    ghost view = { λ relabels. relabels.pairs.items };
}

impl Relabels {
    /// The list of these pairs, in their order.
    pub fn from_vec(pairs: Vec<(PageId, Path)>) -> Self
        ensures { result ≡ pairs.items }
    {
        Relabels { pairs }
    }

    /// The pairs, given back with their memory.
    pub fn into_vec(self) -> Vec<(PageId, Path)>
        ensures { result.items ≡ self }
    {
        let Relabels { pairs } = self;
        pairs
    }

    /// The pairs, in their order.
    pub fn as_slice(&self) -> &[(PageId, Path)]
        ensures { result.now ≡ self.now }
    {
        self.pairs.as_slice()
    }

    /// The number of pairs.
    pub fn len(&self) -> usize
        ensures { result ≡ length self.now }
    {
        self.pairs.len()
    }

    /// Whether there are no pairs.
    pub fn is_empty(&self) -> bool
        ensures { result ≡ (length self.now == 0) }
    {
        self.pairs.is_empty()
    }
}
