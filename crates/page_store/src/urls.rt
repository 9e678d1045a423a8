//! Lists of pages with URLs.
ghost use Rattle.std.specs.Prelude.{◌≡◌, ◌==◌, length};

use site_types::{PageId, Url};
use std::marker::Model;

/// Pages, each with a URL that it is to get. A contract sees the list of the pairs.
#[derive(Drop)]
pub struct Urls {
    pairs: Vec<(PageId, Url)>,
}

impl Model for Urls {
    ghost use Rattle.std.specs.Prelude.{ℕ, List};

    ghost Value = { List (ℕ × List ℕ) };

    ghost view = { λ urls. urls.pairs.items };
}

impl Urls {
    /// The list of these pairs, in their order.
    pub fn from_vec(pairs: Vec<(PageId, Url)>) -> Self
        ensures { result ≡ pairs.items }
    {
        Urls { pairs }
    }

    /// The pairs, given back with their memory.
    pub fn into_vec(self) -> Vec<(PageId, Url)>
        ensures { result.items ≡ self }
    {
        let Urls { pairs } = self;
        pairs
    }

    /// The pairs, in their order.
    pub fn as_slice(&self) -> &[(PageId, Url)]
        ensures { result.now ≡ self.now }
    {
        self.pairs.as_slice()
    }

    /// The number of pairs.
    pub fn len(&self) -> usize
        ensures { result ≡ length self.now }
    {
        self.pairs.len()
    }

    /// Whether there are no pairs.
    pub fn is_empty(&self) -> bool
        ensures { result ≡ (length self.now == 0) }
    {
        self.pairs.is_empty()
    }
}
