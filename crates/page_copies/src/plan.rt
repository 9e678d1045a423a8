//! Plans of copies.
ghost use Rattle.std.specs.Prelude.{◌≡◌};

use site_types::{Content, PageId};
use std::marker::Model;

/// The pages that a copy copies, depth first, each with the content that its copy gets. A contract
/// sees the list of the pairs.
#[derive(Debug, Drop)]
pub struct CopyPlan {
    pages: Vec<(PageId, Content)>,
}

impl Model for CopyPlan {
    ghost use Rattle.std.specs.Prelude.{ℕ, List};
    ghost use Rattle.site_types.specs.Content.{ContentValue};

    ghost Value = { List (ℕ × ContentValue) };

    ghost view = { λ plan. plan.pages.items };
}

impl CopyPlan {
    /// The plan of these pages, in their order.
    pub fn from_vec(pages: Vec<(PageId, Content)>) -> Self
        ensures { result ≡ pages.items }
    {
        CopyPlan { pages }
    }

    /// The pages, given back with their memory.
    pub fn into_vec(self) -> Vec<(PageId, Content)>
        ensures { result.items ≡ self }
    {
        let CopyPlan { pages } = self;
        pages
    }

    /// The pages, in their order.
    pub fn as_slice(&self) -> &[(PageId, Content)]
        ensures { result.now ≡ self.now }
    {
        self.pages.as_slice()
    }
}
