//! What the store keeps of a page.
ghost use Rattle.std.specs.Prelude.{◌≡◌, ℕ, Some, None};

use site_types::{PageId, PageRow, Url};
use std::marker::Model;

/// A page as the store keeps it.
#[derive(Debug, Drop)]
pub(crate) struct StoredRow {
    /// The page's row.
    pub(crate) row: PageRow,
    /// Its URL.
    pub(crate) url: Url,
    /// The page above it; the root has none.
    pub(crate) parent: Parent,
    /// Whether the relabelling at hand has counted a step for the page; between calls it has not.
    pub(crate) counted: bool,
}

/// The page above a page, or none. It takes four bytes, and `Option<PageId>` would take eight.
#[derive(Debug, Drop)]
pub(crate) struct Parent {
    /// The number of the page above; 0, which no page has, if there is none.
    number: u32,
}

impl Model for Parent {
    ghost use Rattle.std.specs.Prelude.{◌≡◌, ℕ, ◌⊎◌, Option};
    ghost use Rattle.site_types.specs.Ids.{IsPageId};
    ghost use Rattle.page_store.specs.Stored.{page_numbered};

    ghost Value = { Option ℕ };

    ghost view = { λ parent. page_numbered parent.number };

    ghost invariant = { λ parent. (parent.number ≡ 0) ⊎ IsPageId parent.number };
}

impl Parent {
    /// No page: what is kept of the root.
    pub(crate) fn none() -> Self
        ensures { result ≡ None }
    {
        Parent { number: 0 }
    }

    /// This page.
    pub(crate) fn page(id: PageId) -> Self
        ensures { result ≡ Some id }
    {
        Parent { number: id.get() }
    }

    /// The page above, if there is one.
    pub(crate) fn get(&self) -> Option<PageId>
        ensures { result ≡ self.now }
    {
        PageId::new(self.number)
    }
}
