//! The shelf of revisions, and what it keeps of each.
use indexmap::IndexMap;
use site_types::{PageId, Revision, RevisionId};
use std::marker::Model;

/// The most bytes that the forms of all contents may have together.
pub const MAX_CONTENT_SUM: u64 = 1_073_741_824;

/// A revision as the shelf keeps it.
#[derive(Debug, Drop)]
pub(crate) struct Kept {
    /// The revision.
    pub(crate) revision: Revision,
    /// The revision of its page before it, if there is one.
    pub(crate) previous: Option<RevisionId>,
}

/// The revisions of all pages, rising by id, and room for more.
///
/// Each page's revisions are a chain from the newest back, so that a page's go without a look at
/// the others. The place of a revision in the order takes four bytes.
#[derive(Debug, Drop)]
pub struct Shelf {
    pub(crate) stored: IndexMap<RevisionId, Kept>,
    pub(crate) newest: IndexMap<PageId, RevisionId>,
    pub(crate) order: Vec<RevisionId>,
    pub(crate) weight: u64,
}

impl Model for Shelf {
    ghost use Rattle.std.specs.Prelude.{◌-◌, min, vec_len, vec_capacity};
    ghost use Rattle.indexmap.specs.IndexMap.{spare};
    ghost use Rattle.revision_shelf.specs.Shelf.{RevisionList};
    ghost use Rattle.revision_shelf.specs.Kept.{revisions_seen, IsKept};

    ghost Value = { RevisionList };

    ghost view = { λ shelf. record {
      revisions = revisions_seen shelf.stored.entries shelf.order.items;
      spare = min (min (spare shelf.stored) (spare shelf.newest))
          (vec_capacity shelf.order - vec_len shelf.order);
    } };

    ghost invariant = { λ shelf. IsKept shelf.stored.entries shelf.newest.entries
        shelf.order.items shelf.weight
        (revisions_seen shelf.stored.entries shelf.order.items) };
}
