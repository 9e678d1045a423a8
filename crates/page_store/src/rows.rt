//! The rows of all pages, kept by id, in path order, and by slug.
use crate::kid_index::KidIndex;
use crate::stored::StoredRow;
use indexmap::IndexMap;
use site_types::PageId;
use std::marker::Model;

/// The rows of all pages in path order, with their URLs, and room for more.
///
/// What is kept of a page takes about 700 bytes: 256 for the text of its path, 256 for its slug, and
/// its other fields; its URL stands in memory of its own. Its key among its parent's kids takes about
/// 30 bytes more, since the key holds a digest in place of the slug. Its place in the order takes four,
/// and so does the room for a kid whose key is taken.
#[derive(Debug, Drop)]
pub struct Rows {
    pub(crate) stored: IndexMap<PageId, StoredRow>,
    pub(crate) order: Vec<PageId>,
    pub(crate) kids: KidIndex,
}

impl Model for Rows {
    ghost use Rattle.std.specs.Prelude.{◌-◌, min, vec_len, vec_capacity};
    ghost use Rattle.indexmap.specs.IndexMap.{spare};
    ghost use Rattle.page_store.specs.PageRows.{RowList};
    ghost use Rattle.page_store.specs.KidIndex.{index_room};
    ghost use Rattle.page_store.specs.Kept.{rows_seen, IsKept};

    ghost Value = { RowList };

    ghost view = { λ rows. record {
      pages = rows_seen rows.stored.entries rows.order.items;
      spare = min (min (spare rows.stored) (index_room rows.kids))
          (vec_capacity rows.order - vec_len rows.order);
    } };

    ghost invariant = { λ rows. IsKept rows.stored.entries rows.order.items rows.kids
        (rows_seen rows.stored.entries rows.order.items) };
}
