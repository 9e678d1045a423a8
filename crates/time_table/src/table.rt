//! Pages and their moments.
use indexmap::IndexMap;
use site_types::{Moment, PageId};
use std::marker::Model;

/// The moments of pages, at most one each, and room for more.
///
/// A page's moment is found by the page; the pairs also stand in the order of their moments, so that
/// those up to a moment are found by a search. A pair takes 16 bytes.
#[derive(Debug, Drop)]
pub struct TimeTable {
    pub(crate) moments: IndexMap<PageId, Moment>,
    pub(crate) order: Vec<(Moment, PageId)>,
}

impl Model for TimeTable {
    ghost use Rattle.std.specs.Prelude.{◌-◌, min, vec_len, vec_capacity};
    ghost use Rattle.indexmap.specs.IndexMap.{spare};
    ghost use Rattle.time_table.specs.Table.{TimeList};
    ghost use Rattle.time_table.specs.Kept.{IsKept};

    ghost Value = { TimeList };

    ghost view = { λ table. record {
      entries = table.order.items;
      spare = min (spare table.moments) (vec_capacity table.order - vec_len table.order);
    } };

    ghost invariant = { λ table. IsKept table.moments.entries table.order.items };
}
