//! The open desks of a stripe, and what is kept of each.
use site_types::DeskRow;
use std::marker::Model;

/// The open desks of one stripe of the site, rising by page, and room for more.
///
/// A page has at most one desk. A desk that is opened or shut moves the small entries after it, and
/// no text.
#[derive(Debug, Drop)]
pub struct DeskPart {
    pub(crate) rows: Vec<DeskRow>,
}

impl Model for DeskPart {
    ghost use Rattle.std.specs.Prelude.{◌-◌, vec_len, vec_capacity};
    ghost use Rattle.desks.specs.Desks.{DeskList, PagesRise};

    ghost Value = { DeskList };

    ghost view = { λ part. record {
      desks = part.rows.items;
      spare = vec_capacity part.rows - vec_len part.rows;
    } };

    ghost invariant = { λ part. PagesRise part.rows.items };
}
