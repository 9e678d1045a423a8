//! The two time tables of a site.
ghost use Rattle.std.specs.Prelude.{◌≡◌, []};

use crate::TimeTable;
use std::alloc::Global;

/// When pages stop being live, and when their scheduled revisions go live.
#[derive(Debug, Drop)]
pub struct Times {
    /// When live pages stop being live.
    pub expiries: TimeTable,
    /// When scheduled revisions go live.
    pub go_lives: TimeTable,
}

impl Times {
    /// Two tables without moments and without room. They take no memory.
    pub fn new(alloc: Global) -> Times
        ensures expiries { result.expiries.entries ≡ [] }
        ensures go_lives { result.go_lives.entries ≡ [] }
        ensures expiries_spare { result.expiries.spare ≡ 0 }
        ensures go_lives_spare { result.go_lives.spare ≡ 0 }
    {
        Times {
            expiries: TimeTable::new(alloc),
            go_lives: TimeTable::new(alloc),
        }
    }
}
