//! The pages that link to a page, one after another.
ghost use Rattle.std.specs.Prelude.{◌≡◌};
ghost use Rattle.site_types.specs.Ids.{IsPageId};

use site_types::PageId;
use std::marker::Model;

/// The pages that link to one page, rising. A contract sees the list of those that are left.
#[derive(Drop)]
pub struct Refs<'a> {
    pub(crate) pairs: &'a [(u32, u32)],
}

impl<'a> Model for Refs<'a> {
    ghost use Rattle.std.specs.Prelude.{ℕ, List, map};
    ghost use Rattle.std.specs.List.{AllByRecursion};
    ghost use Rattle.site_types.specs.Ids.{IsPageId};

    ghost Value = { List ℕ };

    ghost view = { λ refs. map (λ (pair : ℕ × ℕ). pair.1) refs.pairs.now };

    ghost invariant = { λ refs. AllByRecursion (λ (pair : ℕ × ℕ). IsPageId pair.1) refs.pairs.now };
}

impl<'a> Iterator for Refs<'a> {
    type Item = PageId;

    ghost use Rattle.std.specs.Iterator.{YieldsFirst, item_count};

    ghost next_gives = { YieldsFirst (λ refs. refs) };

    ghost remaining = { item_count (λ refs. refs) };

    /// The next page. No search.
    fn next(&mut self) -> Option<PageId> {
        match self.pairs {
            [pair, rest @ ..] => {
                self.pairs = rest;
                Some(page_of(pair.1))
            }
            [] => None,
        }
    }
}

/// The page with this number.
fn page_of(number: u32) -> PageId
    requires { IsPageId number }
    ensures { result ≡ number }
{
    match PageId::new(number) {
        Some(page) => page,
        None => unreachable!(),
    }
}
