//! A page taken out with all below it.
ghost use Rattle.std.specs.Prelude.{◌≡◌, IfOk};
ghost use Rattle.page_tree.specs.Tree.{or_else, node_of, without};
ghost use Rattle.page_tree.specs.Grove.{forest_of};

use crate::grove::{Grove, copy, grow};
use std::alloc::{AllocError, Global};

/// The page with the id and all below it, standing alone; bare where there is none.
pub fn node_of(alloc: Global, id: u32, tree: &Grove) -> Result<Grove, AllocError>
    ensures { IfOk result (λ node. forest_of node ≡ node_of id (forest_of tree.now)) }
{
    match tree {
        Grove::Bare => Ok(Grove::Bare),
        Grove::Grown { page, kids, rest } => {
            if page.id == id {
                let below = copy(alloc, kids)?;
                return grow(alloc, page, page.step, below, Grove::Bare);
            }
            let below = node_of(alloc, id, kids)?;
            let after = node_of(alloc, id, rest)?;
            Ok(first_of(below, after))
        }
    }
}

/// The pages without the page with the id and all below it. The steps of the others stay.
pub fn without(alloc: Global, id: u32, tree: &Grove) -> Result<Grove, AllocError>
    ensures { IfOk result (λ left. forest_of left ≡ without id (forest_of tree.now)) }
{
    match tree {
        Grove::Bare => Ok(Grove::Bare),
        Grove::Grown { page, kids, rest } => {
            if page.id == id {
                return copy(alloc, rest);
            }
            let below = without(alloc, id, kids)?;
            let after = without(alloc, id, rest)?;
            grow(alloc, page, page.step, below, after)
        }
    }
}

/// The first of these, or the second where the first is bare.
fn first_of(these: Grove, others: Grove) -> Grove
    ensures { forest_of result ≡ or_else (forest_of these) (forest_of others) }
{
    match these {
        Grove::Bare => others,
        grown => grown,
    }
}
