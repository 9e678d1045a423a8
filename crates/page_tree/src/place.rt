//! A page put in its place among siblings, and moved.
ghost use Rattle.std.specs.Prelude.{◌≡◌, ◌+◌, ◌^◌, ◌<◌, IfOk};
ghost use Rattle.page_tree.specs.Tree.{raised, placed, put_last, put_before, put, graft, moved};
ghost use Rattle.page_tree.specs.Grove.{forest_of, place_of, HasRoom};

use crate::cut::{node_of, without};
use crate::grove::{Grove, Spot, copy, grow};
use std::alloc::{AllocError, Global};

/// A move: the page is cut out with all below it, and then takes its place among the siblings
/// that remain below its new parent.
pub fn moved(
    alloc: Global,
    page: u32,
    parent: u32,
    spot: Spot,
    tree: &Grove,
) -> Result<Grove, AllocError>
    requires { HasRoom (forest_of tree.now) }
    ensures { IfOk result (λ after. forest_of after
        ≡ moved page parent (place_of spot) (forest_of tree.now)) }
{
    let node = node_of(alloc, page, tree)?;
    let left = without(alloc, page, tree)?;
    graft(alloc, parent, spot, &node, &left)
}

/// A page grafted in below its parent.
pub fn graft(
    alloc: Global,
    parent: u32,
    spot: Spot,
    node: &Grove,
    tree: &Grove,
) -> Result<Grove, AllocError>
    requires { HasRoom (forest_of tree.now) }
    ensures { IfOk result (λ after. forest_of after
        ≡ graft parent (place_of spot) (forest_of node.now) (forest_of tree.now)) }
{
    match tree {
        Grove::Bare => Ok(Grove::Bare),
        Grove::Grown { page, kids, rest } => {
            if page.id == parent {
                let below = put(alloc, spot, node, kids)?;
                let after = copy(alloc, rest)?;
                return grow(alloc, page, page.step, below, after);
            }
            let below = graft(alloc, parent, spot, node, kids)?;
            let after = graft(alloc, parent, spot, node, rest)?;
            grow(alloc, page, page.step, below, after)
        }
    }
}

/// A page among its new siblings. At the first place its step is 1, and each sibling goes up by
/// one.
pub fn put(alloc: Global, spot: Spot, node: &Grove, kids: &Grove) -> Result<Grove, AllocError>
    requires { HasRoom (forest_of kids.now) }
    ensures { IfOk result (λ after. forest_of after
        ≡ put (place_of spot) (forest_of node.now) (forest_of kids.now)) }
{
    match spot {
        Spot::AtFirst => {
            let later = raised(alloc, kids)?;
            placed(alloc, node, 1, later)
        }
        Spot::BeforePage(sibling) => put_before(alloc, sibling, node, kids),
        Spot::AtEnd => put_last(alloc, 0, node, kids),
    }
}

/// A page before a sibling: it takes the sibling's step, and that sibling and each later one go
/// up by one.
pub fn put_before(
    alloc: Global,
    sibling: u32,
    node: &Grove,
    kids: &Grove,
) -> Result<Grove, AllocError>
    requires { HasRoom (forest_of kids.now) }
    ensures { IfOk result (λ after. forest_of after
        ≡ put_before sibling (forest_of node.now) (forest_of kids.now)) }
{
    match kids {
        Grove::Bare => Ok(Grove::Bare),
        Grove::Grown {
            page,
            kids: below,
            rest,
        } => {
            if page.id == sibling {
                let later = raised(alloc, kids)?;
                return placed(alloc, node, page.step, later);
            }
            let below = copy(alloc, below)?;
            let after = put_before(alloc, sibling, node, rest)?;
            grow(alloc, page, page.step, below, after)
        }
    }
}

/// A page at the end: its step is one past the last sibling's, or past `before` where there is
/// none.
pub fn put_last(alloc: Global, before: u32, node: &Grove, kids: &Grove) -> Result<Grove, AllocError>
    requires has_next { before + 1 < 2 ^ 32 }
    requires has_room { HasRoom (forest_of kids.now) }
    ensures { IfOk result (λ after. forest_of after
        ≡ put_last before (forest_of node.now) (forest_of kids.now)) }
{
    match kids {
        Grove::Bare => placed(alloc, node, before + 1, Grove::Bare),
        Grove::Grown {
            page,
            kids: below,
            rest,
        } => {
            let below = copy(alloc, below)?;
            let after = put_last(alloc, page.step, node, rest)?;
            grow(alloc, page, page.step, below, after)
        }
    }
}

/// These siblings, each one step later.
pub fn raised(alloc: Global, siblings: &Grove) -> Result<Grove, AllocError>
    requires { HasRoom (forest_of siblings.now) }
    ensures { IfOk result (λ later. forest_of later ≡ raised (forest_of siblings.now)) }
{
    match siblings {
        Grove::Bare => Ok(Grove::Bare),
        Grove::Grown { page, kids, rest } => {
            let below = copy(alloc, kids)?;
            let after = raised(alloc, rest)?;
            grow(alloc, page, page.step + 1, below, after)
        }
    }
}

/// A page that stands alone, at this step and with these siblings after it.
pub fn placed(alloc: Global, node: &Grove, at: u32, rest: Grove) -> Result<Grove, AllocError>
    ensures { IfOk result (λ siblings. forest_of siblings
        ≡ placed (forest_of node.now) at (forest_of rest)) }
{
    match node {
        Grove::Bare => Ok(rest),
        Grove::Grown { page, kids, .. } => {
            let below = copy(alloc, kids)?;
            grow(alloc, page, at, below, rest)
        }
    }
}
