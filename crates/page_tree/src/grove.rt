//! A plain and slow program over the tree of pages. It computes what the definitions say, one
//! small recursion for each, and is there to be run beside them.
ghost use Rattle.std.specs.Prelude.{◌≡◌, ◌+◌, ◌^◌, ◌<◌, ◌↔◌, IfOk, IsTrue};
ghost use Rattle.page_tree.specs.Tree.{grown, has_page, or_else, node_of, without, last_step, raised, placed, put_last, put_before, put, graft, moved};
ghost use Rattle.page_tree.specs.Grove.{forest_of, place_of, HasRoom};

use std::alloc::{AllocError, Global};

/// What is kept of a page, without its place in the tree above it.
#[derive(Debug, Drop)]
pub struct Page {
    /// The page's id.
    pub id: u32,
    /// Its step among its siblings.
    pub step: u32,
    /// Its slug.
    pub slug: Vec<u8>,
    /// Its body, of which one number is enough here.
    pub body: u32,
}

/// Pages side by side.
#[derive(Debug, Drop)]
pub enum Grove {
    /// No page.
    Bare,
    /// A first page, with its children and the siblings after it.
    Grown {
        /// The page.
        page: Page,
        /// Its children.
        kids: Box<Grove>,
        /// The siblings after it.
        rest: Box<Grove>,
    },
}

/// Where a page goes among its new siblings.
#[derive(Debug, Clone, Copy, Drop)]
pub enum Spot {
    /// Before all of them.
    AtFirst,
    /// Before the sibling with this id.
    BeforePage(u32),
    /// After all of them.
    AtEnd,
}

/// A page with this step, its children and the siblings after it.
pub fn grow(
    alloc: Global,
    page: &Page,
    step: u32,
    kids: Grove,
    rest: Grove,
) -> Result<Grove, AllocError>
    ensures { IfOk result (λ tree. forest_of tree
        ≡ grown page.now.id step page.now.slug.items page.now.body
        (forest_of kids) (forest_of rest)) }
{
    let slug = Vec::from_slice(alloc, &page.slug)?;
    let page = Page {
        id: page.id,
        step,
        slug,
        body: page.body,
    };
    let kids = Box::new(alloc, kids)?;
    let rest = Box::new(alloc, rest)?;
    Ok(Grove::Grown { page, kids, rest })
}

/// The same pages once more.
pub fn copy(alloc: Global, tree: &Grove) -> Result<Grove, AllocError>
    ensures { IfOk result (λ made. forest_of made ≡ forest_of tree.now) }
{
    match tree {
        Grove::Bare => Ok(Grove::Bare),
        Grove::Grown { page, kids, rest } => {
            let below = copy(alloc, kids)?;
            let after = copy(alloc, rest)?;
            grow(alloc, page, page.step, below, after)
        }
    }
}

/// Whether a page has the id.
pub fn has_page(id: u32, tree: &Grove) -> bool
    ensures { result ≡ has_page id (forest_of tree.now) }
{
    match tree {
        Grove::Bare => false,
        Grove::Grown { page, kids, rest } => {
            page.id == id || has_page(id, kids) || has_page(id, rest)
        }
    }
}

/// Whether each step has one after it within 32 bits.
pub fn has_room(tree: &Grove) -> bool
    ensures { IsTrue result ↔ HasRoom (forest_of tree.now) }
{
    match tree {
        Grove::Bare => true,
        Grove::Grown { page, kids, rest } => {
            page.step < u32::MAX && has_room(kids) && has_room(rest)
        }
    }
}
