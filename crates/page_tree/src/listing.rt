//! The rows of a tree, depth first.
ghost use Rattle.std.specs.Prelude.{◌≡◌, ◌++◌, ◌∷◌, [], IfOk, OnOk, map, vec_len};
ghost use Rattle.page_tree.specs.Walk.{kid_count};
ghost use Rattle.page_tree.specs.Rows.{child_url, rows_below, rows_of};
ghost use Rattle.page_tree.specs.Grove.{forest_of};
ghost use Rattle.page_tree.specs.Listing.{row_of, sibling_ids};

use crate::grove::{Grove, Page};
use std::alloc::{AllocError, Global};

/// A page as one row.
#[derive(Debug, Drop)]
pub struct PageRow {
    /// The page's id.
    pub id: u32,
    /// Its parent's id; `None` at the root.
    pub parent: Option<u32>,
    /// The steps from the root down to it.
    pub path: Vec<u32>,
    /// Its URL.
    pub url: Vec<u8>,
    /// Its slug.
    pub slug: Vec<u8>,
    /// How many children it has.
    pub numchild: usize,
    /// Its body.
    pub body: u32,
}

/// The rows of a whole tree, depth first.
pub fn rows(alloc: Global, tree: &Grove) -> Result<Vec<PageRow>, AllocError>
    ensures { IfOk result (λ rows. map row_of rows.items ≡ rows_of (forest_of tree.now)) }
{
    let mut rows = Vec::new(alloc);
    add_rows(alloc, None, &[], &[], tree, &mut rows)?;
    Ok(rows)
}

/// Adds the rows of pages side by side and of all below them. Their parent has this path and URL.
fn add_rows(
    alloc: Global,
    parent: Option<u32>,
    path: &[u32],
    url: &[u8],
    tree: &Grove,
    rows: &mut Vec<PageRow>,
) -> Result<(), AllocError>
    ensures { OnOk result (map row_of rows.new.items
        ≡ map row_of rows.old.items
        ++ rows_below parent path.now url.now (forest_of tree.now)) }
{
    match tree {
        Grove::Bare => Ok(()),
        Grove::Grown { page, kids, rest } => {
            let row = row(alloc, parent, path, url, page, kids)?;
            rows.push(row)?;
            let path_here = child_path(alloc, path, page.step)?;
            let url_here = child_url(alloc, url, &page.slug)?;
            add_rows(alloc, Some(page.id), &path_here, &url_here, kids, rows)?;
            add_rows(alloc, parent, path, url, rest, rows)
        }
    }
}

/// The row of one page, whose parent has this path and URL.
fn row(
    alloc: Global,
    parent: Option<u32>,
    path: &[u32],
    url: &[u8],
    page: &Page,
    kids: &Grove,
) -> Result<PageRow, AllocError>
    ensures id { IfOk result (λ row. row.id ≡ page.now.id) }
    ensures parent { IfOk result (λ row. row.parent ≡ parent) }
    ensures path { IfOk result (λ row. row.path.items ≡ path.now ++ page.now.step ∷ []) }
    ensures url { IfOk result (λ row. row.url.items ≡ child_url url.now page.now.slug.items) }
    ensures slug { IfOk result (λ row. row.slug.items ≡ page.now.slug.items) }
    ensures numchild { IfOk result (λ row. row.numchild ≡ kid_count (forest_of kids.now)) }
    ensures body { IfOk result (λ row. row.body ≡ page.now.body) }
{
    let ids = sibling_ids(alloc, kids)?;
    let path = child_path(alloc, path, page.step)?;
    let url = child_url(alloc, url, &page.slug)?;
    let slug = Vec::from_slice(alloc, &page.slug)?;
    Ok(PageRow {
        id: page.id,
        parent,
        path,
        url,
        slug,
        numchild: ids.len(),
        body: page.body,
    })
}

/// The ids of siblings, in order.
pub fn sibling_ids(alloc: Global, siblings: &Grove) -> Result<Vec<u32>, AllocError>
    ensures ids { IfOk result (λ ids. ids.items ≡ sibling_ids (forest_of siblings.now)) }
    ensures count { IfOk result (λ ids. vec_len ids ≡ kid_count (forest_of siblings.now)) }
{
    match siblings {
        Grove::Bare => Ok(Vec::new(alloc)),
        Grove::Grown { page, rest, .. } => {
            let mut ids = sibling_ids(alloc, rest)?;
            ids.insert(0, page.id)?;
            Ok(ids)
        }
    }
}

/// The path of a page with this step, below the page with this path.
fn child_path(alloc: Global, path: &[u32], step: u32) -> Result<Vec<u32>, AllocError>
    ensures { IfOk result (λ below. below.items ≡ path.now ++ step ∷ []) }
{
    let mut below = Vec::from_slice(alloc, path)?;
    below.push(step)?;
    Ok(below)
}

/// The URL of a page with this slug, below the page with this URL.
fn child_url(alloc: Global, url: &[u8], slug: &[u8]) -> Result<Vec<u8>, AllocError>
    ensures { IfOk result (λ below. below.items ≡ child_url url.now slug.now) }
{
    let mut below = Vec::from_slice(alloc, url)?;
    below.extend_from_slice(slug)?;
    below.push(b'/')?;
    Ok(below)
}
