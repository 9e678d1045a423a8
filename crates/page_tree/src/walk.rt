//! The path and the URL of a page, read off the walk to it.
ghost use Rattle.std.specs.Prelude.{◌≡◌, IfOk, Option, MatchOption, Some, None};
ghost use Rattle.page_tree.specs.Walk.{path_of, url_of};
ghost use Rattle.page_tree.specs.Walking.{slugs_to};
ghost use Rattle.page_tree.specs.Grove.{forest_of};

use crate::grove::Grove;
use std::alloc::{AllocError, Global};

/// The path of a page: the steps on the walk to it; empty where no page has the id.
pub fn path_of(alloc: Global, id: u32, tree: &Grove) -> Result<Vec<u32>, AllocError>
    ensures { IfOk result (λ path. path.items ≡ path_of id (forest_of tree.now)) }
{
    match tree {
        Grove::Bare => Ok(Vec::new(alloc)),
        Grove::Grown { page, kids, rest } => {
            if page.id == id {
                return Ok(Vec::from_slice(alloc, &[page.step])?);
            }
            let mut below = path_of(alloc, id, kids)?;
            if below.is_empty() {
                return path_of(alloc, id, rest);
            }
            below.insert(0, page.step)?;
            Ok(below)
        }
    }
}

/// The URL of a page: `/`, and for each page on the walk after the root its slug and `/`; `/` alone
/// where no page has the id.
pub fn url_of(alloc: Global, id: u32, tree: &Grove) -> Result<Vec<u8>, AllocError>
    ensures { IfOk result (λ url. url.items ≡ url_of id (forest_of tree.now)) }
{
    match tree {
        Grove::Bare => Ok(Vec::from_slice(alloc, b"/")?),
        Grove::Grown { page, kids, rest } => {
            let mut url = Vec::from_slice(alloc, b"/")?;
            if page.id == id {
                return Ok(url);
            }
            match slugs_to(alloc, id, kids)? {
                Some(slugs) => {
                    url.extend_from_slice(&slugs)?;
                    Ok(url)
                }
                None => url_of(alloc, id, rest),
            }
        }
    }
}

/// The slug of each page on the walk to a page, and `/` after it; `None` where no page has the id.
fn slugs_to(alloc: Global, id: u32, tree: &Grove) -> Result<Option<Vec<u8>>, AllocError>
    ensures { let along = slugs_to id (forest_of tree.now) in
        IfOk result (λ slugs.
        MatchOption slugs (along ≡ None) (λ text. along ≡ Some text.items)) }
{
    match tree {
        Grove::Bare => Ok(None),
        Grove::Grown { page, kids, rest } => {
            let mut text = Vec::from_slice(alloc, &page.slug)?;
            text.push(b'/')?;
            if page.id == id {
                return Ok(Some(text));
            }
            match slugs_to(alloc, id, kids)? {
                Some(slugs) => {
                    text.extend_from_slice(&slugs)?;
                    Ok(Some(text))
                }
                None => slugs_to(alloc, id, rest),
            }
        }
    }
}
