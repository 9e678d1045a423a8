//! The URL of a page, by walking up.
ghost use Rattle.std.specs.Prelude.{◌≡◌, ◌↔◌, Some, IsSome, IfOk};
ghost use Rattle.std.specs.Option.{option_map};
ghost use Rattle.page_tree.specs.Tree.{Forest};
ghost use Rattle.page_tree.specs.Rows.{rows_of, row_with, child_url};
ghost use Rattle.site_types.specs.declared.body.Body.{Body as PageBody};

use page_store::Rows;
use site_types::{NoMemory, PageId, Url};
use std::alloc::Global;

/// The URL of a page, or `None` exactly where there is no such page.
///
/// It is put together from the slugs on the walk to the page, `/` and then each slug and `/`
/// (RFC 3986, section 3.3), with two look-ups for each of them.
pub fn url_of(alloc: Global, rows: &Rows, id: PageId) -> Result<Option<Url>, NoMemory>
    ensures there { IfOk result (λ url. IsSome url ↔ IsSome (row_with id rows.now.pages)) }
    ensures url { (tree : Forest PageBody) → rows.now.pages ≡ rows_of tree → IfOk result
        (λ url. url ≡ option_map (λ row. row.url) (row_with id rows.now.pages)) }
{
    if rows.row(id).is_none() {
        return Ok(None);
    }
    let bytes = bytes_up(alloc, rows, id)?;
    Ok(Some(Url::from_vec(bytes)))
}

/// The bytes of a page's URL.
fn bytes_up(alloc: Global, rows: &Rows, id: PageId) -> Result<Vec<u8>, NoMemory>
    requires { IsSome (row_with id rows.now.pages) }
    ensures { (tree : Forest PageBody) → rows.now.pages ≡ rows_of tree → IfOk result
        (λ bytes. Some bytes.items ≡ option_map (λ row. row.url) (row_with id rows.now.pages)) }
{
    let _len = rows.len();
    match rows.parent(id) {
        Some(parent) => {
            let above = bytes_up(alloc, rows, parent)?;
            with_slug(above, rows, id)
        }
        None => with_slug(Vec::new(alloc), rows, id),
    }
}

/// The bytes of the URL above a page, followed by its slug and `/`.
fn with_slug(above: Vec<u8>, rows: &Rows, id: PageId) -> Result<Vec<u8>, NoMemory>
    requires { IsSome (row_with id rows.now.pages) }
    ensures { IfOk result (λ bytes. Some bytes.items
        ≡ option_map (λ row. child_url above.items row.slug) (row_with id rows.now.pages)) }
{
    let Some(row) = rows.row(id) else {
        unreachable!();
    };
    let mut bytes = above;
    bytes.extend_from_slice(row.slug.as_slice())?;
    bytes.push(b'/')?;
    Ok(bytes)
}
