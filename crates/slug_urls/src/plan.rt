//! The URLs that change with a page's parent or slug.
ghost use Rattle.std.specs.Prelude.{◌≡◌, ◌+◌, ◌≤◌, false, Some, IsSome, IfOk};
ghost use Rattle.std.specs.Prelude.{[], ◌∷◌, ◌++◌, length, map, take, drop};
ghost use Rattle.std.specs.Option.{option_map, IfSome};
ghost use Rattle.std.specs.Str.{bytes_eq};
ghost use Rattle.page_tree.specs.Tree.{Forest, without, kids_of, kid_with_slug};
ghost use Rattle.page_tree.specs.Rows.{rows_of, row_with, child_url};
ghost use Rattle.site_types.specs.declared.body.Body.{Body as PageBody};
ghost use Rattle.page_store.specs.Pages.{Page};
ghost use Rattle.page_store.specs.Search.{begins};
ghost use Rattle.slug_urls.specs.Plans.{planned_urls, UnlessMemory};
ghost use Rattle.slug_urls.specs.Flat.{moved_from, row_urls, taken_by, if_fits, if_all_fit};

use crate::UrlFault;
use page_store::{Rows, Urls};
use site_types::{NoMemory, PageId, Slug, Url};
use std::alloc::Global;

/// The greatest length of a URL in bytes.
pub const MAX_URL_BYTES: usize = 8_192;

/// The pages whose URL changes where the page goes below `parent` with `slug`, depth first, each
/// with its new URL; a page that is not there yet has its own alone.
///
/// `Taken` names the kid of the parent, other than the page, that has the slug; `TooLong` comes
/// where a new URL would have more than 8,192 bytes. It takes one look-up and one URL, of its exact
/// size, for each page whose URL changes, and makes no URL where the page's own stays.
pub fn plan_urls(
    alloc: Global,
    rows: &Rows,
    page: PageId,
    parent: PageId,
    slug: &Slug,
) -> Result<Urls, UrlFault>
    requires parent_there { IsSome (row_with parent rows.now.pages) }
    requires outside { IfSome (row_with page rows.now.pages) (λ row. IfSome
        (row_with parent rows.now.pages) (λ top. begins row.path top.path ≡ false)) }
    ensures { (tree : Forest PageBody) → rows.now.pages ≡ rows_of tree → UnlessMemory
        (planned_urls tree page parent slug.now) result }
{
    let _len = rows.len();
    if let Some(other) = taken_kid(rows, page, parent, slug) {
        return Err(UrlFault::Taken(other));
    }
    let Some(above) = rows.url(parent) else {
        unreachable!();
    };
    match list_urls(alloc, rows, page, above.as_slice(), slug.as_slice()) {
        Ok(Some(urls)) => Ok(urls),
        Ok(None) => Err(UrlFault::TooLong),
        Err(_) => Err(UrlFault::Memory),
    }
}

/// The kid of the parent, other than the page, that has the slug: where there is one, `plan_urls`
/// answers `Taken` with it.
///
/// It takes one look-up, so that a caller can tell before anything is planned.
pub fn find_taken(rows: &Rows, page: PageId, parent: PageId, slug: &Slug) -> Option<PageId>
    requires parent_there { IsSome (row_with parent rows.now.pages) }
    requires outside { IfSome (row_with page rows.now.pages) (λ row. IfSome
        (row_with parent rows.now.pages) (λ top. begins row.path top.path ≡ false)) }
    ensures { (tree : Forest PageBody) → rows.now.pages ≡ rows_of tree → result
        ≡ kid_with_slug slug.now (kids_of parent (without page tree)) }
{
    let _len = rows.len();
    taken_kid(rows, page, parent, slug)
}

/// The kid of the parent, other than the page, that has the slug.
fn taken_kid(rows: &Rows, page: PageId, parent: PageId, slug: &Slug) -> Option<PageId>
    ensures { result ≡ taken_by page parent slug.now rows.now.pages }
{
    let kid = rows.by_slug(parent, slug)?;
    if kid == page { None } else { Some(kid) }
}

/// The new URLs of a page with the slug below this URL, or `None` exactly where one does not fit.
fn list_urls(
    alloc: Global,
    rows: &Rows,
    page: PageId,
    above: &[u8],
    slug: &[u8],
) -> Result<Option<Urls>, NoMemory>
    ensures { IfOk result (λ urls. urls
        ≡ if_all_fit (row_urls page (child_url above.now slug.now) rows.now.pages)) }
{
    let Some((place, count)) = rows.range_of(page) else {
        return list_one(alloc, page, above, slug);
    };
    let Some(old) = rows.url(page) else {
        unreachable!();
    };
    if is_below(old.as_slice(), above, slug) {
        return Ok(Some(Urls::from_vec(Vec::new(alloc))));
    }
    list_all(alloc, rows, place, count, old.len(), above, slug)
}

/// Whether the URL is the one with this slug below this URL.
fn is_below(url: &[u8], above: &[u8], slug: &[u8]) -> bool
    ensures { result ≡ bytes_eq url.now (child_url above.now slug.now) }
{
    let Some(rest) = url.strip_prefix(above) else {
        return false;
    };
    let Some(end) = rest.strip_prefix(slug) else {
        return false;
    };
    end == b"/".as_slice()
}

/// The list of one page with its URL, or `None` exactly where that does not fit.
fn list_one(
    alloc: Global,
    page: PageId,
    above: &[u8],
    slug: &[u8],
) -> Result<Option<Urls>, NoMemory>
    ensures { IfOk result (λ urls. urls
        ≡ if_all_fit ((page, child_url above.now slug.now) ∷ [])) }
{
    let Some(url) = join_url(alloc, above, slug, b"")? else {
        return Ok(None);
    };
    let mut pairs = Vec::with_capacity(alloc, 1)?;
    pairs.push((page, url))?;
    Ok(Some(Urls::from_vec(pairs)))
}

/// The pages of so many rows from a place on, with the URL below `above` in place of the first
/// `old` bytes of their URLs, or `None` exactly where one does not fit.
fn list_all(
    alloc: Global,
    rows: &Rows,
    place: usize,
    count: usize,
    old: usize,
    above: &[u8],
    slug: &[u8],
) -> Result<Option<Urls>, NoMemory>
    requires { place + count ≤ length rows.now.pages }
    ensures { IfOk result (λ urls. urls ≡ if_all_fit (map
        (moved_from old (child_url above.now slug.now)) (take count (drop place rows.now.pages)))) }
{
    let _len = rows.len();
    let mut pairs = Vec::with_capacity(alloc, count)?;
    for done in 0..count {
        let Some(id) = rows.at(place + done) else {
            unreachable!();
        };
        let Some(url) = new_url(alloc, rows, id, old, above, slug)? else {
            return Ok(None);
        };
        pairs.push((id, url))?;
    }
    Ok(Some(Urls::from_vec(pairs)))
}

/// The URL of a page with the URL below `above` in place of its first `old` bytes, or `None`
/// exactly where that does not fit.
fn new_url(
    alloc: Global,
    rows: &Rows,
    id: PageId,
    old: usize,
    above: &[u8],
    slug: &[u8],
) -> Result<Option<Url>, NoMemory>
    requires { IsSome (row_with id rows.now.pages) }
    ensures { (row : Page) → row_with id rows.now.pages ≡ Some row → IfOk result
        (λ url. url ≡ if_fits (child_url above.now slug.now ++ drop old row.url)) }
{
    let Some(url) = rows.url(id) else {
        unreachable!();
    };
    join_url(alloc, above, slug, behind(url.as_slice(), old))
}

/// The URL with this slug below this URL and the rest behind it, or `None` exactly where it does
/// not fit.
fn join_url(alloc: Global, above: &[u8], slug: &[u8], rest: &[u8]) -> Result<Option<Url>, NoMemory>
    ensures { IfOk result (λ url. url ≡ if_fits (child_url above.now slug.now ++ rest.now)) }
{
    let short = above
        .len()
        .saturating_add(slug.len())
        .saturating_add(rest.len());
    if short >= MAX_URL_BYTES {
        return Ok(None);
    }
    let mut bytes = Vec::with_capacity(alloc, short + 1)?;
    bytes.extend_from_slice(above)?;
    bytes.extend_from_slice(slug)?;
    bytes.push(b'/')?;
    bytes.extend_from_slice(rest)?;
    Ok(Some(Url::from_vec(bytes)))
}

/// The bytes without the first so many.
fn behind(bytes: &[u8], count: usize) -> &[u8]
    ensures { result.now ≡ drop count bytes.now }
{
    if count > bytes.len() {
        return b"";
    }
    &bytes[count..]
}
