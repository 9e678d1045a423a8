//! Where a new page goes: its path and its URL.
ghost use Rattle.std.specs.Prelude.{◌≡◌, ◌⊎◌, ℕ, true, IsSome, Ok, Err, IfOk};
ghost use Rattle.page_tree.specs.Tree.{has_page};
ghost use Rattle.page_tree.specs.Rows.{row_with, rows_of, kid_named, child_url};
ghost use Rattle.site_types.specs.declared.body.Body.{Body as PageBody};
ghost use Rattle.tree_model.specs.Changes.{url_in};
ghost use Rattle.slug_urls.specs.Flat.{if_fits};
ghost use Rattle.slug_urls.specs.Plans.{UnlessMemory};
ghost use Rattle.site_model.specs.World.{TreePart as PagePart};
ghost use Rattle.new_pages.specs.Plans.{IsSoundTree};
ghost use Rattle.new_pages.specs.Faults.{both_of, first_fault_of};
ghost use Rattle.new_pages.specs.Plans.{PlansBy};
ghost use Rattle.new_pages.specs.Making.{IsPlace, place_refusal, planned_url};

use crate::fault::{path_fault, url_fault};
use page_store::Rows;
use path_moves::{PathFault, plan_append};
use site_part::Fault;
use site_types::{NoMemory, PageId, Slug, Url};
use slug_urls::{MAX_URL_BYTES, UrlFault};
use std::alloc::Global;
use step_path::Path;

/// The path and the URL of a new page.
#[derive(Drop)]
pub(crate) struct NewPlace {
    /// Its path, after the last kid of its parent.
    pub(crate) path: Path,
    /// Its URL: its parent's, its slug and `/`.
    pub(crate) url: Url,
}

/// Where a new page goes below a parent, or why it is refused: a kid of the parent has the slug, or
/// a step, a depth or a URL would be past its limit; the first of these.
///
/// It costs a few look-ups and a search for the parent's last kid, and the URL is built once.
pub(crate) fn plan_place(
    alloc: Global,
    rows: &Rows,
    parent: PageId,
    slug: &Slug,
) -> Result<NewPlace, Fault>
    requires { (part : PagePart) × (rows.now.pages ≡ rows_of part.tree) × IsSoundTree part
        × (has_page parent part.tree ≡ true) }
    ensures { (part : PagePart) (body : PageBody) → rows.now.pages ≡ rows_of part.tree
        → IsSoundTree part → has_page parent part.tree ≡ true
        → PlansBy (place_refusal part.tree part.next_page parent slug.now body)
        (IsPlace part.tree parent slug.now) result }
{
    let _len = rows.len();
    let url = plan_url(alloc, rows, parent, slug);
    let path = plan_append(rows, parent);
    match both(path, url) {
        Ok((path, url)) => Ok(NewPlace { path, url }),
        Err(fault) => Err(fault),
    }
}

/// The path and the URL or URLs of a page, or the first fault in the order of the rules: a slug that
/// is taken, then the path's faults, then a URL that is too long.
pub fn both<T: Drop, U: Drop>(
    path: Result<T, PathFault>,
    urls: Result<U, UrlFault>,
) -> Result<(T, U), Fault>
    ensures { result ≡ both_of path urls }
{
    match urls {
        Ok(urls) => match path {
            Ok(path) => Ok((path, urls)),
            Err(fault) => Err(path_fault(fault)),
        },
        Err(fault) => Err(first_fault(path, fault)),
    }
}

/// The first fault, where there is one of the URLs.
fn first_fault<T: Drop>(path: Result<T, PathFault>, fault: UrlFault) -> Fault
    ensures { result ≡ first_fault_of path fault }
{
    match fault {
        UrlFault::TooLong => match path {
            Ok(_) => url_fault(fault),
            Err(earlier) => path_fault(earlier),
        },
        _ => url_fault(fault),
    }
}

/// The URL of a new page: `Taken` where a kid of the parent has the slug, `TooLong` where it would
/// have more than 8,192 bytes.
pub(crate) fn plan_url(
    alloc: Global,
    rows: &Rows,
    parent: PageId,
    slug: &Slug,
) -> Result<Url, UrlFault>
    requires { IsSome (row_with parent rows.now.pages) }
    ensures { UnlessMemory (planned_url (kid_named parent slug.now rows.now.pages)
        (child_url (url_in parent rows.now.pages) slug.now)) result }
{
    if let Some(other) = rows.by_slug(parent, slug) {
        return Err(UrlFault::Taken(other));
    }
    let Some(above) = rows.url(parent) else {
        unreachable!();
    };
    match join_url(alloc, above.as_slice(), slug.as_slice()) {
        Ok(Some(url)) => Ok(url),
        Ok(None) => Err(UrlFault::TooLong),
        Err(_) => Err(UrlFault::Memory),
    }
}

/// The URL with this slug below this URL, or `None` exactly where it does not fit.
fn join_url(alloc: Global, above: &[u8], slug: &[u8]) -> Result<Option<Url>, NoMemory>
    ensures { IfOk result (λ url. url ≡ if_fits (child_url above.now slug.now)) }
{
    let short = above.len().saturating_add(slug.len());
    if short >= MAX_URL_BYTES {
        return Ok(None);
    }
    let mut bytes = Vec::with_capacity(alloc, short + 1)?;
    bytes.extend_from_slice(above)?;
    bytes.extend_from_slice(slug)?;
    bytes.push(b'/')?;
    Ok(Some(Url::from_vec(bytes)))
}
