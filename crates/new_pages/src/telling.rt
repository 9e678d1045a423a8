//! What a reply tells of a page.
ghost use Rattle.std.specs.Prelude.{◌≡◌, ℕ, List, nat_eq, IfOk, IsSome, unwrap_or, max};
ghost use Rattle.std.specs.Option.{option_copied};
ghost use Rattle.std.specs.Map.{lookup};
ghost use Rattle.site_ids.specs.Moment.{IsMoment};
ghost use Rattle.page_tree.specs.Rows.{row_with};
ghost use Rattle.step_path.specs.Path.{path_text};
ghost use Rattle.tree_model.specs.Changes.{path_in, url_in};
ghost use Rattle.new_pages.specs.Moving.{told_reply};

use page_store::{Relabels, Rows, Urls};
use site_types::{Moment, NoMemory, PageId, PathText, Reply, Url};
use std::alloc::Global;
use step_path::Path;

/// The reply of a page, where these pages get other paths and these get other URLs. It costs the
/// search for the page in both lists, and a copy of its URL.
pub fn told_page(
    alloc: Global,
    rows: &Rows,
    page: PageId,
    paths: &Relabels,
    urls: &Urls,
) -> Result<Reply, NoMemory>
    requires { IsSome (row_with page rows.now.pages) }
    ensures { IfOk result (λ reply. reply ≡ told_reply rows.now.pages page paths.now urls.now) }
{
    let url = told_url(alloc, rows, page, urls)?;
    Ok(Reply::Page {
        id: page,
        path: told_path(rows, page, paths),
        url,
    })
}

/// The URL that a page will have, where these pages get new ones: a copy of the listed one, or else
/// of the one that it has.
fn told_url(alloc: Global, rows: &Rows, page: PageId, urls: &Urls) -> Result<Url, NoMemory>
    requires { IsSome (row_with page rows.now.pages) }
    ensures { IfOk result (λ url. url
        ≡ unwrap_or (lookup (nat_eq page) urls.now) (url_in page rows.now.pages)) }
{
    match listed_url(urls.as_slice(), page) {
        Some(url) => url.copy(alloc),
        None => match rows.url(page) {
            Some(url) => url.copy(alloc),
            None => unreachable!(),
        },
    }
}

/// The URL that is listed for a page, where there is one.
fn listed_url(urls: &[(PageId, Url)], page: PageId) -> Option<&Url>
    ensures { option_copied result ≡ lookup (nat_eq page) urls.now }
{
    for (id, url) in urls {
        if *id == page {
            return Some(url);
        }
    }
    None
}

/// The text of the path that a page will have, where these pages get new ones: that of the listed
/// one, or else the one that it has.
fn told_path(rows: &Rows, page: PageId, paths: &Relabels) -> PathText
    requires { IsSome (row_with page rows.now.pages) }
    ensures { result
        ≡ path_text (unwrap_or (lookup (nat_eq page) paths.now) (path_in page rows.now.pages)) }
{
    match listed_path(paths.as_slice(), page) {
        Some(path) => text_of(path),
        None => match rows.row(page) {
            Some(row) => row.path.copy(),
            None => unreachable!(),
        },
    }
}

/// The path that is listed for a page, where there is one.
fn listed_path(paths: &[(PageId, Path)], page: PageId) -> Option<&Path>
    ensures { option_copied result ≡ lookup (nat_eq page) paths.now }
{
    for (id, path) in paths {
        if *id == page {
            return Some(path);
        }
    }
    None
}

/// The text of a path, as a row keeps it.
pub(crate) fn text_of(path: &Path) -> PathText
    ensures { result ≡ path_text path.now }
{
    match PathText::read(path.text().as_slice()) {
        Some(text) => text,
        None => unreachable!(),
    }
}

/// The later of two moments.
pub fn later(time: Moment, now: Moment) -> Moment
    ensures value { result ≡ max time now }
    ensures moment { IsMoment now }
{
    if time.get() < now.get() { now } else { time }
}
