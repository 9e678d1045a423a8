//! What a copy copies, and where its rows go.
ghost use Rattle.std.specs.Prelude.{◌≡◌, ◌≤◌, ◌<◌, ◌+◌, true, IsSome, Some, slice_get, length, IfOk};
ghost use Rattle.std.specs.List.{list_any};
ghost use Rattle.std.specs.Option.{option_map};
ghost use Rattle.page_tree.specs.Tree.{Forest};
ghost use Rattle.page_tree.specs.Rows.{row_with, rows_of};
ghost use Rattle.page_store.specs.PageRows.{page_row};
ghost use Rattle.site_types.specs.declared.body.Body.{Body as PageBody};
ghost use Rattle.site_model.specs.World as worlds;
ghost use Rattle.new_pages.specs.Copying.{IsSource, rows_below_it, is_deep, is_long, path_within, url_within};

use page_copies::copied_range;
use page_store::Rows;
use path_moves::PathFault;
use site_types::{PageId, PageRow, Url};
use slug_urls::UrlFault;
use step_path::{MAX_DEPTH, Path};

/// The greatest length of a URL in bytes.
const MAX_URL_BYTES: usize = 8_192;

/// A page that is copied, with the rows below it that are copied with it.
#[derive(Drop)]
pub(crate) struct Source {
    /// The path of the page.
    pub(crate) path: Path,
    /// The length of its URL.
    pub(crate) url_length: usize,
    /// The place of the first row below it.
    pub(crate) start: usize,
    /// How many rows below it are copied.
    pub(crate) rest: usize,
}

/// What a copy of a page that is there copies. It costs as much as `copied_range` and two look-ups.
pub(crate) fn source_of(rows: &Rows, page: PageId, deep: bool) -> Source
    requires { (part : worlds.TreePart) × (rows.now.pages ≡ rows_of part.tree)
        × IsSome (row_with page rows.now.pages) }
    ensures { (part : worlds.TreePart) → rows.now.pages ≡ rows_of part.tree
        → IsSource rows.now.pages part.tree page deep result }
{
    let _len = rows.len();
    let Some((place, count)) = copied_range(rows, page, deep) else {
        unreachable!();
    };
    let Some(row) = rows.row(page) else {
        unreachable!();
    };
    let Some(url) = rows.url(page) else {
        unreachable!();
    };
    let Some(path) = Path::read(row.path.as_slice()) else {
        unreachable!();
    };
    Source {
        path,
        url_length: url.len(),
        start: place + 1,
        rest: count - 1,
    }
}

/// The path of a copy, unless a page below would have too many steps there.
pub(crate) fn short_path(
    rows: &Rows,
    source: &Source,
    path: Result<Path, PathFault>,
) -> Result<Path, PathFault>
    requires { source.now.start + source.now.rest ≤ length rows.now.pages }
    ensures { result ≡ path_within rows.now.pages source.now path }
{
    match path {
        Ok(path) => {
            if goes_too_deep(rows, source, &path) {
                Err(PathFault::TooDeep)
            } else {
                Ok(path)
            }
        }
        Err(fault) => Err(fault),
    }
}

/// The URL of a copy, unless a page below would have too long a URL there.
pub(crate) fn short_url(
    rows: &Rows,
    source: &Source,
    url: Result<Url, UrlFault>,
) -> Result<Url, UrlFault>
    requires { source.now.start + source.now.rest ≤ length rows.now.pages }
    ensures { result ≡ url_within rows.now.pages source.now url }
{
    match url {
        Ok(url) => {
            if gets_too_long(rows, source, &url) {
                Err(UrlFault::TooLong)
            } else {
                Ok(url)
            }
        }
        Err(fault) => Err(fault),
    }
}

/// Whether the copy of a page below has too many steps, where the page goes to a path.
fn goes_too_deep(rows: &Rows, source: &Source, path: &Path) -> bool
    requires { source.now.start + source.now.rest ≤ length rows.now.pages }
    ensures { result
        ≡ list_any (is_deep source.now path.now) (rows_below_it rows.now.pages source.now) }
{
    let _len = rows.len();
    let old = source.path.depth() as usize;
    let new = path.depth() as usize;
    for done in 0..source.rest {
        let row = row_at(rows, source.start + done);
        let more = (row.depth as usize).saturating_sub(old);
        if new + more > MAX_DEPTH {
            return true;
        }
    }
    false
}

/// Whether the copy of a page below has too long a URL, where the page gets a URL.
fn gets_too_long(rows: &Rows, source: &Source, url: &Url) -> bool
    requires { source.now.start + source.now.rest ≤ length rows.now.pages }
    ensures { result
        ≡ list_any (is_long source.now url.now) (rows_below_it rows.now.pages source.now) }
{
    let _len = rows.len();
    let new = url.len();
    for done in 0..source.rest {
        let more = url_at(rows, source.start + done)
            .len()
            .saturating_sub(source.url_length);
        if new.saturating_add(more) > MAX_URL_BYTES {
            return true;
        }
    }
    false
}

/// The row of the page at a place, where there is one.
pub(crate) fn row_at(rows: &Rows, place: usize) -> &PageRow
    requires { place < length rows.now.pages }
    ensures { Some result.now ≡ option_map page_row (slice_get rows.now.pages place) }
{
    let _len = rows.len();
    let Some(page) = rows.at(place) else {
        unreachable!();
    };
    let Some(row) = rows.row(page) else {
        unreachable!();
    };
    row
}

/// The URL of the page at a place, where there is one.
pub(crate) fn url_at(rows: &Rows, place: usize) -> &Url
    requires { place < length rows.now.pages }
    ensures { Some result.now ≡ option_map (λ row. row.url) (slice_get rows.now.pages place) }
{
    let _len = rows.len();
    let Some(page) = rows.at(place) else {
        unreachable!();
    };
    let Some(url) = rows.url(page) else {
        unreachable!();
    };
    url
}
