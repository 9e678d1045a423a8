//! The page with a URL, by the slugs from the root down.
ghost use Rattle.std.specs.Prelude.{◌≡◌, []};
ghost use Rattle.page_tree.specs.Tree.{Forest};
ghost use Rattle.page_tree.specs.Rows.{rows_of, kid_named};
ghost use Rattle.site_types.specs.declared.body.Body.{Body as PageBody};
ghost use Rattle.slug_urls.specs.Urls.{HaveSlugs, page_at};
ghost use Rattle.slug_urls.specs.Descent.{page_below};

use page_store::Rows;
use site_types::{PageId, Slug};

/// The page with this URL, or `None` exactly where there is none.
///
/// It goes down from the root, with one `Rows::by_slug` for each slug of the URL, and searches nothing.
pub fn walk(rows: &Rows, url: &[u8]) -> Option<PageId>
    ensures { (tree : Forest PageBody) → rows.now.pages ≡ rows_of tree → HaveSlugs rows.now.pages →
        result ≡ page_at url.now rows.now.pages }
{
    let _len = rows.len();
    if url.is_empty() {
        return None;
    }
    if url[0] != b'/' {
        return None;
    }
    go_down(rows, &url[1..])
}

/// The page that these slugs lead to from the root, each with a `/` after it.
fn go_down(rows: &Rows, slugs: &[u8]) -> Option<PageId>
    ensures { HaveSlugs rows.now.pages → result ≡ page_below rows.now.pages 1 [] slugs.now }
{
    let mut page = PageId::root();
    let mut start = 0;
    for i in 0..slugs.len() {
        if slugs[i] == b'/' {
            page = kid_at(rows, page, &slugs[start..i])?;
            start = i + 1;
        }
    }
    if start == slugs.len() {
        Some(page)
    } else {
        None
    }
}

/// The kid of a page with the slug, where these bytes are one.
fn kid_at(rows: &Rows, page: PageId, slug: &[u8]) -> Option<PageId>
    ensures { HaveSlugs rows.now.pages → result ≡ kid_named page slug.now rows.now.pages }
{
    let Some(slug) = Slug::read(slug) else {
        return None;
    };
    rows.by_slug(page, &slug)
}
